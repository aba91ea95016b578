//! Want of memory. Where memory lasts, these lines give what they say. Where an allocation is
//! refused they give `NoMemory`, and never another answer: run this test with one allocation
//! after another refused.
use super::{Refusal, read};
use clap::error::ErrorKind;
use ecat_args::{Args, SceneCommand};
use std::alloc::Global;
use std::process::Abort;

/// Asserts that the words are refused for this, or that memory ran out.
fn assert_refused(rt: &impl Abort, alloc: Global, words: &[&str], wanted: Refusal) {
    let refusal = read(alloc, words).err();
    let is_so = refusal == Some(wanted) || refusal == Some(Refusal::NoMemory);
    assert!(rt; is_so, "{wanted:?}: {refusal:?}");
}

#[test]
fn a_line_gives_its_answer_or_memory_ran_out(rt: HostRuntime) {
    match read(rt.alloc(), &["ecat", "check", "a.scene"]) {
        Ok(
            Args::Scene {
                path,
                command: SceneCommand::Check { json: false },
            },
        ) => assert!(rt; path == "a.scene"),
        Err(Refusal::NoMemory) => {}
        _ => panic!(rt; "another answer"),
    }
    let rows: [(&[&str], Refusal); 3] = [
        (
            &["ecat", "udp", "a.scene", "--port", "1"],
            Refusal::BadNumber,
        ),
        (
            &["ecat", "probe"],
            Refusal::Line(ErrorKind::InvalidSubcommand),
        ),
        (&["ecat", "--help"], Refusal::Line(ErrorKind::DisplayHelp)),
    ];
    for (words, wanted) in rows {
        assert_refused(&rt, rt.alloc(), words, wanted);
    }
}
