#![tactic(auto)]
//! Rows of a file, done and compared: `ec_rows FILE..`.
//!
//! A row is what a test is: lines that build up a state and ask, and behind `->` the answer that is wanted.
//! The answers are those of the libraries' public calls; what is wanted stands in the file alone.
//!
//! ```text
//! each
//! controller 0x1001
//! load 0x1100 12 34
//! sm 3 0x1100 16 0x00 0 1 0
//! row counter_65535_becomes_0
//! fmmu 0 0x10000 1 0 7 0x1100 0 1 1
//! pass 0D 10 0A 00 00 00 01 00 01 00 00 00 00 FF FF
//!   -> 0D 10 0A 00 00 00 01 00 01 00 00 00 12 00 00
//! ```
//!
//! A line is a verb and its words; one that begins with `->` or `..` goes on with the line above, and `#`
//! begins a comment. A row begins with a new state, on which the lines behind the last `each` are done first;
//! `anew` begins so once more. Each answer that is another than wanted is printed with both, and each line
//! that is refused with its fault; the status is 1 then, and 3 where a file can't be read. The verbs stand in
//! `bench`, `frames` (`ec_wire`, `ec_merge`), `records` (`ec_regs`), `areas` (`ec_areas`), `controller`
//! (`ec_esc`), `eeprom` (`ec_sii`), `objects` and `slave` (`ec_app`), `ring` (`ec_ring`), `stands` and
//! `items` (`ec_check`, `ec_map`), `cycles` (`ec_master`), `services` (`ec_services`), and `ways`, the ports
//! of both.

mod answer;
mod areas;
mod bench;
mod controller;
mod cycles;
mod eeprom;
mod frames;
mod items;
mod master;
mod objects;
mod reader;
mod records;
mod ring;
mod services;
mod slave;
mod stands;
mod ways;
mod words;

use reader::{Counts, Reader};
use std::process::ExitCode;
use std::rt::{Env, Files};
use std::{env, fs, io};

fn main(rt: HostRuntime) -> ExitCode {
    match start(&rt, &mut rt.stdout()) {
        Ok(0) => ExitCode::from(0),
        Ok(_) => ExitCode::from(1),
        Err(_) => ExitCode::from(3),
    }
}

/// Does the rows of each file that is named, and says how many lines were not as they should be.
fn start<R, W>(rt: &R, out: &mut W) -> io::Result<u64>
where
    R: Env + Files + AllocGlobal,
    W: io::Write,
{
    let mut sum = Counts::default();
    let mut paths = env::args(rt)?;
    let _program = paths.next();
    for path in paths {
        let counts = read_file(rt, path.as_str(), out)?;
        sum.rows = sum.rows.saturating_add(counts.rows);
        sum.answers = sum.answers.saturating_add(counts.answers);
        sum.failed = sum.failed.saturating_add(counts.failed);
    }
    writeln!(
        out,
        "rows {} answers {} failed {}",
        sum.rows, sum.answers, sum.failed
    )?;
    Ok(sum.failed)
}

/// Does the rows of a file.
fn read_file<R, W>(rt: &R, path: &str, out: &mut W) -> io::Result<Counts>
where
    R: Files + AllocGlobal,
    W: io::Write,
{
    let text = fs::read_to_string(rt, path)?;
    match Reader::new(rt.alloc(), path) {
        Some(reader) => {
            let mut reader = reader;
            reader.read(text.as_str(), out)
        }
        None => Err(io::Error::from(io::ErrorKind::OutOfMemory)),
    }
}
