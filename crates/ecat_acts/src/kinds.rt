//! What a file is that a command refused: packed, of another kind, or a folder.

use ecat_args::CaptureCommand;
use ecat_source::{Counted, Source};
use ecat_text::GOOD;
use std::fs;
use std::io::Write;
use std::rt::Files;

/// How many bytes tell files apart.
const FRONT: usize = 4;

/// What a command wants of a file.
#[derive(Clone, Copy, PartialEq, Eq, Debug)]
pub enum FileWanted {
    /// A capture.
    Capture,
    /// A scene.
    Scene,
}

/// Tells `err` what the files of a command over a capture are, where it was refused and one is not what was
/// wanted of it.
#[inline(never)]
pub fn hint_files<R: Files, V: Write>(
    rt: &R,
    command: &CaptureCommand<'_>,
    status: u8,
    err: &mut V,
) {
    match command {
        CaptureCommand::Show { .. } => {}
        CaptureCommand::List { file, .. } | CaptureCommand::Learn { file, .. } => {
            hint_file(rt, file, FileWanted::Capture, status, err);
        }
        CaptureCommand::Judge { file, scene, .. } => {
            hint_file(rt, file, FileWanted::Capture, status, err);
            if let Some(path) = scene {
                hint_file(rt, path, FileWanted::Scene, status, err);
            }
        }
        CaptureCommand::Replay { file, scene, .. } => {
            hint_file(rt, file, FileWanted::Capture, status, err);
            hint_file(rt, scene, FileWanted::Scene, status, err);
        }
    }
}

/// Tells `err` what the file at a path is, where the command was refused and it is not what was wanted. What
/// is no plain file, as a pipe, cannot be read once more, and is passed over. It is not put in line: what it
/// has on the stack would else lie there while the command runs.
#[inline(never)]
pub fn hint_file<R: Files, V: Write>(
    rt: &R,
    path: &str,
    wanted: FileWanted,
    status: u8,
    err: &mut V,
) {
    if status == GOOD || path == "-" {
        return;
    }
    let Ok(known) = fs::metadata(rt, path) else {
        return;
    };
    if known.is_dir() {
        let _ = writeln!(err, "{path}: a folder");
    } else if known.is_file()
        && let Ok(file) = fs::open(rt, path)
    {
        hint_kind(path, &mut Counted::new(file), wanted, err);
    }
}

/// Tells `err` what a file is, if it is not what was wanted.
fn hint_kind<S: Source, V: Write>(path: &str, file: &mut S, wanted: FileWanted, err: &mut V) {
    let mut front = [0; FRONT];
    if let Ok(count) = file.read(&mut front)
        && let Some(what) = kind_of(&front[..count], wanted)
    {
        let _ = writeln!(err, "{path}: {what}");
    }
}

/// What a file is that begins so, if it is not what was wanted.
fn kind_of(front: &[u8], wanted: FileWanted) -> Option<&'static str> {
    match front {
        [] => Some("an empty file"),
        [0x1f, 0x8b, ..] => Some("a file that gzip packed: gunzip it first"),
        [0x28, 0xb5, 0x2f, 0xfd] => Some("a file that zstd packed: unzstd it first"),
        [0xd4, 0xc3, 0xb2, 0xa1]
        | [0xa1, 0xb2, 0xc3, 0xd4]
        | [0x4d, 0x3c, 0xb2, 0xa1]
        | [0xa1, 0xb2, 0x3c, 0x4d]
        | [0x0a, 0x0d, 0x0d, 0x0a] => match wanted {
            FileWanted::Capture => None,
            FileWanted::Scene => Some("a capture; a scene is wanted"),
        },
        text if is_text(text) => match wanted {
            FileWanted::Capture => Some("a text; a capture is wanted"),
            FileWanted::Scene => None,
        },
        _ => None,
    }
}

/// Are these bytes those of an ASCII text?
fn is_text(bytes: &[u8]) -> bool {
    bytes.iter().all(|byte| matches!(*byte, b'\n' | b'\t' | b'\r' | b' '..=b'~'))
}
