//! `ecat learn`: the line that a capture shows, as a scene.

use crate::failure::{Failure, refuse, report};
use ecat_setup::LineFailure;
use ecat_text::{FAILED, GOOD, REFUSED};
use ecat_told::{Asked, Learned};
use std::io::Write;

/// What the words of `learn` say but for its file.
pub fn asked_of(at: Option<u32>, asked: bool, values: bool) -> Asked {
    Asked {
        at: at.map(u64::from),
        asked,
        values,
    }
}

/// Tells how learning ended, and answers the exit status: that of a refusal where the scene has a hole, or
/// the capture shows no line or is damaged. Whoever reads the output may close it.
pub fn end_of_learning<W: Write, V: Write>(learned: Learned, out: &mut W, err: &mut V) -> u8 {
    match learned {
        Learned::Whole | Learned::Closed => GOOD,
        Learned::Holes => REFUSED,
        Learned::Damaged(fault) => {
            let _ = writeln!(err, "capture: {fault}");
            REFUSED
        }
        Learned::NoFrames => refuse("learn: NoFrames\n", out, err),
        Learned::TooManySlaves => refuse("learn: TooManySlaves\n", out, err),
        Learned::SourceFailed => report(&Failure::Line(LineFailure::Read), out, err),
        Learned::OutputFailed => report(&Failure::Line(LineFailure::Output), out, err),
        Learned::NoMemory => {
            let _ = err.write_all(b"capture: NoMemory\n");
            FAILED
        }
    }
}
