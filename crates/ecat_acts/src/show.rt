//! `ecat show`: the frames of a capture.

use crate::failure::{Failure, status_of};
use ecat_list::Shown;
use ecat_setup::LineFailure;
use ecat_source::Source;
use ecat_text::{GOOD, REFUSED};
use std::alloc::Global;
use std::io::Write;

/// Shows each packet of the capture that the source holds, and answers the exit status. Where somebody
/// follows, the lines of each packet go out at once, else in pieces of 64 KiB.
pub fn act_show<S, W, V>(
    alloc: Global,
    is_followed: bool,
    source: &mut S,
    out: &mut W,
    err: &mut V,
) -> u8
where
    S: Source,
    W: Write,
    V: Write,
{
    status_of(show(alloc, is_followed, source, out), out, err)
}

/// Shows each packet of the capture that the source holds.
fn show<S: Source, W: Write>(
    alloc: Global,
    is_followed: bool,
    source: &mut S,
    out: &mut W,
) -> Result<u8, Failure> {
    match ecat_list::show(alloc, source, is_followed, out) {
        Shown::Whole { faulty: false } => Ok(GOOD),
        Shown::Whole { faulty: true } => Ok(REFUSED),
        Shown::Stopped(fault) => Err(Failure::Capture(fault)),
        Shown::OutputFailed => Err(Failure::Line(LineFailure::Output)),
    }
}
