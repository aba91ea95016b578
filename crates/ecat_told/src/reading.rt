//! The reading of a capture, and what is told of it.

ghost use Rattle.std.specs.Prelude.{◌<◌, ◌≤◌, length};

use crate::known::KnownFault;
use crate::learner::Learner;
use crate::page::write_page;
use crate::usual::Usual;
use ecat_capture::CaptureFault;
use ecat_frames::{End, Frames, Looked, look};
use ecat_source::Source;
use std::alloc::Global;
use std::io::{self, ErrorKind, Write};

/// What is asked of a capture.
#[derive(Clone, Copy, Debug, PartialEq, Eq)]
pub struct Asked {
    /// The line is told as it is in front of this packet, the first one being 1; else as the last logical
    /// datagram that moved found it.
    pub at: Option<u64>,
    /// What was sent counts as taken where nothing came back.
    pub asked: bool,
    /// The last data of the items are written; else zeros.
    pub values: bool,
}

/// How the learning of a capture ended.
#[derive(Clone, Copy, Debug, PartialEq, Eq)]
pub enum Learned {
    /// The scene was written, and has no hole.
    Whole,
    /// It was written, and has a hole: not all is told.
    Holes,
    /// It was written of what stands in front of the place where the capture is damaged.
    Damaged(CaptureFault),
    /// The capture has no frame.
    NoFrames,
    /// It shows more than 256 slaves.
    TooManySlaves,
    /// A read of the source failed.
    SourceFailed,
    /// Who read the output has closed it.
    Closed,
    /// A write to the output failed.
    OutputFailed,
    /// Memory ran out.
    NoMemory,
}

/// Takes all frames that a capture has ahead.
fn take_all<S: Source + Drop>(
    frames: &mut Frames<S>,
    learner: &mut Learner,
) -> Result<(), KnownFault> {
    for _ in 0..u64::MAX {
        match frames.next() {
            Some(packet) => learner.take(frames.marks(), &packet, frames.frame())?,
            None => return Ok(()),
        }
    }
    Ok(())
}

/// How learning ended that was stopped.
fn stopped(fault: KnownFault) -> Learned {
    match fault {
        KnownFault::TooManySlaves => Learned::TooManySlaves,
        KnownFault::NoMemory => Learned::NoMemory,
    }
}

/// Learns of a file, which is read twice: `first` and `again` have the same bytes ahead. The scene goes to
/// `out`, and to `err` first what else is to be known of the packets.
pub fn learn<S: Source + Drop, T: Source + Drop, W: Write, V: Write>(
    alloc: Global,
    first: S,
    again: T,
    asked: &Asked,
    out: &mut W,
    err: &mut V,
) -> Learned {
    let mut looked = Looked::new();
    match look(alloc, first, &mut looked) {
        End::SourceFailed => return Learned::SourceFailed,
        End::NoMemory => return Learned::NoMemory,
        End::Whole | End::Damaged(_) => {}
    }
    let mut frames = Frames::of_file(alloc, again, looked, asked.at);
    learn_frames(alloc, &mut frames, asked, out, err)
}

/// Learns of a stream, of which the first 4,096 frames are held, and decide which addresses bear the mark.
/// The scene goes to `out`, and to `err` at the end what else is to be known of the packets.
pub fn learn_stream<S: Source + Drop, W: Write, V: Write>(
    alloc: Global,
    source: S,
    asked: &Asked,
    out: &mut W,
    err: &mut V,
) -> Learned {
    match Frames::of_stream(alloc, source, asked.at) {
        Ok(mut frames) => learn_frames(alloc, &mut frames, asked, out, err),
        Err(_) => Learned::NoMemory,
    }
}

/// Learns of the frames that a capture has ahead. The scene goes to `out`, and to `err` what else is to be
/// known of the packets.
fn learn_frames<S: Source + Drop, W: Write, V: Write>(
    alloc: Global,
    frames: &mut Frames<S>,
    asked: &Asked,
    out: &mut W,
    err: &mut V,
) -> Learned {
    frames.tell_notes(false, err);
    let mut usual = Usual::new(alloc);
    let learned = learn_by(alloc, frames, asked, &mut usual, out);
    frames.tell_notes(true, err);
    learned
}

/// Learns of the frames that a capture has ahead. The scene goes to `out`; where they tell no line, since no
/// start-up is among them, the items and the counters that came most often go to `usual`.
pub fn learn_by<S: Source + Drop, W: Write>(
    alloc: Global,
    frames: &mut Frames<S>,
    asked: &Asked,
    usual: &mut Usual,
    out: &mut W,
) -> Learned {
    match learn_all(alloc, frames, asked, usual, out) {
        Ok(learned) => learned,
        Err(fault) => stopped(fault),
    }
}

/// Takes all frames, writes what was learned of them, and tells how it ended.
fn learn_all<S: Source + Drop, W: Write>(
    alloc: Global,
    frames: &mut Frames<S>,
    asked: &Asked,
    usual: &mut Usual,
    out: &mut W,
) -> Result<Learned, KnownFault> {
    let mut learner = Learner::new(alloc, asked.asked, asked.values)?;
    take_all(frames, &mut learner)?;
    let damage = match frames.end() {
        End::SourceFailed => return Ok(Learned::SourceFailed),
        End::NoMemory => return Ok(Learned::NoMemory),
        End::Whole => None,
        End::Damaged(fault) => Some(Learned::Damaged(fault)),
    };
    learner.end()?;
    if learner.first.is_none() {
        return Ok(damage.unwrap_or(Learned::NoFrames));
    }
    let written = write_page(alloc, &learner, asked.at.is_some(), asked.values)?;
    if written.has_hole && learner.started == 0 {
        usual.take_all(&learner)?;
    }
    match write_all(out, written.text.as_str().as_bytes()) {
        Ok(()) if written.has_hole => Ok(damage.unwrap_or(Learned::Holes)),
        Ok(()) => Ok(damage.unwrap_or(Learned::Whole)),
        Err(learned) => Ok(learned),
    }
}

/// Writes and flushes all of a text.
fn write_all<W: Write>(out: &mut W, text: &[u8]) -> Result<(), Learned> {
    match out.write_all(text) {
        Ok(()) => {}
        Err(error) => return Err(failed(&error)),
    }
    match out.flush() {
        Ok(()) => Ok(()),
        Err(error) => Err(failed(&error)),
    }
}

/// Why a write failed.
fn failed(error: &io::Error) -> Learned {
    if error.kind() == ErrorKind::BrokenPipe {
        Learned::Closed
    } else {
        Learned::OutputFailed
    }
}
