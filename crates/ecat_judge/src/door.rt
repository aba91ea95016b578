//! The judging of a capture.

use crate::page::Page;
use crate::trial::Trial;
use ec_map::{Item, Mapped};
use ecat_capture::CaptureFault;
use ecat_frames::{End, Frames};
use ecat_source::Source;
use std::alloc::{AllocError, Global};
use std::io::{self, ErrorKind, Write};

/// How many bytes are gathered before they are written.
const PIECE: usize = 65_536;

/// What is asked of a capture.
#[derive(Clone, Copy, Debug, PartialEq, Eq)]
pub struct Asked {
    /// Runs and losses are rows of columns; the sums are left out.
    pub csv: bool,
    /// All is told as objects of JSON, one a line. It is not asked for beside columns.
    pub json: bool,
    /// How many lines of runs and losses are told. Further ones are counted.
    pub limit: u64,
    /// Whether the date and the time of day, in UTC, stand beside each time.
    pub dates: bool,
}

/// How the judging of a capture ended.
#[derive(Clone, Copy, Debug, PartialEq, Eq)]
pub enum Judged {
    /// All items came back, with the counters that the line gives.
    Good,
    /// Not all did.
    NotGood,
    /// What stands in front of the place where the capture is damaged was judged.
    Damaged(CaptureFault),
    /// The capture has no frame.
    NoFrames,
    /// No item of the scene went by with a counter that moved.
    NoItems,
    /// A read of the source failed.
    SourceFailed,
    /// Who read the output has closed it.
    Closed,
    /// A write to the output failed.
    OutputFailed,
    /// Memory ran out.
    NoMemory,
}

/// Why judging stops in front of its end.
#[derive(Clone, Copy)]
enum Stop {
    Closed,
    OutputFailed,
    NoMemory,
}

impl From<AllocError> for Stop {
    fn from(_failed: AllocError) -> Stop {
        Stop::NoMemory
    }
}

/// Writes what is gathered.
fn flush<W: Write>(page: &mut Page, out: &mut W) -> Result<(), Stop> {
    if page.text.is_empty() {
        return Ok(());
    }
    let written = write_all(out, page.text.as_str().as_bytes());
    page.text.clear();
    written
}

/// Writes and flushes all of a text.
fn write_all<W: Write>(out: &mut W, text: &[u8]) -> Result<(), Stop> {
    match out.write_all(text) {
        Ok(()) => {}
        Err(error) => return Err(failed(&error)),
    }
    match out.flush() {
        Ok(()) => Ok(()),
        Err(error) => Err(failed(&error)),
    }
}

/// Why a write failed.
fn failed(error: &io::Error) -> Stop {
    if error.kind() == ErrorKind::BrokenPipe {
        Stop::Closed
    } else {
        Stop::OutputFailed
    }
}

/// Takes all frames of a capture; how many were there?
fn take_all<S: Source + Drop, W: Write>(
    frames: &mut Frames<S>,
    trial: &mut Trial,
    out: &mut W,
) -> Result<u64, Stop> {
    for taken in 0..u64::MAX {
        let Some(packet) = frames.next() else {
            return Ok(taken);
        };
        trial.take(frames.marks(), &packet, frames.frame())?;
        if PIECE <= trial.page.text.len() {
            flush(&mut trial.page, out)?;
        }
    }
    Ok(u64::MAX)
}

/// What is written of a capture, with the head of its columns.
fn page_of(alloc: Global, asked: &Asked) -> Result<Page, AllocError> {
    let mut page = Page::new(alloc, asked);
    page.put_head()?;
    Ok(page)
}

/// Judges a capture by a trial that begins.
fn judge_frames<S: Source + Drop, W: Write>(
    frames: &mut Frames<S>,
    trial: Result<Trial, AllocError>,
    out: &mut W,
) -> Result<Judged, Stop> {
    let mut trial = trial?;
    let taken = take_all(frames, &mut trial, out)?;
    let fault = match frames.end() {
        End::Whole => None,
        End::Damaged(fault) => Some(fault),
        End::SourceFailed => return Ok(Judged::SourceFailed),
        End::NoMemory => return Ok(Judged::NoMemory),
    };
    if 0 < taken {
        trial.end()?;
    }
    flush(&mut trial.page, out)?;
    Ok(match fault {
        Some(fault) => Judged::Damaged(fault),
        None => verdict(taken, &trial),
    })
}

/// The verdict of a capture that was read to its end.
fn verdict(taken: u64, trial: &Trial) -> Judged {
    if taken == 0 {
        Judged::NoFrames
    } else if trial.is_empty() {
        Judged::NoItems
    } else if trial.is_good() {
        Judged::Good
    } else {
        Judged::NotGood
    }
}

/// A line by which a capture is judged.
#[derive(Drop)]
pub struct Known<'a, M> {
    /// The slaves, from the one at port A on.
    pub slaves: &'a [M],
    /// Their names, by their places: an empty one, or none, of a slave that has no name.
    pub names: Vec<String>,
    /// What the master asks in each cycle.
    pub items: &'a [Item],
}

/// Judges the frames of a capture by the line and the items of a scene. The lines go to `out`.
pub fn judge<S: Source + Drop, M: Mapped, W: Write>(
    alloc: Global,
    frames: &mut Frames<S>,
    line: Known<'_, M>,
    asked: &Asked,
    out: &mut W,
) -> Judged {
    let two = frames.marks().two;
    let Known {
        slaves,
        names,
        items,
    } = line;
    let trial = match page_of(alloc, asked) {
        Ok(page) => Trial::new(alloc, slaves, items, two, page.naming(names)),
        Err(failed) => Err(failed),
    };
    judged_of(judge_frames(frames, trial, out))
}

/// Judges the frames of a capture by the counters that its items, each with one, came back with most often,
/// where no line is known. The lines go to `out`.
pub fn judge_usual<S: Source + Drop, W: Write>(
    alloc: Global,
    frames: &mut Frames<S>,
    items: &[Item],
    counters: &[u16],
    asked: &Asked,
    out: &mut W,
) -> Judged {
    let trial = match page_of(alloc, asked) {
        Ok(page) => Trial::usual(alloc, items, counters, page),
        Err(failed) => Err(failed),
    };
    judged_of(judge_frames(frames, trial, out))
}

/// How judging ended that may have been stopped.
fn judged_of(judged: Result<Judged, Stop>) -> Judged {
    match judged {
        Ok(judged) => judged,
        Err(Stop::Closed) => Judged::Closed,
        Err(Stop::OutputFailed) => Judged::OutputFailed,
        Err(Stop::NoMemory) => Judged::NoMemory,
    }
}
