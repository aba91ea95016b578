//! `ecat list --stats`: the trips of a capture, summed up, or each of their packets.

ghost use Rattle.std.specs.Prelude.{◌≤◌};

use crate::as_json::{json_group, json_left_out, json_packets, json_ways};
use crate::date::put_date;
use crate::group_lines::{Clock, put_group};
use crate::listing::{Listed, listed_of};
use crate::output::{Output, Stop};
use crate::stats::Stats;
use crate::text::put_decimal;
use crate::trip_rows::TripRows;
use crate::walk::{Steps, Walk};
use ec_wire::FrameBuf;
use ecat_frames::{End, Frames, Looked, look};
use ecat_source::Source;
use ecat_trips::{Outline, Step};
use std::alloc::{AllocError, Global};
use std::io::Write;

/// How the trips of a capture are told.
#[derive(Clone, Copy, Debug, PartialEq, Eq)]
pub struct OfTrips {
    /// Has each packet its rows of CSV, with the trip that it is of? Else the datagrams of all trips are
    /// summed up.
    pub each: bool,
    /// Are datagrams told apart by their indexes too, where they are summed up?
    pub by_index: bool,
    /// Are the sums objects of JSON, one a line? They are not asked for beside rows.
    pub json: bool,
    /// Is it told now and then, on the second writer, how many packets were read?
    pub progress: bool,
}

/// Tells the trips of a capture that is read twice: `first` and `again` have the same bytes ahead. The texts
/// go to `out`; to `err` goes where progress is asked for how many packets were read again, and at the end
/// what else is to be known: how many packets were cut, how many are older than the one before, and that one
/// way alone was captured. A write to `err` that fails is passed over.
pub fn tally<S: Source + Drop, T: Source + Drop, W: Write, V: Write>(
    alloc: Global,
    first: S,
    again: T,
    asked: OfTrips,
    out: &mut W,
    err: &mut V,
) -> Listed {
    let mut looked = Looked::new();
    let end = look(alloc, first, &mut looked);
    if end == End::NoMemory {
        return Listed::NoMemory;
    }
    let mut frames = Frames::of_file(alloc, again, looked, None);
    match tally_frames(alloc, &mut frames, asked, out, err) {
        Listed::Whole if end == End::SourceFailed => Listed::SourceFailed,
        listed => listed,
    }
}

/// Tells the trips of a stream, of which the first 4,096 frames are held, and tell with which addresses
/// frames are sent and return. Sums go to `out` at its end.
pub fn tally_stream<S: Source + Drop, W: Write, V: Write>(
    alloc: Global,
    source: S,
    asked: OfTrips,
    out: &mut W,
    err: &mut V,
) -> Listed {
    match Frames::of_stream(alloc, source, None) {
        Ok(mut frames) => tally_frames(alloc, &mut frames, asked, out, err),
        Err(_) => Listed::NoMemory,
    }
}

/// Tells the trips of frames.
fn tally_frames<S: Source + Drop, W: Write, V: Write>(
    alloc: Global,
    frames: &mut Frames<S>,
    asked: OfTrips,
    out: &mut W,
    err: &mut V,
) -> Listed {
    let Ok(mut walk) = Walk::new(alloc) else {
        return Listed::NoMemory;
    };
    let told = if asked.each {
        write_rows(alloc, frames, &mut walk, asked, out, err)
    } else {
        sum_up(alloc, frames, &mut walk, asked, out, err)
    };
    if matches!(told, Listed::Whole | Listed::Damaged(_)) {
        walk.tell(frames, err);
    }
    told
}

/// Writes the rows of each packet.
fn write_rows<S: Source + Drop, W: Write, V: Write>(
    alloc: Global,
    frames: &mut Frames<S>,
    walk: &mut Walk,
    asked: OfTrips,
    out: &mut W,
    err: &mut V,
) -> Listed {
    let mut rows = match TripRows::new(Output::new(alloc, out, false)) {
        Ok(rows) => rows,
        Err(stop) => return listed_of(stop),
    };
    let read = match walk.go(frames, &mut rows, asked.progress, err) {
        Ok(()) => listed_by_end(frames.end()),
        Err(stop) => return listed_of(stop),
    };
    ended(read, rows.finish())
}

/// Sums up the trips.
fn sum_up<S: Source + Drop, W: Write, V: Write>(
    alloc: Global,
    frames: &mut Frames<S>,
    walk: &mut Walk,
    asked: OfTrips,
    out: &mut W,
    err: &mut V,
) -> Listed {
    let mut sums = Sums {
        by_index: asked.by_index,
        json: asked.json,
        stats: Stats::new(alloc),
    };
    let read = match walk.go(frames, &mut sums, asked.progress, err) {
        Ok(()) => listed_by_end(frames.end()),
        Err(stop) => listed_of(stop),
    };
    let mut output = Output::new(alloc, out, false);
    let put = if sums.json {
        sums.put_objects(alloc, frames, walk, &mut output)
    } else {
        sums.put(frames, walk, &mut output)
    };
    ended(read, put)
}

/// How a listing ended whose reading ended so, and then its writing so.
fn ended(read: Listed, written: Result<(), Stop>) -> Listed {
    match written {
        Ok(()) => read,
        Err(stop) => match read {
            Listed::Closed | Listed::OutputFailed | Listed::NoMemory => read,
            Listed::Whole | Listed::Damaged(_) | Listed::SourceFailed => listed_of(stop),
        },
    }
}

/// How a listing ended by the end of its capture.
fn listed_by_end(end: End) -> Listed {
    match end {
        End::Whole => Listed::Whole,
        End::Damaged(fault) => Listed::Damaged(fault),
        End::SourceFailed => Listed::SourceFailed,
        End::NoMemory => Listed::NoMemory,
    }
}

/// Sums under way.
#[derive(Drop)]
struct Sums {
    by_index: bool,
    json: bool,
    stats: Stats,
}

impl Steps for Sums {
    fn take(&mut self, packet: &Outline, frame: &FrameBuf, step: &Step) -> Result<(), Stop> {
        self.stats.take_step(self.by_index, packet, frame, step)?;
        Ok(())
    }
}

impl Sums {
    /// Puts all sums, and writes them.
    fn put<S: Source + Drop, W: Write>(
        &self,
        frames: &Frames<S>,
        walk: &Walk,
        output: &mut Output<'_, W>,
    ) -> Result<(), Stop> {
        let clock = Clock {
            first: frames.first_time(),
            fine: frames.is_fine(),
        };
        put_packets(&mut output.text, clock, frames.packets())?;
        walk.ways.put(&mut output.text)?;
        for place in 0..self.stats.count() {
            if let Some((key, group)) = self.stats.group(place) {
                put_group(&mut output.text, clock, self.by_index, key, group)?;
                output.settle()?;
            }
        }
        put_left_out(&mut output.text, self.stats.left_out())?;
        output.flush()
    }

    /// Puts all sums as objects of JSON, and writes them.
    fn put_objects<S: Source + Drop, W: Write>(
        &self,
        alloc: Global,
        frames: &Frames<S>,
        walk: &Walk,
        output: &mut Output<'_, W>,
    ) -> Result<(), Stop> {
        let clock = Clock {
            first: frames.first_time(),
            fine: frames.is_fine(),
        };
        json_packets(alloc, &mut output.text, clock, frames.packets())?;
        json_ways(alloc, &mut output.text, &walk.ways)?;
        for place in 0..self.stats.count() {
            if let Some((key, group)) = self.stats.group(place) {
                json_group(alloc, &mut output.text, clock, self.by_index, key, group)?;
                output.settle()?;
            }
        }
        json_left_out(alloc, &mut output.text, self.stats.left_out())?;
        output.flush()
    }
}

/// Puts how many packets the capture has, and when the first one was captured.
fn put_packets(text: &mut Vec<u8>, clock: Clock, packets: u64) -> Result<(), AllocError> {
    text.extend_from_slice(b"packets ")?;
    put_decimal(text, packets)?;
    if let Some(first) = clock.first {
        text.extend_from_slice(b", first at ")?;
        put_date(text, first, clock.fine)?;
    }
    text.extend_from_slice(b"\n")
}

/// Puts how many datagrams were left out, if any.
fn put_left_out(text: &mut Vec<u8>, left_out: u64) -> Result<(), AllocError> {
    if left_out == 0 {
        return Ok(());
    }
    put_decimal(text, left_out)?;
    text.extend_from_slice(b" datagrams of further groups left out\n")
}
