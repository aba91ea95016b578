//! `ecat list`: the datagrams of a capture, a line each, or its trips.

ghost use Rattle.std.specs.Prelude.{◌≡◌, ◌&&◌, IfOk, false};
ghost use Rattle.ecat_acts.specs.Listings.{are_trips, tells_each, tells_progress};

use crate::console::Console;
use crate::failure::{Failure, report};
use ecat_capture::CaptureFaultKind;
use ecat_list::{Asked, Form, Listed, OfTrips, list, tally, tally_stream};
use ecat_setup::LineFailure;
use ecat_source::Source;
use ecat_text::{FAILED, GOOD, REFUSED};
use std::alloc::Global;
use std::io::Write;

/// What helps where a capture is neither of Ethernet nor of Linux's `any`, as one of Wi-Fi or of USB.
const NOT_ETHERNET: &[u8] =
    b"not of Ethernet: capture at the bus, as tcpdump -i eth0 -w FILE, or at all interfaces, as -i any\n";

/// What the words of `list` say but for its file.
#[derive(Clone, Copy)]
pub enum Wanted {
    /// The packets, in this form.
    Packets(Asked),
    /// The trips: their sums, or each of their packets.
    Trips(OfTrips),
}

impl Wanted {
    /// What is listed, unless faults are asked for with another form, the index without sums, or objects of
    /// JSON with another form or without sums. Where somebody watches, he is told how far it is.
    pub fn of(
        csv: bool,
        faults: bool,
        stats: bool,
        by_index: bool,
        json: bool,
        console: &Console,
    ) -> Result<Wanted, Failure>
        ensures progress { IfOk result (λ wanted. tells_progress wanted ≡ console.now.is_watched) }
        ensures trips { IfOk result (λ wanted. are_trips wanted ≡ stats) }
        ensures each { IfOk result (λ wanted. tells_each wanted ≡ csv && stats) }
    {
        let is_watched = console.is_watched;
        if json && (csv || faults) {
            return Err(Failure::TwoForms);
        }
        if json && !stats {
            return Err(Failure::JsonAlone);
        }
        let form = match (csv, faults, stats) {
            (false, false, false) => Form::Lines,
            (true, false, false) => Form::Csv,
            (false, true, false) => Form::Faults,
            (true, false, true) if by_index => return Err(Failure::IndexAlone),
            (each, false, true) => {
                return Ok(Wanted::Trips(OfTrips {
                    each,
                    by_index,
                    json,
                    progress: is_watched,
                }));
            }
            _ => return Err(Failure::Forms),
        };
        if by_index {
            return Err(Failure::IndexAlone);
        }
        Ok(Wanted::Packets(Asked {
            form,
            live: false,
            progress: is_watched,
        }))
    }

    /// What is listed while the capture is still written: each packet at once, or its trips in pieces and
    /// their sums at its end.
    pub fn live(self) -> Wanted
        ensures progress { tells_progress result ≡ false }
        ensures trips { are_trips result ≡ are_trips self }
        ensures each { tells_each result ≡ tells_each self }
    {
        match self {
            Wanted::Packets(asked) => Wanted::Packets(Asked {
                live: true,
                progress: false,
                ..asked
            }),
            Wanted::Trips(asked) => Wanted::Trips(OfTrips {
                progress: false,
                ..asked
            }),
        }
    }

    /// Is a file read twice for it?
    pub fn reads_twice(self) -> bool
        ensures { result ≡ are_trips self }
    {
        match self {
            Wanted::Packets(_) => false,
            Wanted::Trips(_) => true,
        }
    }
}

/// Lists the capture that the source holds, and answers the exit status: that of a refusal where the capture
/// is damaged. Whoever reads the output may close it.
pub fn act_list<S, W, V>(alloc: Global, wanted: Wanted, source: S, out: &mut W, err: &mut V) -> u8
where
    S: Source + Drop,
    W: Write,
    V: Write,
{
    let listed = match wanted {
        Wanted::Packets(asked) => list(alloc, source, asked, out, err),
        Wanted::Trips(asked) => tally_stream(alloc, source, asked, out, err),
    };
    end_of_listing(listed, out, err)
}

/// Lists the capture of a file, which `first` and `again` hold from its beginning, and answers the exit
/// status.
pub fn act_list_file<S, T, W, V>(
    alloc: Global,
    wanted: Wanted,
    first: S,
    again: T,
    out: &mut W,
    err: &mut V,
) -> u8
where
    S: Source + Drop,
    T: Source + Drop,
    W: Write,
    V: Write,
{
    let listed = match wanted {
        Wanted::Packets(asked) => list(alloc, first, asked, out, err),
        Wanted::Trips(asked) => tally(alloc, first, again, asked, out, err),
    };
    end_of_listing(listed, out, err)
}

/// Tells how a listing ended, and answers the exit status.
fn end_of_listing<W: Write, V: Write>(listed: Listed, out: &mut W, err: &mut V) -> u8 {
    match listed {
        Listed::Whole | Listed::Closed => GOOD,
        Listed::Damaged(fault) => {
            let _ = writeln!(err, "capture: {fault}");
            if fault.kind == CaptureFaultKind::LinkType {
                let _ = err.write_all(NOT_ETHERNET);
            }
            REFUSED
        }
        Listed::SourceFailed => report(&Failure::Line(LineFailure::Read), out, err),
        Listed::OutputFailed => report(&Failure::Line(LineFailure::Output), out, err),
        Listed::NoMemory => {
            let _ = err.write_all(b"capture: NoMemory\n");
            FAILED
        }
    }
}
