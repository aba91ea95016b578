//! What becomes of the datagrams of a capture, by the trips of their frames.

ghost use Rattle.std.specs.Prelude.{◌≡◌, ◌<◌, length};
ghost use Rattle.ec_wire.specs.Datagram.{nth};
ghost use Rattle.ecat_list.specs.Passed.{came_in, counter_of, key_of, passed_of, place_of, seen_in};

use crate::counters::Place;
use ec_wire::{Command, FrameBuf};
use ecat_trips::{Outline, Trip, kept_address, moved};

/// What became of a datagram.
#[derive(Clone, Copy, PartialEq, Eq)]
pub(crate) enum What {
    /// It was sent.
    Sent,
    /// It came back of its trip.
    Returned,
    /// It was sent, and did not come back.
    Lost,
    /// It came back of a trip that was lost.
    CameLate,
    /// It came back, and nothing that was sent explains it.
    CameAstray,
}

/// What datagrams of one group have in common.
#[derive(Clone, Copy, PartialEq, Eq, Hash)]
pub(crate) struct Key {
    /// The code of the command.
    pub code: u8,
    /// The address: of a command whose ADP slaves count up the ADO alone.
    pub address: u32,
    /// How many bytes of data.
    pub length: usize,
    /// The index, where datagrams are told apart by it; else 0.
    pub index: u8,
}

/// What became of the datagrams of a frame, and where that is seen.
#[derive(Clone, Copy)]
pub(crate) struct Seen {
    /// What became of them.
    pub what: What,
    /// In which packet.
    pub at: Place,
    /// When the frame was sent that came back, in nanoseconds since the epoch.
    pub began: Option<u64>,
}

/// A datagram of which something became.
#[derive(Clone, Copy)]
pub(crate) struct Passed {
    /// What it has in common with others.
    pub key: Key,
    /// Its command.
    pub command: Command,
    /// What became of it.
    pub seen: Seen,
    /// The counter that counts: how far that of a returned datagram moved, and else its own.
    pub counter: u16,
}

/// What datagram `k` of a frame has in common with others of its group.
fn key_of(by_index: bool, frame: &FrameBuf, k: usize) -> Key
    requires { k < length frame.now }
    ensures { result ≡ key_of by_index (nth frame.now k) }
{
    let command = frame.command(k);
    Key {
        code: command.code(),
        address: kept_address(command, frame.address(k)),
        length: frame.data(k).len(),
        index: if by_index { frame.index(k) } else { 0 },
    }
}

/// The counter of datagram `k` of a frame that counts, by what became of it.
fn counter_of(what: What, sent: &FrameBuf, came: &FrameBuf, k: usize) -> u16
    requires sent { k < length sent.now }
    requires came { k < length came.now }
    ensures { result ≡ counter_of what (nth sent.now k) (nth came.now k) }
{
    match what {
        What::Returned => moved(sent, came, k),
        What::Sent | What::Lost | What::CameLate | What::CameAstray => came.counter(k),
    }
}

/// Datagram `k` of a frame, as it was sent and as it came, and what became of it.
pub(crate) fn passed_of(
    by_index: bool,
    seen: &Seen,
    sent: &FrameBuf,
    came: &FrameBuf,
    k: usize,
) -> Passed
    requires sent { k < length sent.now }
    requires came { k < length came.now }
    ensures { result ≡ passed_of by_index seen.now (nth sent.now k) (nth came.now k) }
{
    Passed {
        key: key_of(by_index, sent, k),
        command: sent.command(k),
        seen: *seen,
        counter: counter_of(seen.what, sent, came, k),
    }
}

/// Where a packet is.
pub(crate) fn place_of(packet: &Outline) -> Place
    ensures { result ≡ place_of packet.now }
{
    Place {
        packet: packet.number,
        time: packet.time,
    }
}

/// What became of a frame is seen in this packet.
pub(crate) fn seen_in(what: What, packet: &Outline) -> Seen
    ensures { result ≡ seen_in what packet.now }
{
    Seen {
        what,
        at: place_of(packet),
        began: None,
    }
}

/// The last packet of a trip that came back, if one did; else the first that was sent.
pub(crate) fn came_in(trip: &Trip) -> Outline
    ensures { result ≡ came_in trip.now }
{
    match trip.again {
        Some(again) => again,
        None => match trip.back {
            Some(back) => back,
            None => trip.first,
        },
    }
}
