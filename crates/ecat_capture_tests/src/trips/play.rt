//! The use on the crate's page: a frame that was sent and came back, and one that is on the way.

use crate::asserts::assert_same;
use arrayvec::ArrayVec;
use ec_wire::{Command, Datagram, FrameBuf};
use ecat_trips::{Bases, Fate, Marks, Outline, Source, Step, Trip, Trips, moved};
use std::alloc::AllocError;
use std::test::Fail;

/// The address that frames are sent from, and that of those that come back.
const SENT: u64 = 0x0001_0510_0000;

const CAME: u64 = 0x0201_0510_0000;

/// What is known of a packet but for its frame.
fn outline(number: u64, address: u64) -> Outline {
    Outline {
        number,
        time: None,
        interface: 0,
        source: Source::of(address),
        ports: None,
    }
}

/// An LRW of one byte.
fn lrw(index: u8, byte: u8, counter: u16) -> FrameBuf {
    let mut payload = ArrayVec::new();
    payload.push(byte);
    FrameBuf::of(&Datagram {
        command: Command::Lrw,
        index,
        address: 0x0001_0000,
        circulating: false,
        irq: 0,
        payload,
        counter,
    })
}

/// How far the counter of a trip that a packet closes moved, by the frame that came back last.
fn moved_of(trip: &Trip, frame: &FrameBuf) -> u16 {
    let sent = &trip.sent.frame;
    if 0 < sent.count() && 0 < frame.count() {
        moved(sent, frame, 0)
    } else {
        0
    }
}

/// Takes a packet. How far did the counter of the trip move that it closes, if it closes one?
fn take(
    trips: &mut Trips,
    marks: &Marks,
    packet: &Outline,
    frame: &FrameBuf,
) -> Result<Option<u16>, AllocError> {
    for _ in 0..u64::MAX {
        let step = trips.take(marks, packet, frame)?;
        let (taken, closed) = match &step {
            Step::Ended(_) => (false, None),
            Step::Taken(_, Fate::Closes(kept)) => (true, Some(moved_of(kept.trip(), frame))),
            Step::Taken(_, _) => (true, None),
        };
        trips.reuse(step);
        if taken {
            return Ok(closed);
        }
    }
    Ok(None)
}

#[test]
fn what_comes_back_closes_its_trip(rt: HostRuntime) -> Result<(), Fail> {
    let mut bases = Bases::new();
    bases.take(Source::of(SENT));
    bases.take(Source::of(CAME));
    let marks = Marks::of(bases, false);
    let mut trips = Trips::new(rt.alloc())?;
    let closed = take(&mut trips, &marks, &outline(1, SENT), &lrw(1, 0x00, 0))?;
    assert_same(&rt, closed, None);
    let closed = take(&mut trips, &marks, &outline(2, CAME), &lrw(1, 0x12, 3))?;
    assert_same(&rt, closed, Some(3));
    let closed = take(&mut trips, &marks, &outline(3, SENT), &lrw(2, 0x00, 0))?;
    assert_same(&rt, closed, None);
    for kept in trips.trips() {
        assert_same(&rt, kept.trip().first.number, 3);
    }
    assert_same(&rt, trips.on_the_way(), 1);
    Ok(())
}
