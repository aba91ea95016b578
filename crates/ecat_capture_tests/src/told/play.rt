//! Trips of one datagram each, which are played from a table.

use arrayvec::ArrayVec;
use ec_wire::{Command, Datagram, FrameBuf, address_of};
use ecat_told::{Byte, Known, KnownFault};
use ecat_trips::{CameFrame, Outline, SentFrame, Source, Trip};
use std::alloc::{AllocError, Global};
use std::process::Abort;

/// A command to an ADP and a register with these bytes, which come back as these, the counter moved and the
/// ADP grown so far.
#[derive(Clone, Copy)]
pub struct Back(
    pub Command,
    pub u16,
    pub u16,
    pub &'static [u8],
    pub &'static [u8],
    pub u16,
    pub u16,
);

/// What is told of one byte of the first slave: where the byte is kept, and what is told.
#[derive(Clone, Copy)]
pub struct At(pub usize, pub Byte);

/// A trip, and what is told then.
#[derive(Clone, Copy)]
pub struct Row(pub Back, pub &'static [At]);

/// A frame of one datagram.
fn frame(command: Command, address: u32, bytes: &[u8], counter: u16) -> FrameBuf {
    let mut payload = ArrayVec::new();
    let _ = payload.try_extend_from_slice(bytes);
    FrameBuf::of(&Datagram {
        command,
        index: 0,
        address,
        circulating: false,
        irq: 0,
        payload,
        counter,
    })
}

/// The trip of a row.
fn trip_of(alloc: Global, row: &Back) -> Result<Trip, AllocError> {
    let Back(command, adp, register, sent, came, moved, grown) = *row;
    let packet = Outline {
        number: 1,
        time: None,
        interface: 0,
        source: Source::of(1),
        ports: None,
    };
    let behind = address_of(adp.wrapping_add(grown), register);
    let came = CameFrame::new(alloc, &frame(command, behind, came, moved))?;
    Ok(Trip {
        sent: SentFrame {
            frame: frame(command, address_of(adp, register), sent, 0),
        },
        first: packet,
        second: None,
        came: Some(came),
        back: Some(packet),
        again: None,
        is_open: false,
    })
}

/// What is told of a byte of the first slave; of none where there is no slave.
fn byte_at(known: &Known, place: usize) -> Option<Byte> {
    let slave = known.slaves().first()?;
    slave.bytes.get(place).copied()
}

/// Asserts what is told of one slave behind a trip.
fn assert_row(rt: &impl Abort, known: &Known, number: usize, row: &Row) {
    assert_eq!(rt; known.slaves().len(), 1, "row {number}");
    for at in row.1 {
        assert_eq!(rt; byte_at(known, at.0), Some(at.1), "row {number}");
    }
}

/// Asserts what is told behind each trip, unless memory runs out.
pub fn assert_played<R: Abort + AllocGlobal>(rt: &R, known: &mut Known, rows: &[Row]) {
    for (number, row) in rows.iter().enumerate() {
        let Ok(trip) = trip_of(rt.alloc(), &row.0) else {
            return;
        };
        match known.take(&trip) {
            Ok(()) => assert_row(rt, known, number, row),
            Err(fault) => {
                assert_eq!(rt; fault, KnownFault::NoMemory);
                return;
            }
        }
    }
}
