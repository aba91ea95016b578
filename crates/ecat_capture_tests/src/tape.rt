//! Captures by hand, what a reader makes of them, and writers that fail.

use crate::asserts::assert_same;
use ec_ring::Port;
use ecat_capture::{Capture, Link, Packet, Time};
use ecat_record::{Counter, Moments, Recorder, Tape, TapeFault, Unit, Way};
use ecat_source::Bytes;
use std::io::{self, Cursor, ErrorKind, Write};
use std::process::Abort;

/// Room for what a test writes.
const ROOM: usize = 256;

/// A frame of a BRD of two bytes at 0x0130.
static BRD: [u8; 16] = [0x0e, 0x10, 7, 1, 0, 0, 0x30, 1, 2, 0, 0, 0, 0, 0, 0, 0];

/// The header, with microseconds.
static HEADER: [u8; 24] = [
    0xd4, 0xc3, 0xb2, 0xa1, 2, 0, 4, 0, 0, 0, 0, 0, 0, 0, 0, 0, 0, 0, 4, 0, 1, 0, 0, 0,
];

/// A record at one second and 500,000 microseconds of a packet of three bytes.
static THREE: [u8; 19] = [
    1, 0, 0, 0, 0x20, 0xa1, 7, 0, 3, 0, 0, 0, 3, 0, 0, 0, 9, 8, 7,
];

/// The head of a record at the moment 1 of a packet of 60 bytes, and the header of what arrives at port B.
static AT_B: [u8; 30] = [
    0, 0, 0, 0, 1, 0, 0, 0, 60, 0, 0, 0, 60, 0, 0, 0, //
    255, 255, 255, 255, 255, 255, 0x12, 0x52, 0x4d, 0x50, 0, 0x0b, 0x88, 0xa4,
];

/// A writer that takes so many bytes and then fails.
#[derive(Drop)]
struct Takes {
    left: usize,
}

impl Write for Takes {
    fn write(&mut self, bytes: &[u8]) -> io::Result<usize> {
        if self.left == 0 {
            return Err(io::Error::from(ErrorKind::WriteZero));
        }
        let count = bytes.len().min(self.left);
        self.left -= count;
        Ok(count)
    }

    fn flush(&mut self) -> io::Result<()> {
        Ok(())
    }
}

/// What was written to a cursor over an array.
fn written(cursor: &Cursor<[u8; ROOM]>) -> &[u8] {
    let count = cursor.position().min(ROOM as u64) as usize;
    &cursor.get_ref()[..count]
}

/// Asserts that bytes are those that are wanted.
fn assert_bytes(rt: &impl Abort, found: &[u8], wanted: &[u8]) {
    assert_eq!(rt; found, wanted);
}

/// Asserts that bytes from one on are those that are wanted.
fn assert_run(rt: &impl Abort, found: &[u8], from: usize, wanted: &[u8]) {
    assert!(rt; from <= found.len());
    assert!(rt; found[from..].starts_with(wanted));
}

#[test]
fn a_record_by_hand(rt: HostRuntime) {
    let mut out = Cursor::new([0u8; ROOM]);
    let mut tape = Tape::new(&mut out, Unit::Microseconds);
    tape.record(1_500_000, &[9, 8, 7]);
    assert_same(&rt, tape.finish(), Ok(()));
    assert_run(&rt, written(&out), 0, &HEADER);
    assert_run(&rt, written(&out), 24, &THREE);
    assert!(&rt; written(&out).len() == 43);
}

#[test]
fn nanoseconds_have_a_magic_of_their_own(rt: HostRuntime) {
    let mut out = Cursor::new([0u8; ROOM]);
    let mut tape = Tape::new(&mut out, Unit::Nanoseconds);
    tape.record(1_500_000_007, &[9]);
    assert_run(&rt, written(&out), 0, &[0x4d, 0x3c, 0xb2, 0xa1]);
    assert_run(&rt, written(&out), 24, &[1, 0, 0, 0, 7, 0x65, 0xcd, 0x1d]);
}

#[test]
fn copies_tell_their_port_and_way(rt: HostRuntime) {
    let mut out = Cursor::new([0u8; ROOM]);
    let mut recorder = Recorder::new(&mut out, Counter::new());
    recorder.copy(Port::A, Way::Leaves, &BRD);
    recorder.copy(Port::B, Way::Arrives, &BRD);
    assert_same(&rt, recorder.finish(), Ok(()));
    let all = written(&out);
    assert_same(&rt, all.len(), 24 + 2 * 76);
    assert_run(&rt, all, 46, &[0x10, 0x52, 0x4d, 0x50, 0, 0x0a, 0x88, 0xa4]);
    assert_run(&rt, all, 54, &BRD);
    assert_run(&rt, all, 70, &[0; 30]);
    assert_run(&rt, all, 100, &AT_B);
}

#[test]
fn a_reader_reads_what_was_written(rt: HostRuntime) {
    let mut out = Cursor::new([0u8; ROOM]);
    let mut tape = Tape::new(&mut out, Unit::Microseconds);
    tape.record(1_500_000, &[9, 8, 7]);
    let mut capture = Capture::new(rt.alloc(), Bytes::new(written(&out)));
    let wanted = Packet {
        number: 1,
        time: Some(Time {
            seconds: 1,
            nanoseconds: 500_000_000,
            fine: false,
        }),
        captured: 3,
        original: 3,
        interface: 0,
        link: Link::Ethernet,
    };
    assert_same(&rt, capture.next(), Ok(Some(wanted)));
    assert_bytes(&rt, capture.bytes(), &[9, 8, 7]);
    assert_same(&rt, capture.next(), Ok(None));
}

#[test]
fn behind_a_write_that_fails_nothing_is_written(rt: HostRuntime) {
    for left in [0usize, 20, 24, 30] {
        let mut out = Takes { left };
        let mut recorder = Recorder::new(&mut out, Counter::new());
        recorder.copy(Port::A, Way::Leaves, &BRD);
        recorder.copy(Port::A, Way::Leaves, &BRD);
        assert_same(&rt, recorder.finish(), Err(TapeFault));
        assert_same(&rt, out.left, 0);
    }
}

#[test]
fn a_counter_counts(rt: HostRuntime) {
    let mut counter = Counter::new();
    assert_same(&rt, counter.next(), 0);
    assert_same(&rt, counter.next(), 1);
}
