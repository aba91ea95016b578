//! A frame of twelve datagrams, each of another command, cut short at each byte, and with each byte changed
//! to each other one.

ghost use Rattle.std.specs.Prelude.{◌<◌};

use crate::slave::{STATION, is_read_again, passes, slave};
use arrayvec::ArrayVec;
use ec_app::Slave;
use ec_wire::{Command, Datagram, FaultKind, Form, FrameBuf, WireFault};
use std::alloc::Global;
use std::process::Abort;

/// The commands, and the address that each asks for: AL control and AL status, the station address and the
/// mailboxes, or a logical address.
const ASKED: [(Command, u32); 12] = [
    (Command::Nop, 0x0000_0000),
    (Command::Aprd, 0x0010_0000),
    (Command::Apwr, 0x0120_FFFF),
    (Command::Aprw, 0x0130_0000),
    (Command::Fprd, 0x1880_1001),
    (Command::Fpwr, 0x1800_1001),
    (Command::Fprw, 0x0600_1001),
    (Command::Brd, 0x0130_0000),
    (Command::Bwr, 0x0120_0000),
    (Command::Lrd, 0x0001_0000),
    (Command::Lwr, 0x0001_0001),
    (Command::Lrw, 0x0001_0002),
];

/// The bytes of the frame: its header, and twelve datagrams with two data bytes each.
const LENGTH: usize = 2 + 12 * (12 + 2);

/// A datagram with this command, this index, to this address, with two data bytes.
fn datagram(rt: &impl Abort, command: Command, index: u8, address: u32) -> Datagram {
    let mut payload = ArrayVec::new();
    payload
        .try_extend_from_slice(&[0x55, index])
        .expect(rt, "room");
    Datagram {
        command,
        index,
        address,
        circulating: false,
        irq: 0,
        payload,
        counter: 0,
    }
}

/// The frame of the twelve datagrams.
fn twelve(rt: &impl Abort) -> FrameBuf {
    let (command, address) = ASKED[0];
    let mut frame = FrameBuf::of(&datagram(rt, command, 0, address));
    for k in 1..12u8 {
        let (command, address) = ASKED[usize::from(k)];
        let pushed = frame.push(&datagram(rt, command, k, address));
        assert!(rt; pushed.is_ok());
    }
    frame
}

/// The bytes of the frame.
fn twelve_bytes(rt: &impl Abort) -> [u8; LENGTH] {
    let frame = twelve(rt);
    assert_eq!(rt; frame.count(), 12);
    assert_eq!(rt; frame.bytes().len(), LENGTH);
    let mut bytes = [0; LENGTH];
    bytes.copy_from_slice(frame.bytes());
    bytes
}

#[test]
fn all_twelve_are_read_and_pass_a_slave(rt: HostRuntime) {
    let frame = twelve(&rt);
    assert!(rt; is_read_again(&frame));
    assert!(rt; passes(&mut slave(&rt, rt.alloc(), STATION), &frame));
}

#[test]
fn each_cut_is_short_where_it_ends(rt: HostRuntime) {
    let bytes = twelve_bytes(&rt);
    for at in 0..LENGTH {
        let short = WireFault {
            at,
            kind: FaultKind::Short,
        };
        let found = FrameBuf::read(&bytes[..at], Form::Udp).err();
        assert_eq!(rt; found, Some(short), "cut to {at}");
    }
}

/// Puts a changed frame through the slave: it is refused at a place of its bytes or where they end, or it is
/// read, passes, and is read again as it came out. Tells whether it was read.
fn is_accepted(rt: &impl Abort, slave: &mut Slave, bytes: &[u8]) -> bool {
    match FrameBuf::read(bytes, Form::Udp) {
        Ok(frame) => {
            assert_eq!(rt; frame.bytes(), bytes);
            assert!(rt; passes(slave, &frame));
            true
        }
        Err(fault) => {
            assert!(rt; fault.at <= bytes.len());
            false
        }
    }
}

/// The bytes of the frame with the one at a place changed.
fn changed(bytes: &[u8; LENGTH], place: usize, change: u8) -> [u8; LENGTH]
    requires { place < LENGTH }
{
    let mut changed = *bytes;
    changed[place] ^= change;
    changed
}

/// How many of the 43,350 changes of one byte leave a frame.
const ACCEPTED: u32 = 33_906;

/// How many of the 255 changes of the byte at a place leave a frame. All pass one slave, one after the other.
fn accepted_at(rt: &impl Abort, alloc: Global, bytes: &[u8; LENGTH], place: usize) -> u32
    requires { place < LENGTH }
{
    let mut slave = slave(rt, alloc, STATION);
    let mut accepted = 0u32;
    for change in 1..=255u8 {
        if is_accepted(rt, &mut slave, &changed(bytes, place, change)) {
            accepted = accepted.wrapping_add(1);
        }
    }
    accepted
}

#[test]
fn each_changed_byte_is_refused_at_its_place_or_passes_a_slave(rt: HostRuntime) {
    let bytes = twelve_bytes(&rt);
    let mut accepted = 0u32;
    for place in 0..LENGTH {
        accepted = accepted.wrapping_add(accepted_at(&rt, rt.alloc(), &bytes, place));
    }
    assert_eq!(rt; accepted, ACCEPTED);
}
