//! Trips to a line that lies somewhere else: packets in memory, and over real sockets.

ghost use Rattle.std.specs.Prelude.{◌<◌};

mod ending;
mod passing;
mod script;
mod sockets;
mod steady;
mod tape;

use crate::asserts::assert_same;
use ec_master::Ports;
use ec_number::Trip;
use ec_wire::{Form, FrameBuf};
use ecat_remote::{RemoteEnds, RemotePorts, ends_of};
use script::{Script, Wound};
use std::process::Abort;

/// An LRW of one byte at 0x00010000 with the index 0 and the counter 0, as the standard spells it over UDP.
const SENT: [u8; 15] = [
    0x0D, 0x10, 0x0C, 0, 0, 0, 0x01, 0, 0x01, 0, 0, 0, 0x55, 0, 0,
];

/// That under the number 0, which stands in eight bytes from byte 25 on.
const NUMBERED: [u8; 35] = [
    0x21, 0x10, 0x0C, 0, 0, 0, 0x01, 0, 0x01, 0x80, 0, 0, 0x55, 0, 0, 0, 0, 0, 0, 0, 0, 0x08, 0, 0,
    0, 0, 0, 0, 0, 0, 0, 0, 0, 0, 0,
];

/// A packet of 35 bytes.
type Packet = [u8; 35];

/// How many microseconds a trip waits.
const LIMIT: u64 = 20_000;

/// What was sent under number 0, with this byte in its place.
fn with(at: usize, byte: u8) -> Packet
    requires { at < 35 }
{
    let mut packet = NUMBERED;
    packet[at] = byte;
    packet
}

/// What was sent, under this number and with this counter.
fn under(number: u8, counter: u8) -> Packet {
    let mut packet = NUMBERED;
    packet[13] = counter;
    packet[25] = number;
    packet
}

/// Ports over a script, whose first trip has the numbers 0 and 1.
fn ports_over(script: Script, timer: Wound) -> RemotePorts<Script, Wound> {
    RemotePorts::new(script, timer, LIMIT, Trip::of(0))
}

/// The last byte of data and the counter of the copies that come, at port A and at port B.
fn trip(rt: &impl Abort, ports: &mut RemotePorts<Script, Wound>) -> [Option<(u8, u16)>; 2] {
    let sent = FrameBuf::read(&SENT, Form::Udp).ok().expect(rt, "a frame");
    let came = ports.trip(&sent).ok().expect(rt, "no fault");
    [told(&came.a), told(&came.b)]
}

/// The first byte of data and the counter of a copy.
fn told(copy: &Option<FrameBuf>) -> Option<(u8, u16)> {
    match copy {
        Some(copy) if copy.count() > 0 => {
            Some((copy.data(0).first().copied().unwrap_or(0), copy.counter(0)))
        }
        _ => None,
    }
}

#[test]
fn a_text_names_one_end_or_two(rt: HostRuntime) {
    let one = RemoteEnds {
        a: "10.0.0.1:34980",
        b: None,
    };
    let two = RemoteEnds {
        a: "a:1",
        b: Some("b:2"),
    };
    assert_same(&rt, ends_of("10.0.0.1:34980"), one);
    assert_same(&rt, ends_of("a:1,b:2"), two);
}
