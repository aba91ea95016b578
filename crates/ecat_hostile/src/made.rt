//! Frames of a seeded generator, on their way over a ring of five slaves.

ghost use Rattle.std.specs.Prelude.{◌<◌};

use crate::slave::{STATION, holds_its_object, is_read_again, slave};
use arrayvec::ArrayVec;
use ec_ring::{Came, Links, Ring, Travel, Weather};
use ec_wire::{Form, FrameBuf};
use std::alloc::Global;
use std::process::Abort;

/// How many frames are made.
const FRAMES: u32 = 100_000;

/// How many slaves stand on the ring.
const SLAVES: u16 = 5;

/// The most bytes that are made for a frame: its header, and three datagrams with eight data bytes each.
const MOST: usize = 2 + 3 * (12 + 8);

/// The low halves of addresses: places on the line, and station addresses.
const ADPS: [u16; 8] = [
    0x0000, 0xFFFF, 0xFFFE, 0xFFFC, 0x1001, 0x1002, 0x1003, 0x1005,
];

/// The high halves: the station address, AL control and AL status, FMMUs, sync managers, mailboxes.
const ADOS: [u16; 8] = [
    0x0010, 0x0120, 0x0130, 0x0600, 0x0800, 0x0808, 0x1800, 0x1880,
];

/// A generator of numbers: an xorshift with the shifts 13, 17 and 5.
#[derive(Drop)]
struct Generator {
    state: u32,
}

impl Generator {
    /// The next number.
    fn next(&mut self) -> u32 {
        let mut x = self.state;
        x ^= x << 13;
        x ^= x >> 17;
        x ^= x << 5;
        self.state = x;
        x
    }

    /// The next number below a bound.
    fn below(&mut self, bound: u32) -> u32
        requires { 0 < bound }
        ensures { result < bound }
    {
        self.next() % bound
    }

    /// The next byte.
    fn byte(&mut self) -> u8 {
        self.below(256) as u8
    }
}

/// Puts a datagram behind the others: a command, of sixteen numbers one is none, an address that the slaves
/// know, and a given number of data bytes.
fn push_datagram(
    rt: &impl Abort,
    bytes: &mut ArrayVec<u8, MOST>,
    made: &mut Generator,
    length: u16,
    more: bool,
) {
    let field = if more { length | 0x8000 } else { length };
    let head = [made.below(16) as u8, made.byte()];
    let adp = ADPS[made.below(8) as usize];
    let ado = ADOS[made.below(8) as usize];
    bytes.try_extend_from_slice(&head).expect(rt, "room");
    bytes
        .try_extend_from_slice(&adp.to_le_bytes())
        .expect(rt, "room");
    bytes
        .try_extend_from_slice(&ado.to_le_bytes())
        .expect(rt, "room");
    bytes
        .try_extend_from_slice(&field.to_le_bytes())
        .expect(rt, "room");
    push_bytes(rt, bytes, made, length);
}

/// Puts the event requests, a given number of data bytes and the counter behind a datagram's head.
fn push_bytes(rt: &impl Abort, bytes: &mut ArrayVec<u8, MOST>, made: &mut Generator, length: u16) {
    for _byte in 0..length.saturating_add(4) {
        bytes
            .try_extend_from_slice(&[made.byte()])
            .expect(rt, "room");
    }
}

/// Changes a byte, about every second time.
fn damage(bytes: &mut ArrayVec<u8, MOST>, made: &mut Generator) {
    let at = made.below(MOST as u32) as usize;
    let change = made.byte();
    if at < bytes.len() {
        bytes[at] ^= change;
    }
}

/// The bytes of one to three datagrams with as many data bytes each, up to eight; about every second time a
/// byte of them is changed.
fn made_bytes(rt: &impl Abort, made: &mut Generator) -> ArrayVec<u8, MOST> {
    let count = 1 + made.below(3) as u16;
    let length = made.below(9) as u16;
    let header = 0x1000 | (count * (12 + length));
    let mut bytes = ArrayVec::new();
    bytes
        .try_extend_from_slice(&header.to_le_bytes())
        .expect(rt, "room");
    for k in 1..=count {
        push_datagram(rt, &mut bytes, made, length, k < count);
    }
    damage(&mut bytes, made);
    bytes
}

/// A weather in which no copy is lost on its last hop: about every second time one link is down, and either
/// copy goes first.
fn weather(made: &mut Generator) -> Weather {
    let mut links = Links::new();
    let down = made.below(12) as usize;
    if down <= usize::from(SLAVES) {
        links.set(down, false);
    }
    Weather {
        a: links,
        b: links,
        lost_a: false,
        lost_b: false,
        b_first: made.below(2) == 0,
    }
}

/// A ring of five slaves.
fn ring(rt: &impl Abort, alloc: Global) -> Ring {
    let mut slaves = Vec::new(alloc);
    for k in 0..SLAVES {
        let pushed = slaves.push(slave(rt, alloc, STATION + k));
        assert!(rt; pushed.is_ok());
    }
    Ring::new(slaves).ok().expect(rt, "room")
}

/// How many frames were accepted, and how many of their copies came back.
#[derive(Clone, Copy, Debug, Default)]
struct Counts {
    accepted: u32,
    came: u32,
}

impl Counts {
    /// Counts a copy, which is read again as it came back.
    fn take(&mut self, rt: &impl Abort, copy: &Option<FrameBuf>) {
        if let Some(frame) = copy {
            assert!(rt; is_read_again(frame));
            self.came = self.came.wrapping_add(1);
        }
    }

    /// Counts a frame with its copies.
    fn count(&mut self, rt: &impl Abort, came: &Came) {
        self.accepted = self.accepted.wrapping_add(1);
        self.take(rt, &came.a);
        self.take(rt, &came.b);
    }
}

/// Makes a frame, sends it where it is accepted, and lets the slaves step.
fn send_one(rt: &impl Abort, ring: &mut Ring, made: &mut Generator, counts: &mut Counts) {
    let bytes = made_bytes(rt, made);
    let Ok(frame) = FrameBuf::read(bytes.as_slice(), Form::Udp) else {
        return;
    };
    let came = ring.trip(&frame, &weather(made));
    counts.count(rt, &came);
    ring.step_all();
}

#[test]
fn made_frames_come_back_readable_and_leave_the_objects(rt: HostRuntime) {
    let mut made = Generator { state: 0x2545_F491 };
    let mut ring = ring(&rt, rt.alloc());
    let mut counts = Counts::default();
    for _frame in 0..FRAMES {
        send_one(&rt, &mut ring, &mut made, &mut counts);
    }
    assert!(rt; counts.accepted > FRAMES / 4, "{counts:?}");
    assert!(rt; counts.came > FRAMES / 4, "{counts:?}");
    for slave in ring.slaves() {
        assert!(rt; holds_its_object(slave));
    }
}
