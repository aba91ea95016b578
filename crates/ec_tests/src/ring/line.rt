//! Lines of slaves as the tests make them, and the frames that they send.

use ec_app::{Objects, Slave};
use ec_regs::AlState;
use ec_ring::{Links, MAX_LINKS, Ring, Weather};
use ec_wire::{Form, FrameBuf};
use std::alloc::Global;
use std::process::Abort;

/// A slave in a state, with no objects and no process data.
fn slave(rt: &impl Abort, alloc: Global, station: u16, state: AlState) -> Slave {
    let mut slave = Slave::new(alloc, station, Objects::new(), 0, 0).expect(rt, "memory");
    slave.set_state(state);
    slave
}

/// Slaves in these states, with the station addresses 0x1001, 0x1002 and so on.
pub fn slaves(rt: &impl Abort, alloc: Global, states: &[AlState]) -> Vec<Slave> {
    let mut slaves = Vec::new(alloc);
    let mut station = 0x1001;
    for state in states {
        let pushed = slaves.push(slave(rt, alloc, station, *state));
        assert!(rt; pushed.is_ok());
        station = station.wrapping_add(1);
    }
    slaves
}

/// A ring of these slaves.
pub fn ring(rt: &impl Abort, alloc: Global, states: &[AlState]) -> Ring {
    Ring::new(slaves(rt, alloc, states)).ok().expect(rt, "room")
}

/// Three slaves that a broadcast read of AL status tells apart: 8, 4 and 2.
pub const THREE: [AlState; 3] = [AlState::Op, AlState::SafeOp, AlState::PreOp];

/// All links up but these.
pub fn down(links: &[usize]) -> Links {
    let mut all = Links::new();
    for k in links {
        if *k < MAX_LINKS {
            all.set(*k, false);
        }
    }
    all
}

/// Both copies under these links, none lost, copy A first.
pub fn calm(a: Links, b: Links) -> Weather {
    Weather {
        a,
        b,
        lost_a: false,
        lost_b: false,
        b_first: false,
    }
}

/// The frame that these bytes spell.
pub fn frame(rt: &impl Abort, bytes: &[u8]) -> FrameBuf {
    FrameBuf::read(bytes, Form::Ethernet).expect(rt, "a frame")
}

/// A broadcast read of AL status: its ADP, the high byte of its length field, which has the circulating
/// bit, what it has read, and its counter.
pub fn status(adp: u8, flags: u8, read: u8, counter: u8) -> [u8; 16] {
    [
        0x0E, 0x10, 0x07, 0x01, adp, 0x00, 0x30, 0x01, 0x02, flags, 0x00, 0x00, read, 0x00,
        counter, 0x00,
    ]
}

/// A copy came back with these bytes, or none did.
pub fn came(rt: &impl Abort, came: &Option<FrameBuf>, expected: Option<&[u8]>) {
    match came {
        Some(frame) => assert_eq!(rt; frame.bytes(), expected.expect(rt, "no copy")),
        None => assert!(rt; expected.is_none()),
    }
}
