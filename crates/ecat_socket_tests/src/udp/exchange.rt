//! Two slaves that exchange a byte each, and the work that asks it of them.

use ec_app::{Objects, Slave};
use ec_map::{Item, Kind};
use ec_master::Work;
use ec_regs::{Fmmu, SyncMan};
use ec_ring::Ring;
use ec_wire::{Form, FrameBuf};
use std::alloc::Global;
use std::process::Abort;

/// What both slaves add to the counter: each reads and writes.
pub const EXPECTED: [u16; 1] = [6];

/// A buffered area of one byte.
fn area(start: u16, control: u8) -> SyncMan {
    SyncMan {
        start,
        length: 1,
        control,
        status: 0,
        activate: 1,
        pdi: 0,
    }
}

/// An FMMU of one byte.
fn byte(logical: u32, physical: u16, kind: u8) -> Fmmu {
    Fmmu {
        logical,
        length: 1,
        start: 0,
        stop: 7,
        physical,
        bit: 0,
        kind,
        activate: 1,
        reserved: [0; 3],
    }
}

/// A slave that takes a logical byte as it arrives, and puts another in its place.
fn slave(rt: &impl Abort, alloc: Global, station: u16, logical: u32, input: u8) -> Slave {
    let mut slave = Slave::new(alloc, station, Objects::new(), 1, 1).expect(rt, "memory");
    let controller = slave.controller_mut();
    controller.set_syncman(2, &area(0x1000, 0x04));
    controller.set_syncman(3, &area(0x1100, 0x00));
    controller.set_fmmu(0, &byte(logical, 0x1000, 2));
    controller.set_fmmu(1, &byte(logical, 0x1100, 1));
    controller.load(0x1100, &[input]);
    slave
}

/// A ring of two of them, which put 0x12 and 0x34 in the place of what arrives.
pub fn ring(rt: &impl Abort, alloc: Global) -> Ring {
    let mut line = Vec::new(alloc);
    let first = line.push(slave(rt, alloc, 0x1001, 0x0001_0000, 0x12));
    assert!(rt; first.is_ok());
    let second = line.push(slave(rt, alloc, 0x1002, 0x0001_0001, 0x34));
    assert!(rt; second.is_ok());
    Ring::new(line).ok().expect(rt, "no more than the most")
}

/// What the slaves of a ring have taken.
pub fn taken(rt: &impl Abort, ring: &Ring) -> [u8; 2] {
    match ring.slaves() {
        [first, second] => [
            first.controller().byte(0x1000),
            second.controller().byte(0x1000),
        ],
        _ => panic!(rt; "not two slaves"),
    }
}

/// The work that hands them 0x5A and 0xA5.
pub fn work(rt: &impl Abort) -> Work {
    let mut work = Work::new();
    let item = Item::new(Kind::Lrw, 0x0001_0000, &[0x5A, 0xA5]).expect(rt, "an item");
    work.push(item).expect(rt, "room");
    work
}

/// The bytes and the counter of its item.
pub fn left(rt: &impl Abort, work: &Work) -> ([u8; 2], u16) {
    assert_eq!(rt; work.len(), 1);
    let item = work.item(0);
    match item.data() {
        [first, second] => ([*first, *second], item.counter()),
        _ => panic!(rt; "not two bytes"),
    }
}

/// A broadcast read of the station addresses, with this index.
pub fn station_read(rt: &impl Abort, index: u8) -> FrameBuf {
    let bytes = [
        0x0E, 0x10, 0x07, index, 0x00, 0x00, 0x10, 0x00, 0x02, 0x00, 0x00, 0x00, 0x00, 0x00, 0x00,
        0x00,
    ];
    FrameBuf::read(&bytes, Form::Udp).ok().expect(rt, "a frame")
}

/// The index, the data and the counter of such a read, if it came back.
pub fn stations(rt: &impl Abort, copy: &Option<FrameBuf>) -> Option<(u8, [u8; 2], u16)> {
    let Some(frame) = copy else {
        return None;
    };
    assert_eq!(rt; frame.count(), 1);
    match frame.data(0) {
        [low, high] => Some((frame.index(0), [*low, *high], frame.counter(0))),
        _ => panic!(rt; "not two bytes"),
    }
}
