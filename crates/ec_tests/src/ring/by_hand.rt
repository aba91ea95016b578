//! A frame of several commands over three slaves, beside its pieces passed by hand.

use crate::asserts::assert_same;
use crate::ring::line::{THREE, calm, came, down, frame, ring};
use ec_ring::Ring;
use ec_ring::travel::Travel;
use ec_wire::FrameBuf;
use std::process::Abort;

/// Reads AL status by a broadcast, writes 4 to AL control of the slave 0x1002, reads AL control by a
/// broadcast and the station address of the second slave by its place.
const SENT: [u8; 58] = [
    0x38, 0x10, // header: 56 bytes
    0x07, 0x00, 0x00, 0x00, 0x30, 0x01, 0x02, 0x80, 0x00, 0x00, 0x00, 0x00, 0x00, 0x00, //
    0x05, 0x01, 0x02, 0x10, 0x20, 0x01, 0x02, 0x80, 0x00, 0x00, 0x04, 0x00, 0x00, 0x00, //
    0x07, 0x02, 0x00, 0x00, 0x20, 0x01, 0x02, 0x80, 0x00, 0x00, 0x00, 0x00, 0x00, 0x00, //
    0x01, 0x03, 0xFF, 0xFF, 0x10, 0x00, 0x02, 0x00, 0x00, 0x00, 0x00, 0x00, 0x00, 0x00, //
];

/// Passes a frame through the slaves from one number on and below another.
fn passed(rt: &impl Abort, ring: &mut Ring, sent: &FrameBuf, from: usize, to: usize) -> FrameBuf {
    let mut frame = sent.copy();
    for x in from..to {
        assert!(rt; x < ring.slaves().len());
        ring.slave_mut(x).controller_mut().process(&mut frame);
    }
    frame
}

/// The frame with the circulating bit of each of its four datagrams set.
fn circulated(rt: &impl Abort, sent: &FrameBuf) -> FrameBuf {
    let mut frame = sent.copy();
    assert_eq!(rt; frame.count(), 4);
    frame.set_circulating(0, true);
    frame.set_circulating(1, true);
    frame.set_circulating(2, true);
    frame.set_circulating(3, true);
    frame
}

#[test]
fn trip_is_its_pieces_passed_by_hand(rt: HostRuntime) {
    for k in 0..4usize {
        let mut line = ring(&rt, rt.alloc(), &THREE);
        let mut hand = ring(&rt, rt.alloc(), &THREE);
        let sent = frame(&rt, &SENT);
        let links = down(&[k]);
        let both = line.trip(&sent, &calm(links, links));
        let a = passed(&rt, &mut hand, &sent, 0, k);
        let b = passed(&rt, &mut hand, &circulated(&rt, &sent), k, 3);
        came(&rt, &both.a, if k > 0 { Some(a.bytes()) } else { None });
        came(&rt, &both.b, if k < 3 { Some(b.bytes()) } else { None });
        for x in 0..3usize {
            assert!(rt; line.slaves().len() == 3);
            assert!(rt; hand.slaves().len() == 3);
            let left = line.slave(x).controller().bytes(0x0110, 0x0030);
            assert_same(&rt, left, hand.slave(x).controller().bytes(0x0110, 0x0030));
        }
    }
}
