//! A cycle of an LRW of two bytes and a broadcast read, over a ring of two slaves.

use super::asserts::assert_same;
use crate::item::Item;
use crate::{
    DatagramPlace, FrameAnswer, ItemAnswer, JoinAnswer, ReadAnswer, rmp_frame, rmp_join, rmp_judge,
    rmp_store,
};
use std::mem::size_of;
use std::process::Abort;

/// The number of the UDP form.
pub(super) const UDP: u32 = 1;

/// The items: an LRW of two bytes at 0x00010000, and a broadcast read of register 0x0130.
pub(super) fn asked() -> [Item; 2] {
    let exchange = Item {
        address: 0x0001_0000,
        offset: 1,
        length: 2,
        kind: 12,
        expected: 6,
        sent: 0x0800,
        came: 0,
        passed: 0,
    };
    let states = Item {
        address: 0x0130,
        offset: 4,
        length: 2,
        kind: 7,
        expected: 2,
        sent: 0x0800,
        came: 0,
        passed: 0,
    };
    [exchange, states]
}

/// The frame of the items, and what the two slaves make of its copies.
pub(super) const SENT: [u8; 30] = [
    28, 0x10, 0x0C, 0, 0, 0, 1, 0, 2, 0x80, 0, 0, 0xAA, 0x55, 0x00, 0x08, 0x07, 1, 0, 0, 0x30,
    0x01, 2, 0, 0, 0, 0, 0, 0x00, 0x08,
];

pub(super) const FROM_A: [u8; 30] = [
    28, 0x10, 0x0C, 0, 0, 0, 1, 0, 2, 0x80, 0, 0, 0x12, 0x55, 0x03, 0x08, 0x07, 1, 1, 0, 0x30,
    0x01, 2, 0, 0, 0, 8, 0, 0x01, 0x08,
];

pub(super) const FROM_B: [u8; 30] = [
    28, 0x10, 0x0C, 0, 0, 0, 1, 0, 2, 0xC0, 0, 0, 0xAA, 0x34, 0x03, 0x08, 0x07, 1, 1, 0, 0x30,
    0x01, 2, 0x40, 0, 0, 8, 0, 0x01, 0x08,
];

const JOINED: [u8; 30] = [
    28, 0x10, 0x0C, 0, 0, 0, 1, 0, 2, 0xC0, 0, 0, 0x12, 0x34, 0x06, 0x08, 0x07, 1, 2, 0, 0x30,
    0x01, 2, 0x40, 0, 0, 8, 0, 0x02, 0x08,
];

/// Asserts that item 0 is the one that is told of, with this code.
fn assert_answered(rt: &impl Abort, answer: ItemAnswer, code: u32) {
    assert_same(rt, (answer.at, answer.code), (0, code));
}

#[test]
fn items_go_out_in_a_frame(rt: HostRuntime) {
    let image = [0xF0, 0xAA, 0x55, 0xF1, 0, 0];
    let mut room = [0; 30];
    let made = rmp_frame(&asked(), &image, 0, &mut room);
    assert_same(&rt, (made.code, made.items, made.bytes), (0, 2, 30));
    assert_same(&rt, room, SENT);
}

#[test]
fn what_came_back_is_joined(rt: HostRuntime) {
    let mut room = [0; 30];
    let came = rmp_join(UDP, &SENT, &FROM_A, &FROM_B, &mut room);
    let told = (came.code, came.bytes, came.copy_a, came.copy_b);
    assert_same(&rt, told, (0, 30, 1, 1));
    assert_same(&rt, room, JOINED);
}

#[test]
fn a_joined_frame_is_judged_and_stored(rt: HostRuntime) {
    let mut items = asked();
    let mut image = [0xF0, 0xAA, 0x55, 0xF1, 0, 0];
    assert_answered(&rt, rmp_judge(&mut items, 0, &JOINED), 0);
    let counted = (items[0].came, items[1].came, items[1].passed);
    assert_same(&rt, counted, (0x0806, 0x0802, 2));
    assert_answered(&rt, rmp_store(&items, 0, &JOINED, &mut image), 0);
    assert_same(&rt, image, [0xF0, 0x12, 0x34, 0xF1, 8, 0]);
}

#[test]
fn one_copy_alone_is_short(rt: HostRuntime) {
    let mut items = asked();
    assert_answered(&rt, rmp_judge(&mut items, 0, &FROM_A), 1);
    assert_same(&rt, items[0].came, 0x0803);
}

#[test]
fn the_header_states_these_sizes(rt: HostRuntime) {
    assert_same(&rt, size_of::<Item>(), 20);
    assert_same(&rt, size_of::<FrameAnswer>(), 32);
    assert_same(&rt, size_of::<JoinAnswer>(), 32);
    assert_same(&rt, size_of::<ItemAnswer>(), 16);
    assert_same(&rt, size_of::<DatagramPlace>(), 32);
    assert_same(&rt, size_of::<ReadAnswer>(), 24);
}
