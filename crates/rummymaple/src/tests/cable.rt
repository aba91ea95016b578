//! Where the cable of three slaves is broken, by the copies of a broadcast read of AL status.

use super::asserts::assert_same;
use crate::{CableAnswer, rmp_where};
use std::mem::size_of;
use std::process::Abort;

/// The number of the UDP form.
const UDP: u32 = 1;

/// The number of slaves.
const SLAVES: usize = 3;

/// The frame that is sent, whose counter begins at 0x0800.
const SENT: [u8; 16] = [
    14, 0x10, 0x07, 0, 0, 0, 0x30, 0x01, 2, 0, 0, 0, 0, 0, 0x00, 0x08,
];

/// A copy that came back processed by so many slaves, which turned round at a closed port 0 or did not.
fn copy(count: u8, turned: bool) -> [u8; 16] {
    let circulating = if turned { 0x40 } else { 0 };
    [
        14,
        0x10,
        0x07,
        0,
        count,
        0,
        0x30,
        0x01,
        2,
        circulating,
        0,
        0,
        8,
        0,
        count,
        0x08,
    ]
}

/// These packets tell this of the cable: its kind, and the first and the last link that is down.
fn told(rt: &impl Abort, a: &[u8], b: &[u8], cable: (u32, usize, usize)) {
    let answer = rmp_where(UDP, &SENT, a, b, SLAVES);
    assert_same(rt, answer.code, 0);
    assert_same(rt, (answer.cable, answer.first, answer.last), cable);
}

#[test]
fn a_whole_cable_is_told_whole(rt: HostRuntime) {
    told(&rt, &copy(0, false), &copy(3, false), (1, 0, 0));
}

#[test]
fn one_broken_link_is_told_by_both_packets(rt: HostRuntime) {
    told(&rt, &[], &copy(3, true), (2, 0, 0));
    told(&rt, &copy(1, false), &copy(2, true), (2, 1, 1));
    told(&rt, &copy(2, false), &copy(1, true), (2, 2, 2));
    told(&rt, &copy(3, false), &[], (2, 3, 3));
}

#[test]
fn two_broken_links_are_told_by_both_packets(rt: HostRuntime) {
    told(&rt, &copy(1, false), &copy(1, true), (3, 1, 2));
}

#[test]
fn one_packet_tells_of_its_side(rt: HostRuntime) {
    told(&rt, &copy(1, false), &[], (4, 1, 0));
    told(&rt, &[], &copy(1, true), (5, 0, 2));
    told(&rt, &[], &[], (0, 0, 0));
}

#[test]
fn packets_may_contradict(rt: HostRuntime) {
    told(&rt, &copy(0, false), &copy(2, true), (6, 0, 0));
    told(&rt, &copy(4, false), &[], (6, 0, 0));
}

#[test]
fn what_is_no_answer_tells_nothing(rt: HostRuntime) {
    told(&rt, &copy(1, false)[..15], &[], (0, 0, 0));
    let mut other = copy(1, false);
    other[3] = 1;
    told(&rt, &other, &copy(2, true), (5, 0, 1));
}

#[test]
fn a_frame_that_is_no_broadcast_read_tells_nothing_of_a_cable(rt: HostRuntime) {
    let mut read = SENT;
    read[2] = 4;
    let answer = rmp_where(UDP, &read, &read, &[], SLAVES);
    assert_same(&rt, (answer.code, answer.cable, answer.copy_a), (33, 0, 0));
    let mut turned = SENT;
    turned[9] = 0x40;
    assert_same(&rt, rmp_where(UDP, &turned, &[], &[], SLAVES).code, 33);
}

#[test]
fn the_header_states_the_size_of_the_answer(rt: HostRuntime) {
    assert_same(&rt, size_of::<CableAnswer>(), 40);
}
