//! A cycle as a state machine, over the frame and the copies of `door`.

use super::asserts::assert_same;
use super::door::{FROM_A, FROM_B, SENT, UDP, asked};
use crate::{Cycle, TurnAnswer, rmp_cycle_begin, rmp_cycle_came, rmp_cycle_next};
use std::mem::size_of;
use std::process::Abort;

/// The image before a cycle.
const BEFORE: [u8; 6] = [0xF0, 0xAA, 0x55, 0xF1, 0, 0];

/// The image behind a good one.
const AFTER: [u8; 6] = [0xF0, 0x12, 0x34, 0xF1, 8, 0];

/// What came back of a cycle's one frame is told so, and leaves this state and this image.
fn turned(rt: &impl Abort, a: &[u8], b: &[u8], told: (u32, usize), state: u32, after: [u8; 6]) {
    let mut items = asked();
    let mut image = BEFORE;
    let mut waiting = [0; 6];
    let mut cycle = rmp_cycle_begin(UDP);
    let turn = rmp_cycle_came(
        &mut cycle,
        &mut items,
        &SENT,
        a,
        b,
        &mut waiting,
        &mut image,
    );
    assert_same(rt, (turn.code, turn.at), told);
    assert_same(rt, cycle.state, state);
    assert_same(rt, image, after);
}

#[test]
fn the_next_frame_of_a_cycle_is_its_first(rt: HostRuntime) {
    let mut room = [0; 30];
    let cycle = rmp_cycle_begin(UDP);
    let made = rmp_cycle_next(&cycle, &asked(), &BEFORE, &mut room);
    assert_same(&rt, (made.code, made.items, made.bytes), (0, 2, 30));
    assert_same(&rt, room, SENT);
}

#[test]
fn a_good_cycle_is_done_and_its_data_are_in_the_image(rt: HostRuntime) {
    turned(&rt, &FROM_A, &FROM_B, (0, 0), 1, AFTER);
}

#[test]
fn a_short_cycle_is_ended_and_leaves_the_image(rt: HostRuntime) {
    turned(&rt, &FROM_A, &[], (1, 0), 2, BEFORE);
}

#[test]
fn a_stranger_leaves_the_cycle_as_it_is(rt: HostRuntime) {
    let mut other = FROM_B;
    other[17] = 7;
    turned(&rt, &FROM_A, &other, (4, 1), 0, BEFORE);
}

#[test]
fn the_header_states_the_sizes_of_a_cycle(rt: HostRuntime) {
    assert_same(&rt, size_of::<Cycle>(), 16);
    assert_same(&rt, size_of::<TurnAnswer>(), 24);
}
