//! The frame of `door` with numbers behind it, and packets that are copies of it or are not; and frames of
//! one datagram.

use super::asserts::assert_same;
use super::door::{FROM_A, FROM_B, SENT, UDP};
use crate::{WrittenAnswer, rmp_open, rmp_seal, rmp_single};
use std::mem::size_of;
use std::process::Abort;

/// The number of a copy A.
const NUMBER: u64 = 0x0123_4567_89AB_CDEE;

/// The frame of the items with that number behind it.
const NUMBERED: [u8; 50] = [
    48, 0x10, 0x0C, 0, 0, 0, 1, 0, 2, 0x80, 0, 0, 0xAA, 0x55, 0x00, 0x08, 0x07, 1, 0, 0, 0x30,
    0x01, 2, 0x80, 0, 0, 0, 0, 0x00, 0x08, 0, 0, 0, 0, 0, 0, 8, 0, 0, 0, 0xEE, 0xCD, 0xAB, 0x89,
    0x67, 0x45, 0x23, 0x01, 0, 0,
];

/// What one slave makes of it on the way from port A: in `door` that is FROM_A.
const CAME: [u8; 50] = [
    48, 0x10, 0x0C, 0, 0, 0, 1, 0, 2, 0x80, 0, 0, 0x12, 0x55, 0x03, 0x08, 0x07, 1, 1, 0, 0x30,
    0x01, 2, 0x80, 0, 0, 8, 0, 0x01, 0x08, 0, 0, 0, 0, 0, 0, 8, 0, 0, 0, 0xEE, 0xCD, 0xAB, 0x89,
    0x67, 0x45, 0x23, 0x01, 0, 0,
];

/// What the other slave makes of it, where it turned round: each circulating bit is set. That is FROM_B.
const TURNED: [u8; 50] = [
    48, 0x10, 0x0C, 0, 0, 0, 1, 0, 2, 0xC0, 0, 0, 0xAA, 0x34, 0x03, 0x08, 0x07, 1, 1, 0, 0x30,
    0x01, 2, 0xC0, 0, 0, 8, 0, 0x01, 0x08, 0, 0, 0, 0, 0, 0, 8, 0x40, 0, 0, 0xEE, 0xCD, 0xAB, 0x89,
    0x67, 0x45, 0x23, 0x01, 0, 0,
];

/// What came, with the number in front of the frame.
const IN_FRONT: [u8; 50] = [
    48, 0x10, 0, 0, 0, 0, 0, 0, 8, 0x80, 0, 0, 0xEE, 0xCD, 0xAB, 0x89, 0x67, 0x45, 0x23, 0x01, 0,
    0, 0x0C, 0, 0, 0, 1, 0, 2, 0x80, 0, 0, 0x12, 0x55, 0x03, 0x08, 0x07, 1, 1, 0, 0x30, 0x01, 2, 0,
    0, 0, 8, 0, 0x01, 0x08,
];

/// A broadcast read that went out alone in its frame under that number, behind one slave.
const PROBE_CAME: [u8; 36] = [
    34, 0x10, 0x07, 1, 1, 0, 0x30, 0x01, 2, 0x80, 0, 0, 8, 0, 0x01, 0, 0, 0, 0, 0, 0, 0, 8, 0, 0,
    0, 0xEE, 0xCD, 0xAB, 0x89, 0x67, 0x45, 0x23, 0x01, 0, 0,
];

/// What a room holds where nothing is written.
const UNTOUCHED: [u8; 31] = [0x5A; 31];

/// A copy of these bytes with one of them changed.
fn changed(mut bytes: [u8; 50], at: usize, byte: u8) -> [u8; 50] {
    if at < 50 {
        bytes[at] = byte;
    }
    bytes
}

/// A room with these bytes at its front.
fn written(bytes: [u8; 30]) -> [u8; 31] {
    let mut room = UNTOUCHED;
    for k in 0..30 {
        room[k] = bytes[k];
    }
    room
}

/// What this packet is under a number: only these bytes of the room are written.
fn opened(rt: &impl Abort, number: u64, packet: &[u8], wanted: [u8; 30]) {
    let mut room = UNTOUCHED;
    let answer = rmp_open(UDP, number, &SENT, packet, &mut room);
    assert_same(rt, (answer.code, answer.bytes, answer.at), (0, 30, 0));
    assert_same(rt, room, written(wanted));
}

/// This packet is none of the frame under a number: its code and its place; and nothing is written.
fn refused(rt: &impl Abort, number: u64, packet: &[u8], told: (u32, usize)) {
    let mut room = UNTOUCHED;
    let answer = rmp_open(UDP, number, &SENT, packet, &mut room);
    assert_same(
        rt,
        (answer.code, answer.at, answer.bytes),
        (told.0, told.1, 0),
    );
    assert_same(rt, room, UNTOUCHED);
}

/// These bytes do not go out with a number: why, and at which place; and nothing is written.
fn unnumbered(rt: &impl Abort, sent: &[u8], told: (u32, usize)) {
    let mut room = UNTOUCHED;
    let answer = rmp_seal(NUMBER, sent, &mut room);
    assert_same(
        rt,
        (answer.code, answer.at, answer.bytes),
        (told.0, told.1, 0),
    );
    assert_same(rt, room, UNTOUCHED);
}

#[test]
fn a_number_stands_behind_the_frame(rt: HostRuntime) {
    let mut room = [0x5A; 50];
    let answer = rmp_seal(NUMBER, &SENT, &mut room);
    assert_same(&rt, (answer.code, answer.bytes, answer.at), (0, 50, 0));
    assert_same(&rt, room, NUMBERED);
}

#[test]
fn only_the_bytes_of_the_numbered_frame_are_written(rt: HostRuntime) {
    let mut room = [0x5A; 52];
    assert_same(&rt, rmp_seal(u64::MAX, &SENT, &mut room).bytes, 50);
    let ends = (room[39], room[40], room[47], room[48], room[50], room[51]);
    assert_same(&rt, ends, (0, 0xFF, 0xFF, 0, 0x5A, 0x5A));
}

#[test]
fn what_cannot_be_numbered_is_told(rt: HostRuntime) {
    unnumbered(&rt, &SENT[..29], (7, 29));
    unnumbered(&rt, &SENT, (5, 0));
    let mut small = [0x5A; 49];
    assert_same(&rt, rmp_seal(NUMBER, &SENT, &mut small).code, 5);
    assert_same(&rt, small, [0x5A; 49]);
}

/// A frame of one datagram with these data is numbered so: the code, and how many bytes it has.
fn numbered_single(rt: &impl Abort, data: &[u8], told: (u32, usize)) {
    let mut frame = [0; 1500];
    let made = rmp_single(2, 0, data, &mut frame);
    assert_same(rt, made.code, 0);
    let mut room = [0; 1500];
    if made.bytes <= 1500 {
        let answer = rmp_seal(NUMBER, &frame[..made.bytes], &mut room);
        assert_same(rt, (answer.code, answer.bytes), told);
    }
}

#[test]
fn a_frame_without_twenty_free_bytes_gets_no_number(rt: HostRuntime) {
    numbered_single(&rt, &[0; 1466], (0, 1500));
    numbered_single(&rt, &[0; 1467], (30, 0));
}

#[test]
fn a_copy_is_opened(rt: HostRuntime) {
    opened(&rt, NUMBER, &CAME, FROM_A);
    opened(&rt, NUMBER, &NUMBERED, SENT);
    opened(&rt, NUMBER, &TURNED, FROM_B);
    // Events and the counter of the number's datagram are looked at by nobody.
    opened(&rt, NUMBER, &changed(CAME, 38, 0x04), FROM_A);
    opened(&rt, NUMBER, &changed(CAME, 48, 1), FROM_A);
}

#[test]
fn a_late_copy_is_refused(rt: HostRuntime) {
    // The copy from port B, of the same trip; copies of trips before and behind, and of another run.
    refused(&rt, NUMBER + 1, &CAME, (32, 0));
    refused(&rt, NUMBER - 2, &CAME, (32, 0));
    refused(&rt, NUMBER + 256, &CAME, (32, 0));
    refused(&rt, NUMBER, &changed(CAME, 47, 0x02), (32, 0));
    refused(&rt, NUMBER, &changed(CAME, 43, 0x88), (32, 0));
    // Frames that bear no number, or bear it in front.
    refused(&rt, NUMBER, &FROM_A, (32, 0));
    refused(&rt, NUMBER, &IN_FRONT, (32, 0));
}

#[test]
fn another_frame_with_the_number_is_refused(rt: HostRuntime) {
    refused(&rt, NUMBER, &PROBE_CAME, (31, 0));
    refused(&rt, NUMBER, &changed(CAME, 17, 0x25), (31, 1));
    refused(&rt, NUMBER, &changed(CAME, 6, 0x02), (31, 0));
    // The number in another datagram than a NOP to nobody.
    refused(&rt, NUMBER, &changed(CAME, 30, 10), (31, 2));
    refused(&rt, NUMBER, &changed(CAME, 32, 1), (31, 2));
}

#[test]
fn what_is_no_copy_is_told(rt: HostRuntime) {
    refused(&rt, NUMBER, &[], (16, 0));
    refused(&rt, NUMBER, &CAME[..49], (16, 49));
    refused(&rt, NUMBER, &changed(CAME, 2, 15), (21, 2));
    let mut small = [0x5A; 29];
    assert_same(&rt, rmp_open(2, NUMBER, &SENT, &CAME, &mut small).code, 6);
    assert_same(
        &rt,
        rmp_open(UDP, NUMBER, &SENT[..9], &CAME, &mut small).code,
        7,
    );
    assert_same(&rt, rmp_open(UDP, NUMBER, &SENT, &CAME, &mut small).code, 5);
    assert_same(&rt, small, [0x5A; 29]);
}

#[test]
fn the_header_states_the_size_of_what_is_written(rt: HostRuntime) {
    assert_same(&rt, size_of::<WrittenAnswer>(), 24);
}

/// The frame of one datagram with these two data bytes is that, or is not made.
fn single(rt: &impl Abort, command: u32, address: u32, told: (u32, usize), wanted: [u8; 16]) {
    let mut room = [0x5A; 16];
    let answer = rmp_single(command, address, &[0x04, 0x10], &mut room);
    assert_same(rt, (answer.code, answer.bytes), told);
    assert_same(rt, room, wanted);
}

#[test]
fn a_datagram_alone_is_a_frame(rt: HostRuntime) {
    // APWR of the station address of the fourth slave, and FPWR of AL control at station 0x1004.
    let station = [
        14, 0x10, 2, 0, 0xFD, 0xFF, 0x10, 0x00, 2, 0, 0, 0, 0x04, 0x10, 0, 0,
    ];
    single(&rt, 2, 0x0010_FFFD, (0, 16), station);
    let control = [
        14, 0x10, 5, 0, 0x04, 0x10, 0x20, 0x01, 2, 0, 0, 0, 0x04, 0x10, 0, 0,
    ];
    single(&rt, 5, 0x0120_1004, (0, 16), control);
    single(&rt, 15, 0, (34, 0), [0x5A; 16]);
    let mut room = [0x5A; 15];
    assert_same(&rt, rmp_single(2, 0, &[], &mut room).code, 13);
    assert_same(&rt, rmp_single(2, 0, &[4, 16], &mut room).code, 5);
    assert_same(&rt, room, [0x5A; 15]);
}
