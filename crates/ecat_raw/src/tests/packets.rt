//! What is put around a frame, and what is taken out of a packet.

use super::{ASKED, SENT, assert_same, with};
use crate::ethernet::{answering, header_in, sender_of, under};
use crate::{ADDRESS_A, ADDRESS_B, answer_in, frame_in, packet_of};
use std::net::Ipv6Addr;
use std::process::Abort;

/// The frame in a packet that begins with these bytes, behind which the asked frame and padding stand.
fn framed_behind(rt: &impl Abort, header: &[u8]) -> bool {
    let mut packet = [0; 64];
    let from = header.len();
    if let Some(front) = packet.get_mut(..from) {
        front.copy_from_slice(header);
    }
    match packet.get_mut(from..from.saturating_add(16)) {
        Some(place) => place.copy_from_slice(&ASKED),
        None => panic!(rt; "the header is too long"),
    }
    frame_in(&packet) == Some(ASKED.as_slice())
}

/// Whether the frame of an answer is the asked one, if the packet is an answer.
fn asked_in(packet: &[u8]) -> Option<bool> {
    match answer_in(packet) {
        Some(frame) => Some(frame == ASKED.as_slice()),
        None => None,
    }
}

#[test]
fn a_frame_goes_out_to_everybody_and_padded(rt: HostRuntime) {
    assert_eq!(rt; packet_of(ADDRESS_A, &ASKED).as_slice(), SENT.as_slice());
    let from_b = with(11, 0x0B);
    assert_eq!(rt; packet_of(ADDRESS_B, &ASKED).as_slice(), from_b.as_slice());
    let longest = packet_of(ADDRESS_A, &[0x55; 1500]);
    assert_same(&rt, longest.len(), 1514);
    let unpadded = packet_of(ADDRESS_A, &[0x55; 46]);
    assert_same(&rt, unpadded.len(), 60);
    assert_same(&rt, packet_of(ADDRESS_A, &[0x55; 47]).len(), 61);
}

#[test]
fn tags_may_stand_before_the_type(rt: HostRuntime) {
    let plain = [0, 1, 2, 3, 4, 5, 6, 7, 8, 9, 10, 11, 0x88, 0xA4];
    let tagged = [
        0, 1, 2, 3, 4, 5, 6, 7, 8, 9, 10, 11, 0x81, 0x00, 0x60, 0x05, 0x88, 0xA4,
    ];
    let twice = [
        0, 1, 2, 3, 4, 5, 6, 7, 8, 9, 10, 11, 0x88, 0xA8, 0, 5, 0x81, 0, 0, 6, 0x88, 0xA4,
    ];
    let thrice = [
        0, 1, 2, 3, 4, 5, 6, 7, 8, 9, 10, 11, 0x88, 0xA8, 0, 5, 0x81, 0, 0, 6, 0x81, 0, 0, 6, 0x88,
        0xA4,
    ];
    assert_same(&rt, framed_behind(&rt, &plain), true);
    assert_same(&rt, framed_behind(&rt, &tagged), true);
    assert_same(&rt, framed_behind(&rt, &twice), true);
    assert_same(&rt, framed_behind(&rt, &thrice), false);
}

#[test]
fn other_packets_have_no_frame(rt: HostRuntime) {
    // IPv4, and EtherCAT's type with its bytes exchanged.
    assert_same(&rt, frame_in(&with(13, 0x00)), None);
    assert_same(&rt, frame_in(&[0; 60]), None);
    for count in 0..14usize {
        assert_same(&rt, frame_in(&SENT[..count]), None);
    }
    let mut tag_alone = with(12, 0x81);
    tag_alone[13] = 0;
    assert_same(&rt, frame_in(&tag_alone[..15]), None);
}

#[test]
fn what_ends_before_its_header_says_is_whole(rt: HostRuntime) {
    assert_same(&rt, frame_in(&SENT[..14]), Some([].as_slice()));
    assert_same(&rt, frame_in(&SENT[..15]), Some([0x0E].as_slice()));
    assert_same(&rt, frame_in(&SENT[..29]), Some(&ASKED[..15]));
    assert_same(&rt, frame_in(&SENT[..30]), Some(ASKED.as_slice()));
    assert_same(&rt, frame_in(&SENT[..31]), Some(ASKED.as_slice()));
}

#[test]
fn an_answer_has_bit_1_of_its_source(rt: HostRuntime) {
    assert_same(&rt, asked_in(&SENT), None);
    assert_same(&rt, asked_in(&with(6, 0x12)), Some(true));
    assert_same(&rt, asked_in(&with(6, 0xFD)), None);
    assert_same(&rt, asked_in(&with(6, 0x02)), Some(true));
    assert_same(&rt, asked_in(&[]), None);
}

#[test]
fn an_answer_goes_under_the_header_that_came(rt: HostRuntime) {
    let header = answering(header_in(&SENT));
    let answer = with(6, 0x12);
    assert_eq!(rt; under(&header, &ASKED).as_slice(), answer.as_slice());
    let tagged = [
        1, 2, 3, 4, 5, 6, 0x07, 8, 9, 10, 11, 12, 0x81, 0x00, 0x60, 0x05, 0x88, 0xA4, 0x00, 0x10,
    ];
    let wanted = [
        1, 2, 3, 4, 5, 6, 0x07, 8, 9, 10, 11, 12, 0x81, 0x00, 0x60, 0x05, 0x88, 0xA4,
    ];
    assert_eq!(rt; answering(header_in(&tagged)).as_slice(), wanted.as_slice());
}

#[test]
fn a_sender_is_its_link_local_address(rt: HostRuntime) {
    // RFC 4291's example: 34-56-78-9A-BC-DE is 3656:78FF:FE9A:BCDE.
    let mut packet = SENT;
    packet[6..12].copy_from_slice(&[0x34, 0x56, 0x78, 0x9A, 0xBC, 0xDE]);
    let sender = sender_of(&packet);
    let wanted = Ipv6Addr::new(0xFE80, 0, 0, 0, 0x3656, 0x78FF, 0xFE9A, 0xBCDE);
    assert_same(&rt, sender.ip(), wanted.into());
    assert_same(&rt, sender.port(), 34980);
}
