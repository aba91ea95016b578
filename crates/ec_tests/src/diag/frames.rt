//! Frames that came back: under other links each, lost, in the place of each other, and strangers.

use super::copies::known;
use super::line::{down, put, ring, under};
use crate::asserts::assert_same;
use ec_diag::{Heard, Located, locate, probe};
use ec_ring::{Arrivals, HeardPorts, Port, Ring, Weather};
use ec_wire::{Form, FrameBuf};
use std::alloc::Global;
use std::process::Abort;

/// The bytes of the probe: a broadcast read of one byte at 0x0130.
const PROBE: [u8; 15] = [0x0D, 0x10, 7, 0, 0, 0, 0x30, 0x01, 1, 0, 0, 0, 0, 0, 0];

/// A broadcast write of two bytes at 0x0130, counted up by three.
const WRITE: [u8; 16] = [0x0E, 0x10, 8, 1, 0, 0, 0x30, 0x01, 2, 0, 0, 0, 0, 0, 3, 0];

/// A broadcast read of two bytes at 0x0130, with its index, flags and counter.
const fn status(index: u8, flags: u8, counter: u8) -> [u8; 16] {
    [
        0x0E, 0x10, 7, index, 0, 0, 0x30, 0x01, 2, flags, 0, 0, 0, 0, counter, 0,
    ]
}

/// The frame that these bytes spell.
fn frame(rt: &impl Abort, bytes: &[u8]) -> FrameBuf {
    FrameBuf::read(bytes, Form::Ethernet).expect(rt, "a frame")
}

/// The copies of a probe that travelled over five slaves in this weather tell this.
fn told(rt: &impl Abort, alloc: Global, weather: &Weather, expected: Located) {
    let mut ring = ring(rt, alloc, 5);
    let sent = probe();
    let came = ring.arrivals(&sent, weather);
    known(rt, Located::Unknown.and_arrivals(5, &sent, &came), expected);
}

/// Nothing is heard of a copy.
fn unheard(rt: &impl Abort, sent: &FrameBuf, copy: &FrameBuf) {
    assert!(rt; Heard::of(sent, copy, Port::A).is_none());
}

#[test]
fn the_probe_reads_one_byte_of_al_status_from_all(rt: HostRuntime) {
    assert_same(&rt, probe().bytes(), PROBE.as_slice());
}

#[test]
fn copies_under_other_links_say_what_both_give(rt: HostRuntime) {
    let links = under(down(&[2]), down(&[4]));
    told(&rt, rt.alloc(), &links, Located::Between(2, 4));
    let links = under(down(&[]), down(&[4]));
    told(&rt, rt.alloc(), &links, Located::Changed);
    let links = under(down(&[4]), down(&[2]));
    told(&rt, rt.alloc(), &links, Located::Changed);
}

#[test]
fn both_copies_may_arrive_at_one_port(rt: HostRuntime) {
    let mut ring = ring(&rt, rt.alloc(), 5);
    let sent = probe();
    let came = ring.arrivals(&sent, &under(down(&[2]), down(&[])));
    let (a, b) = (came.a.expect(&rt, "copy A"), came.b.expect(&rt, "copy B"));
    assert_same(&rt, (a.at, b.at), (Port::A, Port::A));
}

#[test]
fn a_copy_that_the_weather_lost_leaves_the_other(rt: HostRuntime) {
    let mut weather = under(down(&[2]), down(&[2]));
    weather.lost_a = true;
    told(&rt, rt.alloc(), &weather, Located::Last(2));
    weather.lost_b = true;
    told(&rt, rt.alloc(), &weather, Located::Unknown);
    weather.lost_a = false;
    told(&rt, rt.alloc(), &weather, Located::First(2));
    weather.b_first = true;
    told(&rt, rt.alloc(), &weather, Located::First(2));
}

#[test]
fn of_a_whole_cable_either_copy_says_that_it_is_whole(rt: HostRuntime) {
    let mut weather = under(down(&[]), down(&[]));
    weather.lost_a = true;
    told(&rt, rt.alloc(), &weather, Located::Whole);
    weather.lost_a = false;
    weather.lost_b = true;
    told(&rt, rt.alloc(), &weather, Located::Whole);
}

#[test]
fn copies_in_the_place_of_each_other_tell_the_same(rt: HostRuntime) {
    let mut ring = ring(&rt, rt.alloc(), 5);
    let sent = probe();
    let came = ring.arrivals(&sent, &under(down(&[1, 3]), down(&[1, 3])));
    let turned_round = Arrivals {
        a: came.b,
        b: came.a,
    };
    let located = Located::Unknown.and_arrivals(5, &sent, &turned_round);
    known(&rt, located, Located::Between(1, 3));
}

#[test]
fn copies_of_two_frames_are_taken_together(rt: HostRuntime) {
    let mut ring = ring(&rt, rt.alloc(), 5);
    let sent = frame(&rt, &status(1, 0, 0));
    let mut weather = under(down(&[3]), down(&[3]));
    weather.lost_b = true;
    let came = ring.arrivals(&sent, &weather);
    let first = Located::Unknown.and_arrivals(5, &sent, &came);
    known(&rt, first, Located::First(3));
    weather.lost_a = true;
    weather.lost_b = false;
    let came = ring.arrivals(&sent, &weather);
    known(&rt, first.and_arrivals(5, &sent, &came), Located::One(3));
}

#[test]
fn the_count_is_how_far_the_counter_moved(rt: HostRuntime) {
    let sent = frame(&rt, &status(1, 0, 250));
    let mut back = frame(&rt, &status(1, 0x40, 0));
    assert!(rt; back.count() == 1);
    back.set_counter(0, 253);
    let heard = Heard::of(&sent, &back, Port::B).expect(&rt, "a broadcast read");
    assert_same(
        &rt,
        (heard.at, heard.count, heard.turned),
        (Port::B, 3, true),
    );
}

#[test]
fn a_stranger_tells_nothing(rt: HostRuntime) {
    let sent = frame(&rt, &status(1, 0, 0));
    let other_index = frame(&rt, &status(2, 0, 3));
    unheard(&rt, &sent, &other_index);
    let other_length = frame(&rt, &PROBE);
    unheard(&rt, &sent, &other_length);
    let other_command = frame(&rt, &WRITE);
    unheard(&rt, &sent, &other_command);
    unheard(&rt, &other_command, &sent);
    let circulating = frame(&rt, &status(1, 0x40, 0));
    unheard(&rt, &circulating, &sent);
}

/// Locates over anything that says where copies arrive.
fn over<P: HeardPorts>(rt: &impl Abort, ports: &mut P, slaves: usize) -> Located {
    locate(ports, slaves).ok().expect(rt, "no fault")
}

#[test]
fn one_frame_locates_over_any_ports(rt: HostRuntime) {
    let mut ring: Ring = ring(&rt, rt.alloc(), 5);
    put(&rt, &mut ring, 4, false);
    known(&rt, over(&rt, &mut ring, 5), Located::One(4));
}
