//! What is taken for a copy, and what is passed over.

use super::script::{Script, Wound};
use super::{NUMBERED, SENT, ports_over, trip, under, with};
use crate::asserts::assert_same;
use ec_master::{PortFault, Ports};
use ec_ring::{HeardPorts, LateCopies, Port};
use ec_wire::{Form, FrameBuf};
use ecat_remote::greet;

/// What came late.
fn late(count: u64, oldest: Option<u64>) -> LateCopies {
    LateCopies {
        count,
        oldest,
        strangers: 0,
    }
}

#[test]
fn a_copy_comes_at_each_port(rt: HostRuntime) {
    // on a whole line the copy from port B, whose number is 1, comes at port A, and the other one at port B
    let script = Script::new([under(1, 3); 4], 1, [with(12, 9); 4], 1);
    let mut ports = ports_over(script, Wound::still());
    assert_same(&rt, trip(&rt, &mut ports), [Some((0x55, 3)), Some((9, 0))]);
}

#[test]
fn nothing_in_time_is_a_lost_copy(rt: HostRuntime) {
    let script = Script::new([NUMBERED; 4], 0, [NUMBERED; 4], 1);
    let mut ports = ports_over(script, Wound::still());
    assert_same(&rt, trip(&rt, &mut ports), [None, Some((0x55, 0))]);
}

#[test]
fn a_copy_that_comes_at_both_ports_is_taken_once(rt: HostRuntime) {
    let script = Script::new([NUMBERED; 4], 1, [NUMBERED; 4], 4);
    let mut ports = ports_over(script, Wound::still());
    assert_same(&rt, trip(&rt, &mut ports), [Some((0x55, 0)), None]);
}

#[test]
fn other_packets_are_passed_over(rt: HostRuntime) {
    // a length that is none, another question, the highest byte of another number, and then the copy
    let a = [with(0, 0x20), with(3, 2), with(32, 0x80), with(13, 2)];
    // a number in an APRD, and then a copy whose counter has moved as far as it can
    let b = [
        with(15, 0x01),
        [
            0x21, 0x10, 0x0C, 0, 0, 0, 1, 0, 1, 0x80, 0, 0, 0x55, 0xFF, 0xFF, 0, 0, 0, 0, 0, 0, 8,
            0, 0, 0, 1, 0, 0, 0, 0, 0, 0, 0, 0, 0,
        ],
        NUMBERED,
        NUMBERED,
    ];
    let script = Script::new(a, 4, b, 2);
    let mut ports = ports_over(script, Wound::still());
    assert_same(
        &rt,
        trip(&rt, &mut ports),
        [Some((0x55, 2)), Some((0x55, 65535))],
    );
}

#[test]
fn copies_of_another_trip_are_passed_over_and_told(rt: HostRuntime) {
    // both copies of the second trip, whose numbers are 2 and 3, come behind those of the first
    let a = [under(0, 1), under(0, 1), under(2, 4), under(0, 1)];
    let b = [under(1, 2), under(1, 2), under(3, 5), under(1, 2)];
    let script = Script::new(a, 4, b, 4);
    let mut ports = ports_over(script, Wound::still());
    assert_same(
        &rt,
        trip(&rt, &mut ports),
        [Some((0x55, 1)), Some((0x55, 2))],
    );
    assert_same(&rt, ports.take_late(), late(0, None));
    assert_same(
        &rt,
        trip(&rt, &mut ports),
        [Some((0x55, 4)), Some((0x55, 5))],
    );
    // one of the first trip at each port
    assert_same(&rt, ports.take_late(), late(2, Some(0)));
    assert_same(&rt, ports.take_late(), late(0, None));
    assert_same(&rt, trip(&rt, &mut ports), [None, None]);
    assert_same(&rt, ports.take_late(), late(2, Some(0)));
}

#[test]
fn packets_of_other_runs_are_strangers_and_not_late(rt: HostRuntime) {
    // numbers that are to come, and those of a run before
    let a = [under(9, 1), with(32, 0x7F), with(32, 0xFF), under(0, 2)];
    let script = Script::new(a, 4, [NUMBERED; 4], 0);
    let mut ports = ports_over(script, Wound::still());
    assert_same(&rt, trip(&rt, &mut ports), [Some((0x55, 2)), None]);
    let strangers = LateCopies {
        count: 0,
        oldest: None,
        strangers: 3,
    };
    assert_same(&rt, ports.take_late(), strangers);
    assert_same(&rt, ports.take_late(), late(0, None));
}

#[test]
fn a_frame_without_a_number_is_a_stranger_and_what_is_no_frame_is_none(rt: HostRuntime) {
    // the number in an APRD, a length that is none, and a copy of this trip that comes twice
    let a = [with(15, 0x01), with(0, 0x20), under(0, 2), under(0, 2)];
    let script = Script::new(a, 4, [NUMBERED; 4], 0);
    let mut ports = ports_over(script, Wound::still());
    assert_same(&rt, trip(&rt, &mut ports), [Some((0x55, 2)), None]);
    assert_same(&rt, ports.take_late().strangers, 1);
}

#[test]
fn a_copy_behind_thousands_of_other_packets_is_taken(rt: HostRuntime) {
    let mut script = Script::new(
        [under(8, 1), under(1, 2), NUMBERED, NUMBERED],
        3_002,
        [NUMBERED; 4],
        0,
    );
    script.repeated = 3_000;
    let mut ports = ports_over(script, Wound::still());
    assert_same(&rt, trip(&rt, &mut ports), [Some((0x55, 2)), None]);
}

#[test]
fn what_waits_when_the_time_is_over_is_taken(rt: HostRuntime) {
    let mut timer = Wound::still();
    // it is looked at behind the sending and before each receive
    timer.step = 30_000;
    let script = Script::new(
        [NUMBERED; 4],
        1,
        [under(9, 0), under(9, 0), under(1, 7), NUMBERED],
        3,
    );
    let mut ports = ports_over(script, timer);
    assert_same(
        &rt,
        trip(&rt, &mut ports),
        [Some((0x55, 0)), Some((0x55, 7))],
    );
    assert_same(&rt, ports.carrier().within, 0);
}

#[test]
fn packets_that_are_no_copies_do_not_prolong_a_trip(rt: HostRuntime) {
    let mut timer = Wound::still();
    timer.step = 6_000;
    let mut script = Script::new([with(0, 0x20); 4], usize::MAX, [NUMBERED; 4], 0);
    script.repeated = usize::MAX;
    let mut ports = ports_over(script, timer);
    assert_same(&rt, trip(&rt, &mut ports), [None, None]);
    // three in time, and as many as a socket keeps
    assert_same(&rt, ports.carrier().taken, [4_099, 0]);
}

#[test]
fn a_copy_arrives_where_it_is_received(rt: HostRuntime) {
    let script = Script::new([under(1, 0); 4], 1, [NUMBERED; 4], 1);
    let mut ports = ports_over(script, Wound::still());
    let sent = FrameBuf::read(&SENT, Form::Udp).ok().expect(&rt, "a frame");
    let came = ports.trip_heard(&sent).ok().expect(&rt, "no fault");
    assert_same(&rt, came.a.map(|x| x.at), Some(Port::A));
    assert_same(&rt, came.b.map(|x| x.at), Some(Port::B));
}

#[test]
fn the_first_call_that_fails_ends_the_trip(rt: HostRuntime) {
    let sent = FrameBuf::read(&SENT, Form::Udp).ok().expect(&rt, "a frame");
    for failing in 1..5usize {
        let mut script = Script::new([NUMBERED; 4], 1, [NUMBERED; 4], 1);
        script.failing = failing;
        let mut ports = ports_over(script, Wound::still());
        assert_same(&rt, ports.trip(&sent).err(), Some(PortFault));
        assert_same(&rt, Ports::failures(&ports), 1);
        assert_same(&rt, ports.trip(&sent).is_ok(), true);
    }
}

#[test]
fn a_greeting_is_no_trip(rt: HostRuntime) {
    // what comes of it is received at port A, once for each port
    let mut script = Script::new([NUMBERED; 4], 2, [under(0, 1); 4], 1);
    let sent = FrameBuf::read(&SENT, Form::Udp).ok().expect(&rt, "a frame");
    greet(&mut script, &sent, 20_000);
    assert_same(&rt, (script.made, script.taken), (4, [2, 0]));
    // the first trip has the numbers 0 and 1
    let mut ports = ports_over(script, Wound::still());
    assert_same(&rt, trip(&rt, &mut ports), [None, Some((0x55, 1))]);
}
