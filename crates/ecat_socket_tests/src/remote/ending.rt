//! When a trip ends: each look at both ports takes half a millisecond.

use super::script::{Script, Wound};
use super::{NUMBERED, trip, under};
use crate::asserts::assert_same;
use ec_number::Trip;
use ec_ring::{HeardPorts, LateCopies};
use ecat_remote::RemotePorts;
use std::alloc::Global;
use std::process::Abort;

/// How many microseconds a trip waits: 99 looks.
const LIMIT: u64 = 50_000;

/// How many looks there are in that, before the last one at a port at which no copy came.
const LOOKS: usize = 99;

/// Ports of which a cycle of one datagram is expected to come back with this counter, and at which the copies
/// come behind so many looks; ten milliseconds pass before a trip is over that waits for nothing.
fn ports_at(
    rt: &impl Abort,
    alloc: Global,
    script: Script,
    expected: u16,
) -> RemotePorts<Script, Wound> {
    let mut counters = Vec::new(alloc);
    counters.push(expected).expect(rt, "memory");
    let timer = Wound { now: 0, step: 500 };
    RemotePorts::new(script, timer, LIMIT, Trip::of(0)).expecting(counters)
}

/// A script with copy B at port A and copy A at port B, both with the counter 2, behind so many looks; or
/// with none at port B.
fn copies(held: [usize; 2], most_b: usize) -> Script {
    let mut script = Script::new([under(1, 2); 4], 1, [under(0, 2); 4], most_b);
    script.held = held;
    script
}

/// So many cycles in which nothing goes out.
fn pass_cycles(ports: &mut RemotePorts<Script, Wound>, count: usize) {
    for _cycle in 0..count {
        ports.begin_cycle(None);
        ports.end_cycle();
    }
}

/// Asserts what comes of a cycle's trip, and how often each port was looked at.
fn assert_cycle(
    rt: &impl Abort,
    ports: &mut RemotePorts<Script, Wound>,
    left: Option<u64>,
    wanted: [Option<(u8, u16)>; 2],
    looks: [usize; 2],
) {
    ports.begin_cycle(left);
    assert_same(rt, trip(rt, ports), wanted);
    ports.end_cycle();
    assert_same(rt, ports.carrier().looks, looks);
}

/// Copy B, or copy A, as it came.
const CAME: Option<(u8, u16)> = Some((0x55, 2));

#[test]
fn a_trip_ends_at_the_second_copy(rt: HostRuntime) {
    let mut ports = ports_at(&rt, rt.alloc(), copies([3, 5], 1), 7);
    assert_cycle(&rt, &mut ports, None, [CAME, CAME], [6, 6]);
    let mut ports = ports_at(&rt, rt.alloc(), copies([5, 3], 1), 7);
    assert_cycle(&rt, &mut ports, None, [CAME, CAME], [6, 6]);
}

#[test]
fn it_ends_5_milliseconds_behind_a_copy_with_all_counters(rt: HostRuntime) {
    // the copy is there 3 milliseconds behind the sending: it is waited up to 8
    let mut ports = ports_at(&rt, rt.alloc(), copies([4, 0], 0), 2);
    assert_cycle(&rt, &mut ports, None, [CAME, None], [13, 14]);
}

#[test]
fn it_ends_as_long_again_behind_a_copy_with_all_counters(rt: HostRuntime) {
    // 16 milliseconds: it is waited up to 32
    let mut ports = ports_at(&rt, rt.alloc(), copies([30, 0], 0), 2);
    assert_cycle(&rt, &mut ports, None, [CAME, None], [61, 62]);
}

#[test]
fn the_other_copy_is_taken_in_that_time(rt: HostRuntime) {
    let mut ports = ports_at(&rt, rt.alloc(), copies([4, 12], 1), 2);
    assert_cycle(&rt, &mut ports, None, [CAME, CAME], [13, 13]);
    // at the last look
    let mut ports = ports_at(&rt, rt.alloc(), copies([4, 13], 1), 2);
    assert_cycle(&rt, &mut ports, None, [CAME, CAME], [13, 14]);
}

#[test]
fn a_copy_with_a_counter_short_ends_nothing(rt: HostRuntime) {
    let mut ports = ports_at(&rt, rt.alloc(), copies([4, 0], 0), 3);
    assert_cycle(&rt, &mut ports, None, [CAME, None], [LOOKS, LOOKS + 1]);
}

#[test]
fn nothing_is_expected_outside_of_a_cycle_or_behind_its_frames(rt: HostRuntime) {
    let mut ports = ports_at(&rt, rt.alloc(), copies([4, 0], 0), 2);
    assert_same(&rt, trip(&rt, &mut ports), [CAME, None]);
    assert_same(&rt, ports.carrier().looks, [LOOKS, LOOKS + 1]);
    // copy A of the second trip of a cycle of one frame
    let mut script = Script::new([under(2, 2); 4], 1, [NUMBERED; 4], 0);
    script.held = [2 * LOOKS, 0];
    let mut ports = ports_at(&rt, rt.alloc(), script, 2);
    ports.begin_cycle(None);
    assert_same(&rt, trip(&rt, &mut ports), [None, None]);
    assert_same(&rt, trip(&rt, &mut ports), [CAME, None]);
    // between the two each port was looked at once more
    assert_same(&rt, ports.carrier().looks, [2 * LOOKS + 2, 2 * LOOKS + 3]);
}

#[test]
fn the_deadline_of_a_cycle_ends_a_trip(rt: HostRuntime) {
    // the cycle began half a millisecond before the sending
    let mut ports = ports_at(&rt, rt.alloc(), copies([0, 0], 0), 3);
    assert_cycle(&rt, &mut ports, Some(25_000), [CAME, None], [48, 49]);
    // one that is over already
    let mut ports = ports_at(&rt, rt.alloc(), copies([0, 0], 1), 3);
    assert_cycle(&rt, &mut ports, Some(0), [CAME, CAME], [1, 1]);
}

#[test]
fn a_trip_behind_a_late_cycle_waits_half_its_time(rt: HostRuntime) {
    let script = Script::new([under(1, 2); 4], 0, [under(0, 2); 4], 0);
    let mut ports = ports_at(&rt, rt.alloc(), script, 2);
    // ten milliseconds from half of one before the sending: 18 looks, and the last one
    assert_cycle(&rt, &mut ports, Some(10_000), [None, None], [19, 19]);
    // one look before the sending, and in five milliseconds 9 looks, and the last one
    assert_same(&rt, trip(&rt, &mut ports), [None, None]);
    assert_same(&rt, ports.carrier().looks, [30, 30]);
}

#[test]
fn a_port_at_which_nothing_comes_is_waited_for_less_and_less(rt: HostRuntime) {
    // the copy is there one millisecond behind the sending: the other one has 5 more, behind one silent cycle
    // 2.5, behind two 1.25, and then as long again
    let rows = [
        (0, [9, 10]),
        (1, [4, 5]),
        (2, [2, 3]),
        (3, [1, 2]),
        (99, [1, 2]),
    ];
    for (silent, looks) in rows {
        let mut ports = ports_at(&rt, rt.alloc(), copies([0, 0], 0), 2);
        pass_cycles(&mut ports, silent);
        assert_cycle(&rt, &mut ports, None, [CAME, None], looks);
    }
    // nor is the clock watched for one close behind, once nothing came for 100 cycles
    let mut ports = ports_at(&rt, rt.alloc(), copies([0, 0], 0), 2);
    pass_cycles(&mut ports, 100);
    assert_cycle(&rt, &mut ports, None, [CAME, None], [2, 3]);
}

#[test]
fn a_packet_ends_that_nothing_comes(rt: HostRuntime) {
    let mut script = Script::new([under(1, 2); 4], 1, [under(9, 9); 4], 1);
    script.held = [4, 3];
    let mut ports = ports_at(&rt, rt.alloc(), script, 2);
    pass_cycles(&mut ports, 200);
    assert_cycle(&rt, &mut ports, None, [CAME, None], [13, 14]);
}

#[test]
fn a_port_that_speaks_alone_waits_for_one_copy(rt: HostRuntime) {
    let mut script = copies([4, 0], 0);
    script.speaks_b = false;
    let mut ports = ports_at(&rt, rt.alloc(), script, 7);
    assert_same(&rt, trip(&rt, &mut ports), [CAME, None]);
    assert_same(&rt, ports.carrier().looks, [5, 6]);
}

#[test]
fn a_copy_that_comes_before_the_next_frame_is_not_late(rt: HostRuntime) {
    let mut script = Script::new([under(1, 2); 4], 1, [under(0, 2); 4], 1);
    script.held = [0, LOOKS + 1];
    let mut ports = ports_at(&rt, rt.alloc(), script, 7);
    assert_same(&rt, trip(&rt, &mut ports), [CAME, None]);
    assert_same(&rt, trip(&rt, &mut ports), [None, None]);
    assert_same(&rt, ports.take_late(), LateCopies::none());
}

#[test]
fn a_copy_of_the_trip_before_the_last_is_late(rt: HostRuntime) {
    // it waits when the third frame goes out
    let mut script = Script::new([under(1, 2); 4], 1, [under(0, 2); 4], 1);
    script.held = [0, 2 * LOOKS + 3];
    let mut ports = ports_at(&rt, rt.alloc(), script, 7);
    assert_same(&rt, trip(&rt, &mut ports), [CAME, None]);
    assert_same(&rt, trip(&rt, &mut ports), [None, None]);
    assert_same(&rt, ports.take_late(), LateCopies::none());
    assert_same(&rt, trip(&rt, &mut ports), [None, None]);
    let late = LateCopies {
        count: 1,
        oldest: Some(0),
        strangers: 0,
    };
    assert_same(&rt, ports.take_late(), late);
}
