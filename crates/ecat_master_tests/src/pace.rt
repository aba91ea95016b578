//! Cycles that are counted, and an input with whose end they end.

use crate::asserts::assert_same;
use ecat_master::Pace;
use ecat_pace::{Beat, Ending};
use std::io::Write;
use std::os::unix::net::UnixStream;
use std::process::Abort;
use std::rt::Stdin;
use std::thread;
use std::time::Duration;

/// Asserts that there is to be another cycle, or none.
fn goes_on(rt: &impl Abort, pace: &mut impl Pace, wanted: bool) {
    assert_eq!(rt; pace.next(), wanted);
}

#[test]
fn so_many_cycles_are_made_and_none_more(rt: HostRuntime) {
    let beat = Beat::<_, Stdin>::new(&rt, None, Some(2), None);
    let mut beat = beat.ok().expect(&rt, "a clock");
    goes_on(&rt, &mut beat, true);
    goes_on(&rt, &mut beat, true);
    goes_on(&rt, &mut beat, false);
    goes_on(&rt, &mut beat, false);
}

#[test]
fn cycles_are_as_far_apart_as_they_are_to_be(rt: HostRuntime) {
    let every = Some(Duration::from_millis(20));
    let beat = Beat::<_, Stdin>::new(&rt, every, Some(3), None);
    let mut beat = beat.ok().expect(&rt, "a clock");
    goes_on(&rt, &mut beat, true);
    goes_on(&rt, &mut beat, true);
    goes_on(&rt, &mut beat, true);
    assert_same(&rt, beat.now() >= 40_000, true);
}

#[test]
fn cycles_whose_time_has_passed_are_left_out(rt: HostRuntime) {
    let every = Some(Duration::from_millis(2));
    let beat = Beat::<_, Stdin>::new(&rt, every, Some(2), None);
    let mut beat = beat.ok().expect(&rt, "a clock").sparing();
    assert_same(&rt, beat.spare(), 400);
    goes_on(&rt, &mut beat, true);
    // the first one is at once, and the second one two milliseconds later
    assert_same(&rt, (beat.late(), beat.missed()), (None, 0));
    thread::sleep(&rt, Duration::from_millis(50));
    goes_on(&rt, &mut beat, true);
    assert_same(&rt, beat.late().unwrap_or(0) >= 48_000, true);
    assert_same(&rt, beat.missed() >= 24, true);
    assert_same(&rt, beat.left().unwrap_or(u64::MAX) <= 2_000, true);
}

#[test]
fn cycles_end_with_their_input(rt: HostRuntime) {
    let (ours, theirs) = UnixStream::pair(&rt).ok().expect(&rt, "two sockets");
    let ending = Ending::of(&rt, rt.alloc(), theirs)
        .ok()
        .expect(&rt, "a wait");
    let beat = Beat::new(&rt, None, None, Some(ending));
    let mut beat = beat.ok().expect(&rt, "a clock");
    goes_on(&rt, &mut beat, true);
    assert_same(
        &rt,
        (&ours).write_all(b"what it brings is passed over").is_ok(),
        true,
    );
    goes_on(&rt, &mut beat, true);
    goes_on(&rt, &mut beat, true);
    drop(ours);
    goes_on(&rt, &mut beat, false);
}
