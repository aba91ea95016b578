//! No link down, and each link alone.

use super::copies::known;
use super::line::{broken, put, ring};
use ec_diag::{CutOff, Located, locate_ring};
use std::alloc::Global;
use std::process::Abort;

/// On a ring of this many slaves with these links down this is located.
pub fn located(rt: &impl Abort, alloc: Global, count: usize, down: &[usize], expected: Located) {
    let mut ring = broken(rt, alloc, count, down);
    known(rt, locate_ring(&mut ring), expected);
}

/// These slaves are cut off.
pub fn cut_off(rt: &impl Abort, located: Located, expected: CutOff) {
    assert_eq!(rt; located.cut_off(), expected);
}

#[test]
fn a_whole_cable_is_found_whole(rt: HostRuntime) {
    for count in [0, 1, 2, 5] {
        located(&rt, rt.alloc(), count, &[], Located::Whole);
    }
}

#[test]
fn the_one_broken_link_of_a_line_of_one_is_found(rt: HostRuntime) {
    located(&rt, rt.alloc(), 1, &[0], Located::One(0));
    located(&rt, rt.alloc(), 1, &[1], Located::One(1));
}

#[test]
fn the_one_broken_link_of_a_line_of_two_is_found(rt: HostRuntime) {
    located(&rt, rt.alloc(), 2, &[0], Located::One(0));
    located(&rt, rt.alloc(), 2, &[1], Located::One(1));
    located(&rt, rt.alloc(), 2, &[2], Located::One(2));
}

#[test]
fn the_one_broken_link_of_a_line_of_five_is_found(rt: HostRuntime) {
    for k in 0..6usize {
        located(&rt, rt.alloc(), 5, &[k], Located::One(k));
    }
}

#[test]
fn the_one_broken_link_of_the_longest_line_is_found(rt: HostRuntime) {
    let mut ring = ring(&rt, rt.alloc(), 256);
    for k in [0usize, 1, 128, 255, 256] {
        put(&rt, &mut ring, k, false);
        known(&rt, locate_ring(&mut ring), Located::One(k));
        put(&rt, &mut ring, k, true);
    }
    known(&rt, locate_ring(&mut ring), Located::Whole);
}

#[test]
fn of_a_line_without_slaves_a_broken_link_tells_nothing(rt: HostRuntime) {
    located(&rt, rt.alloc(), 0, &[0], Located::Unknown);
}
