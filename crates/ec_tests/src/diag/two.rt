//! Each pair of links down on a line of five, and more.

use super::single::{cut_off, located};
use ec_diag::{CutOff, Located};

#[test]
fn two_broken_links_inside_the_line_are_both_found(rt: HostRuntime) {
    for (p, q) in [(1, 2), (1, 3), (1, 4), (2, 3), (2, 4), (3, 4)] {
        located(&rt, rt.alloc(), 5, &[p, q], Located::Between(p, q));
    }
}

#[test]
fn the_slaves_between_two_broken_links_are_cut_off(rt: HostRuntime) {
    for (located, cut) in [
        (Located::Between(1, 2), CutOff::Places(1, 1)),
        (Located::Between(1, 4), CutOff::Places(1, 3)),
        (Located::Between(3, 4), CutOff::Places(3, 3)),
        (Located::One(3), CutOff::Nobody),
        (Located::Whole, CutOff::Nobody),
        (Located::Last(3), CutOff::PerhapsBelow(3)),
        (Located::First(2), CutOff::PerhapsFrom(2)),
        (Located::Unknown, CutOff::NotTold),
        (Located::Changed, CutOff::NotTold),
    ] {
        cut_off(&rt, located, cut);
    }
}

#[test]
fn with_link_0_down_copy_b_tells_the_last_one(rt: HostRuntime) {
    for q in 1..5usize {
        located(&rt, rt.alloc(), 5, &[0, q], Located::Last(q));
    }
}

#[test]
fn with_the_last_link_down_copy_a_tells_the_first_one(rt: HostRuntime) {
    for p in 1..5usize {
        located(&rt, rt.alloc(), 5, &[p, 5], Located::First(p));
    }
}

#[test]
fn with_both_ends_down_nothing_is_known(rt: HostRuntime) {
    located(&rt, rt.alloc(), 5, &[0, 5], Located::Unknown);
    located(&rt, rt.alloc(), 1, &[0, 1], Located::Unknown);
}

#[test]
fn a_third_broken_link_between_two_is_not_seen(rt: HostRuntime) {
    located(&rt, rt.alloc(), 5, &[1, 2, 4], Located::Between(1, 4));
    located(&rt, rt.alloc(), 2, &[0, 1, 2], Located::Unknown);
}
