//! Single copies: what each tells, in which order they come, and what is lost.

use ec_diag::{Heard, Located, Told};
use ec_ring::Port;
use std::process::Abort;

/// A copy that was heard so.
fn heard(at: Port, count: u16, turned: bool) -> Heard {
    Heard { at, count, turned }
}

/// A copy tells this of a line of so many slaves.
fn tells(rt: &impl Abort, copy: Heard, slaves: usize, told: Told) {
    assert_eq!(rt; copy.tells(slaves), told);
}

/// This is known of the links.
pub fn known(rt: &impl Abort, located: Located, expected: Located) {
    assert_eq!(rt; located, expected);
}

#[test]
fn a_copy_at_port_a_that_did_not_turn_tells_the_first_broken_link(rt: HostRuntime) {
    tells(&rt, heard(Port::A, 1, false), 5, Told::First(1));
    tells(&rt, heard(Port::A, 5, false), 5, Told::First(5));
    tells(&rt, heard(Port::A, 0, false), 5, Told::Whole);
}

#[test]
fn a_copy_that_turned_tells_the_last_broken_link(rt: HostRuntime) {
    tells(&rt, heard(Port::B, 1, true), 5, Told::Last(4));
    tells(&rt, heard(Port::B, 5, true), 5, Told::Last(0));
}

#[test]
fn a_copy_at_port_b_that_did_not_turn_passed_the_whole_line(rt: HostRuntime) {
    tells(&rt, heard(Port::B, 5, false), 5, Told::Whole);
    tells(&rt, heard(Port::B, 4, false), 5, Told::Never);
    tells(&rt, heard(Port::B, 0, false), 5, Told::Never);
}

#[test]
fn what_no_line_of_so_many_slaves_gives_is_never_heard(rt: HostRuntime) {
    tells(&rt, heard(Port::A, 6, false), 5, Told::Never);
    tells(&rt, heard(Port::A, 2, true), 5, Told::Never);
    tells(&rt, heard(Port::B, 0, true), 5, Told::Never);
    tells(&rt, heard(Port::B, 6, true), 5, Told::Never);
    tells(&rt, heard(Port::A, 65535, false), 256, Told::Never);
}

#[test]
fn copies_tell_the_same_in_any_order_and_again(rt: HostRuntime) {
    let first = heard(Port::A, 2, false);
    let last = heard(Port::B, 2, true);
    let one = Located::Unknown
        .and_heard(5, Some(first))
        .and_heard(5, Some(last));
    let other = Located::Unknown
        .and_heard(5, Some(last))
        .and_heard(5, Some(first));
    known(&rt, one, Located::Between(2, 3));
    known(&rt, other, Located::Between(2, 3));
    known(&rt, one.and_heard(5, Some(last)), Located::Between(2, 3));
}

#[test]
fn a_lost_copy_tells_nothing(rt: HostRuntime) {
    known(&rt, Located::Unknown.and_heard(5, None), Located::Unknown);
    known(&rt, Located::First(2).and_heard(5, None), Located::First(2));
}

#[test]
fn one_copy_alone_leaves_the_other_side_open(rt: HostRuntime) {
    let first = heard(Port::A, 2, false);
    let last = heard(Port::B, 2, true);
    known(
        &rt,
        Located::Unknown.and_heard(5, Some(first)),
        Located::First(2),
    );
    known(
        &rt,
        Located::Unknown.and_heard(5, Some(last)),
        Located::Last(3),
    );
}

#[test]
fn copies_that_no_one_set_of_links_gives_say_that_it_changed(rt: HostRuntime) {
    known(&rt, Located::Unknown.and(5, Told::Never), Located::Changed);
    known(&rt, Located::Whole.and(5, Told::First(2)), Located::Changed);
    known(&rt, Located::One(2).and(5, Told::Whole), Located::Changed);
    known(
        &rt,
        Located::First(2).and(5, Told::First(3)),
        Located::Changed,
    );
    known(
        &rt,
        Located::First(3).and(5, Told::Last(2)),
        Located::Changed,
    );
    known(
        &rt,
        Located::Between(1, 3).and(5, Told::Last(2)),
        Located::Changed,
    );
    known(&rt, Located::Changed.and(5, Told::Whole), Located::Changed);
}
