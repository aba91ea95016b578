//! The use on the crate's page.

use super::copies::known;
use super::line::{put, ring};
use super::single::cut_off;
use ec_diag::{CutOff, Located, locate_ring};

#[test]
fn a_broken_link_is_found_and_then_who_is_cut_off(rt: HostRuntime) {
    let mut ring = ring(&rt, rt.alloc(), 3);
    put(&rt, &mut ring, 1, false);
    let located = locate_ring(&mut ring);
    known(&rt, located, Located::One(1));
    cut_off(&rt, located, CutOff::Nobody);
    put(&rt, &mut ring, 2, false);
    let located = locate_ring(&mut ring);
    known(&rt, located, Located::Between(1, 2));
    cut_off(&rt, located, CutOff::Places(1, 1));
}
