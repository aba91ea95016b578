//! The use on the crate's page.

use super::line::{applications, assert_inputs, count, mirror, ring};

#[test]
fn a_mirror_and_a_counter_move(rt: HostRuntime) {
    let mut ring = ring(&rt, rt.alloc());
    let mut applications = applications(&rt, rt.alloc(), &[mirror(0), count(1, 3)]);
    ring.step_all();
    applications.act(&mut ring);
    assert_inputs(&rt, &ring, 0, &[0xAB, 0xCD]);
    assert_inputs(&rt, &ring, 1, &[1, 0, 0, 0, 0, 0, 0, 0, 0, 0, 0, 0]);
}
