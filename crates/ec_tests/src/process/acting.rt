//! What applications put, and what is refused.

use super::line::{applications, assert_inputs, count, load_outputs, mirror, ring};
use ec_applications::{Application, Applications, Behaviour};
use ec_ring::Ring;
use std::process::Abort;

/// Lets applications act so often.
fn act(applications: &mut Applications, ring: &mut Ring, times: usize) {
    for _time in 0..times {
        applications.act(ring);
    }
}

/// Asserts that nothing moves under an application.
fn assert_idle(rt: &(impl AllocGlobal + Abort), one: Application) {
    let mut ring = ring(rt, rt.alloc());
    let mut applications = applications(rt, rt.alloc(), &[one]);
    applications.act(&mut ring);
    assert_inputs(rt, &ring, 0, &[0, 0, 0]);
    assert_inputs(rt, &ring, 1, &[0; 13]);
}

#[test]
fn a_count_goes_over_its_bytes(rt: HostRuntime) {
    let mut ring = ring(&rt, rt.alloc());
    let mut applications = applications(&rt, rt.alloc(), &[count(0, 3), count(1, 3)]);
    act(&mut applications, &mut ring, 0x1FF);
    assert_inputs(&rt, &ring, 0, &[0xFF, 0x01]);
    applications.act(&mut ring);
    assert_inputs(&rt, &ring, 0, &[0x00, 0x02, 0x00]);
    assert_inputs(
        &rt,
        &ring,
        1,
        &[0x00, 0x02, 0, 0, 0, 0, 0, 0, 0, 0, 0, 0, 0],
    );
}

#[test]
fn a_mirror_follows_what_its_application_is_shown(rt: HostRuntime) {
    let mut ring = ring(&rt, rt.alloc());
    let mut applications = applications(&rt, rt.alloc(), &[mirror(0)]);
    applications.act(&mut ring);
    load_outputs(&rt, &mut ring, 0, &[0x55]);
    assert_inputs(&rt, &ring, 0, &[0xAB, 0xCD]);
    applications.act(&mut ring);
    assert_inputs(&rt, &ring, 0, &[0x55, 0xCD]);
    assert_inputs(&rt, &ring, 1, &[0; 12]);
}

#[test]
fn what_does_not_fit_moves_nothing(rt: HostRuntime) {
    // One byte of outputs, twelve of inputs.
    assert_idle(&rt, mirror(1));
    // The area of outputs is none of inputs, and sync manager 4 guards none.
    assert_idle(&rt, count(0, 2));
    assert_idle(&rt, count(0, 4));
    // Neither such a sync manager nor such a slave is there.
    assert_idle(&rt, count(0, 8));
    assert_idle(&rt, count(2, 3));
    let swapped = Behaviour::Mirror {
        inputs: 2,
        outputs: 3,
    };
    assert_idle(
        &rt,
        Application {
            place: 0,
            behaviour: swapped,
        },
    );
}

#[test]
fn nobody_changes_nothing(rt: HostRuntime) {
    let mut ring = ring(&rt, rt.alloc());
    let mut nobody = Applications::none();
    nobody.act(&mut ring);
    assert_inputs(&rt, &ring, 0, &[0, 0]);
    assert_inputs(&rt, &ring, 1, &[0; 12]);
}
