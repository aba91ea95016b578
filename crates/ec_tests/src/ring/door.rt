//! The use on the crate's page.

use super::line::{calm, slaves};
use crate::asserts::assert_same;
use ec_regs::AlState;
use ec_ring::{Ring, Travel};
use ec_wire::{Form, FrameBuf};
use std::test::Fail;

/// A broadcast read of AL status.
const STATUS: [u8; 16] = [14, 0x10, 7, 0, 0, 0, 0x30, 0x01, 2, 0, 0, 0, 0, 0, 0, 0];

#[test]
fn each_slave_counts_on_the_copy_that_reaches_it(rt: HostRuntime) -> Result<(), Fail> {
    let three = slaves(&rt, rt.alloc(), &[AlState::Op; 3]);
    let mut ring = Ring::new(three).ok().expect(&rt, "at most 256");
    assert!(rt; ring.slaves().len() == 3);
    ring.set_link(1, false);
    let links = ring.links();
    let sent = FrameBuf::read(&STATUS, Form::Udp)?;
    let came = ring.trip(&sent, &calm(links, links));
    let (a, b) = (came.a.expect(&rt, "copy A"), came.b.expect(&rt, "copy B"));
    assert!(rt; a.count() == 1);
    assert!(rt; b.count() == 1);
    assert_same(&rt, (a.counter(0), b.counter(0)), (1, 2));
    Ok(())
}
