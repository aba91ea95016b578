//! The use on the crate's page.

use super::{INPUTS, READ};
use crate::asserts::assert_same;
use ec_esc::Controller;
use ec_wire::{Form, FrameBuf};
use std::test::Fail;

#[test]
fn a_frame_takes_a_byte_of_the_inputs_with_it(rt: HostRuntime) -> Result<(), Fail> {
    // An LRD of one byte at 0x00010000.
    let sent = [13, 0x10, 0x0A, 0, 0, 0, 1, 0, 1, 0, 0, 0, 0x00, 0, 0];
    let mut slave = Controller::new(rt.alloc(), 0x1001)?;
    slave.set_syncman(3, &INPUTS);
    slave.set_fmmu(0, &READ);
    slave.load(0x1100, &[0x12]);
    let mut frame = FrameBuf::read(&sent, Form::Udp)?;
    slave.process(&mut frame);
    let back = [13, 0x10, 0x0A, 0, 0, 0, 1, 0, 1, 0, 0, 0, 0x12, 1, 0];
    assert_same(&rt, frame.bytes(), &back[..]);
    Ok(())
}
