//! The use on the crate's page.

use crate::asserts::assert_same;
use ec_app::{Objects, Slave};
use ec_regs::AlState;
use ec_wire::{Form, FrameBuf};
use std::test::Fail;

#[test]
fn a_slave_in_init_refuses_op(rt: HostRuntime) -> Result<(), Fail> {
    // A write of 8, Op, to AL control of the slave 0x1001.
    let asked = [
        14, 0x10, 5, 0, 0x01, 0x10, 0x20, 0x01, 2, 0, 0, 0, 8, 0, 0, 0,
    ];
    let mut slave = Slave::new(rt.alloc(), 0x1001, Objects::new(), 0, 0)?;
    let mut frame = FrameBuf::read(&asked, Form::Udp)?;
    slave.controller_mut().process(&mut frame);
    slave.step();
    let (status, code) = slave.controller().al();
    assert_same(
        &rt,
        (status.state, status.error, code),
        (AlState::Init, true, 0x0011),
    );
    assert!(rt; frame.count() == 1);
    assert_same(&rt, frame.counter(0), 1);
    Ok(())
}
