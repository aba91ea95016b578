//! The use on the crate's page.

use super::line::{alone, slave};
use super::peer::peer;
use crate::asserts::assert_same;
use ec_app::{Objects, Rights, Value};
use ec_regs::AlState;
use ec_services::{assign_stations, request_state, sdo_upload};
use std::test::Fail;

#[test]
fn a_slave_is_numbered_brought_up_and_asked(rt: HostRuntime) -> Result<(), Fail> {
    let mut objects = Objects::new();
    objects.add(0x1018, 1, Rights::ReadOnly, Value::Four(2))?;
    let slave = slave(&rt, rt.alloc(), AlState::Init, objects);
    let mut ports = alone(&rt, rt.alloc(), slave);
    let count = assign_stations(&mut ports, 0x1001)?;
    request_state(&mut ports, 0x1001, AlState::PreOp, 10)?;
    let mut peer = peer();
    assert!(rt; peer.counter == 1);
    assert!(rt; peer.to.length == 32 && peer.from.length == 32);
    let vendor = sdo_upload(&mut ports, &mut peer, 0x1018, 1, 3)?;
    assert_same(&rt, count, 1);
    assert_same(&rt, vendor, Value::Four(2));
    Ok(())
}
