//! The use on the crate's page.

use super::many::{area, byte};
use crate::asserts::assert_same;
use ec_app::{Objects, Slave};
use ec_map::{Item, Kind, check, expected};
use ec_master::{Verdict, Work, weather_cycle};
use ec_ring::Ring;
use std::test::Fail;

#[test]
fn a_byte_is_exchanged_though_a_cable_is_broken(rt: HostRuntime) -> Result<(), Fail> {
    let mut slave = Slave::new(rt.alloc(), 0x1001, Objects::new(), 1, 1)?;
    let controller = slave.controller_mut();
    controller.set_syncman(2, &area(0x1000, 0x04));
    controller.set_syncman(3, &area(0x1100, 0x00));
    controller.set_fmmu(0, &byte(0x0001_0000, 0x1000, 2));
    controller.set_fmmu(1, &byte(0x0001_0000, 0x1100, 1));
    controller.load(0x1100, &[0x12]);
    let mut line = Vec::new(rt.alloc());
    line.push(slave)?;
    let mut ring = Ring::new(line).ok().expect(&rt, "at most 256");
    assert_same(&rt, ring.slaves().len(), 1);
    ring.set_link(0, false);
    check(ring.slaves())?;
    let item = Item::new(Kind::Lrw, 0x0001_0000, &[0xFF])?;
    let count = expected(ring.slaves(), &item);
    let mut work = Work::new();
    work.push(item)?;
    assert!(rt; work.len() == 1);
    let verdict = weather_cycle(&mut ring, &[], &[count], &mut work);
    assert_same(&rt, verdict, Verdict::Good);
    assert!(rt; work.len() == 1);
    assert_same(&rt, work.item(0).data(), [0x12].as_slice());
    assert_same(&rt, work.item(0).counter(), 3);
    Ok(())
}
