//! The use on the crate's page.

use super::line::BYTE;
use crate::asserts::assert_same;
use ec_app::{Objects, Slave};
use ec_check::{MapFault, check};
use ec_regs::{Fmmu, SyncMan};
use std::test::Fail;

#[test]
fn an_fmmu_behind_its_area_is_named(rt: HostRuntime) -> Result<(), Fail> {
    let mut slave = Slave::new(rt.alloc(), 0x1001, Objects::new(), 2, 0)?;
    slave
        .controller_mut()
        .set_syncman(2, &SyncMan::outputs(0x1000, 2));
    slave
        .controller_mut()
        .set_fmmu(0, &Fmmu::writing(BYTE, 1, 0x1001));
    slave
        .controller_mut()
        .set_fmmu(1, &Fmmu::writing(BYTE, 1, 0x1002));
    let verdict = check(&[slave]);
    let outside = MapFault::OutsideArea {
        slave: 0,
        fmmu: 1,
        address: 0x1002,
    };
    assert_same(&rt, verdict, Err(outside));
    Ok(())
}
