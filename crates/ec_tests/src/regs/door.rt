//! The use on the crate's page.

use crate::asserts::assert_same;
use ec_regs::{Fmmu, Plan};

#[test]
fn an_fmmu_is_spelt_planned_and_looked_up(rt: HostRuntime) {
    let fmmu = Fmmu {
        logical: 0x0001_0000,
        length: 2,
        start: 3,
        stop: 4,
        physical: 0x1100,
        bit: 6,
        kind: 1,
        activate: 1,
        reserved: [0; 3],
    };
    let record = fmmu.write();
    let plan = fmmu.plan();
    let place = fmmu.physical_of(fmmu.first_logical());
    let spelt = [
        0x00, 0x00, 0x01, 0x00, 0x02, 0x00, 0x03, 0x04, 0x00, 0x11, 0x06, 0x01, 0x01, 0x00, 0x00,
        0x00,
    ];
    assert_same(&rt, record, spelt);
    assert_same(&rt, Fmmu::read(&record), fmmu);
    let wanted = Plan {
        is_mapped: true,
        logical: 0x0001_0000,
        physical: 0x1100,
        length: 2,
        first_mask: 0xF8,
        last_mask: 0x1F,
        distance: 3,
    };
    assert_same(&rt, plan, wanted);
    assert_same(&rt, place, Some(8 * 0x1100 + 6));
}
