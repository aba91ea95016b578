//! A line by its records: one slave with a byte of outputs at 0x1000, and one of inputs at 0x1100, both
//! mapped to the logical byte 0x00010000.

use super::asserts::assert_same;
use crate::{Item, Records, rmp_check, rmp_check_item, rmp_covered, rmp_expected, rmp_shown};
use std::process::Abort;

/// The records of the slave.
fn slave(station: u16) -> Records {
    let mut slave = Records {
        station,
        fmmus: [0; 128],
        sync_managers: [0; 64],
    };
    let writes = [0, 0, 1, 0, 1, 0, 0, 7, 0x00, 0x10, 0, 2, 1, 0, 0, 0];
    let reads = [0, 0, 1, 0, 1, 0, 0, 7, 0x00, 0x11, 0, 1, 1, 0, 0, 0];
    let outputs = [0x00, 0x10, 1, 0, 0x04, 0, 1, 0];
    let inputs = [0x00, 0x11, 1, 0, 0x00, 0, 1, 0];
    slave.fmmus[..16].copy_from_slice(&writes);
    slave.fmmus[16..32].copy_from_slice(&reads);
    slave.sync_managers[16..24].copy_from_slice(&outputs);
    slave.sync_managers[24..32].copy_from_slice(&inputs);
    slave
}

/// A logical item of one byte, by its kind.
fn logical(kind: u16) -> Item {
    Item {
        address: 0x0001_0000,
        offset: 0,
        length: 1,
        kind,
        expected: 0,
        sent: 0,
        came: 0,
        passed: 0,
    }
}

#[test]
fn a_line_of_records_is_checked(rt: HostRuntime) {
    assert_same(&rt, rmp_check(&[slave(0x1001)]).rule, 0);
    let twins = rmp_check(&[slave(0x1001), slave(0x1001)]);
    assert_same(&rt, (twins.rule, twins.slave, twins.other_slave), (1, 0, 1));
    let crossed = rmp_check(&[slave(0x1001), slave(0x1002)]);
    assert_same(&rt, (crossed.rule, crossed.place), (6, 524288));
}

#[test]
fn a_line_of_257_slaves_is_too_long(rt: HostRuntime) {
    let none = Records {
        station: 0,
        fmmus: [0; 128],
        sync_managers: [0; 64],
    };
    let long = rmp_check(&[none; 257]);
    assert_same(&rt, (long.rule, long.place), (8, 257));
}

/// An item of this kind counts so much there.
fn counts(rt: &impl Abort, kind: u16, counter: u32) {
    let found = rmp_expected(&[slave(0x1001)], &logical(kind)).counter;
    assert_same(rt, found, counter);
}

#[test]
fn an_exchange_counts_three(rt: HostRuntime) {
    counts(&rt, 12, 3);
    counts(&rt, 10, 1);
    counts(&rt, 11, 1);
}

#[test]
fn what_is_written_alone_is_not_covered(rt: HostRuntime) {
    let gap = rmp_covered(&[slave(0x1001)], &[logical(11)]);
    assert_same(&rt, (gap.code, gap.fmmu, gap.way), (29, 1, 0));
    assert_same(&rt, rmp_covered(&[slave(0x1001)], &[logical(12)]).code, 0);
    assert_same(&rt, rmp_check_item(&[slave(0x1001)], &logical(12)).code, 0);
}

#[test]
fn an_area_is_shown_by_its_last_byte(rt: HostRuntime) {
    assert_same(&rt, rmp_shown(&[slave(0x1001)], &[logical(12)]).code, 0);
    let unwritten = rmp_shown(&[slave(0x1001)], &[logical(10)]);
    assert_same(
        &rt,
        (unwritten.code, unwritten.at, unwritten.sync_manager),
        (36, 0, 2),
    );
    let mut longer = slave(0x1001);
    longer.sync_managers[18] = 2;
    let left = rmp_shown(&[longer], &[logical(10), logical(12)]);
    assert_same(&rt, (left.code, left.sync_manager, left.item), (35, 2, 1));
}
