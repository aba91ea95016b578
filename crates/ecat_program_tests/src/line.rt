//! The records of a line, by which it is checked, and sources that fail. A test accepts want of memory as an
//! answer.

mod records;

use crate::reading::{is_want_of_memory, scene_of};
use ec_check::Mapped;
use ec_wire::Kind;
use ecat_setup::{LineFailure, records_of, slaves_of};
use ecat_source::{Bytes, FailsAt};
use std::process::Abort;

/// Slaves with records of every kind, some of them set twice, and one with none.
const MAPPED: &str =
    "slave 0x1001\nsm 0 0x1000 128 mailbox-write\nsm 1 0x1080 128 mailbox-read\nsm 2 0x1100 4 write\n\
    sm 3 0x1180 2 read\nfmmu 0 0x10000 4 0 7 0x1100 0 write\nfmmu 1 0x20000 1 3 4 0x1180 6 read\n\
    mem 0x1180 a55a\nslave 0x1002\nstate 4\nslave 0xfedc\nsm 7 0x2ff0 16 read\nsm 7 0x2fe0 32 read\n\
    fmmu 7 0xfffffff0 16 0 7 0x2fe8 0 read\n";

/// A request: kind, address, and how many bytes.
const ASKED: [(Kind, u32, u16); 10] = [
    (Kind::Lrd, 0x10000, 4),
    (Kind::Lrd, 0x20000, 1),
    (Kind::Lwr, 0x10003, 1),
    (Kind::Lrw, 0x10000, 0x200),
    (Kind::Lrd, 0xfffffff0, 32),
    (Kind::Brd, 0x1180_0000, 2),
    (Kind::Fprd, 0x1180_1001, 2),
    (Kind::Fprd, 0x2fe0_fedc, 32),
    (Kind::Fpwr, 0x1000_1001, 128),
    (Kind::Fpwr, 0x1100_1002, 4),
];

#[test]
fn a_source_that_fails_gives_no_scene(rt: HostRuntime) {
    for reads in 0..6u64 {
        let mut source = FailsAt::new(MAPPED.as_bytes(), 20, reads);
        let failed = match &scene_of(rt.alloc(), &mut source) {
            Ok(_) => false,
            Err(failure) => matches!(failure, LineFailure::Read | LineFailure::NoMemory),
        };
        assert!(rt; failed, "read {reads}");
    }
}

/// Asserts that two are mapped alike.
fn assert_alike<A: Mapped, B: Mapped>(rt: &impl Abort, one: &A, other: &B) {
    assert!(rt; one.station() == other.station());
    for number in 0..8usize {
        assert!(rt; one.fmmu(number) == other.fmmu(number), "FMMU {number}");
        assert!(rt;
            one.sync_manager(number) == other.sync_manager(number),
            "SM {number}"
        );
    }
    for (kind, address, count) in ASKED {
        let gain = one.gain(kind, address, count);
        assert!(rt; gain == other.gain(kind, address, count), "{address}");
    }
}

#[test]
fn the_records_of_a_line_are_mapped_as_its_slaves(rt: HostRuntime) {
    let scene = match scene_of(rt.alloc(), &mut Bytes::new(MAPPED.as_bytes())) {
        Ok(scene) => scene,
        Err(failure) => {
            assert!(rt; is_want_of_memory(&failure));
            return;
        }
    };
    let Ok(records) = records_of(rt.alloc(), scene.slaves.as_slice()) else {
        return;
    };
    let Ok(slaves) = slaves_of(rt.alloc(), scene.slaves) else {
        return;
    };
    assert!(rt; records.len() == 3 && slaves.len() == 3);
    for (one, other) in records.iter().zip(slaves.iter()) {
        assert_alike(&rt, one, other);
    }
}
