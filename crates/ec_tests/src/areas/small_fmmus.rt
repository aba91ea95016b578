//! FMMUs of one to three bytes, with each start, stop and physical bit, against the walk over their bits:
//! over a whole run, from inside one, up to the middle of one, and where areas keep a part of it from the
//! master.

use crate::areas::by_pairs::{reaches_by_pairs, read_by_pairs, write_by_pairs};
use crate::areas::examples::{NO_AREA, write};
use ec_areas::{read_mapped, reads_some, writes_outputs, writes_some};
use ec_regs::{Fmmu, Memory, PlannedFmmu, PlannedSyncMan, SyncMan, SyncManagers};
use std::process::Abort;

/// Where data of how many bytes begin: before the run, in it, and inside its second byte.
const DATA: [(u32, usize); 4] = [
    (0x0001_0000, 5),
    (0x0001_0001, 2),
    (0x0001_0002, 3),
    (0x0001_0003, 1),
];

/// Areas that meet no byte of the run, its second byte, its first two, and its third.
fn areas(direction: u8) -> [SyncMan; 4] {
    let area = SyncMan {
        start: 0x1101,
        length: 1,
        control: direction,
        activate: 1,
        ..NO_AREA
    };
    [
        NO_AREA,
        area,
        SyncMan {
            start: 0x10FF,
            length: 3,
            ..area
        },
        SyncMan {
            start: 0x1102,
            ..area
        },
    ]
}

/// All sync managers of a controller that has one area.
fn with(area: SyncMan) -> SyncManagers {
    let no_area = PlannedSyncMan::new(NO_AREA);
    let area = PlannedSyncMan::new(area);
    [
        no_area, no_area, area, no_area, no_area, no_area, no_area, no_area,
    ]
}

/// The bytes from 0x10FE on, around those that are mapped: no two neighbours are alike.
const BYTES: [u8; 8] = [0x11, 0x2D, 0xC6, 0x5A, 0x93, 0x78, 0xE1, 0x3C];

/// Where they stand.
const FIRST: u16 = 0x10FE;

/// The FMMU with a number below 1,536: one to three bytes from logical byte 0x00010001 on, onto physical byte
/// 0x1100.
fn small_fmmu(number: u32, kind: u8) -> Fmmu {
    Fmmu {
        logical: 0x0001_0001,
        length: (number / 512 % 3 + 1) as u16,
        start: (number / 64 % 8) as u8,
        stop: (number / 8 % 8) as u8,
        physical: 0x1100,
        bit: (number % 8) as u8,
        kind,
        activate: 1,
        reserved: [0; 3],
    }
}

#[test]
fn reads_agree_with_the_walk(rt: HostRuntime) {
    let mut memory = Memory::new(rt.alloc()).expect(&rt, "memory");
    memory.load(FIRST, &BYTES);
    for number in 0..1536u32 {
        let fmmu = small_fmmu(number, 1);
        let planned = [PlannedFmmu::new(fmmu)];
        for area in areas(0x04) {
            let managers = with(area);
            for (address, count) in DATA {
                let count = count.min(5);
                let memory = memory.bytes();
                let mut data = [0xA5; 5];
                let served = read_mapped(&managers, &planned, memory, address, &mut data[..count]);
                let mut wanted = [0xA5; 5];
                let found = read_by_pairs(
                    &managers,
                    &[fmmu],
                    memory,
                    address,
                    &mut wanted,
                    8 * count,
                );
                assert_eq!(rt; data, wanted, "{fmmu:?} {area:?} {address}");
                assert_eq!(rt; served, found, "{fmmu:?} {area:?} {address}");
                let named = reads_some(&managers, &planned, address, count);
                assert_eq!(rt; named, found, "{fmmu:?} {area:?} {address}");
            }
        }
    }
}

/// Writes through each small FMMU where an area with this direction, or none, meets its run.
fn writes_agree<R: Abort + AllocGlobal>(rt: &R, direction: u8) {
    let payload = [0x96, 0xC3, 0x5A, 0x0F, 0xE7];
    let mut memory = Memory::new(rt.alloc()).expect(rt, "memory");
    for number in 0..1536u32 {
        let fmmu = small_fmmu(number, 2);
        let planned = [PlannedFmmu::new(fmmu)];
        for area in areas(direction) {
            let managers = with(area);
            for (address, count) in DATA {
                let count = count.min(5);
                memory.load(FIRST, &BYTES);
                let mut wanted = BYTES;
                let sent = &payload[..count];
                let served = write(&managers, &planned, &mut memory, address, sent);
                let first = u32::from(FIRST);
                let found = write_by_pairs(
                    &managers,
                    &[fmmu],
                    &mut wanted,
                    first,
                    address,
                    sent,
                    8 * count,
                );
                let written = &memory.bytes()[0x10FE..0x1106];
                assert_eq!(rt; written, &wanted[..], "{fmmu:?} {area:?} {address}");
                assert_eq!(rt; served, found, "{fmmu:?} {area:?} {address}");
                let named = writes_some(&managers, &planned, address, count);
                assert_eq!(rt; named, found, "{fmmu:?} {area:?} {address}");
                let outputs = managers[2];
                let shown = writes_outputs(&managers, &planned, address, count, &outputs);
                let last = area.start.saturating_add(area.length).saturating_sub(1);
                let reached = reaches_by_pairs(&managers, &[fmmu], address, 8 * count, last.into());
                assert_eq!(rt; shown, reached, "{fmmu:?} {area:?} {address}");
            }
        }
    }
}

#[test]
fn writes_agree_with_the_walk_where_an_area_locks(rt: HostRuntime) {
    writes_agree(&rt, 0x00);
}

#[test]
fn writes_agree_with_the_walk_where_an_area_is_shown(rt: HostRuntime) {
    writes_agree(&rt, 0x04);
}
