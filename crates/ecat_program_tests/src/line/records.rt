//! The records of slaves, by which a line is checked, are mapped as its whole slaves, of slaves that are made
//! by chance.

ghost use Rattle.std.specs.Prelude.{◌<◌};
ghost use Rattle.ec_regs.specs.declared.registers.TheConstants.{FMMU_COUNT};

use super::assert_alike;
use crate::chance::Chance;
use ec_app::{Objects, Slave};
use ec_check::{Mapped, Records};
use ec_regs::{AlState, Fmmu, SyncMan};
use ec_wire::{Kind, address_of};
use ecat_scene::{FmmuSetting, SceneSlave, Setting, SlaveKind, SyncManSetting};
use ecat_setup::{LineFailure, records_of, slaves_of};
use std::alloc::{AllocError, Global};
use std::process::Abort;

/// Logical addresses, at the ends of their range and close to each other.
const LOGICAL: [u32; 8] = [0, 1, 7, 0x10000, 0x10001, 0x10002, 0xffff_fffe, 0xffff_ffff];

/// Lengths of areas and of what FMMUs map.
const LENGTHS: [u32; 8] = [0, 1, 2, 3, 4, 8, 0x1000, 0xffff];

/// Bits, those of a byte and others.
const BITS: [u32; 8] = [0, 7, 0, 7, 1, 6, 8, 255];

/// Physical addresses, at the ends of registers, of process memory and of their range.
const PHYSICAL: [u32; 9] = [
    0, 0x0fff, 0x1000, 0x1001, 0x1100, 0x2fff, 0x3000, 0xfffe, 0xffff,
];

/// How many lines are made.
const LINES: usize = 50;

/// How many slaves each of them has.
const SLAVES: u32 = 4;

/// How many settings each slave has.
const SETTINGS: u32 = 14;

/// How many requests are asked of what each FMMU and each sync manager maps.
const REQUESTS: u32 = 3;

/// All kinds of requests.
const KINDS: [Kind; 6] = [
    Kind::Lrd,
    Kind::Lwr,
    Kind::Lrw,
    Kind::Brd,
    Kind::Fprd,
    Kind::Fpwr,
];

/// An address one before this one, this one, or one behind it; past the ends it goes on at the other end.
fn near(chance: &mut Chance, address: u32) -> u32 {
    address.wrapping_add(chance.below(3)).wrapping_sub(1)
}

/// A physical address of these, in that manner.
fn near_physical(chance: &mut Chance, address: u16) -> u16 {
    address.wrapping_add(chance.below(3) as u16).wrapping_sub(1)
}

/// A length: 1, or about this one, and never 0.
fn near_length(chance: &mut Chance, length: u16) -> u16 {
    match chance.below(3) {
        0 => 1,
        1 => length.max(1),
        _ => length.saturating_add(1),
    }
}

/// A kind of request.
fn any_kind(chance: &mut Chance) -> Kind {
    match KINDS.get(chance.below(6) as usize) {
        Some(kind) => *kind,
        None => Kind::Lrd,
    }
}

/// Is a request gained alike by both, at one of the ends of what an FMMU maps?
fn gain_fmmu_alike<A: Mapped, B: Mapped>(
    one: &A,
    other: &B,
    fmmu: &Fmmu,
    chance: &mut Chance,
) -> bool {
    let end = match chance.below(2) {
        0 => fmmu.logical,
        _ => fmmu.logical.wrapping_add(u32::from(fmmu.length)),
    };
    let address = near(chance, end);
    let count = near_length(chance, fmmu.length);
    let kind = match chance.below(3) {
        0 => Kind::Lrd,
        1 => Kind::Lwr,
        _ => Kind::Lrw,
    };
    one.gain(kind, address, count) == other.gain(kind, address, count)
}

/// Is a request gained alike by both, at one of the ends of a sync manager's area?
fn gain_area_alike<A: Mapped, B: Mapped>(
    one: &A,
    other: &B,
    manager: &SyncMan,
    chance: &mut Chance,
) -> bool {
    let end = match chance.below(2) {
        0 => manager.start,
        _ => manager.start.wrapping_add(manager.length),
    };
    let first = near_physical(chance, end);
    let station = match chance.below(4) {
        0 => one.station().wrapping_add(1),
        _ => one.station(),
    };
    let address = address_of(station, first);
    let count = near_length(chance, manager.length);
    let kind = any_kind(chance);
    one.gain(kind, address, count) == other.gain(kind, address, count)
}

/// Are requests gained alike by both, about what one FMMU and one sync manager map?
fn gain_alike<A: Mapped, B: Mapped>(one: &A, other: &B, number: usize, chance: &mut Chance) -> bool
    requires { number < FMMU_COUNT }
{
    let fmmu = one.fmmu(number);
    let manager = one.sync_manager(number);
    let mut alike = true;
    for _ in 0..REQUESTS {
        alike = alike && gain_fmmu_alike(one, other, &fmmu, chance);
        alike = alike && gain_area_alike(one, other, &manager, chance);
    }
    alike
}

/// Asserts that slaves and the records of them are mapped alike.
fn assert_mapped(rt: &impl Abort, records: &[Records], slaves: &[Slave], chance: &mut Chance) {
    assert!(rt; records.len() == slaves.len());
    for (one, other) in records.iter().zip(slaves.iter()) {
        assert_alike(rt, one, other);
        for number in 0..8usize {
            assert!(rt; gain_alike(one, other, number, chance), "record {number}");
        }
    }
}

/// Asserts that the records of described slaves are mapped as the slaves, or that memory ran out.
fn assert_described(
    rt: &(impl AllocGlobal + Abort),
    described: Vec<SceneSlave>,
    chance: &mut Chance,
) {
    let records = records_of(rt.alloc(), described.as_slice());
    let slaves = slaves_of(rt.alloc(), described);
    match (&records, &slaves) {
        (Ok(records), Ok(slaves)) => assert_mapped(
            rt,
            records.as_slice(),
            slaves.as_slice(),
            chance,
        ),
        (Err(LineFailure::NoMemory), _) | (_, Err(LineFailure::NoMemory)) => {}
        _ => assert!(rt; false, "no slaves"),
    }
}

/// A byte that is often 0 or 1.
fn any_byte(chance: &mut Chance) -> u8 {
    match chance.below(4) {
        0 => 0,
        1 | 2 => 1,
        _ => chance.below(256) as u8,
    }
}

/// A setting of a record with any fields: an FMMU, active or not and of any type, or a sync manager, also
/// with a status.
fn any_setting(chance: &mut Chance) -> Setting {
    let index = chance.below(8) as usize;
    if chance.below(2) == 0 {
        let record = Fmmu {
            logical: chance.one_of(&LOGICAL),
            length: chance.word(&LENGTHS),
            start: chance.byte(&BITS),
            stop: chance.byte(&BITS),
            physical: chance.word(&PHYSICAL),
            bit: chance.byte(&BITS),
            kind: chance.below(5) as u8,
            activate: any_byte(chance),
            reserved: [0, any_byte(chance), 0xa5],
        };
        return Setting::Fmmu(FmmuSetting { index, record });
    }
    let record = SyncMan {
        start: chance.word(&PHYSICAL),
        length: chance.word(&LENGTHS),
        control: chance.below(16) as u8,
        status: any_byte(chance),
        activate: any_byte(chance),
        pdi: any_byte(chance),
    };
    Setting::SyncMan(SyncManSetting { index, record })
}

/// A slave that is described by settings of any records.
fn any_slave(alloc: Global, chance: &mut Chance) -> Result<SceneSlave, AllocError> {
    let mut settings = Vec::new(alloc);
    for _ in 0..SETTINGS {
        settings.push(any_setting(chance))?;
    }
    Ok(SceneSlave {
        station: chance.below(65_536) as u16,
        state: AlState::Init,
        simple: chance.below(2) == 0,
        output_length: chance.below(65_536) as u16,
        input_length: chance.below(65_536) as u16,
        settings,
        objects: Objects::new(),
        behaviours: Vec::new(alloc),
        startup: Vec::new(alloc),
        kind: SlaveKind::Unsaid,
        identity: None,
        alias: 0,
        pdos: Vec::new(alloc),
        sii: Vec::new(alloc),
        name: Vec::new(alloc),
    })
}

/// A line of such slaves.
fn any_line(alloc: Global, chance: &mut Chance) -> Result<Vec<SceneSlave>, AllocError> {
    let mut line = Vec::new(alloc);
    for _ in 0..SLAVES {
        line.push(any_slave(alloc, chance)?)?;
    }
    Ok(line)
}

#[test]
fn any_records_are_mapped_as_their_slaves(rt: HostRuntime) {
    let mut chance = Chance::new(8);
    for _ in 0..LINES {
        if let Ok(line) = any_line(rt.alloc(), &mut chance) {
            assert_described(&rt, line, &mut chance);
        }
    }
}
