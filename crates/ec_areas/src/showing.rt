//! Which areas a write through FMMUs shows: those of which it reaches the last byte (IEC 61158-4-12, sync
//! manager, buffered mode).

ghost use Rattle.std.specs.Prelude.{◌≡◌, ◌+◌, ◌*◌, ◌^◌, ◌<◌, ◌&&◌, Some};
ghost use Rattle.std.specs.Fn.{FnReturnsAt};
ghost use Rattle.std.specs.List.{list_any};
ghost use Rattle.ec_regs.specs.SyncMan.{guards_outputs};
ghost use Rattle.ec_areas.specs.Areas.{is_writable};
ghost use Rattle.ec_areas.specs.Logical.{write_map, names};
ghost use Rattle.ec_areas.specs.Met.{data_in};
ghost use Rattle.ec_areas.specs.Showing.{last_byte, reaches, TellsOfEach};

use crate::areas::is_writable;
use crate::met::{Run, run_met};
use ec_regs::registers::SYNC_MANAGER_COUNT;
use ec_regs::{PlannedFmmu, PlannedSyncMan, SyncManagers};

/// How many bits a byte has.
const BYTE: usize = 8;

/// The address of the last byte of an area that is not empty.
pub fn last_byte(area: &PlannedSyncMan) -> u32
    ensures { result ≡ last_byte area.now }
{
    (u32::from(area.start()) + u32::from(area.length())).saturating_sub(1)
}

/// Has the run a bit in the byte at an address?
fn has_bit_in(run: Run, address: u32) -> bool
    requires some { 0 < run.count }
    requires fits { run.physical + run.count < 2 ^ 21 }
    ensures { result ≡ names (λ b. data_in (Some run) (8 * address + b)) 8 }
{
    let first = BYTE * address as usize;
    run.physical < first + BYTE && first < run.physical + run.count
}

/// Would a write of `count` bytes at the logical byte `address` reach the byte through one FMMU, if no area
/// locked it?
fn reaches(fmmu: &PlannedFmmu, address: u32, count: usize, byte: u32) -> bool
    ensures { result ≡ reaches (8 * address) (8 * count) byte fmmu.now }
{
    if !fmmu.writes() {
        return false;
    }
    match run_met(fmmu, address, count) {
        Some(run) => has_bit_in(run, byte),
        None => false,
    }
}

/// Would a write of `count` bytes at the logical byte `address` reach the byte through some FMMU?
fn is_reached(fmmus: &[PlannedFmmu], address: u32, count: usize, byte: u32) -> bool
    ensures { result ≡ list_any (reaches (8 * address) (8 * count) byte) fmmus.now }
{
    fmmus.iter().any(|fmmu| reaches(fmmu, address, count, byte))
}

/// Does the sync manager guard outputs, and does the write reach their last byte? All other areas are locked.
fn is_last_written(
    managers: &[PlannedSyncMan],
    fmmus: &[PlannedFmmu],
    address: u32,
    count: usize,
    area: &PlannedSyncMan,
) -> bool
    ensures { result
        ≡ (guards_outputs area.now && list_any (reaches (8 * address) (8 * count)
        (last_byte area.now)) fmmus.now
        && is_writable managers.now (last_byte area.now)) }
{
    let last = last_byte(area);
    area.guards_outputs() && is_reached(fmmus, address, count, last) && is_writable(managers, last)
}

/// Does the sync manager guard outputs, and does a write of `count` bytes at the logical byte `address` reach
/// the last of their bytes? Then they are handed over to the application.
pub fn writes_outputs(
    managers: &[PlannedSyncMan],
    fmmus: &[PlannedFmmu],
    address: u32,
    count: usize,
    area: &PlannedSyncMan,
) -> bool
    ensures { result ≡ (guards_outputs area.now && names (λ b. write_map managers.now fmmus.now
        (8 * address) (8 * count) (8 * last_byte area.now + b)) 8) }
{
    is_last_written(managers, fmmus, address, count, area)
}

/// What a test says of each area, by number.
pub fn told_of_each<F: Fn(&PlannedSyncMan) -> bool>(
    areas: &SyncManagers,
    test: F,
) -> [bool; SYNC_MANAGER_COUNT]
    requires { F.IsAlwaysCallable test }
    ensures { TellsOfEach (FnReturnsAt F.Fn test) areas.now result }
{
    let mut told = [false; SYNC_MANAGER_COUNT];
    for (i, area) in areas.iter().enumerate() {
        told[i] = test(area);
    }
    told
}
