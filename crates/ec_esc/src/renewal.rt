//! Which records a write changes (IEC 61158-4-12, register layout): an FMMU or a sync manager is decoded anew
//! where a byte of its record lies in the range that was written, and the others stay.

ghost use Rattle.std.specs.Prelude.{◌≡◌, ◌+◌, ◌*◌, ◌<◌, ℕ, List, IsTrue, true, length};
ghost use Rattle.ec_regs.specs.declared.registers.TheConstants.{MEMORY_SIZE};
ghost use Rattle.ec_regs.specs.declared.registers.TheConstants.{FMMU_COUNT, SYNC_MANAGER_COUNT};
ghost use Rattle.ec_areas.specs.Records.{fmmus_of, sync_managers_of};
ghost use Rattle.ec_esc.specs.Renewal.{ChangesWithin};

use ec_areas::{fmmu_at, sync_manager_at};
use ec_regs::registers::{
    FMMU_BASE, FMMU_COUNT, FMMU_SIZE, SYNC_MANAGER_BASE, SYNC_MANAGER_COUNT, SYNC_MANAGER_SIZE,
};
use ec_regs::{AddressRange, Fmmus, PlannedFmmu, PlannedSyncMan, SyncManagers};

/// The records of all FMMUs.
const FMMU_RECORDS: AddressRange = AddressRange {
    first: FMMU_BASE,
    count: FMMU_SIZE * FMMU_COUNT as u16,
};

/// The records of all sync managers.
const SYNC_MANAGER_RECORDS: AddressRange = AddressRange {
    first: SYNC_MANAGER_BASE,
    count: SYNC_MANAGER_SIZE * SYNC_MANAGER_COUNT as u16,
};

/// The record of the FMMU with a number.
fn fmmu_record(number: usize) -> AddressRange
    requires { number < FMMU_COUNT }
    ensures { result ≡ record { first = FMMU_BASE + FMMU_SIZE * number; count = FMMU_SIZE } }
{
    AddressRange {
        first: FMMU_BASE + FMMU_SIZE * number as u16,
        count: FMMU_SIZE,
    }
}

/// The record of the sync manager with a number.
fn sync_manager_record(number: usize) -> AddressRange
    requires { number < SYNC_MANAGER_COUNT }
    ensures { result
        ≡ record { first = SYNC_MANAGER_BASE + SYNC_MANAGER_SIZE * number; count = SYNC_MANAGER_SIZE } }
{
    AddressRange {
        first: SYNC_MANAGER_BASE + SYNC_MANAGER_SIZE * number as u16,
        count: SYNC_MANAGER_SIZE,
    }
}

/// Decodes each FMMU of whose record a byte lies in the range that was written; the others stay. Where there
/// is such a byte, what they reach all together is no longer known.
pub(crate) fn renew_fmmus(
    fmmus: &mut Fmmus,
    is_surveyed: &mut bool,
    memory: &[u8],
    written: AddressRange,
)
    requires { length memory.now ≡ MEMORY_SIZE }
    ensures fmmus { (before : List ℕ) → fmmus.old ≡ fmmus_of before
        → ChangesWithin written.first written.count before memory.now → fmmus.new ≡ fmmus_of memory.now }
    ensures surveyed { IsTrue is_surveyed.new
        → (is_surveyed.old ≡ true) × (fmmus.new ≡ fmmus.old) }
{
    if !FMMU_RECORDS.meets(&written) {
        return;
    }
    *is_surveyed = false;
    for number in 0..FMMU_COUNT {
        if fmmu_record(number).meets(&written) {
            fmmus[number] = PlannedFmmu::new(fmmu_at(memory, number));
        }
    }
}

/// Decodes each sync manager of whose record a byte lies in the range that was written; the others stay.
pub(crate) fn renew_managers(managers: &mut SyncManagers, memory: &[u8], written: AddressRange)
    requires { length memory.now ≡ MEMORY_SIZE }
    ensures { (before : List ℕ) → managers.old ≡ sync_managers_of before
        → ChangesWithin written.first written.count before memory.now
        → managers.new ≡ sync_managers_of memory.now }
{
    if !SYNC_MANAGER_RECORDS.meets(&written) {
        return;
    }
    for number in 0..SYNC_MANAGER_COUNT {
        if sync_manager_record(number).meets(&written) {
            managers[number] = PlannedSyncMan::new(sync_manager_at(memory, number));
        }
    }
}
