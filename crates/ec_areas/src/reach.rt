//! Whether FMMUs reach all of some neighbouring bytes (IEC 61158-4-12, FMMU and sync manager).

ghost use Rattle.std.specs.Prelude.{◌≡◌, ◌≤◌, ◌<◌, ◌+◌, ◌-◌, ℕ, IsTrue, true};
ghost use Rattle.ec_regs.specs.declared.registers.TheConstants.{MEMORY_SIZE};
ghost use Rattle.ec_areas.specs.Areas.{is_readable, is_writable};

use crate::ranges::{meets_hidden, meets_locked};
use ec_regs::registers::{MEMORY_SIZE, PROCESS_MEMORY};
use ec_regs::{AddressRange, PlannedSyncMan};

/// The bytes from `first` to `last`.
fn range_of(first: u32, last: u32) -> AddressRange
    requires order { first ≤ last }
    requires inside { last < MEMORY_SIZE }
    ensures { result ≡ record { first = first; count = last - first + 1 } }
{
    AddressRange {
        first: first as u16,
        count: (last - first + 1) as u16,
    }
}

/// Are the bytes from `first` to `last` in the memory, and does no area hide one of them? Then FMMUs may read
/// them all.
pub(crate) fn are_readable(managers: &[PlannedSyncMan], first: u32, last: u32) -> bool
    requires { first ≤ last }
    ensures inside { IsTrue result → last < MEMORY_SIZE }
    ensures each { IsTrue result
        → (address : ℕ) → first ≤ address → address ≤ last → is_readable managers.now address ≡ true }
{
    last < u32::from(MEMORY_SIZE) && !meets_hidden(managers, range_of(first, last))
}

/// Are the bytes from `first` to `last` in process memory, and does no area lock one of them? Then FMMUs may
/// write them all.
pub(crate) fn are_writable(managers: &[PlannedSyncMan], first: u32, last: u32) -> bool
    requires { first ≤ last }
    ensures inside { IsTrue result → last < MEMORY_SIZE }
    ensures each { IsTrue result
        → (address : ℕ) → first ≤ address → address ≤ last → is_writable managers.now address ≡ true }
{
    if first < u32::from(PROCESS_MEMORY) || last >= u32::from(MEMORY_SIZE) {
        return false;
    }
    !meets_locked(managers, range_of(first, last))
}
