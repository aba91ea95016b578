//! The areas that sync managers guard (IEC 61158-4-12, sync manager).

ghost use Rattle.std.specs.Prelude.{◌≡◌};
ghost use Rattle.ec_areas.specs.Areas.{holds, hides, locks, is_hidden, is_locked, is_readable, is_writable};

use ec_regs::PlannedSyncMan;
use ec_regs::registers::{MEMORY_SIZE, PROCESS_MEMORY};

/// Is an address one of those of the area that the sync manager's record tells?
fn holds(manager: &PlannedSyncMan, address: u32) -> bool
    ensures { result ≡ holds manager.now address }
{
    manager.area().contains(address)
}

/// Is the byte kept from reads through FMMUs?
#[tactic(auto, unfolding(crate::specs::Areas::guards, crate::specs::Areas::hides))]
fn hides(manager: &PlannedSyncMan, address: u32) -> bool
    ensures { result ≡ hides manager.now address }
{
    manager.keeps_reads_off() && holds(manager, address)
}

/// Is the byte kept from writes through FMMUs?
#[tactic(auto, unfolding(crate::specs::Areas::guards, crate::specs::Areas::locks))]
fn locks(manager: &PlannedSyncMan, address: u32) -> bool
    ensures { result ≡ locks manager.now address }
{
    manager.keeps_writes_off() && holds(manager, address)
}

/// Is the byte at an address kept from reads by one of these sync managers?
fn is_hidden(managers: &[PlannedSyncMan], address: u32) -> bool
    ensures { result ≡ is_hidden managers.now address }
{
    managers.iter().any(|manager| hides(manager, address))
}

/// May an FMMU read the byte at an address?
#[tactic(auto, unfolding(crate::specs::Areas::is_readable))]
pub fn is_readable(managers: &[PlannedSyncMan], address: u32) -> bool
    ensures { result ≡ is_readable managers.now address }
{
    address < u32::from(MEMORY_SIZE) && !is_hidden(managers, address)
}

/// Is the byte at an address kept from writes by one of these sync managers?
fn is_locked(managers: &[PlannedSyncMan], address: u32) -> bool
    ensures { result ≡ is_locked managers.now address }
{
    managers.iter().any(|manager| locks(manager, address))
}

/// May an FMMU write the byte at an address?
#[tactic(auto, unfolding(crate::specs::Areas::is_writable))]
pub fn is_writable(managers: &[PlannedSyncMan], address: u32) -> bool
    ensures { result ≡ is_writable managers.now address }
{
    u32::from(PROCESS_MEMORY) <= address
        && address < u32::from(MEMORY_SIZE)
        && !is_locked(managers, address)
}
