//! The records of FMMUs and sync managers in a controller's memory (IEC 61158-4-12, register layout).

ghost use Rattle.std.specs.Prelude.{◌≡◌, ◌<◌, length};
ghost use Rattle.ec_regs.specs.declared.registers.TheConstants.{FMMU_COUNT, SYNC_MANAGER_COUNT, MEMORY_SIZE};
ghost use Rattle.ec_areas.specs.Records.{fmmu_at, fmmus_of, sync_manager_at, sync_managers_of};

use ec_regs::registers::{FMMU_BASE, FMMU_SIZE, SYNC_MANAGER_BASE, SYNC_MANAGER_SIZE};
use ec_regs::{Fmmu, Fmmus, PlannedFmmu, PlannedSyncMan, SyncMan, SyncManagers};

/// The FMMU with a number.
#[tactic(auto, unfolding(crate::specs::Records::fmmu_at))]
pub fn fmmu_at(memory: &[u8], number: usize) -> Fmmu
    requires size { length memory.now ≡ MEMORY_SIZE }
    requires number { number < FMMU_COUNT }
    ensures { result ≡ fmmu_at memory.now number }
{
    let at = FMMU_BASE as usize + FMMU_SIZE as usize * number;
    Fmmu::read(memory[at..at + FMMU_SIZE as usize].try_into().unwrap())
}

/// All FMMUs, by number, with their plans.
#[tactic(auto, unfolding(crate::specs::Records::fmmus_of))]
pub fn fmmus_of(memory: &[u8]) -> Fmmus
    requires { length memory.now ≡ MEMORY_SIZE }
    ensures { result ≡ fmmus_of memory.now }
{
    [
        PlannedFmmu::new(fmmu_at(memory, 0)),
        PlannedFmmu::new(fmmu_at(memory, 1)),
        PlannedFmmu::new(fmmu_at(memory, 2)),
        PlannedFmmu::new(fmmu_at(memory, 3)),
        PlannedFmmu::new(fmmu_at(memory, 4)),
        PlannedFmmu::new(fmmu_at(memory, 5)),
        PlannedFmmu::new(fmmu_at(memory, 6)),
        PlannedFmmu::new(fmmu_at(memory, 7)),
    ]
}

/// The sync manager with a number.
#[tactic(auto, unfolding(crate::specs::Records::sync_manager_at))]
pub fn sync_manager_at(memory: &[u8], number: usize) -> SyncMan
    requires size { length memory.now ≡ MEMORY_SIZE }
    requires number { number < SYNC_MANAGER_COUNT }
    ensures { result ≡ sync_manager_at memory.now number }
{
    let at = SYNC_MANAGER_BASE as usize + SYNC_MANAGER_SIZE as usize * number;
    SyncMan::read(
        memory[at..at + SYNC_MANAGER_SIZE as usize]
            .try_into()
            .unwrap(),
    )
}

/// All sync managers, by number, with what they say of their areas.
#[tactic(auto, unfolding(crate::specs::Records::sync_managers_of))]
pub fn sync_managers_of(memory: &[u8]) -> SyncManagers
    requires { length memory.now ≡ MEMORY_SIZE }
    ensures { result ≡ sync_managers_of memory.now }
{
    [
        PlannedSyncMan::new(sync_manager_at(memory, 0)),
        PlannedSyncMan::new(sync_manager_at(memory, 1)),
        PlannedSyncMan::new(sync_manager_at(memory, 2)),
        PlannedSyncMan::new(sync_manager_at(memory, 3)),
        PlannedSyncMan::new(sync_manager_at(memory, 4)),
        PlannedSyncMan::new(sync_manager_at(memory, 5)),
        PlannedSyncMan::new(sync_manager_at(memory, 6)),
        PlannedSyncMan::new(sync_manager_at(memory, 7)),
    ]
}
