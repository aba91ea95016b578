//! What a slave is to be told at start-up.

ghost use Rattle.std.specs.Prelude.{◌≡◌, ◌<◌, IfOk, Some, is_some, map, slice_get};
ghost use Rattle.std.specs.List.{list_any};
ghost use Rattle.ec_areas.specs.Records.{fmmus_of, sync_managers_of};
ghost use Rattle.ec_run.specs.Wanted.{wanted_by};

use ec_app::{Slave, Value};
use ec_esc::Controller;
use ec_regs::registers::{FMMU_COUNT, SYNC_MANAGER_COUNT};
use ec_regs::{Fmmu, NoMemory, SyncMan};
use std::alloc::Global;

/// The most startup objects of a slave.
pub const MAX_STARTUP: usize = 16;

/// An object that is written at start-up, in Pre-Op (ETG.2000, InitCmd of CoE at the transition Pre-Op to
/// Safe-Op).
#[derive(Clone, Copy, PartialEq, Eq, Debug)]
pub struct StartupObject {
    /// Its index.
    pub index: u16,
    /// Its subindex.
    pub sub: u8,
    /// What is written.
    pub value: Value,
}

/// What a slave is to be told at start-up: its station address, the records of its sync managers and of its
/// FMMUs, by number (IEC 61158-4-12, configured station address, sync manager and FMMU entities), and its
/// startup objects.
#[derive(Clone, Copy, Debug)]
pub struct Wanted {
    /// Its station address.
    pub station: u16,
    /// The records of its sync managers.
    pub managers: [SyncMan; SYNC_MANAGER_COUNT],
    /// The records of its FMMUs.
    pub fmmus: [Fmmu; FMMU_COUNT],
    /// The objects that are written in Pre-Op, in their order.
    pub startup: [Option<StartupObject>; MAX_STARTUP],
}

/// The records of a slave's sync managers.
#[tactic(auto, unfolding(ec_areas::specs::Records::sync_managers_of))]
fn managers_of(controller: &Controller) -> [SyncMan; SYNC_MANAGER_COUNT]
    ensures { result ≡ sync_managers_of controller.now.memory }
{
    [
        controller.syncman(0),
        controller.syncman(1),
        controller.syncman(2),
        controller.syncman(3),
        controller.syncman(4),
        controller.syncman(5),
        controller.syncman(6),
        controller.syncman(7),
    ]
}

/// The records of a slave's FMMUs.
#[tactic(auto, unfolding(ec_areas::specs::Records::fmmus_of))]
fn fmmus_of(controller: &Controller) -> [Fmmu; FMMU_COUNT]
    ensures { result ≡ fmmus_of controller.now.memory }
{
    [
        controller.fmmu(0),
        controller.fmmu(1),
        controller.fmmu(2),
        controller.fmmu(3),
        controller.fmmu(4),
        controller.fmmu(5),
        controller.fmmu(6),
        controller.fmmu(7),
    ]
}

impl Wanted {
    /// What makes a slave that which this one is: its station address and its records as they stand, and no
    /// startup object.
    pub fn of(slave: &Slave) -> Wanted
        ensures { result ≡ wanted_by slave.now }
    {
        let controller = slave.controller();
        Wanted {
            station: controller.station(),
            managers: managers_of(controller),
            fmmus: fmmus_of(controller),
            startup: [None; MAX_STARTUP],
        }
    }

    /// Has it any startup object?
    pub fn has_startup(&self) -> bool
        ensures { result ≡ list_any is_some self.now.startup }
    {
        self.startup.iter().any(|object| object.is_some())
    }
}

impl Wanted {
    /// The record of the sync manager with a number.
    pub(crate) fn manager(&self, number: usize) -> &SyncMan
        requires { number < SYNC_MANAGER_COUNT }
        ensures { slice_get self.now.managers number ≡ Some result.now }
    {
        &self.managers[number]
    }

    /// The record of the FMMU with a number.
    pub(crate) fn fmmu(&self, number: usize) -> &Fmmu
        requires { number < FMMU_COUNT }
        ensures { slice_get self.now.fmmus number ≡ Some result.now }
    {
        &self.fmmus[number]
    }

    /// The startup object with a number, if there is one.
    pub fn startup_object(&self, number: usize) -> Option<StartupObject>
        requires { number < MAX_STARTUP }
        ensures { slice_get self.now.startup number ≡ Some result }
    {
        self.startup[number]
    }
}

/// What the slaves of a line are to be told, by their places.
pub fn wanted_of(alloc: Global, line: &[Slave]) -> Result<Vec<Wanted>, NoMemory>
    ensures { IfOk result (λ all. all.items ≡ map wanted_by line.now) }
{
    let mut all = Vec::new(alloc);
    for slave in line {
        if all.push(Wanted::of(slave)).is_err() {
            return Err(NoMemory);
        }
    }
    Ok(all)
}
