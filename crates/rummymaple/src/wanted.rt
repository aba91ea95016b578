//! What a slave is to be told at start-up, in plain records.

ghost use Rattle.std.specs.Prelude.{◌≡◌};
ghost use Rattle.std.specs.List.{list_all};
ghost use Rattle.ec_areas.specs.Records.{fmmus_of, sync_managers_of};
ghost use Rattle.ec_check.specs.Records.{memory_of};
ghost use Rattle.rummymaple.specs.Wanted.{are_objects, is_object, object_at, object_in, objects_for, startup_of};
ghost use Rattle.rummymaple.specs.Wanted.{wanted_of};

use crate::values::value_in;
use ec_check::{Mapped, Records};
use ec_regs::registers::{FMMU_COUNT, SYNC_MANAGER_COUNT};
use ec_regs::{Fmmu, SyncMan};
use ec_run::{MAX_STARTUP, StartupObject, Wanted};

/// An object that is written at start-up, in Pre-Op: `struct rmp_object` of the header.
#[repr(C)]
#[derive(Clone, Copy)]
pub struct Object {
    /// What is written.
    pub value: u32,
    /// Its index.
    pub index: u16,
    /// Its subindex.
    pub sub: u8,
    /// How many bytes are written: 1, 2 or 4; 0 where there is no object.
    pub size: u8,
}

/// The objects that are written to a slave, in their order: `struct rmp_startup` of the header.
#[repr(C)]
#[derive(Clone, Copy)]
pub struct Startup {
    /// The objects.
    pub objects: [Object; MAX_STARTUP],
}

/// The object that the numbers are; nothing where they are none.
fn object_in(object: &Object) -> Option<StartupObject>
    ensures { result ≡ object_in object.now }
{
    match value_in(object.size, object.value) {
        Some(value) => Some(StartupObject {
            index: object.index,
            sub: object.sub,
            value,
        }),
        None => None,
    }
}

impl Object {
    /// Are the numbers an object, or say that there is none?
    fn is_object(&self) -> bool
        ensures { result ≡ is_object self.now }
    {
        self.size == 0 || value_in(self.size, self.value).is_some()
    }
}

/// The object with a number, of those of a slave.
fn object_at(objects: &[Object], number: usize) -> Option<StartupObject>
    ensures { result ≡ object_at objects.now number }
{
    match objects.get(number) {
        Some(object) => object_in(object),
        None => None,
    }
}

/// Is each of these an object, or none?
pub(crate) fn are_objects(objects: &[Object]) -> bool
    ensures { result ≡ are_objects objects.now }
{
    objects.iter().all(|object| object.is_object())
}

/// The objects of the slave at a place; none where that has none.
pub(crate) fn objects_for(startup: &[Startup], place: usize) -> &[Object]
    ensures { result.now ≡ objects_for startup.now place }
{
    match startup.get(place) {
        Some(startup) => &startup.objects,
        None => &[],
    }
}

/// All objects of a slave, by their numbers.
fn startup_of(objects: &[Object]) -> [Option<StartupObject>; MAX_STARTUP]
    ensures { result ≡ startup_of objects.now }
{
    [
        object_at(objects, 0),
        object_at(objects, 1),
        object_at(objects, 2),
        object_at(objects, 3),
        object_at(objects, 4),
        object_at(objects, 5),
        object_at(objects, 6),
        object_at(objects, 7),
        object_at(objects, 8),
        object_at(objects, 9),
        object_at(objects, 10),
        object_at(objects, 11),
        object_at(objects, 12),
        object_at(objects, 13),
        object_at(objects, 14),
        object_at(objects, 15),
    ]
}

/// The records of a slave's sync managers.
#[tactic(auto, unfolding(ec_areas::specs::Records::sync_managers_of))]
fn managers_of(records: &Records) -> [SyncMan; SYNC_MANAGER_COUNT]
    ensures { result ≡ sync_managers_of (memory_of records.now) }
{
    [
        records.sync_manager(0),
        records.sync_manager(1),
        records.sync_manager(2),
        records.sync_manager(3),
        records.sync_manager(4),
        records.sync_manager(5),
        records.sync_manager(6),
        records.sync_manager(7),
    ]
}

/// The records of a slave's FMMUs.
#[tactic(auto, unfolding(ec_areas::specs::Records::fmmus_of))]
fn fmmus_of(records: &Records) -> [Fmmu; FMMU_COUNT]
    ensures { result ≡ fmmus_of (memory_of records.now) }
{
    [
        records.fmmu(0),
        records.fmmu(1),
        records.fmmu(2),
        records.fmmu(3),
        records.fmmu(4),
        records.fmmu(5),
        records.fmmu(6),
        records.fmmu(7),
    ]
}

/// What the slave with these records and objects is to be told.
pub(crate) fn wanted_of(records: &Records, objects: &[Object]) -> Wanted
    ensures { result ≡ wanted_of records.now objects.now }
{
    Wanted {
        station: records.station(),
        managers: managers_of(records),
        fmmus: fmmus_of(records),
        startup: startup_of(objects),
    }
}
