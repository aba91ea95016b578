//! The applications of the slaves of a scene, and the EEPROMs of those that are devices.

ghost use Rattle.std.specs.Prelude.{◌≡◌, ◌≢◌, ◌<◌, ◌++◌, ℕ, [], IfOk, IfSome, IfNone, OnOk};
ghost use Rattle.std.specs.Prelude.{None, length, map, slice_get};
ghost use Rattle.std.specs.Option.{option_map};
ghost use Rattle.ecat_scene.specs.Scene.{slave_record};
ghost use Rattle.ecat_setup.specs.Applications.{AddsOwn, AreApplications, AreEeproms, IsOwn};
ghost use Rattle.ecat_setup.specs.Applications.{applications_from, given_at, placed_at};

use crate::devices::eeprom_of;
use crate::failure::LineFailure;
use ec_applications::{Application, Applications, Behaviour, PlacedEeprom};
use ec_sii::Eeprom;
use ecat_scene::{SceneSlave, SlaveKind};
use std::alloc::{AllocError, Global};

/// The applications of the slaves that a scene describes, in the order in which they act, slave by slave, and
/// the EEPROMs of those that are devices.
pub fn applications_of(alloc: Global, described: &[SceneSlave]) -> Result<Applications, LineFailure>
    ensures { IfOk result (λ all. AreApplications [] (map slave_record described.now) all) }
{
    applications_with(alloc, described, Vec::new(alloc))
}

/// The applications as by `applications_of`, where devices have these EEPROMs in place of those that are made
/// of the scene; of several for one place it is the first.
pub fn applications_with(
    alloc: Global,
    described: &[SceneSlave],
    given: Vec<PlacedEeprom>,
) -> Result<Applications, LineFailure>
    ensures { IfOk result (λ all. AreApplications given.items (map slave_record described.now) all) }
{
    let all = match behaviours_of(alloc, described) {
        Ok(all) => all,
        Err(_) => return Err(LineFailure::NoMemory),
    };
    let eeproms = eeproms_of(alloc, described, given)?;
    let mut applications = Applications::new(all);
    applications.set_eeproms(eeproms);
    Ok(applications)
}

/// What the slaves do, slave by slave.
fn behaviours_of(alloc: Global, described: &[SceneSlave]) -> Result<Vec<Application>, AllocError>
    ensures { IfOk result (λ all. all.items ≡ applications_from 0 (map slave_record described.now)) }
{
    let mut all = Vec::new(alloc);
    for place in 0..described.len() {
        push_behaviours(&mut all, place, described[place].behaviours.as_slice())?;
    }
    Ok(all)
}

/// Puts what the slave at a place does behind what others do.
fn push_behaviours(
    all: &mut Vec<Application>,
    place: usize,
    behaviours: &[Behaviour],
) -> Result<(), AllocError>
    ensures { OnOk result (all.new.items ≡ all.old.items ++ map (placed_at place) behaviours.now) }
{
    for behaviour in behaviours {
        all.push(Application {
            place,
            behaviour: *behaviour,
        })?;
    }
    Ok(())
}

/// The EEPROMs of the devices that a scene describes: those given, or else made of the scene.
fn eeproms_of(
    alloc: Global,
    described: &[SceneSlave],
    mut given: Vec<PlacedEeprom>,
) -> Result<Vec<PlacedEeprom>, LineFailure>
    ensures { IfOk result (λ all. AreEeproms given.items (map slave_record described.now) all.items) }
{
    let mut all = Vec::new(alloc);
    for place in 0..described.len() {
        push_own(alloc, place, &described[place], &mut given, &mut all)?;
    }
    Ok(all)
}

/// Puts the EEPROM of the slave at a place, if it is a device, behind those of others.
fn push_own(
    alloc: Global,
    place: usize,
    described: &SceneSlave,
    given: &mut Vec<PlacedEeprom>,
    all: &mut Vec<PlacedEeprom>,
) -> Result<(), LineFailure>
    ensures own { OnOk result (AddsOwn given.old.items place (slave_record described.now) all.old.items
        all.new.items) }
    ensures others { (other : ℕ) → other ≢ place
        → given_at given.new.items other ≡ given_at given.old.items other }
{
    if described.kind != SlaveKind::Device {
        return Ok(());
    }
    let eeprom = own_eeprom(alloc, place, described, given)?;
    match all.push(PlacedEeprom { place, eeprom }) {
        Ok(()) => Ok(()),
        Err(_) => Err(LineFailure::NoMemory),
    }
}

/// The EEPROM of the device at a place: the one given, which is given no more, or else made of the scene.
fn own_eeprom(
    alloc: Global,
    place: usize,
    described: &SceneSlave,
    given: &mut Vec<PlacedEeprom>,
) -> Result<Eeprom, LineFailure>
    ensures own { IfOk result (λ eeprom. IsOwn given.old.items place (slave_record described.now) eeprom) }
    ensures others { (other : ℕ) → other ≢ place
        → given_at given.new.items other ≡ given_at given.old.items other }
{
    match taken(given, place) {
        Some(eeprom) => Ok(eeprom),
        None => eeprom_of(alloc, place, described),
    }
}

/// The EEPROM of those given that is of a place, if one is.
fn taken(given: &mut Vec<PlacedEeprom>, place: usize) -> Option<Eeprom>
    ensures own { result ≡ option_map (λ one. one.eeprom) (given_at given.old.items place) }
    ensures others { (other : ℕ) → other ≢ place
        → given_at given.new.items other ≡ given_at given.old.items other }
{
    match number_of(given.as_slice(), place) {
        Some(number) => Some(given.remove(number).eeprom),
        None => None,
    }
}

/// Which of those given is the first of a place.
fn number_of(given: &[PlacedEeprom], place: usize) -> Option<usize>
    ensures some { IfSome result (λ number. (number < length given.now)
        × (given_at given.now place ≡ slice_get given.now number)) }
    ensures none { IfNone result (given_at given.now place ≡ None) }
{
    for number in 0..given.len() {
        if given[number].place == place {
            return Some(number);
        }
    }
    None
}
