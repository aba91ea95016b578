//! The slaves of a scene and the ring of them.

use crate::devices::{add_objects, alias_in};
use crate::failure::LineFailure;
use ec_app::Slave;
use ec_applications::tell_each;
use ec_esc::Controller;
use ec_regs::Information;
use ec_ring::{Ring, Travel};
use ecat_scene::{SceneSlave, Setting, SlaveKind};
use std::alloc::Global;

/// Sets up a controller, line by line.
fn set_up(controller: &mut Controller, settings: &[Setting]) {
    for setting in settings {
        match setting {
            Setting::SyncMan(manager) => controller.set_syncman(manager.index, &manager.record),
            Setting::Fmmu(fmmu) => controller.set_fmmu(fmmu.index, &fmmu.record),
            Setting::Load(load) => controller.load(load.address, load.bytes.as_slice()),
        }
    }
}

/// The slave at a place that a scene describes. A device tells what it is, and has the objects that masters
/// read of one.
fn slave_of(alloc: Global, place: usize, mut described: SceneSlave) -> Result<Slave, LineFailure> {
    let is_device = described.kind == SlaveKind::Device;
    if is_device && add_objects(alloc, place, &mut described).is_err() {
        return Err(LineFailure::NoMemory);
    }
    let SceneSlave {
        station,
        state,
        simple,
        output_length,
        input_length,
        settings,
        objects,
        behaviours: _,
        startup: _,
        kind: _,
        identity: _,
        alias,
        name: _,
        pdos: _,
        sii,
    } = described;
    let made = if simple {
        Slave::simple(alloc, station, objects, output_length, input_length)
    } else {
        Slave::new(alloc, station, objects, output_length, input_length)
    };
    let Ok(mut slave) = made else {
        return Err(LineFailure::NoMemory);
    };
    set_up(slave.controller_mut(), settings.as_slice());
    if is_device {
        tell_what_it_is(slave.controller_mut(), alias_in(alias, sii.as_slice()));
    }
    slave.set_state(state);
    Ok(slave)
}

/// Has a controller tell what it is, and which alias its EEPROM says, and have the slave information
/// interface.
fn tell_what_it_is(controller: &mut Controller, alias: u16) {
    controller.set_information(&Information::ip_core());
    controller.set_alias(alias);
}

/// The slaves that a scene describes, from master port A to port B.
pub fn slaves_of(alloc: Global, described: Vec<SceneSlave>) -> Result<Vec<Slave>, LineFailure> {
    let mut slaves = Vec::new(alloc);
    for (place, one) in described.into_iter().enumerate() {
        let slave = slave_of(alloc, place, one)?;
        if slaves.push(slave).is_err() {
            return Err(LineFailure::NoMemory);
        }
    }
    Ok(slaves)
}

/// The ring of the slaves that a scene describes, with the links down that it names; devices tell them.
pub fn ring_of(
    alloc: Global,
    described: Vec<SceneSlave>,
    links_down: &[u64],
) -> Result<Ring, LineFailure> {
    let slaves = slaves_of(alloc, described)?;
    let Ok(mut ring) = Ring::new(slaves) else {
        return Err(LineFailure::TooMany);
    };
    for link in links_down {
        set_link(&mut ring, *link as usize, false);
    }
    let links = ring.links();
    tell_each(&mut ring, &links);
    Ok(ring)
}

/// Puts a link up or down, if the ring has it.
pub fn set_link(ring: &mut Ring, link: usize, up: bool) {
    let last = ring.slaves().len();
    if link <= last {
        ring.set_link(link, up);
    }
}
