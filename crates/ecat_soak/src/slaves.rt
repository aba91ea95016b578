//! The five slaves of the line. Each takes four logical bytes of outputs, and gives four of inputs.

ghost use Rattle.std.specs.Prelude.{◌<◌};

use ec_app::{Objects, Slave};
use ec_map::check;
use ec_regs::{Fmmu, NoMemory, SyncMan};
use ec_ring::Ring;
use std::alloc::Global;

/// How many slaves there are.
pub(crate) const SLAVES: usize = 5;

/// How many bytes of outputs, and of inputs, a slave has.
pub(crate) const LENGTH: usize = 4;

/// How many all slaves have.
pub(crate) const IMAGE: usize = SLAVES * LENGTH;

/// Where the logical bytes of the outputs begin.
pub(crate) const OUTPUTS: u32 = 0x0001_0000;

/// Where those of the inputs begin.
pub(crate) const INPUTS: u32 = 0x0002_0000;

/// The sync managers of the outputs and of the inputs.
pub(crate) const OUTPUT_AREA: usize = 2;

pub(crate) const INPUT_AREA: usize = 3;

/// The ring of these slaves, whose mapping is tested.
pub(crate) fn ring(alloc: Global) -> Result<Ring, NoMemory> {
    let mut line = Vec::new(alloc);
    for place in 0..SLAVES {
        if line.push(slave(alloc, place)?).is_err() {
            return Err(NoMemory);
        }
    }
    if check(&line).is_err() {
        return Err(NoMemory);
    }
    Ring::new(line).map_err(|_| NoMemory)
}

/// The slave at a place.
fn slave(alloc: Global, place: usize) -> Result<Slave, NoMemory>
    requires { place < SLAVES }
{
    let logical = (LENGTH * place) as u32;
    let station = 0x1001 + place as u16;
    let mut slave = Slave::new(alloc, station, Objects::new(), 4, 4)?;
    let controller = slave.controller_mut();
    controller.set_syncman(OUTPUT_AREA, &SyncMan::outputs(0x1000, 4));
    controller.set_syncman(INPUT_AREA, &SyncMan::inputs(0x1100, 4));
    controller.set_fmmu(0, &Fmmu::writing(OUTPUTS + logical, 4, 0x1000));
    controller.set_fmmu(1, &Fmmu::reading(INPUTS + logical, 4, 0x1100));
    Ok(slave)
}
