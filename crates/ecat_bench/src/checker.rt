//! The checker of a line's mapping as a work, over a line of 256 slaves with eight FMMUs each, and what 32
//! items leave out of it. The line is fit and covered, so that each rule is tested to its end.

ghost use Rattle.std.specs.Prelude.{◌<◌};

use ec_app::{Objects, Slave};
use ec_map::{Item, Kind, check, first_not_shown, first_uncovered};
use ec_regs::{Fmmu, NoMemory, SyncMan};
use std::alloc::Global;
use std::io;
use std::rt::Clock;
use std::time::Instant;

/// How many slaves stand on the line.
const SLAVES: u16 = 256;

/// How many items ask for all that it maps, in how many bytes each.
const ITEMS: u32 = 32;

const ITEM_BYTES: usize = 32;

/// How often the time of a check is taken.
const ROUNDS: u32 = 20;

/// The picoseconds of checking the line.
pub(crate) fn checking(rt: &(impl Clock + AllocGlobal)) -> io::Result<u64> {
    let Ok(line) = full_line(rt.alloc()) else {
        return Err(io::Error::from(io::ErrorKind::OutOfMemory));
    };
    let mut best = u64::MAX;
    for _round in 0..ROUNDS {
        let start = Instant::now(rt)?;
        if check(&line).is_err() {
            return Err(io::Error::from(io::ErrorKind::InvalidData));
        }
        best = best.min(picoseconds(start.elapsed(rt)?.subsec_nanos()));
    }
    Ok(best)
}

/// The picoseconds of looking for a mapped bit that no item asks for.
pub(crate) fn covering(rt: &(impl Clock + AllocGlobal)) -> io::Result<u64> {
    let (Ok(line), Ok(items)) = (full_line(rt.alloc()), all_items(rt.alloc())) else {
        return Err(io::Error::from(io::ErrorKind::OutOfMemory));
    };
    let mut best = u64::MAX;
    for _round in 0..ROUNDS {
        let start = Instant::now(rt)?;
        if first_uncovered(&line, &items).is_some() {
            return Err(io::Error::from(io::ErrorKind::InvalidData));
        }
        best = best.min(picoseconds(start.elapsed(rt)?.subsec_nanos()));
    }
    Ok(best)
}

/// The picoseconds of looking for an area of outputs that is not shown.
pub(crate) fn showing(rt: &(impl Clock + AllocGlobal)) -> io::Result<u64> {
    let (Ok(line), Ok(items)) = (full_line(rt.alloc()), all_items(rt.alloc())) else {
        return Err(io::Error::from(io::ErrorKind::OutOfMemory));
    };
    let mut best = u64::MAX;
    for _round in 0..ROUNDS {
        let start = Instant::now(rt)?;
        if first_not_shown(&line, &items).is_some() {
            return Err(io::Error::from(io::ErrorKind::InvalidData));
        }
        best = best.min(picoseconds(start.elapsed(rt)?.subsec_nanos()));
    }
    Ok(best)
}

/// The picoseconds of some nanoseconds.
fn picoseconds(nanoseconds: u32) -> u64 {
    1000 * u64::from(nanoseconds)
}

/// The line, from its first slave on.
fn full_line(alloc: Global) -> Result<Vec<Slave>, NoMemory> {
    let mut line = Vec::new(alloc);
    for place in 0..SLAVES {
        if line.push(busy_slave(alloc, place)?).is_err() {
            return Err(NoMemory);
        }
    }
    Ok(line)
}

/// A slave that reads and writes four logical bytes of its own, one by one.
fn busy_slave(alloc: Global, place: u16) -> Result<Slave, NoMemory>
    requires { place < 256 }
{
    let mut slave = Slave::new(alloc, place, Objects::new(), 0, 0)?;
    let controller = slave.controller_mut();
    controller.set_syncman(2, &SyncMan::outputs(0x1000, 4));
    controller.set_syncman(3, &SyncMan::inputs(0x1100, 4));
    for k in 0..4usize {
        let logical = 0x0001_0000 + 4 * u32::from(place) + k as u32;
        controller.set_fmmu(k, &Fmmu::writing(logical, 1, 0x1000 + k as u16));
        controller.set_fmmu(k + 4, &Fmmu::reading(logical, 1, 0x1100 + k as u16));
    }
    Ok(slave)
}

/// Exchanges of all logical bytes that the line maps.
fn all_items(alloc: Global) -> Result<Vec<Item>, NoMemory> {
    let mut items = Vec::new(alloc);
    for k in 0..ITEMS {
        let logical = 0x0001_0000 + k * ITEM_BYTES as u32;
        let Ok(item) = Item::new(Kind::Lrw, logical, &[0; ITEM_BYTES]) else {
            return Err(NoMemory);
        };
        if items.push(item).is_err() {
            return Err(NoMemory);
        }
    }
    Ok(items)
}
