//! Slaves for the tests.

use ec_app::{Objects, Slave};
use ec_regs::{Fmmu, NoMemory, SyncMan};
use std::alloc::Global;

/// The logical byte that most lines map.
pub(crate) const BYTE: u32 = 0x0001_0000;

/// A slave that reads and writes one logical byte: sync manager 2 writes at 0x1000, 3 reads at 0x1100.
pub(crate) fn exchanging(alloc: Global, station: u16, logical: u32) -> Result<Slave, NoMemory> {
    let mut slave = Slave::new(alloc, station, Objects::new(), 0, 0)?;
    let controller = slave.controller_mut();
    controller.set_syncman(2, &SyncMan::outputs(0x1000, 1));
    controller.set_syncman(3, &SyncMan::inputs(0x1100, 1));
    controller.set_fmmu(0, &Fmmu::writing(logical, 1, 0x1000));
    controller.set_fmmu(1, &Fmmu::reading(logical, 1, 0x1100));
    Ok(slave)
}
