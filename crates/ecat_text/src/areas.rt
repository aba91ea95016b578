//! The areas that the master writes, as they are printed.

ghost use Rattle.std.specs.Prelude.{Some};
ghost use Rattle.ecat_text.specs.Areas.{area_words};

use crate::lines::Lines;
use ec_app::Slave;
use ec_regs::registers::SYNC_MANAGER_COUNT;
use std::fmt;
use std::io::{self, Write};

/// The line of an area, as far as its bytes.
#[derive(Drop)]
struct AreaHead {
    slave: usize,
    manager: usize,
}

impl fmt::Display for AreaHead {
    ghost output = { λ area. Some (area_words area) };

    fn fmt<W: fmt::Write>(&self, f: &mut fmt::Formatter<W>) -> fmt::Result {
        let slave = self.slave;
        let manager = self.manager;
        write!(f, "slave {slave} sm {manager} open ")
    }
}

/// Prints a line for each active buffered area of the slaves that the master writes.
pub fn print_areas<W: Write>(line: &[Slave], lines: &mut Lines<'_, W>) -> io::Result<()> {
    for (number, slave) in line.iter().enumerate() {
        areas(number, slave, lines)?;
    }
    Ok(())
}

/// The line of each active buffered area of a slave that the master writes.
fn areas<W: Write>(number: usize, slave: &Slave, lines: &mut Lines<'_, W>) -> io::Result<()> {
    let controller = slave.controller();
    for index in 0..SYNC_MANAGER_COUNT {
        let manager = controller.syncman(index);
        if manager.guards_outputs() {
            lines.text(AreaHead {
                slave: number,
                manager: index,
            })?;
            lines.hex(controller.bytes(manager.start, manager.length))?;
            lines.text(" shown ")?;
            lines.hex(controller.shown_bytes(manager.start, manager.length))?;
            lines.end()?;
        }
    }
    Ok(())
}
