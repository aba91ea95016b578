//! Records and memories: what no row of `data/regs.rows` is.

mod door;
mod fmmu;
mod memory;
