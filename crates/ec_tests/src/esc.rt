//! A controller: what no row of `data/esc.rows` is.

mod door;

use ec_regs::{Fmmu, SyncMan};

/// One byte at 0x1100, buffered, read by the master, enabled.
const INPUTS: SyncMan = SyncMan {
    start: 0x1100,
    length: 1,
    control: 0x00,
    status: 0x00,
    activate: 0x01,
    pdi: 0x00,
};

/// Logical byte 0x00010000 alone, from bit 0 to bit 7, onto the inputs' first byte; read, active.
const READ: Fmmu = Fmmu {
    logical: 0x0001_0000,
    length: 1,
    start: 0,
    stop: 7,
    physical: 0x1100,
    bit: 0,
    kind: 1,
    activate: 1,
    reserved: [0; 3],
};
