//! Records of one byte for the tests.

use ec_regs::{Fmmu, SyncMan};

/// A buffered area of one byte.
pub(super) fn area(start: u16, control: u8) -> SyncMan {
    SyncMan {
        start,
        length: 1,
        control,
        status: 0,
        activate: 1,
        pdi: 0,
    }
}

/// An FMMU of one byte.
pub(super) fn byte(logical: u32, physical: u16, kind: u8) -> Fmmu {
    Fmmu {
        logical,
        length: 1,
        start: 0,
        stop: 7,
        physical,
        bit: 0,
        kind,
        activate: 1,
        reserved: [0; 3],
    }
}
