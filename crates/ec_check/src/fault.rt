//! What keeps a line from being mapped.

use thiserror::Error;

/// Why a line is refused: the rule that it breaks, and where. Slaves, FMMUs and sync managers are numbered
/// from 0, and bits are 8 * byte address + bit. The variants stand in the order in which the rules are
/// tested.
#[derive(Clone, Copy, PartialEq, Eq, Debug, Error)]
pub enum MapFault {
    /// Two slaves have one station address.
    #[error("TwinStation slave {slave} slave {later_slave}")]
    TwinStation {
        /// The first of them.
        slave: usize,
        /// The other.
        later_slave: usize,
    },
    /// An active FMMU has a type that is neither 1 (read) nor 2 (write), a bit field above 7, no bit, or a
    /// bit past the logical range or the memory.
    #[error("BadFmmu slave {slave} fmmu {fmmu}")]
    BadFmmu {
        /// The slave on which the FMMU stands.
        slave: usize,
        /// The number of the FMMU.
        fmmu: usize,
    },
    /// Two active areas of a slave share a byte.
    #[error("AreasMeet slave {slave} sm {sync_manager} sm {later_sync_manager} address {address:#06x}")]
    AreasMeet {
        /// The slave.
        slave: usize,
        /// The sync manager of the first area.
        sync_manager: usize,
        /// The sync manager of the other.
        later_sync_manager: usize,
        /// The lowest address that they share.
        address: u16,
    },
    /// An FMMU does not lie in one area of its kind.
    #[error("OutsideArea slave {slave} fmmu {fmmu} address {address:#06x}")]
    OutsideArea {
        /// The slave on which the FMMU stands.
        slave: usize,
        /// The number of the FMMU.
        fmmu: usize,
        /// The FMMU's first byte if no area of its kind holds that, else the first byte after the area that
        /// does.
        address: u16,
    },
    /// Two FMMUs of a slave write one physical bit.
    #[error("TwiceWritten slave {slave} fmmu {fmmu} fmmu {later_fmmu} bit {bit}")]
    TwiceWritten {
        /// The slave.
        slave: usize,
        /// The first FMMU.
        fmmu: usize,
        /// The other.
        later_fmmu: usize,
        /// The lowest physical bit that they share.
        bit: u64,
    },
    /// Two FMMUs of the line read one logical bit.
    #[error("TwiceRead slave {slave} fmmu {fmmu} slave {later_slave} fmmu {later_fmmu} bit {bit}")]
    TwiceRead {
        /// The slave of the first FMMU.
        slave: usize,
        /// The first FMMU.
        fmmu: usize,
        /// The slave of the other, which may be the same.
        later_slave: usize,
        /// The other FMMU.
        later_fmmu: usize,
        /// The lowest logical bit that they share.
        bit: u64,
    },
    /// A logical bit is read from one slave and written to another.
    #[error("ReadAndWritten slave {reader} fmmu {reader_fmmu} slave {writer} fmmu {writer_fmmu} bit {bit}")]
    ReadAndWritten {
        /// The slave that it is read from.
        reader: usize,
        /// The FMMU that reads it.
        reader_fmmu: usize,
        /// The slave that it is written to.
        writer: usize,
        /// The FMMU that writes it.
        writer_fmmu: usize,
        /// The lowest logical bit that they share.
        bit: u64,
    },
}
