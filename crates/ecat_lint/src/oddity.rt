//! What is odd about a line of a scene, in words for a person.

use thiserror::Error;

/// Process data of a slave by the way that they go.
#[derive(Clone, Copy, PartialEq, Eq, Debug, Error)]
pub(crate) enum ProcessData {
    /// The master writes them.
    #[error("outputs")]
    Outputs,
    /// The master reads them.
    #[error("inputs")]
    Inputs,
}

/// What is odd about a line of a scene. Sync managers are numbered from 0, lengths are in bytes.
#[derive(Clone, Copy, PartialEq, Eq, Debug, Error)]
pub(crate) enum Oddity {
    /// The sync manager was set before.
    #[error("the sync manager is set in line {line} already, and set anew here")]
    SyncManagerAgain {
        /// The earlier line.
        line: usize,
    },
    /// The FMMU was set before.
    #[error("the FMMU is set in line {line} already, and set anew here")]
    FmmuAgain {
        /// The earlier line.
        line: usize,
    },
    /// The lengths were said before.
    #[error("the lengths are said in line {line} already, and said anew here")]
    AreasAgain {
        /// The earlier line.
        line: usize,
    },
    /// The state was said before.
    #[error("the state is said in line {line} already, and said anew here")]
    StateAgain {
        /// The earlier line.
        line: usize,
    },
    /// The sync manager is never active: too short or too long for what it is.
    #[error("a sync manager of this length is never active")]
    NeverActive,
    /// The application has process data of another length than those of its sync manager.
    #[error("sync manager {manager} is no area of so many {kind} ({wanted} bytes wanted, {there} there): \
         Safe-Op is refused")]
    AreaDiffers {
        /// The number of the sync manager.
        manager: usize,
        /// Which process data these are.
        kind: ProcessData,
        /// How many bytes the application has.
        wanted: u16,
        /// How many the area has: none where it is not of these data, unless none are wanted.
        there: u16,
    },
    /// The object is never reached, since the slave has no mailboxes.
    #[error("no object is reached without mailboxes at sync managers 0 and 1")]
    NoMailboxes,
    /// The startup object is never written, since the slave has no mailboxes.
    #[error("no startup object is written without mailboxes at sync managers 0 and 1")]
    StartsWithoutMailboxes,
    /// The startup object is none that the slave has.
    #[error("the slave has no object of this index and subindex")]
    StartsWithNone,
    /// The startup object may not be written.
    #[error("the object is read only: its write is aborted")]
    StartsReadOnly,
    /// The startup object has another size.
    #[error("the object has another number of bytes: its write is aborted")]
    StartsOtherSize,
    /// Bytes of an area of process data that no FMMU maps for the way that they go.
    #[error("sync manager {manager} has {kind} that no FMMU maps: {count} of {length} bytes, \
         first {first:#06x}, last {last:#06x}")]
    Unmapped {
        /// The number of the sync manager.
        manager: usize,
        /// Which process data these are.
        kind: ProcessData,
        /// How many bytes no FMMU maps.
        count: usize,
        /// How many bytes the area has.
        length: u16,
        /// The address of the first byte that no FMMU maps.
        first: u32,
        /// The address of the last one.
        last: u32,
    },
    /// The application has more process data than FMMUs map.
    #[error("FMMUs map fewer {kind} than the application has: {mapped} of {wanted} bytes")]
    FewerMapped {
        /// Which process data these are.
        kind: ProcessData,
        /// How many bytes FMMUs map.
        mapped: usize,
        /// How many bytes the application has.
        wanted: u16,
    },
    /// An area begins where a controller keeps the other two buffers of a buffered area.
    #[error("sync manager {next} begins at {at:#06x}, within the three buffers of {length} bytes \
         from {start:#06x}")]
    BuffersMeet {
        /// The first byte of the buffered area.
        start: u16,
        /// How many bytes it has.
        length: u16,
        /// The number of the sync manager that guards the next area.
        next: usize,
        /// The first byte of that.
        at: u16,
    },
    /// A logical item of which no FMMU of the line maps a byte, in any direction.
    #[error("no FMMU maps a byte of the item: {length} bytes from {address:#010x}")]
    OutsideMappings {
        /// The first logical byte of the item.
        address: u32,
        /// How many bytes it has.
        length: usize,
    },
    /// An item that no slave serves, though it is not outside of all mappings.
    #[error("no slave serves the item: its expected working counter is 0")]
    NotServed,
    /// An item that has no room in a frame beside the number with which a running master sends it.
    #[error("`master` has no room for the item: {length} bytes of data, {room} at the most")]
    NoRoom {
        /// How many bytes of data the item has.
        length: usize,
        /// How many a datagram has that goes out alone with a number behind it, at the most.
        room: usize,
    },
}
