//! Why a capture has no further packet.

use thiserror::Error;

/// What is wrong with a capture.
#[derive(Clone, Copy, Debug, PartialEq, Eq, Error)]
pub enum CaptureFaultKind {
    /// The bytes end inside a header, a record or a block.
    #[error("Short")]
    Short,
    /// The first four bytes are those of no kind of capture.
    #[error("NotCapture")]
    NotCapture,
    /// The version is not 2.4 of classic pcap, or not 1 of pcapng.
    #[error("Version")]
    Version,
    /// The packets, those of the file or of the interface that a packet came from, are neither of Ethernet
    /// nor of Linux's `any`.
    #[error("LinkType")]
    LinkType,
    /// A packet of more than 262,144 stored bytes, or a block of more than 1 MiB.
    #[error("TooLong")]
    TooLong,
    /// A section header has no byte-order magic.
    #[error("ByteOrder")]
    ByteOrder,
    /// A block's length is no multiple of four, is too small for its type, or is another at its end.
    #[error("BlockLength")]
    BlockLength,
    /// A block says that it stores more bytes of a packet than it has room for.
    #[error("Overrun")]
    Overrun,
    /// A packet of an interface that its section has not described.
    #[error("Interface")]
    Interface,
    /// A section describes more than 64 interfaces.
    #[error("TooManyInterfaces")]
    TooManyInterfaces,
    /// The times of an interface are finer than nanoseconds, or than 1/2^34 of a second.
    #[error("TimeResolution")]
    TimeResolution,
    /// More than 2^64 - 2 blocks with no packet stand in a row.
    #[error("NoPacket")]
    NoPacket,
    /// A read failed.
    #[error("Read")]
    Read,
    /// Memory ran out.
    #[error("NoMemory")]
    NoMemory,
    /// An earlier call found a fault.
    #[error("Failed")]
    Failed,
}

/// A fault of a capture, and where it is.
#[derive(Clone, Copy, Debug, PartialEq, Eq, Error)]
#[error("{kind} at {at}")]
pub struct CaptureFault {
    /// What is wrong.
    pub kind: CaptureFaultKind,
    /// The place of the byte in the file at which the header, record or block begins.
    pub at: u64,
}
