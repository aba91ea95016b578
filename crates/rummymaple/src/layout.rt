//! Where the parts of a frame lie, in bytes (IEC 61158-4-12, the EtherCAT frame and datagram structures).

/// The bytes of a frame's header; the first datagram follows it.
pub(crate) const HEADER: usize = 2;

/// The bytes of a datagram before its data.
pub(crate) const HEAD: usize = 10;

/// What a datagram takes beside its data: its head, and two bytes of the working counter.
pub(crate) const OVERHEAD: usize = 12;
