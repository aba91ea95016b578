//! Where the fields of a frame lie, in bytes, and how its packed fields are divided (IEC 61158-4-12, the
//! EtherCAT frame and datagram structures).

use crate::frame::MAX_FRAME;

/// The bytes of the frame's header; the first datagram follows it.
pub(crate) const HEADER: usize = 2;

/// The most bytes of all datagrams of a frame together, and so the most that the length in its header may say
/// (IEC 61158-4-12, the EtherCAT frame structure): an Ethernet payload without that header.
pub const MAX_LENGTH: usize = MAX_FRAME - HEADER;

/// Both length fields, the header's and a datagram's: the length is what is below this.
pub(crate) const LENGTHS: u16 = 1 << 11;

/// The header: behind the length comes a reserved bit, and then the type
pub(crate) const TYPE: u16 = 1 << 12;

/// of EtherCAT commands.
pub(crate) const COMMANDS: u16 = 1;

/// The byte of the header that has the reserved bit and the type.
pub(crate) const TYPE_BYTE: usize = 1;

/// Where the fields of a datagram begin, from its command: its index,
pub(crate) const INDEX: usize = 1;

/// its address,
pub(crate) const ADDRESS: usize = 2;

/// the field with its data length,
pub(crate) const LENGTH: usize = 6;

/// of which this byte has the reserved bits and the two flags,
pub(crate) const FLAGS: usize = LENGTH + 1;

/// and its event requests.
pub(crate) const IRQ: usize = 8;

/// The bytes of a datagram before its data.
pub(crate) const HEAD: usize = 10;

/// What a datagram takes beside its data: its head, and two bytes of the working counter.
pub(crate) const OVERHEAD: usize = HEAD + 2;

/// A datagram's length field: behind the length come reserved bits, which have this many values,
pub(crate) const RESERVED: u16 = 1 << 3;

/// the circulating bit
pub(crate) const CIRCULATING: u16 = 1 << 14;

/// and the more bit.
pub(crate) const MORE: u16 = 1 << 15;
