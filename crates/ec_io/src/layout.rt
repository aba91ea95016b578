//! Where the fields of packets lie, in bytes, and the numbers that stand in them.

/// The bytes of an order's head, which its outputs follow.
pub const ORDER_HEAD: usize = 16;

/// The bytes of a report's head, which its inputs follow.
pub const REPORT_HEAD: usize = 40;

/// The bytes of a question's head, which its line follows.
pub const QUESTION_HEAD: usize = 16;

/// The bytes of a reply's head, which a run of text follows.
pub const REPLY_HEAD: usize = 20;

/// The most bytes of a question's line, and of a reply's text.
pub const MAX_TEXT: usize = 1_024;

/// The most bytes of process data in a packet, since the length field has 16 bits.
pub const MAX_DATA: usize = 65_535;

/// The letters `EcIO`, with which each packet begins, as a number whose lowest byte is the first of them.
pub(crate) const LETTERS: u32 = 0x4F49_6345;

/// The version of this layout.
pub(crate) const VERSION: u8 = 1;

/// The kind of a packet: an order,
pub(crate) const ORDER: u8 = 1;

/// a report,
pub(crate) const REPORT: u8 = 2;

/// a question,
pub(crate) const QUESTION: u8 = 3;

/// or a reply.
pub(crate) const REPLY: u8 = 4;

/// Where the fields of the front begin, which is the same in all packets: the letters,
pub(crate) const LETTERS_AT: usize = 0;

/// the version,
pub(crate) const VERSION_AT: usize = 4;

/// the kind,
pub(crate) const KIND_AT: usize = 5;

/// and how many bytes follow the head.
pub(crate) const LENGTH_AT: usize = 6;

/// The bytes of the front.
pub(crate) const FRONT: usize = 8;

/// Where the number begins of the last cycle that the program of an order saw.
pub(crate) const SEEN_AT: usize = 8;

/// Where the fields of a report begin: the number of its cycle,
pub(crate) const CYCLE_AT: usize = 8;

/// when this was over,
pub(crate) const TIME_AT: usize = 16;

/// how it ended,
pub(crate) const END_AT: usize = 24;

/// the flags,
pub(crate) const FLAGS_AT: usize = 25;

/// the item that was short or over,
pub(crate) const ITEM_AT: usize = 26;

/// how late the cycle began,
pub(crate) const LATE_AT: usize = 28;

/// and the number of the cycle that the inputs are of.
pub(crate) const INPUTS_OF_AT: usize = 32;

/// Where the number of a question begins, in it and in its replies.
pub(crate) const NUMBER_AT: usize = 8;

/// Where it begins behind how many others a reply stands,
pub(crate) const PLACE_AT: usize = 16;

/// and whether it is the last one.
pub(crate) const LAST_AT: usize = 18;

/// The last of the numbers that say how a cycle ended.
pub(crate) const LAST_END: u8 = 4;

/// The flags of a report: not all slaves are in Op,
pub(crate) const NOT_IN_OP: u8 = 0x01;

/// no copy came at port A,
pub(crate) const MISSING_A: u8 = 0x02;

/// none at port B,
pub(crate) const MISSING_B: u8 = 0x04;

/// and the outputs are stale.
pub(crate) const STALE: u8 = 0x08;

/// The byte with each of these flags.
pub(crate) const ALL_FLAGS: u8 = 0x0F;
