//! Why bytes are no packet, and why a packet is not written.

ghost use Rattle.std.specs.Prelude.{◌≡◌};
ghost use Rattle.ec_io.specs.Fault.{place_of};

use crate::layout::{
    END_AT, FLAGS_AT, INPUTS_OF_AT, ITEM_AT, KIND_AT, LAST_AT, LENGTH_AT, LETTERS_AT, VERSION_AT,
};
use thiserror::Error;

/// What is wrong with bytes that are no packet: the first of these that holds, and they stand in the order of
/// the fields.
#[derive(Clone, Copy, PartialEq, Eq, Debug, Error)]
pub enum PacketFault {
    /// The bytes end inside the head.
    #[error("the packet ends inside its head")]
    Short,
    /// The first four bytes are other ones than the letters `EcIO`.
    #[error("the packet does not begin with EcIO")]
    OtherMagic,
    /// The packet is of this version, and version 1 was wanted.
    #[error("the packet is of version {0}, and 1 was wanted")]
    OtherVersion(u8),
    /// The packet is of this kind, and another was wanted: orders are of kind 1, reports of kind 2, questions
    /// of kind 3, replies of kind 4.
    #[error("the packet is of kind {0}, and another was wanted")]
    OtherKind(u8),
    /// The bytes that follow the head are more or fewer than it says.
    #[error("the bytes behind the head are more or fewer than it says")]
    Length,
    /// The report is of a cycle that ended in this way, and there are the ways 0 to 4.
    #[error("the cycle ended in the way {0}, and there are 0 to 4")]
    BadEnd(u8),
    /// The report has these flags, and bits 4 to 7 have to be 0.
    #[error("the flags are {0:#04x}, and bits 4 to 7 have to be 0")]
    BadFlags(u8),
    /// The report names this item, and its cycle ended neither short nor over.
    #[error("item {0} is named, and the cycle ended neither short nor over")]
    BadItem(u16),
    /// The report has inputs, and they are of no cycle.
    #[error("there are inputs, and they are of no cycle")]
    BadInputs,
    /// The reply says this of whether it is the last one, and 0 or 1 was wanted.
    #[error("whether it is the last reply is told by {0}, and 0 or 1 was wanted")]
    BadLast(u16),
    /// The line of the question, or the text of the reply, is of more than 1,024 bytes.
    #[error("there are more than 1024 bytes of text")]
    LongText,
}

impl PacketFault {
    /// The place of the byte at which the field begins that is at fault; none where the bytes end inside the
    /// head.
    pub fn at(self) -> Option<usize>
        ensures { result ≡ place_of self }
    {
        match self {
            PacketFault::Short => None,
            PacketFault::OtherMagic => Some(LETTERS_AT),
            PacketFault::OtherVersion(_) => Some(VERSION_AT),
            PacketFault::OtherKind(_) => Some(KIND_AT),
            PacketFault::Length => Some(LENGTH_AT),
            PacketFault::BadEnd(_) => Some(END_AT),
            PacketFault::BadFlags(_) => Some(FLAGS_AT),
            PacketFault::BadItem(_) => Some(ITEM_AT),
            PacketFault::BadInputs => Some(INPUTS_OF_AT),
            PacketFault::BadLast(_) => Some(LAST_AT),
            PacketFault::LongText => Some(LENGTH_AT),
        }
    }
}

/// A packet is not written: there is no room for it, or its process data are more than 65,535 bytes, or its
/// text is of more than 1,024.
#[derive(Clone, Copy, PartialEq, Eq, Debug, Error)]
#[error("no room for the packet")]
pub struct NoRoom;
