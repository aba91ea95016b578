//! Why bytes are no frame, and in which form they came.

/// Where a frame's bytes come from: this decides whether bytes may follow the frame.
#[derive(Clone, Copy, PartialEq, Eq, Debug)]
pub enum Form {
    /// An Ethernet frame's payload: bytes past the stated length are padding.
    Ethernet,
    /// A UDP packet's payload: it ends with the frame.
    Udp,
}

/// What is wrong with bytes that are no frame.
#[derive(Clone, Copy, PartialEq, Eq, Debug)]
pub enum FaultKind {
    /// The bytes end before the frame does.
    Short,
    /// The header's type is not 1.
    BadType,
    /// A reserved bit of the header or of a datagram is set.
    Reserved,
    /// The header states no datagrams.
    Empty,
    /// The header states more than 1,498 bytes of datagrams.
    TooLong,
    /// A command above 14.
    BadCommand,
    /// A datagram's data reach past the stated length.
    Overrun,
    /// The last datagram says that more follow.
    MoreAtEnd,
    /// Bytes are left behind the last datagram, or too few for one more.
    LeftOver,
    /// Bytes follow the frame in a UDP packet.
    Trailing,
}

/// The first fault of bytes that are no frame, from the left.
#[derive(Clone, Copy, PartialEq, Eq, Debug)]
pub struct WireFault {
    /// The index of the byte at fault, or where the bytes end.
    pub at: usize,
    /// What is wrong there.
    pub kind: FaultKind,
}
