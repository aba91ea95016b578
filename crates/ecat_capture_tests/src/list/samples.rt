//! Captures that the tests list.

/// A packet of an APRD of the slave at place 2 at 0x0130 with no data, wkc 0.
pub(super) static ONE: [u8; 68] = [
    0xd4, 0xc3, 0xb2, 0xa1, 2, 0, 4, 0, 0, 0, 0, 0, 0, 0, 0, 0, 0, 0, 4, 0, 1, 0, 0, 0, //
    0, 0, 0, 0, 0, 0, 0, 0, 28, 0, 0, 0, 28, 0, 0, 0, //
    1, 1, 5, 4, 0, 0, 2, 1, 5, 0x10, 0, 0, 0x88, 0xa4, 0x0c, 0x10, //
    1, 9, 0xfe, 0xff, 0x30, 1, 0, 0, 0, 0, 0, 0,
];

/// The line of that packet.
pub(super) static LINE: &str = "1 0.000000 02:01:05:10:00:00 0 APRD -2:0x0130 0 wkc 0 -\n";

/// The same packet, and a header of a record that lacks its last byte.
pub(super) static CUT: [u8; 83] = [
    0xd4, 0xc3, 0xb2, 0xa1, 2, 0, 4, 0, 0, 0, 0, 0, 0, 0, 0, 0, 0, 0, 4, 0, 1, 0, 0, 0, //
    0, 0, 0, 0, 5, 0, 0, 0, 28, 0, 0, 0, 28, 0, 0, 0, //
    1, 1, 5, 4, 0, 0, 2, 1, 5, 0x10, 0, 0, 0x88, 0xa4, 0x0c, 0x10, //
    1, 9, 0xfe, 0xff, 0x30, 1, 0, 0, 0, 0, 0, 0, //
    0, 0, 0, 0, 0, 0, 0, 0, 0, 0, 0, 0, 0, 0, 0,
];
