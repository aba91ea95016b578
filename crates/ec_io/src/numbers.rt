//! Numbers in a packet, the lowest byte first.

ghost use Rattle.std.specs.Prelude.{◌≡◌, ◌+◌, ◌≤◌, length, drop};
ghost use Rattle.std.specs.Int.{w16, w32, w64, from_le_bytes};

use byteorder::{ByteOrder, LittleEndian};

/// The number in the two bytes from a place on.
pub(crate) fn u16_at(bytes: &[u8], at: usize) -> u16
    requires { at + 2 ≤ length bytes.now }
    ensures { result ≡ from_le_bytes w16 (drop at bytes.now) }
{
    LittleEndian::read_u16(&bytes[at..])
}

/// The number in the four bytes from a place on.
pub(crate) fn u32_at(bytes: &[u8], at: usize) -> u32
    requires { at + 4 ≤ length bytes.now }
    ensures { result ≡ from_le_bytes w32 (drop at bytes.now) }
{
    LittleEndian::read_u32(&bytes[at..])
}

/// The number in the eight bytes from a place on.
pub(crate) fn u64_at(bytes: &[u8], at: usize) -> u64
    requires { at + 8 ≤ length bytes.now }
    ensures { result ≡ from_le_bytes w64 (drop at bytes.now) }
{
    LittleEndian::read_u64(&bytes[at..])
}
