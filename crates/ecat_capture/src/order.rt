//! The two orders in which a capture's numbers may lie.
ghost use Rattle.std.specs.Prelude.{◌≡◌, ◌+◌, ◌≤◌, length};
ghost use Rattle.ecat_capture.specs.Numbers.{half, word};

use byteorder::{BigEndian, ByteOrder, LittleEndian};

/// In which order the bytes of a number lie.
#[derive(Clone, Copy)]
pub(crate) enum Order {
    /// The lowest byte first.
    Little,
    /// The highest byte first.
    Big,
}

impl Order {
    /// The number in the two bytes from this place on.
    #[tactic(auto, unfolding(crate::specs::Numbers::half))]
    pub(crate) fn half(self, bytes: &[u8], at: usize) -> u16
        requires { at + 2 ≤ length bytes.now }
        ensures { result ≡ half self at bytes.now }
    {
        match self {
            Order::Little => LittleEndian::read_u16(&bytes[at..]),
            Order::Big => BigEndian::read_u16(&bytes[at..]),
        }
    }

    /// The number in the four bytes from this place on.
    #[tactic(auto, unfolding(crate::specs::Numbers::word))]
    pub(crate) fn word(self, bytes: &[u8], at: usize) -> u32
        requires { at + 4 ≤ length bytes.now }
        ensures { result ≡ word self at bytes.now }
    {
        match self {
            Order::Little => LittleEndian::read_u32(&bytes[at..]),
            Order::Big => BigEndian::read_u32(&bytes[at..]),
        }
    }
}
