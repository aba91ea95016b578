//! The logical image of the tests.

/// The logical byte that most lines map.
pub(crate) const BYTE: u32 = 0x0001_0000;
