//! Bytes in place, of which a run can be lent.
ghost use Rattle.std.specs.Prelude.{◌≡◌, ◌+◌, ◌-◌, ◌++◌, ◌≤◌, length, take, drop, replicate, slice_range};
ghost use Rattle.std.specs.Int.{w16, w32, from_le_bytes};
ghost use Rattle.std.specs.Borrow.{sem};

use byteorder::{ByteOrder, LittleEndian};

/// `N` bytes in place.
#[derive(Drop)]
pub(crate) struct Cells<const N: usize> {
    pub(crate) bytes: [u8; N],
}

impl<const N: usize> Cells<N> {
    ghost use Rattle.ec_wire.specs.Cells.{lends_run};

    /// All bytes zero.
    pub(crate) fn new() -> Self
        ensures { result.bytes ≡ replicate N 0 }
    {
        Cells { bytes: [0; N] }
    }

    /// All the bytes.
    pub(crate) fn as_slice(&self) -> &[u8]
        ensures value { result.now ≡ self.now.bytes }
        ensures len { length result.now ≡ N }
    {
        &self.bytes
    }

    /// The bytes from `from` up to `to`, for writing.
    pub(crate) fn run_mut(&mut self, from: usize, to: usize) -> &mut [u8]
        requires ordered { from ≤ to }
        requires within { to ≤ N }
        ensures* writes_back { sem 𝓛 (lends_run N.row self.entry from to result) }
        ensures value { result.now ≡ slice_range self.old.bytes from to }
        ensures len { length result.now ≡ to - from }
    {
        &mut self.bytes[from..to]
    }

    /// Writes these bytes from `at` on.
    pub(crate) fn put(&mut self, at: usize, bytes: &[u8])
        requires { at + length bytes.now ≤ N }
        ensures { self.new.bytes ≡ take at self.old.bytes
            ++ (bytes.now ++ drop (at + length bytes.now) self.old.bytes) }
    {
        self.run_mut(at, at + bytes.len()).copy_from_slice(bytes);
    }

    /// The two bytes from `at` on as a number.
    pub(crate) fn word(&self, at: usize) -> u16
        requires { at + 2 ≤ N }
        ensures { result ≡ from_le_bytes w16 (drop at self.now.bytes) }
    {
        LittleEndian::read_u16(&self.as_slice()[at..])
    }

    /// The four bytes from `at` on as a number.
    pub(crate) fn double_word(&self, at: usize) -> u32
        requires { at + 4 ≤ N }
        ensures { result ≡ from_le_bytes w32 (drop at self.now.bytes) }
    {
        LittleEndian::read_u32(&self.as_slice()[at..])
    }

    /// A second array of the same bytes.
    pub(crate) fn copy(&self) -> Self
        ensures { result ≡ self.now }
    {
        Cells { bytes: self.bytes }
    }
}
