//! The memory of one controller: 12,288 bytes, registers first and then process memory.

ghost use Rattle.std.specs.Prelude.{◌≡◌, ◌+◌, ◌<◌, ◌≤◌, ℕ, IfOk, ◌++◌, length, take, drop, slice_index};
ghost use Rattle.std.specs.Prelude.{slice_set};

use crate::bits::copy_bits;
use crate::registers::MEMORY_SIZE;
use std::alloc::{AllocError, Global};
use std::marker::Model;

/// There was no memory left for the bytes of a controller.
#[derive(Clone, Copy, Debug, PartialEq, Eq)]
pub struct NoMemory;

impl From<AllocError> for NoMemory {
    fn from(_refused: AllocError) -> NoMemory {
        NoMemory
    }
}

/// The memory of one controller, seen as the list of its bytes by address; an address is below
/// `MEMORY_SIZE`.
#[derive(Drop)]
pub struct Memory {
    bytes: Vec<u8>,
}

impl Model for Memory {
    ghost use Rattle.std.specs.Prelude.{◌≡◌, ℕ, List, length};
    ghost use Rattle.ec_regs.specs.declared.registers.TheConstants.{MEMORY_SIZE};

    ghost Value = { List ℕ };

    ghost view = { λ m. m.bytes.items };

    ghost invariant = { λ m. length m.bytes.items ≡ MEMORY_SIZE };
}

impl Memory {
    /// A memory whose bytes are all 0. It fails only where the allocator has no room for it.
    pub fn new(alloc: Global) -> Result<Memory, NoMemory>
        ensures size { IfOk result (λ m. length m ≡ MEMORY_SIZE) }
        ensures zero { IfOk result (λ m. (address : ℕ) → slice_index m address ≡ 0) }
    {
        Ok(Memory {
            bytes: zeros(alloc, MEMORY_SIZE as usize)?,
        })
    }

    /// The byte at an address.
    pub fn byte(&self, address: u16) -> u8
        requires { address < MEMORY_SIZE }
        ensures { result ≡ slice_index self.now address }
    {
        self.bytes()[address as usize]
    }

    /// Writes the byte at an address; all others stay.
    pub fn set_byte(&mut self, address: u16, value: u8)
        requires { address < MEMORY_SIZE }
        ensures value { self.new ≡ slice_set self.old address value }
        ensures size { length self.new ≡ MEMORY_SIZE }
    {
        self.bytes[address as usize] = value;
    }

    /// All bytes, by address.
    pub fn bytes(&self) -> &[u8]
        ensures value { result.now ≡ self.now }
        ensures size { length self.now ≡ MEMORY_SIZE }
    {
        self.bytes.as_slice()
    }

    /// Writes a run of bytes from an address on; all others stay.
    pub fn load(&mut self, address: u16, bytes: &[u8])
        requires { address + length bytes.now ≤ MEMORY_SIZE }
        ensures value { self.new
            ≡ take address self.old ++ bytes.now ++ drop (address + length bytes.now) self.old }
        ensures size { length self.new ≡ MEMORY_SIZE }
    {
        let from = address as usize;
        self.bytes[from..from + bytes.len()].copy_from_slice(bytes);
    }
}

impl Memory {
    ghost use Rattle.std.specs.Prelude.{◌*◌, ◌^◌};
    ghost use Rattle.ec_regs.specs.Bits.{with_bits};
    ghost use Rattle.ec_regs.specs.Pairs.{partner};

    /// Copies `count` bits: those from bit `source` of the bytes on, to those from bit `at` on. All others
    /// stay. Bit numbers are 8 * byte + bit.
    pub fn copy_bits(&mut self, at: usize, bytes: &[u8], source: usize, count: usize)
        requires at_inside { at + count ≤ 8 * MEMORY_SIZE }
        requires source_inside { source + count ≤ 8 * length bytes.now }
        requires source_fits { source + count < 2 ^ 64 }
        ensures value { self.new ≡ with_bits self.old bytes.now (partner at source count) }
        ensures size { length self.new ≡ MEMORY_SIZE }
    {
        copy_bits(self.bytes.as_mut_slice(), at, bytes, source, count);
    }
}

/// A vector of `count` zeros.
fn zeros(alloc: Global, count: usize) -> Result<Vec<u8>, AllocError>
    ensures size { IfOk result (λ v. length v.items ≡ count) }
    ensures zero { IfOk result (λ v. (k : ℕ) → slice_index v.items k ≡ 0) }
{
    vec![in alloc; 0; count]
}
