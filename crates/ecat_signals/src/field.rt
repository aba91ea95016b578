//! The bits of a signal, read of an item's bytes and written among them.

ghost use Rattle.std.specs.Prelude.{◌≡◌, ◌+◌, ◌*◌, ◌^◌, ◌<◌, ◌≤◌, IfOk, OnErr, Ok, Err, length};
ghost use Rattle.std.specs.Prelude.{option_map};
ghost use Rattle.ecat_signals.specs.Signals.{extended, fits, has_sign, is_number, is_up_to, is_whole_row};
ghost use Rattle.ecat_signals.specs.Signals.{lies_in, number_at, number_in, number_put, row_in, row_put};

use crate::kind::SignalKind;
use ec_regs::bits::copy_bits;

/// How many bits a byte has.
const BYTE: usize = 8;

/// How many bits a number has at most.
const NUMBER: usize = 32;

/// Bits of an item, and what they are.
#[derive(Clone, Copy, PartialEq, Eq, Debug)]
pub struct Field {
    /// The number of an item of the scene, the first one's being 0.
    pub item: usize,
    /// The first bit, from 0: bit 0 is the lowest one of the item's first byte.
    pub bit: usize,
    /// How many bits.
    pub count: usize,
    /// What they are.
    pub kind: SignalKind,
}

/// A field of an item that has a name.
#[derive(Drop)]
pub struct Signal {
    /// Its name: letters, digits, `_`, `.` and `-`.
    pub name: Vec<u8>,
    /// Its bits.
    pub field: Field,
}

/// Why a value could not be put.
#[derive(Clone, Copy, PartialEq, Eq, Debug)]
pub enum FieldFault {
    /// The field is of another kind, or does not lie in these bytes.
    NoField,
    /// The value does not fit the bits.
    OutOfRange,
}

impl Field {
    /// Do its bits lie in so many bytes?
    pub fn lies_in(&self, length: usize) -> bool
        ensures { result ≡ lies_in length self.now }
    {
        let bits = length.saturating_mul(BYTE);
        self.bit <= bits && self.count <= bits - self.bit
    }

    /// Its bits as a number of an item's bytes; where its kind has a sign, as 32 bits in two's complement.
    /// `None` of a row of bytes, of more than 32 bits, and where they do not lie in these bytes.
    pub fn number_in(&self, bytes: &[u8]) -> Option<u32>
        ensures { result ≡ number_in self.now bytes.now }
    {
        if !self.is_number(bytes.len()) {
            return None;
        }
        let number = number_at(bytes, self.bit, self.count);
        Some(extended(self.kind.has_sign(), self.count, number))
    }

    /// The bytes of a row among an item's. `None` of a number, and where they do not lie in these bytes.
    pub fn row_in<'a>(&self, bytes: &'a [u8]) -> Option<&'a [u8]>
        ensures { option_map (λ row. row.now) result ≡ row_in self.now bytes.now }
    {
        if !self.is_whole_row(bytes.len()) {
            return None;
        }
        let from = self.bit / BYTE;
        Some(&bytes[from..from + self.count / BYTE])
    }

    /// Puts a number of 32 bits into its bits, where its kind has a sign in two's complement; all other bits
    /// stay. Nothing is changed of a row of bytes, of more than 32 bits, where they do not lie in these
    /// bytes, or where they are too few for the number.
    pub fn put_number(&self, bytes: &mut [u8], number: u32) -> Result<(), FieldFault>
        ensures done { IfOk result (λ _. number_put self.now number bytes.old ≡ Ok bytes.new) }
        ensures refused { (fault : FieldFault) → result ≡ Err fault
            → number_put self.now number bytes.old ≡ Err fault }
        ensures stays { OnErr result (bytes.new ≡ bytes.old) }
    {
        if !self.is_number(bytes.len()) {
            return Err(FieldFault::NoField);
        }
        if !fits(self.kind.has_sign(), self.count, number) {
            return Err(FieldFault::OutOfRange);
        }
        copy_bits(bytes, self.bit, &number.to_le_bytes(), 0, self.count);
        Ok(())
    }

    /// Puts a row of bytes into its bits; all other bits stay. Nothing is changed of a number, where they do
    /// not lie in these bytes, or where they are more or fewer than the row's.
    pub fn put_row(&self, bytes: &mut [u8], row: &[u8]) -> Result<(), FieldFault>
        ensures done { IfOk result (λ _. row_put self.now row.now bytes.old ≡ Ok bytes.new) }
        ensures refused { (fault : FieldFault) → result ≡ Err fault
            → row_put self.now row.now bytes.old ≡ Err fault }
        ensures stays { OnErr result (bytes.new ≡ bytes.old) }
    {
        if !self.is_whole_row(bytes.len()) {
            return Err(FieldFault::NoField);
        }
        if self.count % BYTE != 0 || row.len() != self.count / BYTE {
            return Err(FieldFault::OutOfRange);
        }
        copy_bits(bytes, self.bit, row, 0, self.count);
        Ok(())
    }

    /// May a number of 32 bits, where its kind has a sign in two's complement, be put into its bits?
    pub fn takes(&self, number: u32) -> bool
        requires few { self.now.count ≤ 32 }
        requires some { 1 ≤ self.now.count }
        ensures { result ≡ fits (has_sign self.now.kind) self.now.count number }
    {
        fits(self.kind.has_sign(), self.count, number)
    }

    /// Is it a number that lies in so many bytes?
    fn is_number(&self, length: usize) -> bool
        ensures { result ≡ is_number length self.now }
    {
        is_up_to_32(self.count) && !self.kind.is_row() && self.lies_in(length)
    }

    /// Is it a row of whole bytes that lies in so many?
    fn is_whole_row(&self, length: usize) -> bool
        ensures { result ≡ is_whole_row length self.now }
    {
        self.kind.is_row() && self.kind.takes(self.bit, self.count) && self.lies_in(length)
    }
}

/// Is it 1 to 32?
fn is_up_to_32(count: usize) -> bool
    ensures { result ≡ is_up_to 32 count }
{
    1 <= count && count <= NUMBER
}

/// May a number of 32 bits be one of so many?
fn fits(sign: bool, count: usize, number: u32) -> bool
    requires some { 1 ≤ count }
    requires few { count ≤ 32 }
    ensures { result ≡ fits sign count number }
{
    let number = u64::from(number);
    let half = 1u64 << (count - 1);
    if sign {
        number < half || (1u64 << NUMBER) - half <= number
    } else {
        number < 1u64 << count
    }
}

/// The number of so many bits of bytes, from one on.
fn number_at(bytes: &[u8], bit: usize, count: usize) -> u32
    requires few { count ≤ 32 }
    requires inside { bit + count ≤ 8 * length bytes.now }
    requires fits { bit + count < 2 ^ 64 }
    ensures { result ≡ number_at bytes.now bit count }
{
    let mut found = [0u8; 4];
    copy_bits(&mut found, 0, bytes, bit, count);
    u32::from_le_bytes(found)
}

/// A number of so many bits as one of 32: where it has a sign, all higher bits are as its top bit.
fn extended(sign: bool, count: usize, number: u32) -> u32
    requires some { 1 ≤ count }
    requires few { count ≤ 32 }
    ensures { result ≡ extended sign count number }
{
    let number = u64::from(number);
    let top = 1u64 << (count - 1);
    let beyond = (1u64 << NUMBER) - (1u64 << count);
    if sign && top <= number {
        ((number + beyond) % (1u64 << NUMBER)) as u32
    } else {
        number as u32
    }
}
