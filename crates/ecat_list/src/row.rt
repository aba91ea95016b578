//! A line, written from its end to its beginning.
//!
//! The digits of a number come lowest first. So a row that grows towards its front takes them where they
//! stand, needs no look whether memory is there, and goes to the text by one call.
ghost use Rattle.std.specs.Prelude.{◌≡◌, ◌<◌, ◌≤◌, ◌+◌, ◌*◌, ◌++◌, ◌∷◌, [], codes, decimal, drop};
ghost use Rattle.std.specs.Prelude.{length, map, take};
ghost use Rattle.std.specs.Int.Digits.{AllBelowBase};
ghost use Rattle.ecat_list.specs.Digits.{digit, hex};
ghost use Rattle.ecat_list.specs.Seconds.{seconds_words};
ghost use Rattle.ecat_list.specs.declared.row.TheConstants.{ROOM};

use crate::text::{one_and_fraction, spell};
use itoa::write_digits;
use std::simd::prelude::*;

/// How many bytes a row has room for: those of the longest line, whose datagram has 1,486 bytes of data.
const ROOM: usize = 3200;

/// Bytes that stand in front of the end of a row.
#[derive(Drop)]
pub(crate) struct Row {
    bytes: [u8; ROOM],
    from: usize,
    ghost within: { from ≤ 3200 },
}

impl Row {
    /// A row of no bytes.
    pub(crate) fn new() -> Row
        ensures { result.from ≡ ROOM }
    {
        Row {
            bytes: [0; ROOM],
            from: ROOM,
        }
    }

    /// Takes all bytes away.
    pub(crate) fn clear(&mut self)
        ensures at { self.new.from ≡ ROOM }
        ensures none { drop self.new.from self.new.bytes ≡ [] }
    {
        self.from = self.bytes.as_slice().len();
    }

    /// The bytes.
    pub(crate) fn as_slice(&self) -> &[u8]
        ensures { result.now ≡ drop self.now.from self.now.bytes }
    {
        &self.bytes[self.from..]
    }

    /// Puts one byte in front.
    pub(crate) fn lead_byte(&mut self, byte: u8)
        requires { 1 ≤ self.old.from }
        ensures at { self.new.from + 1 ≡ self.old.from }
        ensures written { drop self.new.from self.new.bytes ≡ byte ∷ drop self.old.from self.old.bytes }
    {
        self.from -= 1;
        self.bytes[self.from] = byte;
    }

    /// Puts the decimal digits of a number in front, at most twenty.
    pub(crate) fn lead_decimal(&mut self, number: u64)
        requires { 20 ≤ self.old.from }
        ensures some { self.new.from < self.old.from }
        ensures at { self.old.from ≤ self.new.from + 20 }
        ensures written { drop self.new.from self.new.bytes
            ≡ decimal number ++ drop self.old.from self.old.bytes }
    {
        self.from = write_digits(number, &mut self.bytes, self.from);
    }

    /// Puts bytes in front.
    pub(crate) fn lead_bytes(&mut self, bytes: &[u8])
        requires { length bytes.now ≤ self.old.from }
        ensures at { self.new.from + length bytes.now ≡ self.old.from }
        ensures written { drop self.new.from self.new.bytes
            ≡ bytes.now ++ drop self.old.from self.old.bytes }
    {
        let from = self.from - bytes.len();
        self.put(from, bytes);
        self.from = from;
    }

    /// Puts the hexadecimal digits of bytes in front: sixteen bytes at a time, of which the last ones may
    /// be among those before them.
    pub(crate) fn lead_hex(&mut self, bytes: &[u8])
        requires { 2 * length bytes.now ≤ self.old.from }
        ensures at { self.new.from + 2 * length bytes.now ≡ self.old.from }
        ensures written { drop self.new.from self.new.bytes
            ≡ hex bytes.now ++ drop self.old.from self.old.bytes }
    {
        if bytes.len() < 16 {
            return self.lead_few(bytes);
        }
        let from = self.from - 2 * bytes.len();
        for k in 0..bytes.len() / 16 {
            self.put_sixteen(from + 32 * k, &bytes[16 * k..]);
        }
        self.put_sixteen(self.from - 32, &bytes[bytes.len() - 16..]);
        self.from = from;
    }

    /// Puts the digits of the first sixteen of the bytes at a place.
    fn put_sixteen(&mut self, at: usize, bytes: &[u8])
        requires sixteen { 16 ≤ length bytes.now }
        requires room { at + 32 ≤ ROOM }
        ensures size { length self.old.bytes ≡ ROOM }
        ensures from { self.new.from ≡ self.old.from }
        ensures written { self.new.bytes ≡ take at self.old.bytes
            ++ (hex (take 16 bytes.now) ++ drop (at + 32) self.old.bytes) }
    {
        let (first, last) = digits_of_sixteen(u8x16::from_slice(bytes));
        self.put(at, first.as_array());
        self.put(at + 16, last.as_array());
    }

    /// Puts bytes at a place.
    fn put(&mut self, at: usize, bytes: &[u8])
        requires { at + length bytes.now ≤ ROOM }
        ensures from { self.new.from ≡ self.old.from }
        ensures written { self.new.bytes ≡ take at self.old.bytes
            ++ (bytes.now ++ drop (at + length bytes.now) self.old.bytes) }
    {
        self.bytes[at..at + bytes.len()].copy_from_slice(bytes);
    }

    /// Puts the digits of fewer bytes in front.
    fn lead_few(&mut self, bytes: &[u8])
        requires few { length bytes.now < 16 }
        requires room { 2 * length bytes.now ≤ self.old.from }
        ensures at { self.new.from + 2 * length bytes.now ≡ self.old.from }
        ensures written { drop self.new.from self.new.bytes
            ≡ hex bytes.now ++ drop self.old.from self.old.bytes }
    {
        let mut digits = [0; 32];
        spell(bytes, &mut digits);
        self.lead_bytes(&digits[..2 * bytes.len()]);
    }

    /// Puts a point and the digits behind it in front. The number has a one and then those digits: so the
    /// zeros among them that stand first are there, and the point takes the place of the one.
    fn lead_behind(&mut self, one_and_digits: u64)
        requires { 20 ≤ self.old.from }
        ensures at { self.old.from ≤ self.new.from + 20 }
        ensures written { drop self.new.from self.new.bytes
            ≡ codes "." ++ drop 1 (decimal one_and_digits) ++ drop self.old.from self.old.bytes }
    {
        self.lead_decimal(one_and_digits);
        self.bytes[self.from] = b'.';
    }

    /// Puts a time in seconds in front, from nanoseconds, to the microsecond, or to the nanosecond.
    pub(crate) fn lead_seconds(&mut self, nanoseconds: u64, fine: bool)
        requires { 40 ≤ self.old.from }
        ensures at { self.old.from ≤ self.new.from + 40 }
        ensures written { drop self.new.from self.new.bytes
            ≡ seconds_words nanoseconds fine ++ drop self.old.from self.old.bytes }
    {
        self.lead_behind(one_and_fraction(nanoseconds, fine));
        self.lead_decimal(nanoseconds / 1_000_000_000);
    }
}

/// The hexadecimal digits of sixteen bytes, those of eight each.
fn digits_of_sixteen(bytes: u8x16) -> (u8x16, u8x16)
    ensures { result.0 ++ result.1 ≡ hex bytes }
{
    let high = digits(bytes >> u8x16::splat(4));
    let low = digits(bytes & u8x16::splat(15));
    high.interleave(low)
}

/// The hexadecimal digits of sixteen numbers below 16.
fn digits(numbers: u8x16) -> u8x16
    requires { AllBelowBase 16 numbers }
    ensures { result ≡ map digit numbers }
{
    let decimal = numbers.simd_lt(u8x16::splat(10));
    let base = decimal.select(u8x16::splat(b'0'), u8x16::splat(b'a' - 10));
    numbers + base
}
