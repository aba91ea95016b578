//! Numbers and rows of bytes as a scene writes them.

ghost use Rattle.std.specs.Prelude.{◌≡◌, ◌<◌, ◌^◌, ◌++◌, IfSome, ℕ, Ok, codes};
ghost use Rattle.std.specs.Fmt.{decimal};
ghost use Rattle.ecat_scene.specs.Lines.{hexadecimal};
ghost use Rattle.ecat_scene.specs.Fields.{fitting};
ghost use Rattle.std.specs.List.{list_all};
ghost use Rattle.ecat_scene.specs.Numbers.{after_digits, digit_of, number_of, row_number, with_digit};
ghost use Rattle.ecat_scene.specs.Words.{bytes_of, Gives, is_digit, row_of, seen};

use crate::fault::{LineFault, Stop};
use hex::FromHexError;
use std::alloc::Global;

/// The value of a hexadecimal digit of either case.
fn hex_digit(digit: u8) -> Option<u8>
    ensures value { result ≡ digit_of digit }
    ensures below { IfSome result (λ value. value < 16) }
{
    match digit {
        b'0'..=b'9' => Some(digit - b'0'),
        b'a'..=b'f' => Some(digit - b'a' + 10),
        b'A'..=b'F' => Some(digit - b'A' + 10),
        _ => None,
    }
}

/// A number with one digit more behind it, where the byte is one; past 64 bits the greatest.
fn with_digit(base: u8, value: u64, byte: u8) -> Result<u64, LineFault>
    ensures { result ≡ with_digit base value (digit_of byte) }
{
    match hex_digit(byte) {
        None => Err(LineFault::BadNumber),
        Some(digit) => {
            if digit < base {
                Ok(
                    value
                        .saturating_mul(u64::from(base))
                        .saturating_add(u64::from(digit)),
                )
            } else {
                Err(LineFault::BadNumber)
            }
        }
    }
}

/// The value of a row of digits in a base; one past 64 bits is the greatest.
fn digits(row: &[u8], base: u8) -> Result<u64, LineFault>
    ensures { result ≡ row_number base row.now }
{
    if row.is_empty() {
        return Err(LineFault::BadNumber);
    }
    let mut value = 0u64;
    for byte in row {
        value = with_digit(base, value, *byte)?;
    }
    Ok(value)
}

/// A number: decimal digits, or `0x` and hexadecimal digits. One past 64 bits is the greatest.
pub fn number(word: &[u8]) -> Result<u64, LineFault>
    ensures { result ≡ number_of word.now }
{
    match word {
        [b'0', b'x', row @ ..] => digits(row, 16),
        row => digits(row, 10),
    }
}

/// The number as a byte.
pub(crate) fn byte(number: u64) -> Result<u8, LineFault>
    ensures { result ≡ fitting (2 ^ 8) number }
{
    if number <= u64::from(u8::MAX) {
        Ok(number as u8)
    } else {
        Err(LineFault::OutOfRange)
    }
}

/// The number as 16 bits.
pub(crate) fn word(number: u64) -> Result<u16, LineFault>
    ensures { result ≡ fitting (2 ^ 16) number }
{
    if number <= u64::from(u16::MAX) {
        Ok(number as u16)
    } else {
        Err(LineFault::OutOfRange)
    }
}

/// The number as 32 bits.
pub(crate) fn double_word(number: u64) -> Result<u32, LineFault>
    ensures { result ≡ fitting (2 ^ 32) number }
{
    if number <= u64::from(u32::MAX) {
        Ok(number as u32)
    } else {
        Err(LineFault::OutOfRange)
    }
}

/// Is each byte of a word a hexadecimal digit?
fn are_digits(word: &[u8]) -> bool
    ensures { result ≡ list_all is_digit word.now }
{
    word.iter().all(|digit| hex_digit(*digit).is_some())
}

/// Tests that a word is an even, non-zero number of hexadecimal digits.
pub fn test_bytes(word: &[u8]) -> Result<(), LineFault>
    ensures { result ≡ seen (λ _. tt) (row_of word.now) }
{
    let whole = !word.is_empty() && word.len() % 2 == 0;
    if whole && are_digits(word) {
        Ok(())
    } else {
        Err(LineFault::BadNumber)
    }
}

/// The bytes of hexadecimal digits, two each; an odd number of them and another character are at fault.
pub(crate) fn bytes(alloc: Global, word: &[u8]) -> Result<Vec<u8>, Stop>
    ensures { Gives (λ bytes. bytes.items) result (bytes_of word.now) }
{
    match hex::decode(alloc, word) {
        Ok(bytes) => Ok(bytes),
        Err(FromHexError::OutOfMemory) => Err(Stop::NoMemory),
        Err(_) => Err(Stop::Fault(LineFault::BadNumber)),
    }
}

/// What is written of a number of 64 bits, decimal or hexadecimal with zeros in front, is read as this
/// number.
pub fn numbers_read_back()
    ensures decimal { (n : ℕ) → n < 2 ^ 64 → number_of (decimal n) ≡ Ok n }
    ensures hexadecimal { (width n : ℕ) → n < 2 ^ 64 → number_of (codes "0x" ++ hexadecimal width n) ≡ Ok n }
{}
