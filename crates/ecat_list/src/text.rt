//! Numbers as text, put at the end of a text.
ghost use Rattle.std.specs.Prelude.{◌≡◌, ◌<◌, ◌≤◌, ◌*◌, ◌++◌, ◌∷◌, [], OnErr, OnOk, decimal};
ghost use Rattle.std.specs.Prelude.{drop, length, take};
ghost use Rattle.ecat_list.specs.Digits.{digit, eight_digits, four_digits, hex};
ghost use Rattle.ecat_list.specs.Front.{IsFront};
ghost use Rattle.ecat_list.specs.Seconds.{fraction_words, seconds_words};
ghost use Rattle.ecat_list.specs.declared.text.TheConstants.{PIECE};

use crate::row::Row;
use itoa::Buffer;
use std::alloc::AllocError;

/// The hexadecimal digits.
const DIGITS: [u8; 16] = *b"0123456789abcdef";

/// How many bytes are turned into digits at a time.
const PIECE: usize = 64;

/// Puts one byte.
pub(crate) fn put_byte(text: &mut Vec<u8>, byte: u8) -> Result<(), AllocError>
    ensures { OnOk result (text.new.items ≡ text.old.items ++ byte ∷ []) }
{
    text.extend_from_slice(&[byte])
}

/// Is there room for these bytes, so that no memory need be asked for?
fn has_room(text: &Vec<u8>, bytes: &[u8]) -> bool {
    bytes.len() <= text.capacity().saturating_sub(text.len())
}

/// Puts a row: by one call where there is room for it.
pub(crate) fn put_row(text: &mut Vec<u8>, row: &Row) -> Result<(), AllocError>
    ensures ok { OnOk result (text.new.items ≡ text.old.items ++ drop row.now.from row.now.bytes) }
    ensures err { OnErr result (IsFront text.new.items
        (text.old.items ++ drop row.now.from row.now.bytes)) }
{
    let bytes = row.as_slice();
    if has_room(text, bytes) {
        text.extend_from_slice(bytes)
    } else {
        put_each(text, bytes)
    }
}

/// Puts bytes one by one: where memory runs out, those stand there for which there was room.
fn put_each(text: &mut Vec<u8>, bytes: &[u8]) -> Result<(), AllocError>
    ensures ok { OnOk result (text.new.items ≡ text.old.items ++ bytes.now) }
    ensures err { OnErr result (IsFront text.new.items (text.old.items ++ bytes.now)) }
{
    for byte in bytes {
        text.push(*byte)?;
    }
    Ok(())
}

/// Puts the decimal digits of a number.
pub(crate) fn put_decimal(text: &mut Vec<u8>, number: u64) -> Result<(), AllocError>
    ensures { OnOk result (text.new.items ≡ text.old.items ++ decimal number) }
{
    let mut buffer = Buffer::new();
    text.extend_from_slice(buffer.format(number).as_bytes())
}

/// Puts four hexadecimal digits of a number.
pub(crate) fn put_four_digits(text: &mut Vec<u8>, number: u16) -> Result<(), AllocError>
    ensures { OnOk result (text.new.items ≡ text.old.items ++ four_digits number) }
{
    text.extend_from_slice(&four_digits(number))
}

/// Puts eight hexadecimal digits of a number.
pub(crate) fn put_eight_digits(text: &mut Vec<u8>, number: u32) -> Result<(), AllocError>
    ensures { OnOk result (text.new.items ≡ text.old.items ++ eight_digits number) }
{
    put_four_digits(text, (number / 65536) as u16)?;
    put_four_digits(text, (number % 65536) as u16)
}

/// The four hexadecimal digits of a number.
pub(crate) fn four_digits(number: u16) -> [u8; 4]
    ensures { result ≡ four_digits number }
{
    [
        digit(number / 4096 % 16),
        digit(number / 256 % 16),
        digit(number / 16 % 16),
        digit(number % 16),
    ]
}

/// The hexadecimal digit of a number below 16.
fn digit(number: u16) -> u8
    requires { number < 16 }
    ensures { result ≡ digit number }
{
    DIGITS[number as usize]
}

/// Puts the hexadecimal digits of bytes.
pub(crate) fn put_hex(text: &mut Vec<u8>, bytes: &[u8]) -> Result<(), AllocError>
    ensures { OnOk result (text.new.items ≡ text.old.items ++ hex bytes.now) }
{
    let pieces = bytes.len() / PIECE;
    for k in 0..pieces {
        put_piece(text, &bytes[PIECE * k..PIECE * k + PIECE])?;
    }
    put_piece(text, &bytes[PIECE * pieces..])?;
    Ok(())
}

/// Puts the hexadecimal digits of few bytes.
fn put_piece(text: &mut Vec<u8>, bytes: &[u8]) -> Result<(), AllocError>
    requires { length bytes.now ≤ PIECE }
    ensures { OnOk result (text.new.items ≡ text.old.items ++ hex bytes.now) }
{
    let mut digits = [0; 2 * PIECE];
    spell(bytes, &mut digits);
    text.extend_from_slice(&digits[..2 * bytes.len()])
}

/// Spells bytes by two hexadecimal digits each. No digit is looked up, so that many are spelt at once.
pub(crate) fn spell(bytes: &[u8], digits: &mut [u8])
    requires { 2 * length bytes.now ≤ length digits.old }
    ensures { take (2 * length bytes.now) digits.new ≡ hex bytes.now }
{
    for k in 0..bytes.len() {
        digits[2 * k] = digit_of(bytes[k] / 16);
        digits[2 * k + 1] = digit_of(bytes[k] % 16);
    }
}

/// The hexadecimal digit of a number below 16, by arithmetic.
pub(crate) fn digit_of(number: u8) -> u8
    requires { number < 16 }
    ensures { result ≡ digit number }
{
    if number < 10 {
        b'0' + number
    } else {
        b'a' - 10 + number
    }
}

/// A one, and behind it the digits that stand behind the point of a time in seconds, from nanoseconds: six,
/// or nine where it is fine. So the zeros among them that stand first are there.
pub(crate) fn one_and_fraction(nanoseconds: u64, fine: bool) -> u64
    ensures { drop 1 (decimal result) ≡ fraction_words nanoseconds fine }
{
    let behind = nanoseconds % 1_000_000_000;
    if fine {
        1_000_000_000 + behind
    } else {
        1_000_000 + behind / 1000
    }
}

/// Puts the decimal digits of a number but for the first.
pub(crate) fn put_behind(text: &mut Vec<u8>, one_and_digits: u64) -> Result<(), AllocError>
    ensures { OnOk result (text.new.items ≡ text.old.items ++ drop 1 (decimal one_and_digits)) }
{
    let mut buffer = Buffer::new();
    text.extend_from_slice(&buffer.format(one_and_digits).as_bytes()[1..])
}

/// Puts a time in seconds from nanoseconds, to the microsecond, or to the nanosecond.
pub(crate) fn put_seconds(
    text: &mut Vec<u8>,
    nanoseconds: u64,
    fine: bool,
) -> Result<(), AllocError>
    ensures { OnOk result (text.new.items ≡ text.old.items ++ seconds_words nanoseconds fine) }
{
    put_decimal(text, nanoseconds / 1_000_000_000)?;
    put_byte(text, b'.')?;
    put_behind(text, one_and_fraction(nanoseconds, fine))
}
