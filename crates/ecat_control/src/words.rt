//! The words of a line, and what is written in them.

use crate::change::MOST_BYTES;
use crate::refusal::Fault;
use arrayvec::ArrayVec;
use ec_app::Value;

/// How many words of a line are kept: a line with so many has too many.
const TOO_MANY: usize = 6;

/// The words of a line, the first ones where there are too many.
pub(crate) type Words<'a> = ArrayVec<&'a [u8], TOO_MANY>;

/// Is each byte a character of ASCII text?
pub(crate) fn is_text(line: &[u8]) -> bool {
    line.iter().all(|byte| matches!(*byte, 0x20..=0x7e))
}

/// The words that spaces separate; of more than there is room for the first ones.
pub(crate) fn words_of(line: &[u8]) -> Words<'_> {
    let mut words = ArrayVec::new();
    for word in line.split(|byte| *byte == b' ') {
        if !word.is_empty() && words.try_push(word).is_err() {
            break;
        }
    }
    words
}

/// A number: decimal digits, or `0x` and hexadecimal ones. One that is past the greatest is the greatest.
pub(crate) fn number(word: &[u8]) -> Result<usize, Fault> {
    match word {
        [b'0', b'x', row @ ..] => digits(row, 16),
        row => digits(row, 10),
    }
}

/// A number of sixteen bits, as a station address or an index.
pub(crate) fn short(word: &[u8]) -> Result<u16, Fault> {
    match u16::try_from(number(word)?) {
        Ok(number) => Ok(number),
        Err(_) => Err(Fault::BadNumber),
    }
}

/// A number of eight bits, as a subindex.
pub(crate) fn byte(word: &[u8]) -> Result<u8, Fault> {
    match u8::try_from(number(word)?) {
        Ok(number) => Ok(number),
        Err(_) => Err(Fault::BadNumber),
    }
}

/// A value: `0x` and two, four or eight hexadecimal digits, which say its size.
pub(crate) fn value_of(word: &[u8]) -> Result<Value, Fault> {
    let [b'0', b'x', row @ ..] = word else {
        return Err(Fault::BadNumber);
    };
    let value = digits(row, 16)?;
    match row.len() {
        2 => Ok(Value::One((value % 0x100) as u8)),
        4 => Ok(Value::Two((value % 0x1_0000) as u16)),
        8 => Ok(Value::Four((value % 0x1_0000_0000) as u32)),
        _ => Err(Fault::BadNumber),
    }
}

/// The value of a row of digits in a base.
fn digits(row: &[u8], base: u8) -> Result<usize, Fault> {
    if row.is_empty() {
        return Err(Fault::BadNumber);
    }
    let mut value = 0usize;
    for byte in row {
        match digit(*byte) {
            Some(digit) if digit < base => {
                value = value
                    .saturating_mul(usize::from(base))
                    .saturating_add(usize::from(digit));
            }
            _ => return Err(Fault::BadNumber),
        }
    }
    Ok(value)
}

/// The value of a hexadecimal digit of either case.
fn digit(byte: u8) -> Option<u8> {
    match byte {
        b'0'..=b'9' => Some(byte - b'0'),
        b'a'..=b'f' => Some(byte - b'a' + 10),
        b'A'..=b'F' => Some(byte - b'A' + 10),
        _ => None,
    }
}

/// Puts the bytes of a word behind others, two hexadecimal digits each, one byte at least; and answers how
/// many there are.
pub(crate) fn put_row(word: &[u8], bytes: &mut ArrayVec<u8, MOST_BYTES>) -> Result<usize, Fault> {
    if word.is_empty() || word.len() % 2 != 0 {
        return Err(Fault::BadNumber);
    }
    for pair in word.chunks(2) {
        let (Some(high), Some(low)) = (digit_at(pair, 0), digit_at(pair, 1)) else {
            return Err(Fault::BadNumber);
        };
        if bytes.try_push(high << 4 | low).is_err() {
            return Err(Fault::TooMany);
        }
    }
    Ok(word.len() / 2)
}

/// The value of the hexadecimal digit at a place, if one stands there.
fn digit_at(pair: &[u8], place: usize) -> Option<u8> {
    digit(*pair.get(place)?)
}
