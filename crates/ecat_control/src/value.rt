//! Values of signals, as lines say them and as they are told.

ghost use Rattle.std.specs.Prelude.{◌≡◌, Some};
ghost use Rattle.ecat_control.specs.Values.{integer_words};

use crate::change::{Change, MOST_BYTES, Place, Run};
use crate::refusal::Fault;
use crate::words::{number, put_row};
use arrayvec::ArrayVec;
use ecat_signals::{Field, FieldFault, Signal, SignalKind};
use ecat_text::Lines;
use ryu::Buffer;
use std::fmt;
use std::io::{self, Write};
use std::num::f32_from_bits_with_nan;

/// How many bits a byte has.
const BYTE: usize = 8;

/// The first number that is below zero, of 32 bits in two's complement.
const HALF: u32 = 1 << 31;

/// The signal of this name, by its place among these.
pub(crate) fn signal_named(signals: &[Signal], name: &[u8]) -> Option<usize> {
    signals
        .iter()
        .position(|signal| signal.name.as_slice() == name)
}

/// What is wanted as a value of a kind.
pub(crate) fn wanted_of(kind: SignalKind) -> &'static str {
    match kind {
        SignalKind::Bool => "set NAME 0|1",
        SignalKind::U8 | SignalKind::U16 | SignalKind::U32 =>
            "set NAME NUMBER, from 0 on, that the signal's bits hold",
        SignalKind::I8 | SignalKind::I16 | SignalKind::I32 =>
            "set NAME NUMBER, that the signal's bits hold with its sign",
        SignalKind::F32 => "set NAME NUMBER, as 1.5 or -2e3",
        SignalKind::Raw => "set NAME BYTES, two hexadecimal digits for each byte of the signal",
    }
}

/// Puts the value of a signal behind the places of a change: the bits of the signal, and no other.
pub(crate) fn put_value(field: Field, word: &[u8], change: &mut Change) -> Result<(), Fault> {
    let first = field.bit % BYTE;
    let from = change.bytes.len();
    let count = first.saturating_add(field.count).div_ceil(BYTE);
    for _byte in 0..count {
        if change.bytes.try_push(0).is_err() {
            return Err(Fault::TooMany);
        }
    }
    let inside = Field {
        bit: first,
        ..field
    };
    put_bits(inside, word, &mut change.bytes.as_mut_slice()[from..])?;
    let place = Place {
        item: field.item,
        offset: field.bit / BYTE,
        from,
        count,
        run: Some(Run {
            first,
            count: field.count,
        }),
    };
    match change.places.try_push(place) {
        Ok(()) => Ok(()),
        Err(_) => Err(Fault::TooMany),
    }
}

/// Puts a value into the bits of a field.
fn put_bits(field: Field, word: &[u8], bytes: &mut [u8]) -> Result<(), Fault> {
    let put = if field.kind.is_row() {
        let mut row = ArrayVec::<u8, MOST_BYTES>::new();
        match put_row(word, &mut row) {
            Ok(_) => field.put_row(bytes, row.as_slice()),
            Err(_) => return Err(Fault::BadValue),
        }
    } else {
        field.put_number(bytes, value_of(field.kind, word)?)
    };
    match put {
        Ok(()) => Ok(()),
        Err(FieldFault::NoField | FieldFault::OutOfRange) => Err(Fault::BadValue),
    }
}

/// The number that a word says, of 32 bits, in two's complement where it has a sign.
fn value_of(kind: SignalKind, word: &[u8]) -> Result<u32, Fault> {
    match (kind, word) {
        (SignalKind::F32, _) => float_of(word),
        (_, [b'-', rest @ ..]) if kind.has_sign() => Ok(magnitude(rest, HALF)?.wrapping_neg()),
        _ if kind.has_sign() => magnitude(word, HALF - 1),
        _ => magnitude(word, u32::MAX),
    }
}

/// The value of a word without a sign, if it is at most so much.
fn magnitude(word: &[u8], most: u32) -> Result<u32, Fault> {
    match number(word).map(u32::try_from) {
        Ok(Ok(number)) if number <= most => Ok(number),
        _ => Err(Fault::BadValue),
    }
}

/// The bits of the nearest number of 32 bits with a binary point, if it is finite.
fn float_of(word: &[u8]) -> Result<u32, Fault> {
    match fast_float::parse::<f32, _>(word) {
        Ok(number) if number.is_finite() => Ok(number.to_bits()),
        _ => Err(Fault::BadValue),
    }
}

/// Writes the value of a signal, of the bytes of its item.
pub(crate) fn put_signal_value<W: Write>(
    field: Field,
    bytes: &[u8],
    lines: &mut Lines<'_, W>,
) -> io::Result<()> {
    if let Some(row) = field.row_in(bytes) {
        return lines.hex(row);
    }
    match field.number_in(bytes) {
        Some(number) if field.kind == SignalKind::F32 => {
            lines.text(Buffer::new().format(f32_from_bits_with_nan(number)))
        }
        Some(number) => lines.text(IntegerText {
            sign: field.kind.has_sign(),
            number,
        }),
        None => lines.text("none"),
    }
}

/// A number of 32 bits, decimal, in two's complement where it has a sign.
#[derive(Drop)]
struct IntegerText {
    sign: bool,
    number: u32,
}

impl fmt::Display for IntegerText {
    ghost output = { λ text. Some (integer_words text.sign text.number) };

    fn fmt<W: fmt::Write>(&self, f: &mut fmt::Formatter<W>) -> fmt::Result {
        let number = self.number;
        if self.sign && HALF <= number {
            let below = u32::MAX - number + 1;
            write!(f, "-{below}")
        } else {
            write!(f, "{number}")
        }
    }
}
