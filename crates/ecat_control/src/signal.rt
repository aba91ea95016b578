//! What is told of signals.

use crate::image::{sent_by, taken_by};
use crate::value::put_signal_value;
use ecat_master::Known;
use ecat_signals::{Field, Signal};
use ecat_text::Lines;
use std::io::{self, Write};

/// Writes the value that a signal sent in the last cycle, where its item writes, and the one that it took in
/// the last good one, where that reads: a line each.
pub(crate) fn put_signal<W: Write>(
    signal: &Signal,
    known: &Known<'_, '_, '_>,
    lines: &mut Lines<'_, W>,
) -> io::Result<()> {
    let field = signal.field;
    if let Some(bytes) = sent_by(known.sent(), field.item) {
        put_name(signal, lines)?;
        put_way(" outputs ", field, Some(bytes), lines)?;
        lines.end()?;
    }
    if taken_by(known.sent(), field.item).is_some() {
        put_name(signal, lines)?;
        put_way(" inputs ", field, taken_of(field, known), lines)?;
        lines.end()?;
    }
    Ok(())
}

/// Writes a line for each signal: its name, its item, its first bit, how many bits it has, its kind, and its
/// values.
pub(crate) fn put_signals<W: Write>(
    signals: &[Signal],
    known: &Known<'_, '_, '_>,
    lines: &mut Lines<'_, W>,
) -> io::Result<()> {
    for signal in signals {
        put_line(signal, known, lines)?;
    }
    Ok(())
}

/// Writes the line of a signal.
fn put_line<W: Write>(
    signal: &Signal,
    known: &Known<'_, '_, '_>,
    lines: &mut Lines<'_, W>,
) -> io::Result<()> {
    let field = signal.field;
    let (item, bit, count, kind) = (field.item, field.bit, field.count, field.kind);
    put_name(signal, lines)?;
    lines.text(format_args!(" item {item} bit {bit} count {count} {kind}"))?;
    if let Some(bytes) = sent_by(known.sent(), item) {
        put_way(" outputs ", field, Some(bytes), lines)?;
    }
    if taken_by(known.sent(), item).is_some() {
        put_way(" inputs ", field, taken_of(field, known), lines)?;
    }
    lines.end()
}

/// Puts a signal by its name.
fn put_name<W: Write>(signal: &Signal, lines: &mut Lines<'_, W>) -> io::Result<()> {
    lines.text("signal ")?;
    lines.bytes(signal.name.as_slice())
}

/// Puts the value of a signal, of the bytes of its item, if there are any.
fn put_way<W: Write>(
    way: &str,
    field: Field,
    bytes: Option<&[u8]>,
    lines: &mut Lines<'_, W>,
) -> io::Result<()> {
    lines.text(way)?;
    match bytes {
        Some(bytes) => put_signal_value(field, bytes, lines),
        None => lines.text("none"),
    }
}

/// The bytes that the item of a signal took in the last good cycle, if there was one.
fn taken_of<'k>(field: Field, known: &'k Known<'_, '_, '_>) -> Option<&'k [u8]> {
    match known.image() {
        Some(image) => taken_by(image, field.item),
        None => None,
    }
}
