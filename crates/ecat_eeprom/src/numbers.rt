//! Numbers and texts, as they are printed.

use ecat_text::Lines;
use std::fmt;
use std::io::{self, Write};

/// A number of 32 bits.
#[derive(Drop)]
pub(crate) struct Eight(pub(crate) u32);

impl fmt::Display for Eight {
    fn fmt<W: fmt::Write>(&self, f: &mut fmt::Formatter<W>) -> fmt::Result {
        let number = self.0;
        write!(f, "0x{number:08x}")
    }
}

/// A number of 16 bits.
#[derive(Drop)]
pub(crate) struct Four(pub(crate) u16);

impl fmt::Display for Four {
    fn fmt<W: fmt::Write>(&self, f: &mut fmt::Formatter<W>) -> fmt::Result {
        let number = self.0;
        write!(f, "0x{number:04x}")
    }
}

/// A number of 8 bits.
#[derive(Drop)]
pub(crate) struct Two(pub(crate) u8);

impl fmt::Display for Two {
    fn fmt<W: fmt::Write>(&self, f: &mut fmt::Formatter<W>) -> fmt::Result {
        let number = self.0;
        write!(f, "0x{number:02x}")
    }
}

/// Is it a letter that is printed as it stands?
pub(crate) fn is_plain(byte: u8) -> bool {
    (b' '..=b'~').contains(&byte)
}

/// Puts a text, each byte that is no printable letter of ASCII by its number.
pub(crate) fn put_text<W: Write>(text: &[u8], lines: &mut Lines<'_, W>) -> io::Result<()> {
    for byte in text {
        put_letter(*byte, lines)?;
    }
    Ok(())
}

/// Puts a letter.
fn put_letter<W: Write>(byte: u8, lines: &mut Lines<'_, W>) -> io::Result<()> {
    if is_plain(byte) {
        return lines.bytes(&[byte]);
    }
    lines.text(format_args!("\\x{byte:02x}"))
}

/// Puts a text behind a space, where it has letters, and ends the line.
pub(crate) fn end_with<W: Write>(text: &[u8], lines: &mut Lines<'_, W>) -> io::Result<()> {
    if !text.is_empty() {
        lines.text(" ")?;
        put_text(text, lines)?;
    }
    lines.end()
}
