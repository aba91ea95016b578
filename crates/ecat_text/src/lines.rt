//! Lines of output, each written as soon as it is complete.

use crate::cable::End;
use arrayvec::{ArrayString, ArrayVec};
use std::fmt::{Display, Write as _};
use std::io::{self, Write};

/// The bytes that are gathered before they are written.
const ROOM: usize = 4096;

/// How many bytes are turned into digits at a time.
const PIECE: usize = 256;

/// Writes lines. What belongs to one line, or to the lines of one packet, goes out in as few writes as
/// its length lets it. Where they tell of a slave of a line that has names, they tell its name too.
#[derive(Drop)]
pub struct Lines<'a, W> {
    out: &'a mut W,
    gathered: ArrayVec<u8, ROOM>,
    names: &'a [String],
}

impl<'a, W: Write> Lines<'a, W> {
    /// Lines for this output, of slaves that have no names.
    pub fn new(out: &'a mut W) -> Lines<'a, W> {
        Lines::named(out, &[])
    }

    /// Lines for this output, of slaves with these names, by their places. One whose name is empty, or that
    /// stands behind as many slaves as there are names, has none. A name has 64 bytes at most.
    pub fn named(out: &'a mut W, names: &'a [String]) -> Lines<'a, W> {
        Lines {
            out,
            gathered: ArrayVec::new(),
            names,
        }
    }

    /// The names of the slaves, by their places.
    pub fn names(&self) -> &'a [String] {
        self.names
    }

    /// Puts a slave of the line, by its place and its station address, with its name where it has one.
    pub fn slave(&mut self, place: usize, station: u16) -> io::Result<()> {
        let names = self.names;
        self.text(End::at_slave(place, station, names))
    }

    /// Writes what was gathered.
    pub fn flush(&mut self) -> io::Result<()> {
        self.out.write_all(self.gathered.as_slice())?;
        self.gathered.clear();
        Ok(())
    }

    /// Puts bytes to the line.
    pub fn bytes(&mut self, bytes: &[u8]) -> io::Result<()> {
        if self.gathered.try_extend_from_slice(bytes).is_ok() {
            return Ok(());
        }
        self.flush()?;
        match self.gathered.try_extend_from_slice(bytes) {
            Ok(()) => Ok(()),
            Err(_) => self.out.write_all(bytes),
        }
    }

    /// Puts a short text to the line, of at most 256 bytes.
    pub fn text(&mut self, text: impl Display + Drop) -> io::Result<()> {
        let mut written = ArrayString::<256>::new();
        if write!(written, "{text}").is_err() {
            return Err(io::Error::from(io::ErrorKind::InvalidInput));
        }
        self.bytes(written.as_str().as_bytes())
    }

    /// Puts bytes to the line as lower-case hexadecimal digits.
    pub fn hex(&mut self, bytes: &[u8]) -> io::Result<()> {
        let mut digits = [0; 2 * PIECE];
        for piece in bytes.chunks(PIECE) {
            let count = piece.len().min(PIECE);
            if hex::encode_to_slice(&piece[..count], &mut digits[..2 * count]).is_ok() {
                self.bytes(&digits[..2 * count])?;
            }
        }
        Ok(())
    }

    /// Puts the end of a line, which is written later.
    pub fn line(&mut self) -> io::Result<()> {
        self.bytes(b"\n")
    }

    /// Ends a line and writes it.
    pub fn end(&mut self) -> io::Result<()> {
        self.line()?;
        self.flush()
    }
}
