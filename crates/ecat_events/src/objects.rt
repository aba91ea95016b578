//! A writer that makes an object of each line.

use crate::counted::Counted;
use crate::gathered::Gathered;
use ecat_stamps::Utc;
use std::cell::Cell;
use std::io::{self, Write};
use std::rt::Clock;

/// Who writes, and of what: whether the lines are the command's own, or answers; and whether they are objects
/// already.
#[derive(Clone, Copy)]
pub struct Voice<'v> {
    /// Whether the lines are the command's own.
    pub are_own: &'v Cell<bool>,
    /// Whether the lines are objects already.
    pub are_objects: &'v Cell<bool>,
    /// What its lines are counted by.
    pub counts: Counted,
}

/// A writer over another one that makes an object of each line that is written to it, unless it is one
/// already: `line` of what the command says of its own, `answer` of what it answers, with the time if there
/// is a clock. Without a room for objects what is written goes on as it is.
#[derive(Drop)]
pub struct Objects<'a, 'v, 'u, W, R: Clock> {
    out: &'a mut W,
    gathered: Option<Box<Gathered>>,
    voice: Voice<'v>,
    utc: &'u Option<Utc<'u, R>>,
}

impl<'a, 'v, 'u, W: Write, R: Clock> Objects<'a, 'v, 'u, W, R> {
    /// A writer of objects, where there is a room for them, by who writes and a clock, if there is one.
    pub fn new(
        out: &'a mut W,
        gathered: Option<Box<Gathered>>,
        voice: Voice<'v>,
        utc: &'u Option<Utc<'u, R>>,
    ) -> Objects<'a, 'v, 'u, W, R> {
        Objects {
            out,
            gathered,
            voice,
            utc,
        }
    }

    /// Writes the object of the line that has ended.
    fn put_line(&mut self) -> io::Result<()> {
        let kind = if self.voice.are_own.get() {
            "line"
        } else {
            "answer"
        };
        let counts = self.voice.counts;
        let now = match self.utc {
            Some(utc) => Some(utc.now()),
            None => None,
        };
        let line = match &mut self.gathered {
            Some(gathered) => gathered.line(kind, now, counts)?,
            None => return Ok(()),
        };
        self.out.write_all(line.as_slice())?;
        if let Some(gathered) = &mut self.gathered {
            gathered.end(line);
        }
        Ok(())
    }

    /// Takes a byte of a line, or its end.
    fn take(&mut self, byte: u8) -> io::Result<()> {
        if byte == b'\n' {
            return self.put_line();
        }
        if let Some(gathered) = &mut self.gathered {
            gathered.put(byte);
        }
        Ok(())
    }
}

impl<W: Write, R: Clock> Write for Objects<'_, '_, '_, W, R> {
    fn write(&mut self, bytes: &[u8]) -> io::Result<usize> {
        if self.gathered.is_none() || self.voice.are_objects.get() {
            return self.out.write(bytes);
        }
        for byte in bytes {
            self.take(*byte)?;
        }
        Ok(bytes.len())
    }

    fn flush(&mut self) -> io::Result<()> {
        self.out.flush()
    }
}
