//! An output that whoever reads it may close, as `head` does.

use std::io::{self, ErrorKind, Write};

/// A writer that keeps whether its reader has closed it.
#[derive(Drop)]
pub struct Piped<'a, W> {
    out: &'a mut W,
    closed: bool,
}

impl<'a, W: Write> Piped<'a, W> {
    /// A writer whose reader has not closed it yet.
    pub fn new(out: &'a mut W) -> Piped<'a, W> {
        Piped { out, closed: false }
    }

    /// Has a write found that the reader has closed it?
    pub fn is_closed(&self) -> bool {
        self.closed
    }

    /// Keeps what an error says of the reader.
    fn note(&mut self, error: &io::Error) {
        self.closed = self.closed || error.kind() == ErrorKind::BrokenPipe;
    }
}

impl<W: Write> Write for Piped<'_, W> {
    fn write(&mut self, bytes: &[u8]) -> io::Result<usize> {
        match self.out.write(bytes) {
            Ok(count) => Ok(count),
            Err(error) => {
                self.note(&error);
                Err(error)
            }
        }
    }

    fn flush(&mut self) -> io::Result<()> {
        match self.out.flush() {
            Ok(()) => Ok(()),
            Err(error) => {
                self.note(&error);
                Err(error)
            }
        }
    }
}
