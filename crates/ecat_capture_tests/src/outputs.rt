//! Outputs that fail.

use std::io::{self, ErrorKind, Write};

/// An output that fails so.
#[derive(Drop)]
pub struct Fails {
    /// How each write fails.
    pub kind: ErrorKind,
}

impl Write for Fails {
    fn write(&mut self, _bytes: &[u8]) -> io::Result<usize> {
        Err(io::Error::from(self.kind))
    }

    fn flush(&mut self) -> io::Result<()> {
        Ok(())
    }
}
