//! What commands print into: outputs that keep it, and outputs that fail.

use std::io::{self, Cursor, Write};

/// Room for what a command of a test prints.
pub(crate) const ROOM: usize = 4096;

/// What was written to a cursor over an array.
pub(crate) fn written(cursor: &Cursor<[u8; ROOM]>) -> &[u8] {
    let count = cursor.position().min(ROOM as u64) as usize;
    &cursor.get_ref()[..count]
}

/// An output whose write after so many fails.
#[derive(Drop)]
pub(crate) struct Stops {
    pub(crate) left: usize,
}

impl Write for Stops {
    fn write(&mut self, bytes: &[u8]) -> io::Result<usize> {
        if self.left == 0 {
            return Err(io::Error::from(io::ErrorKind::BrokenPipe));
        }
        self.left -= 1;
        Ok(bytes.len())
    }

    fn flush(&mut self) -> io::Result<()> {
        Ok(())
    }
}

/// An output with no room.
#[derive(Drop)]
pub(crate) struct NoRoom;

impl Write for NoRoom {
    fn write(&mut self, _bytes: &[u8]) -> io::Result<usize> {
        Ok(0)
    }

    fn flush(&mut self) -> io::Result<()> {
        Ok(())
    }
}
