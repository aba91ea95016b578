//! A writer of records whose reader may stop.

ghost use Rattle.std.specs.Prelude.{◌≡◌, ◌+◌, ◌^◌, ◌-◌, min, length};

use crate::reader::{Awaited, Reader};
use std::cell::Cell;
use std::io::{self, ErrorKind, Write};

/// A writer of records, of which each comes in one write of no more bytes than go out at once (`AT_ONCE`). It
/// leaves out a whole record, and counts it, where its reader does not take it at once: where he says so
/// before the write, or where the writer below would have to wait. Where it is patient it waits for its
/// reader, a second at most. A write that fails has its fault from below, and counts no record.
#[derive(Drop)]
pub struct Records<'p, W, R> {
    out: W,
    awaited: Awaited<'p, R>,
    left_out: u64,
}

impl<'p, W: Write, R: Reader> Records<'p, W, R> {
    /// A writer to this reader, which is patient as long as the cell says so.
    pub fn new(out: W, reader: R, is_patient: &'p Cell<bool>) -> Records<'p, W, R>
        ensures { result.left_out ≡ 0 }
    {
        Records {
            out,
            awaited: Awaited::new(reader, is_patient),
            left_out: 0,
        }
    }

    /// How many records were left out.
    pub fn left_out(&self) -> u64
        ensures { result ≡ self.now.left_out }
    {
        self.left_out
    }

    /// Leaves out a record of so many bytes, and answers that they are written.
    fn leave_out(&mut self, count: usize) -> usize
        ensures all { result ≡ count }
        ensures counted { self.new.left_out ≡ min (self.old.left_out + 1) (2 ^ 64 - 1) }
    {
        self.left_out = self.left_out.saturating_add(1);
        count
    }
}

impl<W: Write, R: Reader> Write for Records<'_, W, R> {
    fn write(&mut self, bytes: &[u8]) -> io::Result<usize> {
        if !self.awaited.takes() {
            return Ok(self.leave_out(bytes.len()));
        }
        match self.out.write(bytes) {
            Err(fault) if fault.kind() == ErrorKind::WouldBlock => Ok(self.leave_out(bytes.len())),
            written => written,
        }
    }

    fn flush(&mut self) -> io::Result<()> {
        self.out.flush()
    }
}
