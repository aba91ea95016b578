//! A writer of lines whose reader may stop.

ghost use Rattle.std.specs.Prelude.{◌≡◌};

use crate::gap::Gap;
use crate::reader::{Awaited, Reader};
use std::cell::Cell;
use std::io::{self, ErrorKind, Write};

/// How many bytes go out at once: a pipe that takes anything takes so many whole (Linux, `PIPE_BUF`).
pub const AT_ONCE: usize = 4096;

/// A writer that leaves out lines, and counts them, where its reader does not take them at once: where he
/// says so before a write, or where the writer below would have to wait.
///
/// Where it is patient it waits for its reader, a second at most, and no more once a second has passed in
/// which he took nothing. A line that is longer than what goes out at once goes out in pieces; where the
/// reader stops amid it, its rest is left out, it counts as left out, and its end comes before the next line.
/// A write that fails has its fault from below, and counts no line.
#[derive(Drop)]
pub struct Unblocking<'a, 'p, W, R> {
    out: &'a mut W,
    awaited: Awaited<'p, R>,
    at_once: usize,
    gap: Gap,
}

impl<'a, 'p, W: Write, R: Reader> Unblocking<'a, 'p, W, R> {
    /// A writer to this reader, of so many bytes at once, which is patient as long as the cell says so.
    pub fn new(
        out: &'a mut W,
        reader: R,
        at_once: usize,
        is_patient: &'p Cell<bool>,
    ) -> Unblocking<'a, 'p, W, R>
        ensures { result.gap.lines ≡ 0 }
    {
        Unblocking {
            out,
            awaited: Awaited::new(reader, is_patient),
            at_once,
            gap: Gap::none(),
        }
    }

    /// How many lines were left out, or cut off.
    pub fn left_out(&self) -> u64
        ensures { result ≡ self.now.gap.lines }
    {
        self.gap.lines
    }

    /// Does a piece of a line go out? The end of a line that was cut off goes out before it.
    fn is_open(&mut self) -> io::Result<bool> {
        if !self.awaited.takes() {
            return Ok(false);
        }
        if !self.gap.is_cut {
            return Ok(true);
        }
        match self.out.write(b"\n") {
            Ok(count) => self.gap.is_cut = count == 0,
            Err(fault) if fault.kind() == ErrorKind::WouldBlock => return Ok(false),
            Err(fault) => return Err(fault),
        }
        Ok(!self.gap.is_cut && self.awaited.takes())
    }
}

impl<W: Write, R: Reader> Write for Unblocking<'_, '_, W, R> {
    fn write(&mut self, bytes: &[u8]) -> io::Result<usize> {
        if self.gap.is_open || !self.is_open()? {
            return Ok(self.gap.leave_out(bytes));
        }
        let piece = &bytes[..bytes.len().min(self.at_once)];
        match self.out.write(piece) {
            Ok(count) => {
                self.gap.is_within = !piece[..count].ends_with(b"\n");
                Ok(count)
            }
            Err(fault) if fault.kind() == ErrorKind::WouldBlock => Ok(self.gap.leave_out(bytes)),
            Err(fault) => Err(fault),
        }
    }

    fn flush(&mut self) -> io::Result<()> {
        self.out.flush()
    }
}
