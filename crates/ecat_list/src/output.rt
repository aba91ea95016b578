//! Where the lines go, in pieces.

ghost use Rattle.std.specs.Prelude.{◌≡◌};
ghost use Rattle.ecat_list.specs.declared.output.Stop.TheVariants.{NoMemory};

use std::alloc::{AllocError, Global};
use std::io::{self, ErrorKind, Write};

/// How many bytes are gathered before they are written.
const PIECE: usize = 65536;

/// Why a listing stops before its end.
#[derive(Clone, Copy)]
pub(crate) enum Stop {
    /// The reader of the output has gone.
    Closed,
    /// A write failed.
    OutputFailed,
    /// Memory ran out.
    NoMemory,
}

impl From<AllocError> for Stop {
    fn from(_: AllocError) -> Stop
        ensures { result ≡ NoMemory }
    {
        Stop::NoMemory
    }
}

/// Gathers lines, and writes them.
#[derive(Drop)]
pub(crate) struct Output<'a, W> {
    out: &'a mut W,
    live: bool,
    /// The text that is gathered and not written yet.
    pub(crate) text: Vec<u8>,
}

impl<'a, W: Write> Output<'a, W> {
    /// Nothing is gathered yet. Where it is live, each packet's lines are written at once.
    pub(crate) fn new(alloc: Global, out: &'a mut W, live: bool) -> Output<'a, W> {
        Output {
            out,
            live,
            text: Vec::new(alloc),
        }
    }

    /// Writes what is gathered.
    pub(crate) fn flush(&mut self) -> Result<(), Stop> {
        if self.text.is_empty() {
            return Ok(());
        }
        let written = write_all(self.out, self.text.as_slice());
        self.text.clear();
        written
    }

    /// The lines of a packet are whole: they are written at once, or with others.
    pub(crate) fn settle(&mut self) -> Result<(), Stop> {
        if self.live || PIECE <= self.text.len() {
            self.flush()
        } else {
            Ok(())
        }
    }
}

/// Writes and flushes all of a text.
fn write_all<W: Write>(out: &mut W, text: &[u8]) -> Result<(), Stop> {
    match out.write_all(text) {
        Ok(()) => {}
        Err(error) => return Err(stop_of(&error)),
    }
    match out.flush() {
        Ok(()) => Ok(()),
        Err(error) => Err(stop_of(&error)),
    }
}

/// Why a write failed.
fn stop_of(error: &io::Error) -> Stop {
    if error.kind() == ErrorKind::BrokenPipe {
        Stop::Closed
    } else {
        Stop::OutputFailed
    }
}
