//! The last lines that were written.

ghost use Rattle.std.specs.Prelude.{◌≡◌, ◌++◌, ◌∷◌, []};
ghost use Rattle.ecat_screen.specs.Kept.{ends_line, last_lines, line_behind, lines_behind, lines_of};
ghost use Rattle.ecat_screen.specs.Kept.{shown, with_byte};

use arrayvec::ArrayVec;
use std::cell::Cell;
use std::io::{self, Write};
use std::mem;

/// How wide the page is, in columns.
pub const WIDTH: usize = 79;

/// How many of the last lines it has at the most.
pub const MOST_LINES: usize = 6;

/// A line as the page shows it.
pub(crate) type Row = ArrayVec<u8, WIDTH>;

/// The last lines of a text, as far as the page is wide. A byte that is no printable ASCII is kept as `?`.
#[derive(Drop)]
pub struct Recent {
    lines: ArrayVec<Row, MOST_LINES>,
    /// The line that has not ended.
    begun: Row,
}

impl Recent {
    /// No line was written.
    pub fn none() -> Recent {
        Recent {
            lines: ArrayVec::new(),
            begun: ArrayVec::new(),
        }
    }

    /// The lines, the last one behind the others.
    pub(crate) fn lines(&self) -> &[Row] {
        self.lines.as_slice()
    }

    /// Takes what was written behind the text that came so far.
    pub fn take(&mut self, bytes: &[u8]) {
        for byte in bytes {
            self.take_byte(*byte);
        }
    }

    /// Takes a byte of a text.
    fn take_byte(&mut self, byte: u8)
        ensures lines { lines_of self.new ≡ lines_behind (lines_of self.old) self.old.begun.items byte }
        ensures begun { self.new.begun.items ≡ line_behind self.old.begun.items byte }
    {
        if ends_line(byte) {
            self.end_line();
        } else {
            put_shown(byte, &mut self.begun);
        }
    }

    /// Ends the line that has not ended: the oldest line goes where there is no room.
    fn end_line(&mut self)
        ensures lines { lines_of self.new ≡ last_lines (lines_of self.old ++ self.old.begun.items ∷ []) }
        ensures begun { self.new.begun.items ≡ [] }
    {
        if self.lines.is_full() {
            self.lines.remove(0);
        }
        let ended = mem::replace(&mut self.begun, ArrayVec::new());
        let _ = self.lines.try_push(ended);
    }
}

/// Puts a byte behind a line as it is shown, as far as the page is wide.
fn put_shown(byte: u8, line: &mut Row)
    ensures { line.new.items ≡ with_byte line.old.items byte }
{
    if !line.is_full() {
        line.push(shown(byte));
    }
}

/// Does a byte end a line?
fn ends_line(byte: u8) -> bool
    ensures { result ≡ ends_line byte }
{
    byte == b'\n'
}

/// A byte as it is shown: itself, where it is printable ASCII, and `?` else.
fn shown(byte: u8) -> u8
    ensures { result ≡ shown byte }
{
    if (b' '..=b'~').contains(&byte) {
        byte
    } else {
        b'?'
    }
}

/// The last lines that were written, which a page and a writer share.
pub type Shared = Cell<Option<Box<Recent>>>;

/// A writer that keeps the last lines, where there is room for them. Where the page lies on the same terminal
/// as what is written, they are written there only while no page is drawn: before the cycles and behind them.
#[derive(Drop)]
pub struct Kept<'a, 'c, 'p, W> {
    out: &'a mut W,
    recent: &'c Shared,
    /// Whether lines are written, also while a page is drawn.
    is_apart: bool,
    /// Whether no page is drawn.
    is_over: &'p Cell<bool>,
}

impl<'a, 'c, 'p, W: Write> Kept<'a, 'c, 'p, W> {
    /// A writer that keeps lines there; whether what is written lies apart from the page; and the cell that
    /// says whether no page is drawn.
    pub fn new(
        out: &'a mut W,
        recent: &'c Shared,
        is_apart: bool,
        is_over: &'p Cell<bool>,
    ) -> Kept<'a, 'c, 'p, W> {
        Kept {
            out,
            recent,
            is_apart,
            is_over,
        }
    }

    /// Keeps the bytes, and answers whether there is a page.
    fn keep(&mut self, bytes: &[u8]) -> bool {
        let Some(mut recent) = self.recent.take() else {
            return false;
        };
        recent.take(bytes);
        self.recent.set(Some(recent));
        true
    }
}

impl<W: Write> Write for Kept<'_, '_, '_, W> {
    fn write(&mut self, bytes: &[u8]) -> io::Result<usize> {
        if self.is_apart || self.is_over.get() {
            let count = self.out.write(bytes)?;
            self.keep(bytes.get(..count).unwrap_or(&[]));
            return Ok(count);
        }
        if self.keep(bytes) {
            Ok(bytes.len())
        } else {
            self.out.write(bytes)
        }
    }

    fn flush(&mut self) -> io::Result<()> {
        self.out.flush()
    }
}
