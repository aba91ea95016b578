//! The lines of an input, which comes in pieces.

ghost use Rattle.std.specs.Prelude.{◌≡◌, ◌+◌, ◌-◌, ◌<◌, ◌≤◌, ◌++◌, true, false, []};
ghost use Rattle.std.specs.Prelude.{IfSome, length, take, drop};
ghost use Rattle.ecat_serve.specs.Lines.{IsInRoom, IsLine, IsTaken, first_end, is_held, is_last};
ghost use Rattle.ecat_serve.specs.Lines.{settled, taken, taken_open, told};

use arrayvec::ArrayVec;
use std::marker::Model;

/// The most bytes of a line of input, its end not counted.
pub const LINE_ROOM: usize = 1024;

/// The most bytes of a piece.
pub(crate) const PIECE_ROOM: usize = 512;

/// Room for a line and a piece.
const HELD_ROOM: usize = LINE_ROOM + PIECE_ROOM;

/// A line that came.
#[derive(Clone, Copy, PartialEq, Eq, Debug)]
pub enum InputLine {
    /// So many bytes at the front of its room, at most 1,024, without its end.
    Whole(usize),
    /// One of more than 1,024 bytes, which was passed over.
    Long,
}

/// What came of an input and was not taken yet. Contracts see the bytes, whether the front of the first
/// line was passed over since it is too long, and whether the input has ended.
#[derive(Drop)]
pub struct InputLines {
    held: ArrayVec<u8, HELD_ROOM>,
    long: bool,
    ended: bool,
}

impl Model for InputLines {
    ghost use Rattle.ecat_serve.specs.Lines.{LinesState};

    ghost Value = { LinesState };

    ghost view = { λ lines. record { held = lines.held.items; long = lines.long; ended = lines.ended } };
}

impl InputLines {
    /// Nothing yet.
    pub fn new() -> InputLines
        ensures { result ≡ record { held = []; long = false; ended = false } }
    {
        InputLines {
            held: ArrayVec::new(),
            long: false,
            ended: false,
        }
    }

    /// How many bytes can be put behind what is held.
    pub fn room(&self) -> usize
        ensures { result ≡ HELD_ROOM - length self.now.held }
    {
        HELD_ROOM - self.held.len()
    }

    /// Puts a piece behind what is held. What is too long for a line, and has no end yet, is passed over.
    pub fn put(&mut self, piece: &[u8])
        ensures { length self.old.held + length piece.now ≤ HELD_ROOM
            → self.new ≡ settled (record self.old { held = self.old.held ++ piece.now }) }
    {
        let _ = self.held.try_extend_from_slice(piece);
        self.settle();
    }

    /// Passes over what is held, where it is too long for a line and has no end yet.
    fn settle(&mut self)
        ensures { self.new ≡ settled self.old }
    {
        if self.first_end().is_none() && LINE_ROOM < self.held.len() {
            self.held.clear();
            self.long = true;
        }
    }

    /// The input has ended.
    pub fn end(&mut self)
        ensures { self.new ≡ record self.old { ended = true } }
    {
        self.ended = true;
    }

    /// Has the input ended?
    pub fn has_ended(&self) -> bool
        ensures { result ≡ self.now.ended }
    {
        self.ended
    }

    /// Is there a line to be taken?
    pub fn holds_line(&self) -> bool
        ensures { result ≡ is_held self.now }
    {
        self.first_end().is_some() || self.is_last()
    }

    /// Takes the first line, if it came to its end, or if the input has.
    pub fn take(&mut self, into: &mut [u8; LINE_ROOM]) -> Option<InputLine>
        ensures line { IsTaken result into.new (taken self.old).line }
        ensures room { IfSome result (λ line. IsInRoom line) }
        ensures later { self.new ≡ (taken self.old).later }
    {
        match self.first_end() {
            Some(end) => Some(self.take_first(end, into)),
            None => self.take_open(into),
        }
    }

    /// Takes the line that ends there.
    fn take_first(&mut self, end: usize, into: &mut [u8; LINE_ROOM]) -> InputLine
        requires { end < length self.old.held }
        ensures line { IsLine result into.new (told self.old.long (take end self.old.held)) }
        ensures room { IsInRoom result }
        ensures later { self.new ≡ record self.old { held = drop (end + 1) self.old.held; long = false } }
    {
        let line = self.tell(end, into);
        // For the prover: what is held has room.
        let _count = self.held.len();
        self.held.drain(..end + 1);
        self.long = false;
        line
    }

    /// Takes what is held, where it is the last line.
    fn take_open(&mut self, into: &mut [u8; LINE_ROOM]) -> Option<InputLine>
        ensures line { IsTaken result into.new (taken_open self.old).line }
        ensures room { IfSome result (λ line. IsInRoom line) }
        ensures later { self.new ≡ (taken_open self.old).later }
    {
        let count = self.held.len();
        if self.is_last() {
            let line = self.tell(count, into);
            self.held.clear();
            self.long = false;
            return Some(line);
        }
        None
    }

    /// Copies the first bytes, which are a line, unless it is too long.
    fn tell(&self, count: usize, into: &mut [u8; LINE_ROOM]) -> InputLine
        requires { count ≤ length self.now.held }
        ensures line { IsLine result into.new (told self.now.long (take count self.now.held)) }
        ensures room { IsInRoom result }
    {
        if self.long || LINE_ROOM < count {
            return InputLine::Long;
        }
        into[..count].copy_from_slice(&self.held.as_slice()[..count]);
        InputLine::Whole(count)
    }

    /// Where the first line ends.
    fn first_end(&self) -> Option<usize>
        ensures { result ≡ first_end self.now.held }
    {
        self.held.as_slice().iter().position(|byte| *byte == b'\n')
    }

    /// Is what is held a line, though it has no end?
    fn is_last(&self) -> bool
        ensures { result ≡ is_last self.now }
    {
        self.ended && (self.long || !self.held.is_empty())
    }
}
