//! How many frames and datagrams were answered as the capture has it.

ghost use Rattle.std.specs.Prelude.{◌≡◌};
ghost use Rattle.ecat_replay.specs.Tallies.{counted, counted_frame, counted_late, counted_stray, is_like};
ghost use Rattle.ecat_replay.specs.Tallies.{nothing_sent};

/// How a datagram was answered.
#[derive(Clone, Copy, PartialEq, Eq, Debug)]
pub enum Outcome {
    /// As in the capture.
    Alike,
    /// Otherwise, by registers of distributed clocks.
    OfClocks,
    /// Otherwise.
    Other,
}

/// How many frames and datagrams there were, each number up to 2^64 - 1.
#[derive(Clone, Copy, Debug, Default, PartialEq, Eq)]
pub struct Tally {
    /// Frames that the master sent; two copies of one are one.
    pub frames: u64,
    /// Those of which a copy came back in the capture.
    pub answered: u64,
    /// Those of which none came back.
    pub lost: u64,
    /// Frames that came back when another one had been sent in their place.
    pub late: u64,
    /// Frames that came back of nothing that was sent.
    pub strays: u64,
    /// Datagrams that were compared.
    pub datagrams: u64,
    /// Those that were answered alike.
    pub alike: u64,
    /// Those that differ by registers of distributed clocks.
    pub clocks: u64,
    /// Those that differ by anything else.
    pub other: u64,
}

impl Tally {
    /// Nothing was sent yet.
    pub(crate) fn none() -> Tally
        ensures { result ≡ nothing_sent }
    {
        Tally {
            frames: 0,
            answered: 0,
            lost: 0,
            late: 0,
            strays: 0,
            datagrams: 0,
            alike: 0,
            clocks: 0,
            other: 0,
        }
    }

    /// Counts one more datagram that was compared.
    pub fn count(&mut self, outcome: Outcome)
        ensures { self.new ≡ counted outcome self.old }
    {
        match outcome {
            Outcome::Alike => self.alike = self.alike.saturating_add(1),
            Outcome::OfClocks => self.clocks = self.clocks.saturating_add(1),
            Outcome::Other => self.other = self.other.saturating_add(1),
        }
        self.datagrams = self.datagrams.saturating_add(1);
    }

    /// Was some datagram compared, and were all alike but those of clocks?
    pub fn is_like(&self) -> bool
        ensures { result ≡ is_like self.now }
    {
        0 < self.datagrams && self.other == 0
    }

    /// Counts a frame that was sent, of which a copy came back in the capture, or none.
    pub(crate) fn count_frame(&mut self, is_answered: bool)
        ensures { self.new ≡ counted_frame is_answered self.old }
    {
        self.frames = self.frames.saturating_add(1);
        if is_answered {
            self.answered = self.answered.saturating_add(1);
        } else {
            self.lost = self.lost.saturating_add(1);
        }
    }

    /// Counts a frame that came back late.
    pub(crate) fn count_late(&mut self)
        ensures { self.new ≡ counted_late self.old }
    {
        self.late = self.late.saturating_add(1);
    }

    /// Counts a frame that came back of nothing that was sent.
    pub(crate) fn count_stray(&mut self)
        ensures { self.new ≡ counted_stray self.old }
    {
        self.strays = self.strays.saturating_add(1);
    }
}
