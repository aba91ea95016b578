//! How the answer of a line to a datagram differs from that of a capture.

ghost use Rattle.std.specs.Prelude.{◌≡◌, ◌<◌, IfSome, length};
ghost use Rattle.ec_wire.specs.Datagram.{nth};
ghost use Rattle.ecat_replay.specs.Differences.{by_counter, by_data, by_passed, difference_at, difference_of};
ghost use Rattle.ecat_replay.specs.Differences.{differing, first_other, has_data, is_filled, is_mailbox};
ghost use Rattle.ecat_replay.specs.Differences.{other_byte, unanswered_at};
ghost use Rattle.ecat_replay.specs.Findings.{same_kind};

use crate::part::{PROCESS_MEMORY, Part};
use ec_wire::{Command, FrameBuf};
use ecat_trips::{grown, moved};

/// In what an answer differs.
#[derive(Clone, Copy, PartialEq, Eq, Debug)]
pub enum Kind {
    /// The line does not answer what was answered in the capture.
    Unanswered,
    /// How far the working counter moved.
    Counter,
    /// How many slaves were passed, by the address that they count.
    Passed,
    /// The data, from this byte on.
    Data(usize),
}

impl Kind {
    /// Is it one kind of difference? Data are one kind, whichever byte differs.
    pub(crate) fn is_same(self, other: Kind) -> bool
        ensures { result ≡ same_kind self other }
    {
        match (self, other) {
            (Kind::Unanswered, Kind::Unanswered)
            | (Kind::Counter, Kind::Counter)
            | (Kind::Passed, Kind::Passed)
            | (Kind::Data(_), Kind::Data(_)) => true,
            (_, _) => false,
        }
    }
}

/// One difference: in what, and the two values.
#[derive(Clone, Copy, PartialEq, Eq, Debug)]
pub struct Difference {
    /// In what the answers differ.
    pub kind: Kind,
    /// The value in the capture: a counter, a number of slaves, or a byte.
    pub there: u16,
    /// The value of the line.
    pub here: u16,
}

/// The answers to a frame: in the capture, and of the line.
#[derive(Clone, Copy)]
pub struct Answer<'a> {
    /// The frame as it was sent.
    pub sent: &'a FrameBuf,
    /// The one that came back in the capture.
    pub there: &'a FrameBuf,
    /// The one that the line gave.
    pub here: &'a FrameBuf,
}

impl Answer<'_> {
    /// How the answers to the datagram at `k` differ, if they do. `mailbox` is the register from which on the
    /// slave that is asked has what it mails, if it is known.
    #[tactic(auto, unfolding(crate::specs::Differences::difference_at))]
    pub fn difference(&self, k: usize, part: &Part, mailbox: Option<u16>) -> Option<Difference>
        ensures { result ≡ difference_at k self.now.sent.now self.now.there.now self.now.here.now
            part.now mailbox }
    {
        if k < self.sent.count() && k < self.there.count() && k < self.here.count() {
            self.difference_of(k, part, mailbox)
        } else {
            None
        }
    }

    /// The first of the three things in which they differ.
    #[tactic(auto, unfolding(crate::specs::Differences::difference_of))]
    fn difference_of(&self, k: usize, part: &Part, mailbox: Option<u16>) -> Option<Difference>
        requires sent { k < length self.now.sent.now }
        requires there { k < length self.now.there.now }
        requires here { k < length self.now.here.now }
        ensures { result ≡ difference_of (nth self.now.sent.now k) (nth self.now.there.now k)
            (nth self.now.here.now k) part.now mailbox }
    {
        match self.by_counter(k) {
            Some(difference) => Some(difference),
            None => match self.by_passed(k, part) {
                Some(difference) => Some(difference),
                None => self.by_data(k, part, mailbox),
            },
        }
    }

    /// How far the counters moved.
    fn by_counter(&self, k: usize) -> Option<Difference>
        requires sent { k < length self.now.sent.now }
        requires there { k < length self.now.there.now }
        requires here { k < length self.now.here.now }
        ensures { result ≡ by_counter (nth self.now.sent.now k) (nth self.now.there.now k)
            (nth self.now.here.now k) }
    {
        let there = moved(self.sent, self.there, k);
        let here = moved(self.sent, self.here, k);
        differing(Kind::Counter, there, here)
    }

    /// How many slaves were passed, where each counts up the ADP.
    fn by_passed(&self, k: usize, part: &Part) -> Option<Difference>
        requires sent { k < length self.now.sent.now }
        requires there { k < length self.now.there.now }
        requires here { k < length self.now.here.now }
        ensures { result ≡ by_passed (nth self.now.sent.now k) (nth self.now.there.now k)
            (nth self.now.here.now k) part.now }
    {
        if part.command.counts_adp() {
            let there = grown(self.sent, self.there, k);
            let here = grown(self.sent, self.here, k);
            differing(Kind::Passed, there, here)
        } else {
            None
        }
    }

    /// The data, where they are compared.
    fn by_data(&self, k: usize, part: &Part, mailbox: Option<u16>) -> Option<Difference>
        requires there { k < length self.now.there.now }
        requires here { k < length self.now.here.now }
        ensures { result ≡ by_data (nth self.now.there.now k) (nth self.now.here.now k) part.now mailbox }
    {
        if has_data(part, mailbox) {
            other_byte(self.there.data(k), self.here.data(k))
        } else {
            None
        }
    }
}

/// What is told of the datagram at `k` of a frame that the line does not answer: how far its counter moved in
/// the capture.
#[tactic(auto, unfolding(crate::specs::Differences::unanswered_at))]
pub fn unanswered(sent: &FrameBuf, there: &FrameBuf, k: usize) -> Option<Difference>
    ensures { result ≡ unanswered_at k sent.now there.now }
{
    if k < sent.count() && k < there.count() {
        Some(Difference {
            kind: Kind::Unanswered,
            there: moved(sent, there, k),
            here: 0,
        })
    } else {
        None
    }
}

/// A difference of this kind between two values, if they differ.
fn differing(kind: Kind, there: u16, here: u16) -> Option<Difference>
    ensures { result ≡ differing kind there here }
{
    if there == here {
        None
    } else {
        Some(Difference { kind, there, here })
    }
}

/// Does a slave fill the data of a command? The slave that ARMW and FRMW address reads by them.
fn is_filled(command: Command) -> bool
    ensures { result ≡ is_filled command }
{
    match command {
        Command::Armw | Command::Frmw => true,
        _ => command.reads(),
    }
}

/// Is a register that of the mailbox of answers?
fn is_mailbox(mailbox: Option<u16>, register: u16) -> bool
    ensures { result ≡ is_mailbox mailbox register }
{
    match mailbox {
        None => false,
        Some(mailbox) => mailbox == register,
    }
}

/// Is the data that comes back a slave's own, and neither what was sent nor process data? It is where
/// registers are read, or a mailbox.
fn has_data(part: &Part, mailbox: Option<u16>) -> bool
    ensures { result ≡ has_data part.now mailbox }
{
    if !is_filled(part.command) {
        return false;
    }
    match part.register() {
        None => false,
        Some(register) => register < PROCESS_MEMORY || is_mailbox(mailbox, register),
    }
}

/// The place of the first byte that differs, if one does.
fn first_other(there: &[u8], here: &[u8]) -> Option<usize>
    ensures value { result ≡ first_other there.now here.now }
    ensures there { IfSome result (λ at. at < length there.now) }
    ensures here { IfSome result (λ at. at < length here.now) }
{
    there.iter().zip(here).position(|pair| pair.0 != pair.1)
}

/// The first byte that differs, if one does.
#[tactic(auto, unfolding(crate::specs::Differences::other_byte))]
fn other_byte(there: &[u8], here: &[u8]) -> Option<Difference>
    ensures { result ≡ other_byte there.now here.now }
{
    let at = first_other(there, here)?;
    Some(Difference {
        kind: Kind::Data(at),
        there: u16::from(there[at]),
        here: u16::from(here[at]),
    })
}
