//! What one copy tells that came back.

ghost use Rattle.std.specs.Prelude.{◌≡◌, ℕ, ◌↔◌};
ghost use Rattle.ec_wire.specs.Datagram.{nth};
ghost use Rattle.ec_ring.specs.declared.links.Links.{Links};
ghost use Rattle.ec_diag.specs.Heard.{CanBeHeard, heard_of, is_told_by};
ghost use Rattle.ec_diag.specs.Told.{Knows, told_at_a, told_at_b, told_of, told_turned};

use crate::told::Told;
use ec_ring::Port;
use ec_wire::{Command, FrameBuf};

/// What one copy of a frame tells that came back. The port where it started is not needed.
#[derive(Clone, Copy, PartialEq, Eq, Debug)]
pub struct Heard {
    /// The port where it arrived.
    pub at: Port,
    /// How far its broadcast read was counted up: by how many slaves it was processed.
    pub count: u16,
    /// Whether its circulating bit came back set, which a slave sets at a closed port 0.
    pub turned: bool,
}

impl Heard {
    /// What a copy tells, `frame`, that came back of `sent` to a port. It is nothing where the first datagram
    /// that was sent is no broadcast read or circulates already, or where the first one of the copy did not
    /// come of it (another command, index, ADO or data length).
    pub fn of(sent: &FrameBuf, frame: &FrameBuf, at: Port) -> Option<Heard>
        ensures { result ≡ heard_of (nth sent.now 0) (nth frame.now 0) at }
    {
        // For the prover: a frame that is counted has a datagram.
        let _counts = (sent.count(), frame.count());
        if !is_told_by(sent, frame) {
            return None;
        }
        Some(Heard {
            at,
            count: frame.counter(0).wrapping_sub(sent.counter(0)),
            turned: frame.circulating(0),
        })
    }

    /// What the copy says of the links of a line of so many slaves: exactly that it can have been heard so.
    pub fn tells(self, slaves: usize) -> Told
        ensures exact { (links : Links) → CanBeHeard links slaves self ↔ Knows result links slaves }
        ensures value { result ≡ told_of slaves self }
    {
        self.told(slaves)
    }

    /// The copy's place in the table.
    fn told(self, slaves: usize) -> Told
        ensures { result ≡ told_of slaves self }
    {
        let count = usize::from(self.count);
        match (self.at, self.turned) {
            (Port::A, false) => told_at_a(slaves, count),
            (Port::A, true) => Told::Never,
            (Port::B, false) => told_at_b(slaves, count),
            (Port::B, true) => told_turned(slaves, count),
        }
    }
}

/// Can the first datagram of a copy have come of the one that was sent, a broadcast read?
fn is_told_by(sent: &FrameBuf, frame: &FrameBuf) -> bool
    ensures { result ≡ is_told_by (nth sent.now 0) (nth frame.now 0) }
{
    let _counts = (sent.count(), frame.count());
    sent.command(0).code() == Command::Brd.code()
        && frame.command(0).code() == Command::Brd.code()
        && frame.index(0) == sent.index(0)
        && frame.ado(0) == sent.ado(0)
        && frame.data(0).len() == sent.data(0).len()
        && !sent.circulating(0)
}

/// What a copy says that arrived at port A and did not turn.
fn told_at_a(slaves: usize, count: usize) -> Told
    ensures { result ≡ told_at_a slaves count }
{
    if count == 0 {
        Told::Whole
    } else if slaves < count {
        Told::Never
    } else {
        Told::First(count)
    }
}

/// What a copy says that arrived at port B and did not turn.
fn told_at_b(slaves: usize, count: usize) -> Told
    ensures { result ≡ told_at_b slaves count }
{
    if count == slaves {
        Told::Whole
    } else {
        Told::Never
    }
}

/// What a copy says that turned and arrived at port B.
fn told_turned(slaves: usize, count: usize) -> Told
    ensures { result ≡ told_turned slaves count }
{
    if count == 0 || slaves < count {
        Told::Never
    } else {
        Told::Last(slaves - count)
    }
}
