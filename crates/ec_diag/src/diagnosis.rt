//! One frame, and what its copies tell of the cable.

ghost use Rattle.std.specs.Prelude.{◌≡◌, ◌+◌, ◌≤◌, ◌<◌, ◌↔◌, ℕ, true, false, [], ◌∷◌, IsErr, Ok, Some};
ghost use Rattle.std.specs.Prelude.{length};
ghost use Rattle.ec_wire.specs.Datagram.{record_of};
ghost use Rattle.ec_ring.specs.Links.{is_up, last_down, AreUp, IsOnlyDown};
ghost use Rattle.ec_ring.specs.Ring.{line_of, with_line};
ghost use Rattle.ec_ring.specs.Travel.{travelled};
ghost use Rattle.ec_ring.specs.Weather.{calm};
ghost use Rattle.ec_ring.specs.declared.links.Links.{Links};
ghost use Rattle.ec_diag.specs.Arrivals.{heard_arrival, with_arrivals, probe, located_of, IsLocated};
ghost use Rattle.ec_diag.specs.Join.{CanCome};
ghost use Rattle.ec_diag.specs.Located.{Tells, seen, seen_of};

use crate::heard::Heard;
use crate::located::{Located, between};
use arrayvec::ArrayVec;
use ec_regs::registers::AL_STATUS;
use ec_ring::{Arrival, Arrivals, HeardPorts, Links, MAX_LINKS, PortFault, Ring};
use ec_wire::{Command, Datagram, FrameBuf, address_of};

impl Located {
    /// What is known by the copies of one frame besides, on a line of so many slaves. A copy that was lost
    /// tells nothing, nor does one of a frame that does not begin with a broadcast read.
    pub fn and_arrivals(self, slaves: usize, sent: &FrameBuf, came: &Arrivals) -> Located
        ensures exact { (links : Links) → (Tells self links slaves
            × CanCome links slaves (heard_arrival sent.now came.now.a)
            × CanCome links slaves (heard_arrival sent.now came.now.b)) ↔ Tells result links slaves }
        ensures value { result ≡ with_arrivals slaves self sent.now came.now }
    {
        self.and_both(slaves, sent, came)
    }

    /// What is known by both copies besides, by the table.
    fn and_both(self, slaves: usize, sent: &FrameBuf, came: &Arrivals) -> Located
        ensures { result ≡ with_arrivals slaves self sent.now came.now }
    {
        let known = self.and_heard(slaves, heard(sent, &came.a));
        known.and_heard(slaves, heard(sent, &came.b))
    }
}

/// What is heard of a copy of a frame; nothing where it was lost.
fn heard(sent: &FrameBuf, copy: &Option<Arrival>) -> Option<Heard>
    ensures { result ≡ heard_arrival sent.now copy.now }
{
    match copy {
        Some(arrival) => Heard::of(sent, &arrival.frame, arrival.at),
        None => None,
    }
}

/// The frame that is sent to learn of the cable: a broadcast read of the low byte of AL status, which every
/// slave counts, whatever its state.
pub fn probe() -> FrameBuf
    ensures { result ≡ probe ∷ [] }
{
    let mut payload = ArrayVec::new();
    payload.push(0);
    FrameBuf::of(&Datagram {
        command: Command::Brd,
        index: 0,
        address: address_of(0, AL_STATUS),
        circulating: false,
        irq: 0,
        payload,
        counter: 0,
    })
}

/// Sends one frame from both ports, and says where the cable of a line of so many slaves is broken, as far
/// as the copies tell that come back. It takes no memory.
///
/// `PortFault`: the frame could not be sent, or its copies not received.
pub fn locate<P: HeardPorts>(ports: &mut P, slaves: usize) -> Result<Located, PortFault>
    ensures located { IsLocated P.trips ports.old slaves result ports.new }
    ensures counted { IsErr result → P.failed ports.old < P.failed ports.new }
    ensures never_lower { P.failed ports.old ≤ P.failed ports.new }
{
    let sent = probe();
    let came = ports.trip_heard(&sent)?;
    Ok(Located::Unknown.and_arrivals(slaves, &sent, &came))
}

/// Says where the cable of a ring of simulated slaves is broken, by one frame that travels under its links.
/// Nothing is known where neither copy can start.
pub fn locate_ring(ring: &mut Ring) -> Located
    ensures tells { Tells result ring.old.links (length ring.old.slaves) }
    ensures whole { AreUp ring.old.links 0 (length ring.old.slaves) → result ≡ Located.Whole }
    ensures one { (k : ℕ) → 1 ≤ length ring.old.slaves → k ≤ length ring.old.slaves
        → is_up ring.old.links k ≡ false → IsOnlyDown ring.old.links (length ring.old.slaves) k
        → result ≡ Located.One k }
    ensures seen { result ≡ seen ring.old.links (length ring.old.slaves) }
    ensures ring { ring.new ≡ with_line ring.old
        (travelled (calm ring.old.links) (probe ∷ []) (line_of ring.old)).line }
{
    let slaves = ring.slaves().len();
    match locate(ring, slaves) {
        Ok(located) => located,
        Err(_) => Located::Unknown,
    }
}

/// What both copies of a frame tell of the cable that travels under these links over a line of so many
/// slaves: the answer of `locate_ring`, for which no frame is sent.
pub fn seen(links: &Links, slaves: usize) -> Located
    requires { slaves < MAX_LINKS }
    ensures { result ≡ seen links.now slaves }
{
    match links.first_down(slaves + 1) {
        Some(first) => seen_from(links, slaves, first),
        None => Located::Whole,
    }
}

/// What they tell where this is the first link that is down.
fn seen_from(links: &Links, slaves: usize, first: usize) -> Located
    requires { slaves < MAX_LINKS }
    ensures { result ≡ seen_of slaves (Some first) (last_down links.now (slaves + 1)) }
{
    match links.last_down(slaves + 1) {
        Some(last) => seen_between(slaves, first, last),
        None => Located::Whole,
    }
}

/// What they tell where these are the first and the last link that is down.
fn seen_between(slaves: usize, first: usize, last: usize) -> Located
    ensures { result ≡ seen_of slaves (Some first) (Some last) }
{
    match (first == 0, last == slaves) {
        (true, true) => Located::Unknown,
        (true, false) => Located::Unknown.and_last(last),
        (false, true) => Located::Unknown.and_first(slaves, first),
        (false, false) => between(first, last),
    }
}
