//! Cables at the ends of a line that is served, which somebody really pulls and plugs in.

ghost use Rattle.std.specs.Prelude.{◌≡◌, ◌≤◌, IfOk, IfSome};
ghost use Rattle.ec_wire.specs.declared.frame.TheConstants.{PACKET_ROOM};
ghost use Rattle.ecat_serve.specs.Cables.{last_seen, link_at, seen};
ghost use Rattle.ecat_serve.specs.Commands.{IsCommanded, IsPut};
ghost use Rattle.ecat_serve.specs.Ends.{any_receive, any_send};
ghost use Rattle.ecat_serve.specs.Lines.{IsInRoom};

use crate::disturbed::Times;
use crate::ends::{Arrived, Console, Ends, TimedEnds, Waited};
use crate::lines::{InputLine, LINE_ROOM};
use crate::served::Served;
use ec_ring::{Port, PortFault};
use ec_wire::PACKET_ROOM;
use std::net::SocketAddr;
use std::time::Duration;

/// How many microseconds lie between two looks at the cables, at the least.
const LOOK_EVERY: u64 = 100_000;

/// A cable at an end that was pulled or plugged in.
#[derive(Clone, Copy, PartialEq, Eq, Debug)]
pub struct Cable {
    /// The end.
    pub at: Port,
    /// Whether it is plugged in now.
    pub is_plugged: bool,
}

/// Who knows whether a cable is plugged in at an end. What he answers is up to the system.
pub trait Plugs {
    /// Is a cable plugged in there?
    fn is_plugged(&mut self, at: Port) -> bool;
}

/// Which cables were plugged in when they were seen last.
#[derive(Clone, Copy, PartialEq, Eq, Debug)]
pub struct Seen {
    /// At end A.
    pub a: bool,
    /// At end B.
    pub b: bool,
}

impl Seen {
    /// Sees how the cable at an end is, and answers the change, if it is one.
    pub fn see(&mut self, at: Port, is_plugged: bool) -> Option<Cable>
        ensures change { result ≡ seen self.old at is_plugged }
        ensures later { self.new ≡ last_seen self.old at is_plugged }
    {
        let was_plugged = match at {
            Port::A => self.a,
            Port::B => self.b,
        };
        match at {
            Port::A => self.a = is_plugged,
            Port::B => self.b = is_plugged,
        }
        if was_plugged == is_plugged {
            None
        } else {
            Some(Cable { at, is_plugged })
        }
    }
}

impl Served {
    /// Has the link at the end of a cable be as that is, and answers which link that is: link 0 at end A, and
    /// link n of n slaves at end B. All else stays.
    pub fn put_cable(&mut self, cable: Cable) -> usize
        ensures link { result ≡ link_at self.old cable.at }
        ensures put { IsPut self.old (link_at self.old cable.at) cable.is_plugged self.new }
        ensures commanded { IsCommanded self.old self.new }
    {
        let number = match cable.at {
            Port::A => 0,
            Port::B => self.ring().slaves().len(),
        };
        let _ = self.set_link(number, cable.is_plugged);
        number
    }
}

/// Ends at whose cables somebody looks, ten times a second at the most: a receive ends where one was pulled
/// or plugged in, so that this is taken before the next packet is.
#[derive(Drop)]
pub struct Cabled<'e, E, P, T> {
    ends: &'e mut E,
    plugs: P,
    times: T,
    seen: Seen,
    /// When the cables are looked at next, in microseconds.
    due: u64,
    change: Option<Cable>,
}

impl<'e, E: TimedEnds, P: Plugs, T: Times> Cabled<'e, E, P, T> {
    /// Ends at which cables are plugged in as far as was seen yet.
    pub fn new(ends: &'e mut E, plugs: P, times: T) -> Cabled<'e, E, P, T> {
        Cabled {
            ends,
            plugs,
            times,
            seen: Seen { a: true, b: true },
            due: 0,
            change: None,
        }
    }

    /// Has a cable been pulled or plugged in? They are looked at where it is time to.
    fn has_change(&mut self) -> bool {
        if self.change.is_some() {
            return true;
        }
        let now = self.times.now();
        if now < self.due {
            return false;
        }
        self.change = self.look(Port::A);
        if self.change.is_none() {
            self.change = self.look(Port::B);
        }
        if self.change.is_none() {
            self.due = now.saturating_add(LOOK_EVERY);
        }
        self.change.is_some()
    }

    /// Looks at the cable of an end.
    fn look(&mut self, at: Port) -> Option<Cable> {
        let is_plugged = self.plugs.is_plugged(at);
        self.seen.see(at, is_plugged)
    }
}

impl<E: TimedEnds, P: Plugs, T: Times> Ends for Cabled<'_, E, P, T> {
    ghost receives = { any_receive };

    ghost sends = { any_send };

    fn receive(&mut self, into: &mut [u8; PACKET_ROOM]) -> Result<Option<Arrived>, PortFault> {
        for _turn in 0..u64::MAX {
            match self.receive_within(into, Duration::from_micros(LOOK_EVERY))? {
                Waited::Arrived(arrived) => return Ok(Some(arrived)),
                Waited::Ended => return Ok(None),
                Waited::Silent => {}
            }
        }
        Ok(None)
    }

    fn send(&mut self, from: Port, to: SocketAddr, bytes: &[u8]) -> Result<(), PortFault> {
        self.ends.send(from, to, bytes)
    }
}

impl<E: TimedEnds, P: Plugs, T: Times> TimedEnds for Cabled<'_, E, P, T> {
    fn receive_within(
        &mut self,
        into: &mut [u8; PACKET_ROOM],
        limit: Duration,
    ) -> Result<Waited, PortFault> {
        if self.has_change() {
            return Ok(Waited::Ended);
        }
        self.ends.receive_within(into, limit)
    }
}

impl<E: Console, P, T> Console for Cabled<'_, E, P, T> {
    fn take_line(&mut self, into: &mut [u8; LINE_ROOM]) -> Option<InputLine> {
        self.ends.take_line(into)
    }

    fn take_cable(&mut self) -> Option<Cable> {
        self.change.take()
    }
}
