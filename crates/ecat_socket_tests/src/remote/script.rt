//! Packets that come as they are written down, and calls that fail in turn.

ghost use Rattle.std.specs.Prelude.{⊤, ◌≡◌, ◌≤◌, ◌<◌, IsErr};
ghost use Rattle.ecat_remote.specs.Trips.{speaks_at};

use super::Packet;
use ec_ring::{Port, PortFault};
use ec_wire::PACKET_ROOM;
use ecat_remote::{Carrier, Ready, Timer};

/// How many packets are written down for a port.
pub const ROOM: usize = 4;

/// A carrier whose packets are written down for each port, of 35 bytes each.
#[derive(Drop)]
pub struct Script {
    /// What comes at port A, one packet after the other.
    pub a: [Packet; ROOM],
    /// What comes at port B.
    pub b: [Packet; ROOM],
    /// How many packets come at port A.
    pub most_a: usize,
    /// How many come at port B.
    pub most_b: usize,
    /// How often the first packet of a port comes before the others.
    pub repeated: usize,
    /// How many have come at port A and at port B.
    pub taken: [usize; 2],
    /// Which call fails, from 1 on.
    pub failing: usize,
    /// How many calls were made.
    pub made: usize,
    /// How many calls have failed.
    pub failed: u64,
    /// For how long the last receive was to wait.
    pub within: u64,
    /// How many receives at port A and at port B give nothing before the first packet comes there.
    pub held: [usize; 2],
    /// How many receives there were at port A and at port B.
    pub looks: [usize; 2],
    /// Whether port B speaks with an end of the line.
    pub speaks_b: bool,
}

impl Script {
    /// A carrier at which these packets come, so many of them at each port, and no call fails.
    pub fn new(a: [Packet; ROOM], most_a: usize, b: [Packet; ROOM], most_b: usize) -> Script {
        Script {
            a,
            b,
            most_a,
            most_b,
            repeated: 0,
            taken: [0; 2],
            failing: 0,
            made: 0,
            failed: 0,
            within: 0,
            held: [0; 2],
            looks: [0; 2],
            speaks_b: true,
        }
    }

    /// Counts a call, and fails at the one that is to fail.
    fn call(&mut self) -> Result<(), PortFault>
        ensures counted { IsErr result → self.old.failed < self.new.failed }
        ensures never_lower { self.old.failed ≤ self.new.failed }
    {
        self.made = self.made.wrapping_add(1);
        if self.made == self.failing && self.failed < u64::MAX {
            self.failed += 1;
            return Err(PortFault);
        }
        Ok(())
    }

    /// The next packet of a port.
    fn next(&mut self, at: Port) -> Option<Packet>
        ensures { self.new.failed ≡ self.old.failed }
    {
        let (packets, most, place) = match at {
            Port::A => (self.a, self.most_a, 0),
            Port::B => (self.b, self.most_b, 1),
        };
        let looks = self.looks[place];
        self.looks[place] = looks.saturating_add(1);
        if looks < self.held[place] {
            return None;
        }
        let k = self.taken[place];
        let written = k.saturating_sub(self.repeated);
        if k >= most || written >= ROOM {
            return None;
        }
        self.taken[place] = k + 1;
        Some(packets[written])
    }
}

impl Carrier for Script {
    ghost failed = { λ script. script.failed };

    ghost gives = { λ before at packet later. ⊤ };

    ghost heard = { λ script. 0 };

    ghost speaks = { λ script at. speaks_at script.speaks_b at };

    fn speaks(&self, at: Port) -> bool {
        match at {
            Port::A => true,
            Port::B => self.speaks_b,
        }
    }

    fn send(&mut self, _from: Port, _bytes: &[u8]) -> Result<(), PortFault> {
        self.call()
    }

    fn wait(&self, _within: u64) -> Ready {
        Ready::both()
    }

    fn receive(
        &mut self,
        at: Port,
        into: &mut [u8; PACKET_ROOM],
        within: u64,
    ) -> Result<Option<usize>, PortFault> {
        self.within = within;
        self.call()?;
        match self.next(at) {
            Some(packet) => {
                into[..35].copy_from_slice(&packet);
                Ok(Some(35))
            }
            None => Ok(None),
        }
    }

    fn failures(&self) -> u64 {
        self.failed
    }
}

/// A timer that is wound by hand: each look at it takes so long.
#[derive(Drop)]
pub struct Wound {
    /// The microseconds since it began.
    pub now: u64,
    /// How many microseconds pass before each look.
    pub step: u64,
}

impl Wound {
    /// A timer that stands still.
    pub fn still() -> Wound {
        Wound { now: 0, step: 0 }
    }
}

impl Timer for Wound {
    ghost told = { λ timer. timer.now };

    fn now(&mut self) -> u64 {
        self.now = self.now.saturating_add(self.step);
        self.now
    }
}
