//! A carrier whose ports may fail: what fails is missing, and nothing ends by it.

ghost use Rattle.std.specs.Prelude.{◌≡◌, ◌≤◌, ◌<◌, ◌⊎◌, ◌&&◌, not, false, None, IsErr, IfOk};
ghost use Rattle.ecat_remote.specs.Steady.{fails_at};

use crate::carrier::Carrier;
use crate::ready::Ready;
use ec_ring::{Port, PortFault, PortHealth};
use ec_wire::PACKET_ROOM;

/// Which ports fail: the last send from there failed, or a receive since.
#[derive(Clone, Copy, PartialEq, Eq, Debug)]
pub(crate) struct Failing {
    pub(crate) a: bool,
    pub(crate) b: bool,
}

impl Failing {
    /// Does a port fail?
    fn at(self, port: Port) -> bool
        ensures { result ≡ fails_at port self }
    {
        match port {
            Port::A => self.a,
            Port::B => self.b,
        }
    }

    /// Where it is known of a port whether it fails.
    fn with(self, port: Port, fails: bool) -> Failing
        ensures { fails_at port result ≡ fails }
    {
        match port {
            Port::A => Failing {
                a: fails,
                b: self.b,
            },
            Port::B => Failing {
                a: self.a,
                b: fails,
            },
        }
    }
}

/// A carrier over another one, of which a send that fails loses its packet, and a receive that fails gives
/// none. A port that fails speaks with no end of the line until a send from it works again; each send tries.
/// Where each port fails that speaks, the send from the last one of them fails.
#[derive(Drop)]
pub struct SteadyCarrier<C: Carrier> {
    carrier: C,
    failing: Failing,
}

impl<C: Carrier> SteadyCarrier<C> {
    /// Over a carrier whose ports have not failed.
    pub fn new(carrier: C) -> SteadyCarrier<C>
        ensures { result.carrier ≡ carrier }
    {
        SteadyCarrier {
            carrier,
            failing: Failing { a: false, b: false },
        }
    }

    /// Does each port fail that speaks?
    fn all_fail(&self) -> bool {
        self.failing.a && (self.failing.b || !self.carrier.speaks(Port::B))
    }

    /// Is this the last of the ports that speak?
    fn is_last(&self, port: Port) -> bool {
        port == Port::B || !self.carrier.speaks(Port::B)
    }

    /// Takes whether a send from a port failed, and answers whether none from any port has worked.
    fn take(&mut self, from: Port, fails: bool) -> bool
        ensures carrier { self.new.carrier ≡ self.old.carrier }
        ensures worked { fails ≡ false → result ≡ false }
    {
        self.failing = self.failing.with(from, fails);
        fails && self.is_last(from) && self.all_fail()
    }
}

impl<C: Carrier> Carrier for SteadyCarrier<C> {
    ghost failed = { λ s. C.failed s.carrier };

    // what the carrier gives, or nothing
    ghost gives = { λ old at packet new. C.gives old.carrier at packet new.carrier ⊎ (packet ≡ None) };

    ghost heard = { λ s. C.heard s.carrier };

    ghost speaks = { λ s at. C.speaks s.carrier at && not (fails_at at s.failing) };

    fn speaks(&self, at: Port) -> bool {
        self.carrier.speaks(at) && !self.failing.at(at)
    }

    fn send(&mut self, from: Port, bytes: &[u8]) -> Result<(), PortFault> {
        let sent = self.carrier.send(from, bytes);
        if self.take(from, sent.is_err()) {
            return sent;
        }
        Ok(())
    }

    fn wait(&self, within: u64) -> Ready {
        self.carrier.wait(within)
    }

    fn receive(
        &mut self,
        at: Port,
        into: &mut [u8; PACKET_ROOM],
        within: u64,
    ) -> Result<Option<usize>, PortFault> {
        match self.carrier.receive(at, into, within) {
            Ok(found) => Ok(found),
            Err(_) => {
                self.failing = self.failing.with(at, true);
                Ok(None)
            }
        }
    }

    fn failures(&self) -> u64 {
        self.carrier.failures()
    }

    fn health(&self, at: Port) -> PortHealth {
        self.carrier.health(at)
    }
}
