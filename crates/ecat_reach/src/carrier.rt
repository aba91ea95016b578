//! A carrier that is one of two.

ghost use Rattle.ecat_reach.specs.Carriers.{failed_of, gives_of, heard_of, speaks_of};

use ec_ring::{Port, PortFault, PortHealth};
use ec_wire::PACKET_ROOM;
use ecat_remote::{Carrier, Ready};

/// What carries packets as one of two does: by UDP, say, or at packet sockets.
#[derive(Drop)]
pub enum EitherCarrier<A: Carrier, B: Carrier> {
    /// As the first kind does.
    First(A),
    /// As the second kind does.
    Second(B),
}

impl<A: Carrier, B: Carrier> Carrier for EitherCarrier<A, B> {
    ghost failed = { failed_of A.failed B.failed };

    ghost gives = { gives_of A.gives B.gives };

    ghost heard = { heard_of A.heard B.heard };

    ghost speaks = { speaks_of A.speaks B.speaks };

    fn speaks(&self, at: Port) -> bool {
        match self {
            EitherCarrier::First(carrier) => carrier.speaks(at),
            EitherCarrier::Second(carrier) => carrier.speaks(at),
        }
    }

    fn send(&mut self, from: Port, bytes: &[u8]) -> Result<(), PortFault> {
        match self {
            EitherCarrier::First(carrier) => carrier.send(from, bytes),
            EitherCarrier::Second(carrier) => carrier.send(from, bytes),
        }
    }

    fn wait(&self, within: u64) -> Ready {
        match self {
            EitherCarrier::First(carrier) => carrier.wait(within),
            EitherCarrier::Second(carrier) => carrier.wait(within),
        }
    }

    fn receive(
        &mut self,
        at: Port,
        into: &mut [u8; PACKET_ROOM],
        within: u64,
    ) -> Result<Option<usize>, PortFault> {
        match self {
            EitherCarrier::First(carrier) => carrier.receive(at, into, within),
            EitherCarrier::Second(carrier) => carrier.receive(at, into, within),
        }
    }

    fn failures(&self) -> u64 {
        match self {
            EitherCarrier::First(carrier) => carrier.failures(),
            EitherCarrier::Second(carrier) => carrier.failures(),
        }
    }

    fn health(&self, at: Port) -> PortHealth {
        match self {
            EitherCarrier::First(carrier) => carrier.health(at),
            EitherCarrier::Second(carrier) => carrier.health(at),
        }
    }
}
