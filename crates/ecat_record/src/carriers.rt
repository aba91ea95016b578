//! What carries a master's packets, each of which is recorded at the master's ports.
ghost use Rattle.std.specs.Prelude.{◌≡◌};

use crate::copies::{Recorder, Way};
use crate::moments::Moments;
use ec_ring::{Port, PortFault, PortHealth};
use ec_wire::PACKET_ROOM;
use ecat_remote::{Carrier, Ready};
use std::io::Write;

/// A carrier of which each packet is recorded as it is on the wire, with its number: as it leaves a port of
/// the master that speaks with an end of the line, and as it arrives at one. Contracts see the carrier.
#[derive(Drop)]
pub struct TapedCarrier<'t, C, W: Write, M: Moments> {
    carrier: C,
    recorder: &'t mut Recorder<W, M>,
}

impl<'t, C: Carrier, W: Write, M: Moments> TapedCarrier<'t, C, W, M> {
    /// A carrier that is recorded.
    pub fn new(carrier: C, recorder: &'t mut Recorder<W, M>) -> TapedCarrier<'t, C, W, M> {
        TapedCarrier { carrier, recorder }
    }
}

impl<C: Carrier, W: Write, M: Moments> Carrier for TapedCarrier<'_, C, W, M> {
    ghost failed = { λ t. C.failed t.carrier };

    ghost gives = { λ old at packet new. C.gives old.carrier at packet new.carrier };

    ghost heard = { λ t. C.heard t.carrier };

    ghost speaks = { λ t at. C.speaks t.carrier at };

    fn speaks(&self, at: Port) -> bool {
        self.carrier.speaks(at)
    }

    fn send(&mut self, from: Port, bytes: &[u8]) -> Result<(), PortFault> {
        if self.carrier.speaks(from) {
            self.recorder.copy(from, Way::Leaves, bytes);
        }
        self.carrier.send(from, bytes)
    }

    fn wait(&self, within: u64) -> Ready {
        self.carrier.wait(within)
    }

    fn receive(
        &mut self,
        at: Port,
        into: &mut [u8; PACKET_ROOM],
        within: u64,
    ) -> Result<Option<usize>, PortFault> {
        let found = self.carrier.receive(at, into, within)?;
        if let Some(count) = found {
            self.recorder.copy(at, Way::Arrives, &into[..count]);
        }
        Ok(found)
    }

    fn failures(&self) -> u64 {
        self.carrier.failures()
    }

    fn health(&self, at: Port) -> PortHealth {
        self.carrier.health(at)
    }
}
