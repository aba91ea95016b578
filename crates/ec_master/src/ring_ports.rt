//! A ring of simulated slaves as the ports of a master.

ghost use Rattle.std.specs.Prelude.{◌≡◌};
ghost use Rattle.ec_master.specs.RingTrips.{RingTrips};

use crate::ports::Ports;
use ec_ring::{Came, PortFault, Ring, Travel, Weather};
use ec_wire::FrameBuf;
use std::marker::Model;

/// A ring of simulated slaves as the ports of a master: each frame travels over it under the ring's own
/// links, copy A first, and then every slave takes its step. A trip never fails. Contracts see the ring.
#[derive(Drop)]
pub struct RingPorts {
    ring: Ring,
}

impl Model for RingPorts {
    ghost use Rattle.ec_ring.specs.Ring.{RingState};

    ghost Value = { RingState };

    ghost view = { λ p. p.ring };
}

impl RingPorts {
    /// The ports at both ends of a ring.
    pub fn new(ring: Ring) -> RingPorts
        ensures { result ≡ ring }
    {
        RingPorts { ring }
    }

    /// The ring.
    pub fn ring(&self) -> &Ring
        ensures { result.now ≡ self.now }
    {
        &self.ring
    }

    /// The ring, as the trips have left it.
    pub fn into_ring(self) -> Ring
        ensures { result ≡ self }
    {
        self.ring
    }
}

impl Ports for RingPorts {
    ghost trips = { RingTrips };

    ghost failed = { λ ports. 0 };

    fn trip(&mut self, sent: &FrameBuf) -> Result<Came, PortFault> {
        let came = self.ring.trip(sent, &Weather::calm(self.ring.links()));
        self.ring.step_all();
        Ok(came)
    }

    fn failures(&self) -> u64 {
        0
    }
}
