//! A ring of simulated slaves in weathers as the ports of a service.

ghost use Rattle.std.specs.Prelude.{◌≡◌};
ghost use Rattle.ecat_setup.specs.SteppingTrips.{SteppingTrips};

use ec_master::{PortFault, Ports, WeathersAhead};
use ec_ring::{Came, Ring, Travel, Weather};
use ec_wire::FrameBuf;
use std::marker::Model;

/// A ring of simulated slaves as the ports of a service: each frame travels over it under a weather of its
/// own, and those past the list of weathers under the ring's own links, copy A first; and then every slave
/// takes its step. A trip never fails. Contracts see the ring, the weathers of the frames that have not gone
/// out, and how many trips were made.
#[derive(Drop)]
pub struct SteppingPorts<'a> {
    ring: Ring,
    ahead: WeathersAhead<'a>,
    made: u32,
}

impl<'a> Model for SteppingPorts<'a> {
    ghost use Rattle.ecat_setup.specs.SteppingTrips.{Stepping};

    ghost Value = { Stepping };

    ghost view = { λ p. record { ring = p.ring; ahead = p.ahead; made = p.made } };
}

impl<'a> SteppingPorts<'a> {
    /// The ports at both ends of a ring, over which frame i travels under weather i. No trip was made.
    pub fn new(ring: Ring, weathers: &'a [Weather]) -> SteppingPorts<'a>
        ensures ring { result.ring ≡ ring }
        ensures ahead { result.ahead ≡ weathers.entry.now }
        ensures made { result.made ≡ 0 }
    {
        SteppingPorts {
            ring,
            ahead: WeathersAhead::new(weathers),
            made: 0,
        }
    }

    /// How many trips were made; from 2^32 - 1 on they are counted no more.
    pub fn made(&self) -> u32
        ensures { result ≡ self.now.made }
    {
        self.made
    }
}

impl<'a> Ports for SteppingPorts<'a> {
    ghost trips = { SteppingTrips };

    ghost failed = { λ ports. 0 };

    fn trip(&mut self, sent: &FrameBuf) -> Result<Came, PortFault> {
        let weather = self.ahead.take_next(self.ring.links());
        let came = self.ring.trip(sent, &weather);
        self.ring.step_all();
        self.made = self.made.saturating_add(1);
        Ok(came)
    }

    fn failures(&self) -> u64 {
        0
    }
}
