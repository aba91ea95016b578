//! A ring of simulated slaves in weathers as the ports of a master.

ghost use Rattle.std.specs.Prelude.{◌≡◌};
ghost use Rattle.ec_master.specs.WeatherTrips.{WeatherTrips};

use crate::ports::Ports;
use crate::weathers_ahead::WeathersAhead;
use ec_ring::{Came, PortFault, Ring, Travel, Weather};
use ec_wire::FrameBuf;
use std::marker::Model;

/// A ring of simulated slaves as the ports of a master: each frame travels over it under a weather of its
/// own, and those past the list of weathers under the ring's own links, copy A first. No slave takes a step.
/// A trip never fails. Contracts see the ring, and the weathers of the frames that have not gone out.
#[derive(Drop)]
pub struct WeatherPorts<'a> {
    ring: Ring,
    ahead: WeathersAhead<'a>,
}

impl<'a> Model for WeatherPorts<'a> {
    ghost use Rattle.ec_master.specs.WeatherTrips.{InWeather};

    ghost Value = { InWeather };

    ghost view = { λ p. record { ring = p.ring; ahead = p.ahead } };
}

impl<'a> WeatherPorts<'a> {
    /// The ports at both ends of a ring, over which frame i travels under weather i.
    pub fn new(ring: Ring, weathers: &'a [Weather]) -> WeatherPorts<'a>
        ensures ring { result.ring ≡ ring }
        ensures ahead { result.ahead ≡ weathers.entry.now }
    {
        WeatherPorts {
            ring,
            ahead: WeathersAhead::new(weathers),
        }
    }

    /// The ring.
    pub fn ring(&self) -> &Ring
        ensures { result.now ≡ self.now.ring }
    {
        &self.ring
    }

    /// The ring, as the trips have left it.
    pub fn into_ring(self) -> Ring
        ensures { result ≡ self.entry.ring }
    {
        self.ring
    }
}

impl<'a> Ports for WeatherPorts<'a> {
    ghost trips = { WeatherTrips };

    ghost failed = { λ ports. 0 };

    fn trip(&mut self, sent: &FrameBuf) -> Result<Came, PortFault> {
        let weather = self.ahead.take_next(self.ring.links());
        Ok(self.ring.trip(sent, &weather))
    }

    fn failures(&self) -> u64 {
        0
    }
}
