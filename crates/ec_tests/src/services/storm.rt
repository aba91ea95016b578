//! Ports over a ring of one slave whose copies are lost, or pass the slave twice, at trips of one's choice.

ghost use Rattle.std.specs.Prelude.{⊤};

use ec_app::Slave;
use ec_master::{PortFault, Ports};
use ec_ring::{Came, Links, Ring, Travel, Weather};
use ec_wire::FrameBuf;
use std::alloc::Global;
use std::process::Abort;

/// How many kinds of trouble there are.
pub const KINDS: usize = 4;

/// A number of no trouble.
pub const NONE: usize = 1_000_000;

/// Ports at whose trips troubles come, and past them none. A trouble is a number: four times its trip, and 0
/// where copy A never reaches the slave, 1 where it is lost behind it, 2 where copy B is lost, 3 where copy B
/// passes the slave as well.
#[derive(Drop)]
pub struct Storm {
    ring: Ring,
    troubles: [usize; 3],
    /// How many trips were made.
    pub trips: usize,
}

impl Storm {
    /// Ports of a ring of this slave that have made no trip.
    pub fn new(rt: &impl Abort, alloc: Global, slave: Slave, troubles: [usize; 3]) -> Storm {
        let mut line = Vec::new(alloc);
        let pushed = line.push(slave);
        assert!(rt; pushed.is_ok());
        Storm {
            ring: Ring::new(line).ok().expect(rt, "room"),
            troubles,
            trips: 0,
        }
    }

    /// The ring.
    pub fn ring(&self) -> &Ring {
        &self.ring
    }

    /// From the next trip on, these troubles come.
    pub fn begin(&mut self, troubles: [usize; 3]) {
        self.troubles = troubles;
        self.trips = 0;
    }

    /// Does this trouble come at the next trip?
    fn comes(&self, kind: usize) -> bool {
        for trouble in self.troubles {
            if trouble / KINDS == self.trips && trouble % KINDS == kind {
                return true;
            }
        }
        false
    }

    /// What befalls the copies of the next trip.
    fn weather(&self) -> Weather {
        let mut weather = Weather::calm(Links::new());
        if self.comes(0) {
            weather.a.set(0, false);
        }
        weather.lost_a = self.comes(1);
        weather.lost_b = self.comes(2);
        if self.comes(3) {
            weather.b.set(0, false);
        }
        weather
    }
}

impl Ports for Storm {
    ghost trips = { λ before sent came later. ⊤ };

    ghost failed = { λ ports. 0 };

    fn trip(&mut self, sent: &FrameBuf) -> Result<Came, PortFault> {
        let weather = self.weather();
        self.trips = self.trips.wrapping_add(1);
        let came = self.ring.trip(sent, &weather);
        self.ring.step_all();
        Ok(came)
    }

    fn failures(&self) -> u64 {
        0
    }
}
