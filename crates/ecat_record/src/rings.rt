//! A ring whose copies are recorded as they leave the master's ports and as they arrive there.
ghost use Rattle.std.specs.Prelude.{◌≡◌};
ghost use Rattle.ec_master.specs.WeatherTrips.{WeatherTrips};
ghost use Rattle.ecat_record.specs.Recorded.{in_weather};

use crate::copies::{Recorder, Way};
use crate::moments::Moments;
use ec_master::{Ports, WeathersAhead};
use ec_ring::{Arrival, Arrivals, Came, Links, Port, PortFault, Ring, Travel, Weather};
use ec_wire::FrameBuf;
use std::io::Write;

/// A ring, as a frame travels over it: contracts see the ring, so what is proved of a cycle over a ring holds
/// of one that is recorded.
#[derive(Drop)]
pub struct TapedRing<'t, W: Write, M: Moments> {
    /// The ring.
    pub ring: Ring,
    recorder: &'t mut Recorder<W, M>,
}

impl<'t, W: Write, M: Moments> TapedRing<'t, W, M> {
    /// A ring that is recorded.
    pub fn new(ring: Ring, recorder: &'t mut Recorder<W, M>) -> TapedRing<'t, W, M>
        ensures { result.ring ≡ ring }
    {
        TapedRing { ring, recorder }
    }
}

impl<W: Write, M: Moments> Travel for TapedRing<'_, W, M> {
    ghost ring = { λ r. r.ring };

    fn links(&self) -> Links {
        self.ring.links()
    }

    fn trip(&mut self, sent: &FrameBuf, weather: &Weather) -> Came {
        // For the prover: how many slaves a ring has at most.
        let _links = self.ring.links();
        let arrivals = self.ring.arrivals(sent, weather);
        record_trip(self.recorder, sent, weather.b_first, &arrivals);
        arrivals.into_came()
    }
}

// Records both copies of a trip, one after the other.
fn record_trip<W: Write, M: Moments>(
    recorder: &mut Recorder<W, M>,
    sent: &FrameBuf,
    b_first: bool,
    arrivals: &Arrivals,
) {
    if b_first {
        record_copy(recorder, sent, Port::B, arrivals.b.as_ref());
        record_copy(recorder, sent, Port::A, arrivals.a.as_ref());
    } else {
        record_copy(recorder, sent, Port::A, arrivals.a.as_ref());
        record_copy(recorder, sent, Port::B, arrivals.b.as_ref());
    }
}

// Records a copy as it left, and as it arrived, if it did.
fn record_copy<W: Write, M: Moments>(
    recorder: &mut Recorder<W, M>,
    sent: &FrameBuf,
    from: Port,
    arrival: Option<&Arrival>,
) {
    recorder.copy(from, Way::Leaves, sent.bytes());
    if let Some(arrival) = arrival {
        recorder.copy(arrival.at, Way::Arrives, arrival.frame.bytes());
    }
}

/// A ring that is recorded as the ports of a master, as `ec_master::WeatherPorts`: each frame travels over it
/// under a weather of its own, and those past the list of weathers under the ring's own links, copy A first.
#[derive(Drop)]
pub struct TapedPorts<'t, 'w, W: Write, M: Moments> {
    ring: TapedRing<'t, W, M>,
    ahead: WeathersAhead<'w>,
}

impl<'t, 'w, W: Write, M: Moments> TapedPorts<'t, 'w, W, M> {
    /// The ports at both ends of a ring, over which frame i travels under weather i.
    pub fn new(ring: TapedRing<'t, W, M>, weathers: &'w [Weather]) -> TapedPorts<'t, 'w, W, M> {
        TapedPorts {
            ring,
            ahead: WeathersAhead::new(weathers),
        }
    }

    /// The ring, as the trips have left it.
    pub fn into_ring(self) -> Ring
        ensures { result ≡ self.entry.ring.ring }
    {
        self.ring.ring
    }
}

impl<W: Write, M: Moments> Ports for TapedPorts<'_, '_, W, M> {
    ghost trips = { λ old sent came new. WeatherTrips (in_weather old.ring.ring old.ahead) sent came
        (in_weather new.ring.ring new.ahead) };

    ghost failed = { λ ports. 0 };

    fn trip(&mut self, sent: &FrameBuf) -> Result<Came, PortFault> {
        let weather = self.ahead.take_next(self.ring.ring.links());
        Ok(self.ring.trip(sent, &weather))
    }

    fn failures(&self) -> u64 {
        0
    }
}
