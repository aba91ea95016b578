//! The copies that came back, each with the port where it arrived.

ghost use Rattle.std.specs.Prelude.{◌≡◌, ◌≤◌, ◌<◌, ℕ, List, Option, Some, Result, IsErr, length};
ghost use Rattle.std.specs.Option.{option_map};
ghost use Rattle.ec_wire.specs.Datagram.{DatagramRecord};
ghost use Rattle.ec_ring.specs.Arrivals.{arrival_of, arrivals_of, arrived_at, copies_of, RingArrivals};
ghost use Rattle.ec_ring.specs.Reach.{arrival_a, arrival_b};
ghost use Rattle.ec_ring.specs.Ring.{line_of, with_line};
ghost use Rattle.ec_ring.specs.Travel.{travelled};
ghost use Rattle.ec_ring.specs.Walk.{walked};
ghost use Rattle.ec_ring.specs.declared.arrivals.Arrival.{Arrival};
ghost use Rattle.ec_ring.specs.declared.arrivals.Arrivals.{Arrivals};
ghost use Rattle.ec_ring.specs.declared.port.PortFault.{PortFault};

use crate::health::PortHealth;
use crate::late::LateCopies;
use crate::links::Links;
use crate::port::{Port, PortFault};
use crate::ring::Ring;
use crate::weather::{Came, Weather};
use ec_wire::FrameBuf;

/// A copy that came back.
#[derive(Drop)]
pub struct Arrival {
    /// The frame as it came back.
    pub frame: FrameBuf,
    /// The port where it arrived.
    pub at: Port,
}

impl Arrival {
    /// A copy, if one was received, as one that arrived at this port.
    pub fn at_port(copy: Option<FrameBuf>, at: Port) -> Option<Arrival>
        ensures { result ≡ option_map (arrived_at at) copy }
    {
        match copy {
            Some(frame) => Some(Arrival { frame, at }),
            None => None,
        }
    }
}

/// The copies that came back, each with the port where it arrived, under the port at which it started. Both
/// may have arrived at one port, since they may have travelled under different links.
#[derive(Drop)]
pub struct Arrivals {
    /// Copy A, unless it was lost.
    pub a: Option<Arrival>,
    /// Copy B, unless it was lost.
    pub b: Option<Arrival>,
}

impl Arrivals {
    /// The copies, wherever they arrived.
    pub fn into_came(self) -> Came
        ensures { result ≡ copies_of self }
    {
        Came {
            a: frame_of(self.a),
            b: frame_of(self.b),
        }
    }
}

/// The frame of a copy that came back.
fn frame_of(copy: Option<Arrival>) -> Option<FrameBuf>
    ensures { result ≡ option_map (λ (x : Arrival). x.frame) copy }
{
    match copy {
        Some(arrival) => Some(arrival.frame),
        None => None,
    }
}

/// The two ports of a master, which say of each copy where it arrived. An implementation says which trips
/// there are; nothing else is known of what comes back.
pub trait HeardPorts {
    /// The trips that these ports can make: the ports before, the frame that is sent, what comes back, and
    /// the ports after.
    ghost trips: { Self → List DatagramRecord → Result Arrivals PortFault → Self → Type 0 };

    /// How many trips have failed.
    ghost failed: { Self → ℕ };

    /// Sends two copies of a frame, one from each port, and receives those that come back, in either place.
    /// At the greatest count of failures no copies come back where a fault would be.
    fn trip_heard(&mut self, sent: &FrameBuf) -> Result<Arrivals, PortFault>
        ensures run { trips self.old sent.now result self.new }
        ensures counted { IsErr result → failed self.old < failed self.new }
        ensures never_lower { failed self.old ≤ failed self.new };

    /// How many trips have failed.
    fn failures(&self) -> u64
        ensures { result ≡ failed self.now };

    /// A cycle begins. Up to [`HeardPorts::end_cycle`] each trip is of the cycle's next frame, and ports that
    /// wait for copies need not wait for longer than so many microseconds from now on, where there are any.
    fn begin_cycle(&mut self, _left: Option<u64>)
        ensures { self.new ≡ self.old }
    {}

    /// The cycle is over: what goes out now is none of its frames.
    fn end_cycle(&mut self)
        ensures { self.new ≡ self.old }
    {}

    /// How many trips these ports have made, as far as they tell copies of earlier trips from those of
    /// others; else 0.
    fn trips_made(&self) -> u64 {
        0
    }

    /// Which copies of earlier trips came since it was last asked, later than their trips, and how many
    /// frames of others; none where the ports can't tell.
    fn take_late(&mut self) -> LateCopies
        ensures { self.new ≡ self.old }
    {
        LateCopies::none()
    }

    /// How the sends and receives of a port go, as far as the ports go on where one fails; else nothing is
    /// known of a port, and a trip fails.
    fn health(&self, _at: Port) -> PortHealth {
        PortHealth::sound()
    }
}

/// A ring of simulated slaves as ports that say where copies arrived: each frame travels over it under the
/// ring's own links, copy A first. A trip never fails, and no slave takes its step.
impl HeardPorts for Ring {
    ghost trips = { RingArrivals };

    ghost failed = { λ r. 0 };

    fn trip_heard(&mut self, sent: &FrameBuf) -> Result<Arrivals, PortFault> {
        let weather = Weather::calm(self.links);
        Ok(self.arrivals(sent, &weather))
    }

    fn failures(&self) -> u64 {
        0
    }
}

impl Ring {
    /// Sends a frame on its trip as `trip` does, in this weather, and says of each copy that came back where
    /// it arrived.
    pub fn arrivals(&mut self, sent: &FrameBuf, weather: &Weather) -> Arrivals
        ensures arrivals { result ≡ arrivals_of weather.now sent.now (line_of self.old) }
        ensures came { copies_of result ≡ (travelled weather.now sent.now (line_of self.old)).came }
        ensures at_a { (x : Arrival) → result.a ≡ Some x
            → arrival_a weather.now.a (length self.old.slaves) ≡ Some x.at }
        ensures at_b { (x : Arrival) → result.b ≡ Some x
            → arrival_b weather.now.b (length self.old.slaves) ≡ Some x.at }
        ensures ring { self.new
            ≡ with_line self.old (travelled weather.now sent.now (line_of self.old)).line }
    {
        self.both(sent, weather)
    }

    /// Both copies, one after the other.
    fn both(&mut self, sent: &FrameBuf, weather: &Weather) -> Arrivals
        ensures arrivals { result ≡ arrivals_of weather.now sent.now (line_of self.old) }
        ensures ring { self.new
            ≡ with_line self.old (travelled weather.now sent.now (line_of self.old)).line }
    {
        if weather.b_first {
            let b = self.send_heard(Port::B, sent, &weather.b, weather.lost_b);
            let a = self.send_heard(Port::A, sent, &weather.a, weather.lost_a);
            Arrivals { a, b }
        } else {
            let a = self.send_heard(Port::A, sent, &weather.a, weather.lost_a);
            let b = self.send_heard(Port::B, sent, &weather.b, weather.lost_b);
            Arrivals { a, b }
        }
    }

    /// Sends a copy of a frame from a port, and says where it arrived; one that the weather loses is lost on
    /// its last hop, after its slaves.
    fn send_heard(
        &mut self,
        from: Port,
        sent: &FrameBuf,
        links: &Links,
        lost: bool,
    ) -> Option<Arrival>
        ensures arrived { result ≡ arrival_of lost (walked from links.now sent.now (line_of self.old)) }
        ensures ring { self.new
            ≡ with_line self.old (walked from links.now sent.now (line_of self.old)).line }
    {
        let mut frame = sent.copy();
        let at = self.walk_in(from, &mut frame, links)?;
        if lost {
            None
        } else {
            Some(Arrival { frame, at })
        }
    }
}
