//! A master's ports that keep what the copies of a cycle tell whatever its verdict.

ghost use Rattle.std.specs.Prelude.{◌≡◌, ◌≤◌, ◌<◌, ◌||◌, IsErr};
ghost use Rattle.ec_diag.specs.Arrivals.{IsLocated};
ghost use Rattle.ec_run.specs.Tally.{came_at, signs_of};
ghost use Rattle.ec_run.specs.Watched.{WatchedTrips, untold};

use crate::tally::{Signs, Tally};
use ec_diag::{Located, locate};
use ec_master::{PortFault, Ports};
use ec_ring::{Came, HeardPorts, LateCopies, Port, PortHealth};
use ec_wire::FrameBuf;
use std::marker::Model;

/// A master's two ports, with what the copies of the frames told that went out since they were last cleared.
/// Contracts see both.
#[derive(Drop)]
pub struct Watched<P: HeardPorts> {
    ports: P,
    tally: Tally,
}

impl<P: HeardPorts> Model for Watched<P> {
    ghost use Rattle.ec_run.specs.Watched.{WatchedState};

    ghost Value = { WatchedState P };

    ghost view = { λ w. record { ports = w.ports; tally = w.tally } };
}

impl<P: HeardPorts> Watched<P> {
    /// These ports, of which nothing is told.
    pub fn new(ports: P) -> Watched<P>
        ensures { result ≡ untold ports }
    {
        Watched {
            ports,
            tally: Tally::new(),
        }
    }

    /// The ports.
    pub fn into_ports(self) -> P
        ensures { result ≡ self.ports }
    {
        self.ports
    }

    /// Forgets what was told.
    pub fn clear(&mut self)
        ensures { self.new ≡ untold self.old.ports }
    {
        self.tally = Tally::new();
    }

    /// Tells the ports that a cycle begins, as [`HeardPorts::begin_cycle`], and forgets what was told.
    pub fn begin_cycle(&mut self, left: Option<u64>)
        ensures { self.new ≡ untold self.old.ports }
    {
        self.clear();
        self.ports.begin_cycle(left);
    }

    /// Tells the ports that the cycle is over, as [`HeardPorts::end_cycle`].
    pub fn end_cycle(&mut self)
        ensures { self.new ≡ self.old }
    {
        self.ports.end_cycle();
    }

    /// How many trips the ports have made, as [`HeardPorts::trips_made`] says it.
    pub fn trips_made(&self) -> u64 {
        self.ports.trips_made()
    }

    /// Which copies of earlier trips came late since it was last asked, as [`HeardPorts::take_late`] says it.
    pub fn take_late(&mut self) -> LateCopies
        ensures { self.new ≡ self.old }
    {
        self.ports.take_late()
    }

    /// How the sends and receives of a port go, as [`HeardPorts::health`] says it.
    pub fn health(&self, at: Port) -> PortHealth {
        self.ports.health(at)
    }

    /// Did any copy come?
    pub fn has_heard(&self) -> bool
        ensures { result ≡ (came_at Port.A self.now.tally || came_at Port.B self.now.tally) }
    {
        self.tally.is_at(Port::A) || self.tally.is_at(Port::B)
    }

    /// Did any copy come at this port?
    pub fn has_heard_at(&self, port: Port) -> bool
        ensures { result ≡ came_at port self.now.tally }
    {
        self.tally.is_at(port)
    }

    /// What the copies told, as [`Tally::signs`] says it.
    pub fn signs(&self) -> Signs
        ensures { result ≡ signs_of self.now.tally }
    {
        self.tally.signs()
    }

    /// How far the working counter of each item moved, in both copies of its frame together, modulo 65,536;
    /// in the order of the items, as far as their frames have gone out ([`Tally::counts`]).
    pub fn counts(&self) -> &[u16]
        ensures { result.now ≡ self.now.tally.counts }
    {
        self.tally.counts()
    }

    /// Says where the cable of a line of so many slaves is broken, by one frame more, which is not told of.
    pub fn locate(&mut self, slaves: usize) -> Result<Located, PortFault>
        ensures located { IsLocated P.trips self.old.ports slaves result self.new.ports }
        ensures untold { self.new.tally ≡ self.old.tally }
        ensures counted { IsErr result → P.failed self.old.ports < P.failed self.new.ports }
        ensures never_lower { P.failed self.old.ports ≤ P.failed self.new.ports }
    {
        locate(&mut self.ports, slaves)
    }
}

impl<P: HeardPorts> Ports for Watched<P> {
    ghost trips = { WatchedTrips P.trips };

    ghost failed = { λ w. P.failed w.ports };

    fn trip(&mut self, sent: &FrameBuf) -> Result<Came, PortFault> {
        let came = self.ports.trip_heard(sent)?;
        self.tally.take(sent, &came);
        Ok(came.into_came())
    }

    fn failures(&self) -> u64 {
        self.ports.failures()
    }
}
