//! The law of a ring under ports that keep where copies arrived, the contract of a function that does
//! nothing.

ghost use Rattle.std.specs.Prelude.{List, Result};
ghost use Rattle.ec_wire.specs.Datagram.{DatagramRecord};
ghost use Rattle.ec_ring.specs.Arrivals.{copies_came};
ghost use Rattle.ec_ring.specs.Ring.{RingState};
ghost use Rattle.ec_ring.specs.declared.arrivals.Arrivals.{Arrivals};
ghost use Rattle.ec_ring.specs.declared.port.PortFault.{PortFault};
ghost use Rattle.ec_master.specs.RingTrips.{RingTrips};
ghost use Rattle.ec_run.specs.Alike.{AreTripsOf};
ghost use Rattle.ec_run.specs.Watched.{WatchedState, WatchedTrips};
ghost use Rattle.ec_over_ring.specs.Heard.{HeardRing};

/// A ring that says where copies arrived, and whose slaves take their step with each trip, makes the trips of
/// that ring as a master's ports ([`ec_master::RingPorts`]), whose laws stand in this crate (`heard`); and so
/// do the ports of a running master ([`ec_run::Watched`]) over such a ring (`watched`). What such a master
/// does is thus said of the ring by those laws ([`ec_run::over_like_ports`]).
pub fn watched_ring()
    ensures heard { (before : RingState) (sent : List DatagramRecord) (arrivals : Result Arrivals PortFault)
        (later : RingState) → HeardRing before sent arrivals later
        → RingTrips before sent (copies_came arrivals) later }
    ensures watched { AreTripsOf (λ (w : WatchedState RingState). w.ports) (WatchedTrips HeardRing)
        RingTrips }
{}
