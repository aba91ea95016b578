//! The law of station addresses over a ring, the contract of a function that does nothing.

ghost use Rattle.std.specs.Prelude.{◌≡◌, ◌≤◌, ℕ, List, [], length, map, Result, Ok, Err};
ghost use Rattle.std.specs.List.{range_with_len};
ghost use Rattle.ec_ring.specs.Links.{AreUp, SomeDown};
ghost use Rattle.ec_ring.specs.Ring.{RingState, stepped};
ghost use Rattle.ec_master.specs.RingTrips.{RingTrips};
ghost use Rattle.ec_services.specs.Stations.{AreAssigned};
ghost use Rattle.ec_services.specs.declared.fault.MasterFault.{MasterFault};
ghost use Rattle.ec_services.specs.declared.fault.MasterFault.TheVariants.{Broken, NoSlave};
ghost use Rattle.ec_over_ring.specs.Stations.{HasSlaves, assigned, station_of};

/// Station addresses are given to the slaves of a ring by their places (`assign_stations`). With all links up
/// it comes to Ok of how many slaves there are, and the slaves have the addresses from `first` on in their
/// order, each its own; every slave took a step with the count and one with each write, and nothing else has
/// changed. A ring without slaves is NoSlave. With a link down, whichever and however many, it comes to
/// Broken: nothing is written, and every slave took one step. The slaves may have whatever to do, there are
/// at most 256, and the values of all objects fit their bytes.
pub fn stations_over_ring()
    ensures result { (first : ℕ) (r : RingState) (result : Result ℕ MasterFault) (later : RingState)
        → HasSlaves r → 1 ≤ length r.slaves → AreUp r.links 0 (length r.slaves)
        → AreAssigned RingTrips r first result later
        → result ≡ Ok (length r.slaves) }
    ensures stations { (first : ℕ) (r : RingState) (result : Result ℕ MasterFault) (later : RingState)
        → HasSlaves r → 1 ≤ length r.slaves → AreUp r.links 0 (length r.slaves) → first ≤ 65000
        → AreAssigned RingTrips r first result later
        → map station_of later.slaves ≡ range_with_len first (length r.slaves) }
    ensures ring { (first : ℕ) (r : RingState) (result : Result ℕ MasterFault) (later : RingState)
        → HasSlaves r → 1 ≤ length r.slaves → AreUp r.links 0 (length r.slaves)
        → AreAssigned RingTrips r first result later
        → later ≡ record r { slaves = assigned first r.slaves } }
    ensures nobody { (first : ℕ) (r : RingState) (result : Result ℕ MasterFault) (later : RingState)
        → r.slaves ≡ [] → AreUp r.links 0 (length r.slaves)
        → AreAssigned RingTrips r first result later
        → result ≡ Err NoSlave }
    ensures nobody_ring { (first : ℕ) (r : RingState) (result : Result ℕ MasterFault) (later : RingState)
        → r.slaves ≡ [] → AreUp r.links 0 (length r.slaves)
        → AreAssigned RingTrips r first result later
        → later ≡ r }
    ensures broken { (first : ℕ) (r : RingState) (result : Result ℕ MasterFault) (later : RingState)
        → HasSlaves r → SomeDown r.links (length r.slaves)
        → AreAssigned RingTrips r first result later
        → result ≡ Err Broken }
    ensures broken_ring { (first : ℕ) (r : RingState) (result : Result ℕ MasterFault) (later : RingState)
        → HasSlaves r → SomeDown r.links (length r.slaves)
        → AreAssigned RingTrips r first result later
        → later ≡ stepped r }
{}
