//! The laws of a start that succeeds, each the contract of a function that does nothing.

ghost use Rattle.std.specs.Prelude.{◌≡◌, ◌≤◌, ℕ, List, [], Option, Result, Ok, length};
ghost use Rattle.ec_app.specs.State.{SlaveState};
ghost use Rattle.ec_diag.specs.declared.located.Located.{Located};
ghost use Rattle.ec_ring.specs.Ring.{RingState};
ghost use Rattle.ec_run.specs.Watched.{WatchedState, WatchedTrips};
ghost use Rattle.ec_run.specs.declared.phase.StepFault.{StepFault};
ghost use Rattle.ec_run.specs.declared.wanted.Wanted.{Wanted};
ghost use Rattle.ec_services.specs.declared.fault.MasterFault.{MasterFault};
ghost use Rattle.ec_over_ring.specs.Brought.{ReachesAll};
ghost use Rattle.ec_over_ring.specs.Fit.{HaveNoObjects};
ghost use Rattle.ec_over_ring.specs.Heard.{HeardRing};
ghost use Rattle.ecat_master.specs.Course.{IsLookedOver};
ghost use Rattle.ecat_master.specs.Identities.{WantedIdentity};
ghost use Rattle.ecat_master.specs.Start.{AreCounted, GivesStations, IsCaused, IsFound, gap_of};
ghost use Rattle.ecat_master.specs.declared.startup.StartFault.{StartFault};
ghost use Rattle.ecat_started.specs.Startable.{AreGiven, AreTaking, CanBeStarted, HaveIdentities};
ghost use Rattle.ecat_started.specs.Startable.{IsToldRight};

use ec_diag::promises::trips_are_heard;

/// The slaves of a ring with at most one link down, of which nothing is lost, are counted right: each is
/// passed by one of both copies, and neither copy is a stranger.
pub fn counted_right()
    ensures { (before later : WatchedState RingState) (count : Result ℕ MasterFault)
        → ReachesAll before.ports → AreCounted (WatchedTrips HeardRing) before count later
        → count ≡ Ok (length before.ports.slaves) }
{}

/// Looks at the cable of such a ring, of at least one slave, find it whole, or broken at the link that is
/// down.
pub fn cable_told()
    ensures { (slaves : ℕ) (before later : WatchedState RingState) (found : Option Located)
        → ReachesAll before.ports → slaves ≡ length before.ports.slaves → 1 ≤ slaves
        → IsLookedOver HeardRing before slaves found later
        → IsToldRight before.ports.links slaves found }
{
    trips_are_heard();
}

/// Each slave of such a ring gets the station address of its place on the line, wherever the cable is broken
/// and whoever had which at first. Between two slaves that a broken link parts, places are counted from both
/// ends: the slaves behind it get theirs first, and those before it by frames that circulate.
pub fn stations_given()
    ensures { (line : List Wanted) (cable : Located) (result : Result (Unit {0}) StepFault)
        (before looked later : WatchedState RingState) → CanBeStarted before.ports line
        → IsFound HeardRing before line cable looked
        → GivesStations (WatchedTrips HeardRing) looked line (gap_of cable (length line)) result later
        → AreGiven line result later.ports }
{
    trips_are_heard();
}

/// A start ([`ecat_master::start`]) over such a ring whose slaves are those of the line: as many, in their
/// order, each of which what is wanted fits; whoever has which station address, and in whatever states and
/// with whatever records and mails they are found. No fault has a cause (`never`) where each slave has the
/// identity that is wanted at its place, in objects that may only be read, and takes its startup objects:
/// the slaves are counted right ([`counted_right`]), the cable is told as it is ([`cable_told`]), each gets
/// its station address ([`stations_given`]), none is another than is wanted, and no step of any phase
/// fails. Where no startup object is wanted the slaves take them all (`no_objects`), and where no identity
/// is wanted they have it (`no_identities`). So the start is answered with Ok, within so many trips as its
/// contract says, unless a line of text can not be written.
pub fn never_fails()
    ensures never { (line : List Wanted) (identities : List WantedIdentity) (before : WatchedState RingState)
        (fault : StartFault) → CanBeStarted before.ports line → AreTaking line before.ports.slaves
        → HaveIdentities identities line before.ports.slaves
        → IsCaused HeardRing before line identities fault → ⊥ }
    ensures no_objects { (line : List Wanted) (before : WatchedState RingState)
        → CanBeStarted before.ports line → HaveNoObjects line → AreTaking line before.ports.slaves }
    ensures no_identities { (line : List Wanted) (slaves : List SlaveState)
        → HaveIdentities [] line slaves }
{
    trips_are_heard();
}
