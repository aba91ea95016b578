//! The laws of a master that runs over a ring, each the contract of a function that does nothing.

ghost use Rattle.std.specs.Prelude.{◌≡◌, ℕ, false, List, length};
ghost use Rattle.std.specs.List.{AllByRecursion};
ghost use Rattle.ec_regs.specs.declared.al.AlState.TheVariants.{Op};
ghost use Rattle.ec_esc.specs.Application.{al_status};
ghost use Rattle.ec_app.specs.State.{SlaveState};
ghost use Rattle.ec_diag.specs.Located.{Tells};
ghost use Rattle.ec_diag.specs.declared.located.Located.{Located};
ghost use Rattle.ec_map.specs.Item.{ItemRecord};
ghost use Rattle.ec_ring.specs.Ring.{RingState};
ghost use Rattle.ec_run.specs.Watched.{WatchedState};
ghost use Rattle.ec_run.specs.declared.wanted.Wanted.{Wanted};
ghost use Rattle.ec_over_ring.specs.Brought.{ReachesAll};
ghost use Rattle.ec_over_ring.specs.Heard.{HeardRing};
ghost use Rattle.ec_over_ring.specs.Started.{AreWanted, IsSetUp};
ghost use Rattle.ecat_master.specs.Course.{sides_of};
ghost use Rattle.ecat_master.specs.GoodRun.{IsGoodRun};
ghost use Rattle.ecat_master.specs.Identities.{WantedIdentity};
ghost use Rattle.ecat_master.specs.Start.{IsStarted};
ghost use Rattle.ecat_master.specs.declared.run.LinePlan.{LinePlan};

use crate::pace::Pace;
use crate::task::Task;
use ec_diag::promises::trips_are_heard;

/// A line that was started ([`crate::start`]) over a ring with at most one link down, of which nothing is
/// lost, of slaves that are wanted with station addresses that differ. In the end each of them is set up: one
/// slave of the ring alone has its station address, is in Op without an error, and its FMMUs and the sync
/// managers of its process data stand as they were wanted (`started`); whoever had which station at first,
/// and in whatever states the slaves were. So it is of the line of a run that ends with the exit status 0
/// ([`crate::master`]), before its first cycle, whichever task it serves (`good`).
pub fn started_line<D: Task, T: Pace>()
    ensures started { (line : List Wanted) (identities : List WantedIdentity) (cable : Located)
        (before later : WatchedState RingState)
        → ReachesAll before.ports → AreWanted line
        → IsStarted HeardRing before line identities cable later
        → AllByRecursion (IsSetUp later.ports) line }
    ensures good { (work : List ItemRecord) (planned : LinePlan) (r : RingState)
        → ReachesAll r → AreWanted planned.line.now
        → (run : IsGoodRun (sides_of HeardRing D.listens D.held T.over) r work planned)
        → AllByRecursion (IsSetUp run.made.begun.ports) planned.line.now }
{}

/// What such a start finds is so of the ring. It has as many slaves as the line (`slaves`), and its cable is
/// broken where that is answered: nowhere, or at that one link (`cable`). So no slave of the ring is left
/// out: each of them is in Op without an error in the end (`in_op`).
pub fn found_line()
    ensures slaves { (line : List Wanted) (identities : List WantedIdentity) (cable : Located)
        (before later : WatchedState RingState)
        → ReachesAll before.ports → IsStarted HeardRing before line identities cable later
        → length before.ports.slaves ≡ length line }
    ensures cable { (line : List Wanted) (identities : List WantedIdentity) (cable : Located)
        (before later : WatchedState RingState)
        → ReachesAll before.ports → IsStarted HeardRing before line identities cable later
        → Tells cable before.ports.links (length line) }
    ensures in_op { (line : List Wanted) (identities : List WantedIdentity) (cable : Located)
        (before later : WatchedState RingState)
        → ReachesAll before.ports → AreWanted line
        → IsStarted HeardRing before line identities cable later
        → AllByRecursion (λ (s : SlaveState). al_status s.controller ≡ record { state = Op; error = false })
        later.ports.slaves }
{
    trips_are_heard();
}
