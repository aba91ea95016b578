//! The law of a line that was started, the contract of a function that does nothing.

ghost use Rattle.std.specs.Prelude.{ℕ, List};
ghost use Rattle.std.specs.List.{AllByRecursion};
ghost use Rattle.ec_app.specs.State.{SlaveState};
ghost use Rattle.ec_diag.specs.declared.located.Located.{Located};
ghost use Rattle.ec_map.specs.Item.{ItemRecord, IsItem};
ghost use Rattle.ec_ring.specs.Ring.{RingState};
ghost use Rattle.ec_run.specs.Watched.{WatchedState};
ghost use Rattle.ec_run.specs.declared.wanted.Wanted.{Wanted};
ghost use Rattle.ec_over_ring.specs.Brought.{ReachesAll};
ghost use Rattle.ec_over_ring.specs.Heard.{HeardRing};
ghost use Rattle.ec_over_ring.specs.Started.{AreWanted};
ghost use Rattle.ecat_master.specs.Course.{sides_of};
ghost use Rattle.ecat_master.specs.GoodRun.{IsGoodRun};
ghost use Rattle.ecat_master.specs.Identities.{WantedIdentity};
ghost use Rattle.ecat_master.specs.Start.{IsStarted};
ghost use Rattle.ecat_master.specs.declared.run.LinePlan.{LinePlan};
ghost use Rattle.ecat_started.specs.Certified.{IsCertified, IsToldOf};

use crate::{mailboxes_stand, set_up_line};
use ecat_master::{Pace, Task, found_line, started_line};

/// The start meets the certificate. A line is told what stands in slaves that the mapping checker accepts
/// with a work, and is started ([`ecat_master::start`]) over a ring with at most one link down, of which
/// nothing is lost. The ring that the start leaves is an accepted line of the work, in whatever order its
/// slaves stand, and what is expected of the work's counters is what they add (`started`): so what a cycle on
/// it comes to is of this ring ([`crate::certified_cycle`]). So it is of the ring of a run that ends with the
/// exit status 0 ([`ecat_master::master`]), before its first cycle, whichever task it serves and whatever its
/// pace (`good`).
///
/// Nothing has to be known of that ring; that its items are such is known of each work ([`ec_master::Work`]).
pub fn certified_line<D: Task, T: Pace>()
    ensures started { (slaves : List SlaveState) (line : List Wanted) (work : List ItemRecord)
        (expected : List ℕ) (identities : List WantedIdentity) (cable : Located)
        (before later : WatchedState RingState) → IsToldOf slaves line work expected
        → AllByRecursion IsItem work → ReachesAll before.ports → AreWanted line
        → IsStarted HeardRing before line identities cable later
        → IsCertified later.ports work expected }
    ensures good { (slaves : List SlaveState) (work : List ItemRecord) (planned : LinePlan) (r : RingState)
        → IsToldOf slaves planned.line.now work planned.expected.now → AllByRecursion IsItem work
        → ReachesAll r → AreWanted planned.line.now
        → (run : IsGoodRun (sides_of HeardRing D.listens D.held T.over) r work planned)
        → IsCertified run.made.begun.ports work planned.expected.now }
{
    set_up_line();
    mailboxes_stand();
    found_line();
    started_line::<D, T>();
}
