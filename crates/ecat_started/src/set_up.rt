//! The law of a ring whose slaves are set up, the contract of a function that does nothing.

ghost use Rattle.std.specs.Prelude.{◌≡◌, ◌≤◌, ℕ, List, length};
ghost use Rattle.std.specs.List.{AllByRecursion};
ghost use Rattle.ec_app.specs.State.{SlaveState};
ghost use Rattle.ec_map.specs.Item.{ItemRecord, IsItem};
ghost use Rattle.ec_ring.specs.Ring.{RingState};
ghost use Rattle.ec_ring.specs.declared.links.TheConstants.{MAX_SLAVES};
ghost use Rattle.ec_run.specs.declared.wanted.Wanted.{Wanted};
ghost use Rattle.ec_over_ring.specs.Fit.{HasMailboxes};
ghost use Rattle.ec_over_ring.specs.Started.{AreWanted, IsSetUp};
ghost use Rattle.ecat_started.specs.Certified.{IsCertified, IsToldOf};

use ec_master::between::accepted_by_mapping;
use ec_master::promises::accepted_in_any_order;

/// A ring with as many slaves as a line, each of which is set up as it is wanted, with the wanted sync
/// managers 0 and 1. Where the line is told what stands in slaves that the mapping checker accepts with a
/// work, each slave of the ring is mapped as the one whose station address it has, so the ring is an accepted
/// line of the work, in whatever order it has them, and what is expected of the work's counters is what they
/// add.
pub fn set_up_line()
    ensures { (slaves : List SlaveState) (line : List Wanted) (work : List ItemRecord)
        (expected : List ℕ) (r : RingState) → IsToldOf slaves line work expected
        → AllByRecursion IsItem work → AreWanted line → length r.slaves ≡ length line
        → length r.slaves ≤ MAX_SLAVES
        → AllByRecursion (IsSetUp r) line → AllByRecursion (HasMailboxes r) line
        → IsCertified r work expected }
{
    accepted_by_mapping();
    accepted_in_any_order();
}
