//! The law of a cycle on a ring that meets the certificate, the contract of a function that does nothing.

ghost use Rattle.std.specs.Prelude.{ℕ, List, Result, map};
ghost use Rattle.ec_esc.specs.State.{ControllerState};
ghost use Rattle.ec_line.specs.Answered.{sent_of};
ghost use Rattle.ec_map.specs.Item.{ItemRecord};
ghost use Rattle.ec_ring.specs.Ring.{RingState, line_of};
ghost use Rattle.ec_master.specs.Cut.{frames_of};
ghost use Rattle.ec_master.specs.Given.{AllThatCame};
ghost use Rattle.ec_master.specs.Suffice.{SaysOfEach};
ghost use Rattle.ec_master.specs.declared.cycle.CycleFault.{CycleFault};
ghost use Rattle.ec_master.specs.declared.verdict.Verdict.{Verdict};
ghost use Rattle.ecat_remote.specs.Network.{AreAllTaken, IsOfCycle, NetworkGaveAll};
ghost use Rattle.ecat_remote.specs.Trips.{RemoteState};
ghost use Rattle.ecat_started.specs.Certified.{IsCertified};

use ecat_remote::{Carrier, a_good_is_of_its_cycle};

/// A cycle over a network, on a ring that meets the certificate of its work, say on one that a start has left
/// ([`crate::certified_line`]). Where what bears a number of a trip is one of the trip's two copies, what the
/// end of the cycle says is of this ring ([`a_good_is_of_its_cycle`]): a good verdict is of its slaves, and
/// no premise says of them that they are accepted or mapped as a scene wants.
pub fn certified_cycle<C: Carrier>()
    ensures { (r : RingState) (work : List ItemRecord) (expected : List ℕ) (before later : RemoteState C)
        (came : AllThatCame) (behind : List ControllerState) (result : Result Verdict CycleFault)
        (work_later : List ItemRecord) → IsCertified r work expected
        → SaysOfEach work expected came result work_later
        → (all : AreAllTaken C.gives C.heard before (map sent_of (frames_of work)) came later)
        → NetworkGaveAll before.next (line_of r) (map sent_of (frames_of work)) all.taken behind
        → IsOfCycle r work came behind result work_later }
{
    a_good_is_of_its_cycle::<C>();
}
