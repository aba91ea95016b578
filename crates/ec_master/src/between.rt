//! Checked once, cycle for ever: what lasts of an accepted line and work between two cycles, where slaves
//! take their steps and put inputs, links change and items begin a round.

ghost use Rattle.std.specs.Prelude.{◌≡◌, ℕ, None, Some, List, map, slice_get};
ghost use Rattle.std.specs.List.{AllByRecursion};
ghost use Rattle.ec_regs.specs.Bits.{AreBytes};
ghost use Rattle.ec_areas.specs.Records.{sync_manager_at};
ghost use Rattle.ec_esc.specs.Application.{put_inputs_fault, with_inputs};
ghost use Rattle.ec_esc.specs.State.{ControllerState, IsController};
ghost use Rattle.ec_line.specs.Mapping.{mapping_of, mapping};
ghost use Rattle.ec_app.specs.Lending.{with_controller};
ghost use Rattle.ec_app.specs.State.{SlaveState};
ghost use Rattle.ec_check.specs.Line.{controllers};
ghost use Rattle.ec_map.specs.Item.{ItemRecord, IsItem};
ghost use Rattle.ec_map.specs.Share.{expected_of};
ghost use Rattle.ec_ring.specs.Ring.{RingState, line_of, stepped, with_slave};
ghost use Rattle.ec_ring.specs.declared.links.Links.{Links};
ghost use Rattle.ec_master.specs.Again.{AskTheSame};
ghost use Rattle.ec_master.specs.Rounds.{begun};
ghost use Rattle.ec_master.specs.Unordered.{IsAccepted};
ghost use Rattle.ec_master.specs.Work.{rewound};

use ec_check::are_controllers;
use ec_ring::Ring;

/// Whether slaves and items are accepted hangs on the mapping of the slaves and on what the items ask, and so
/// does what is expected of each counter: neither on memories and statuses, nor on data and answers.
pub fn accepted_by_mapping()
    ensures accepted { (slaves later : List SlaveState) (items others : List ItemRecord)
        → IsAccepted slaves items → AskTheSame items others
        → mapping (controllers later) ≡ mapping (controllers slaves)
        → AllByRecursion IsController (controllers later) → IsAccepted later others }
    ensures expected { (slaves later : List SlaveState) (items others : List ItemRecord)
        → IsAccepted slaves items → AllByRecursion IsItem items → AllByRecursion IsItem others
        → AskTheSame items others → mapping (controllers later) ≡ mapping (controllers slaves)
        → map (expected_of (controllers later)) others ≡ map (expected_of (controllers slaves)) items }
{}

/// An accepted ring is accepted once each slave has taken its step (`Ring::step_all`), and the same is
/// expected of each counter, whatever states were asked for and whatever mails were answered. (That the later
/// line is one of controllers is known of every ring: `ec_check::are_controllers`.)
pub fn checked_then_stepped()
    ensures accepted { (r : RingState) (items : List ItemRecord) → IsAccepted r.slaves items
        → AllByRecursion IsController (line_of (stepped r)) → IsAccepted (stepped r).slaves items }
    ensures expected { (r : RingState) (items : List ItemRecord) → IsAccepted r.slaves items
        → AllByRecursion IsItem items
        → map (expected_of (line_of (stepped r))) items ≡ map (expected_of (line_of r)) items }
{}

/// An accepted ring is accepted with another controller of the same mapping in one of its slaves, and so once
/// a slave has put its inputs (`Ring::slave_mut`, `Slave::controller_mut`, `Controller::put_inputs`), and
/// once links have changed (`Ring::set_link`); and the same is expected of each counter.
pub fn checked_then_changed()
    ensures controller { (r : RingState) (items : List ItemRecord) (k : ℕ) (s : SlaveState)
        (c : ControllerState) → IsAccepted r.slaves items → slice_get r.slaves k ≡ Some s
        → mapping_of c ≡ mapping_of s.controller → IsController c
        → IsAccepted (with_slave r k (with_controller s c)).slaves items }
    ensures expected { (r : RingState) (items : List ItemRecord) (k : ℕ) (s : SlaveState)
        (c : ControllerState) → IsAccepted r.slaves items → AllByRecursion IsItem items
        → slice_get r.slaves k ≡ Some s → mapping_of c ≡ mapping_of s.controller
        → map (expected_of (line_of (with_slave r k (with_controller s c)))) items
        ≡ map (expected_of (line_of r)) items }
    ensures inputs { (r : RingState) (items : List ItemRecord) (k sm : ℕ) (s : SlaveState)
        (bytes : List ℕ) → IsAccepted r.slaves items → slice_get r.slaves k ≡ Some s → AreBytes bytes
        → put_inputs_fault (sync_manager_at s.controller.memory sm) bytes ≡ None
        → IsAccepted (with_slave r k (with_controller s (with_inputs s.controller sm bytes))).slaves items }
    ensures expected_with_inputs { (r : RingState) (items : List ItemRecord) (k sm : ℕ) (s : SlaveState)
        (bytes : List ℕ) → IsAccepted r.slaves items → AllByRecursion IsItem items
        → slice_get r.slaves k ≡ Some s
        → put_inputs_fault (sync_manager_at s.controller.memory sm) bytes ≡ None
        → map (expected_of (line_of (with_slave r k (with_controller s (with_inputs s.controller sm bytes)))))
        items ≡ map (expected_of (line_of r)) items }
    ensures links { (r : RingState) (links : Links) (items : List ItemRecord) → IsAccepted r.slaves items
        → IsAccepted (record r { links = links }).slaves items }
{}

/// Accepted items are accepted rewound and at the start of any round (`Work::rewind`, `Work::begin_round`),
/// and the same is expected of them.
pub fn checked_then_rewound()
    ensures rewound { (slaves : List SlaveState) (items : List ItemRecord) → IsAccepted slaves items
        → IsAccepted slaves (map rewound items) }
    ensures begun { (slaves : List SlaveState) (items : List ItemRecord) (round : ℕ)
        → IsAccepted slaves items → IsAccepted slaves (map (begun round) items) }
    ensures expected_rewound { (slaves : List SlaveState) (items : List ItemRecord)
        → AllByRecursion IsItem items → map (expected_of (controllers slaves)) (map rewound items)
        ≡ map (expected_of (controllers slaves)) items }
    ensures expected_begun { (slaves : List SlaveState) (items : List ItemRecord) (round : ℕ)
        → AllByRecursion IsItem items → map (expected_of (controllers slaves)) (map (begun round) items)
        ≡ map (expected_of (controllers slaves)) items }
{}

/// Lets each slave of a ring take its step between two cycles (`Ring::step_all`): items that are accepted on
/// it stay accepted, and the same is expected of them, so that a master checks once (`checked_then_stepped`).
pub fn step_slaves(ring: &mut Ring)
    ensures step { ring.new ≡ stepped ring.old }
    ensures again { (items : List ItemRecord) → IsAccepted ring.old.slaves items
        → IsAccepted ring.new.slaves items }
    ensures still_expected { (items : List ItemRecord) → IsAccepted ring.old.slaves items
        → AllByRecursion IsItem items
        → map (expected_of (line_of ring.new)) items ≡ map (expected_of (line_of ring.old)) items }
{
    ring.step_all();
    are_controllers(ring.slaves());
}
