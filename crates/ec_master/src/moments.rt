//! What the working counters of a cycle certify where the slaves' applications act during it, each promise
//! the contract of a function that does nothing.

ghost use Rattle.std.specs.Prelude.{◌≡◌, ◌≤◌, ℕ, List, [], length, map};
ghost use Rattle.std.specs.Prelude.{Result};
ghost use Rattle.std.specs.List.{AllByRecursion};
ghost use Rattle.ec_line.specs.Moving.{Visit};
ghost use Rattle.ec_map.specs.Item.{ItemRecord, IsItem};
ghost use Rattle.ec_map.specs.Share.{expected_of};
ghost use Rattle.ec_ring.specs.Ring.{RingState, line_of};
ghost use Rattle.ec_ring.specs.declared.links.TheConstants.{MAX_SLAVES};
ghost use Rattle.ec_ring.specs.declared.weather.Weather.{Weather};
ghost use Rattle.ec_master.specs.Again.{AskTheSame};
ghost use Rattle.ec_master.specs.Certificate.{verdict_by_counts, IsOneDown};
ghost use Rattle.ec_master.specs.Given.{AllThatCame, in_turn};
ghost use Rattle.ec_master.specs.Moments.{IsMovingCycle, answers_moving, verdict_moving, FramesAtMoments};
ghost use Rattle.ec_master.specs.Moments.{OutputsLast, OutputsShown, ring_moving, SaysOfEachMoving};
ghost use Rattle.ec_master.specs.Ports.{IsPortCycle};
ghost use Rattle.ec_master.specs.Travelled.{trips_under, weathers_under, answers_under, ring_under};
ghost use Rattle.ec_master.specs.Unordered.{IsAccepted};
ghost use Rattle.ec_master.specs.Work.{with_answers};
ghost use Rattle.ec_master.specs.declared.cycle.CycleFault.{CycleFault};
ghost use Rattle.ec_master.specs.declared.verdict.Verdict.{Verdict};
ghost use Rattle.ec_master.specs.declared.verdict.Verdict.TheVariants.{Good};

/// A cycle while the machine runs: before, between and behind the passages of its copies each slave's
/// application may change inputs, mails, its state and all else that leaves the slave's mapping and the bits
/// that accepted requests write; which copy comes first may differ from slave to slave. Of each accepted line
/// and items, in any weather, and whatever the applications do so:
///
/// - `verdict`: the verdict is that by counts, the first item that the copies which came back have not
///   counted as if each slave were passed once;
/// - `one_link_down`: where each frame travels with at most one link down, the same for both copies, and
///   nothing is lost, it is good;
/// - `image`: on a good one there is for each frame and each slave one moment such that the answers of all
///   items of the frame are those of the slaves as they were at their moments: no word that a slave gives in
///   a frame is torn, and each mapped input that an item reads is as it was then. A slave that counts an item
///   was passed by exactly one of the copies that came back, and its moment is that passage; of one that
///   counts nothing the moment may be the place of a copy that was lost. Between two slaves, and between two
///   frames, the moments may differ;
/// - `outputs`: on a good one each bit that an accepted request writes is afterwards the one sent last;
/// - `shown`: and so it is shown to the application, where in each frame the last entry that shows its byte
///   is the last that writes it;
/// - `again`, `still_expected`: on every verdict the ring as it then is accepts items that ask the same, and
///   the same is expected of their counters, so that cycle may follow cycle;
/// - `over_ports`: what is said of ports by what came back (`run_cycle`) is said so of each such ring that
///   would have given it; on another verdict the items are as they were.
///
/// Where no application acts during the cycle, `good_image` tells more; such a cycle is one of these, at
/// which nothing moves (`still`).
pub fn good_at_one_moment()
    ensures verdict { (ws : List Weather) (r : RingState) (items : List ItemRecord)
        (runs : List (List Visit)) → length r.slaves ≤ MAX_SLAVES → IsAccepted r.slaves items
        → AllByRecursion IsItem items → IsMovingCycle ws r items runs
        → verdict_moving ws r items runs ≡ verdict_by_counts (trips_under ws r items) items (line_of r) }
    ensures one_link_down { (ws : List Weather) (r : RingState) (items : List ItemRecord)
        (runs : List (List Visit)) → length r.slaves ≤ MAX_SLAVES → IsAccepted r.slaves items
        → AllByRecursion IsItem items → IsMovingCycle ws r items runs
        → AllByRecursion (IsOneDown (length r.slaves)) (weathers_under ws r items)
        → verdict_moving ws r items runs ≡ Good }
    ensures image { (ws : List Weather) (r : RingState) (items : List ItemRecord)
        (runs : List (List Visit)) → length r.slaves ≤ MAX_SLAVES → IsAccepted r.slaves items
        → AllByRecursion IsItem items → IsMovingCycle ws r items runs
        → verdict_moving ws r items runs ≡ Good
        → FramesAtMoments r.slaves (trips_under ws r items) runs items
        (with_answers items (answers_moving ws r items runs)) }
    ensures outputs { (ws : List Weather) (r : RingState) (items : List ItemRecord)
        (runs : List (List Visit)) → length r.slaves ≤ MAX_SLAVES → IsAccepted r.slaves items
        → AllByRecursion IsItem items → IsMovingCycle ws r items runs
        → verdict_moving ws r items runs ≡ Good → OutputsLast ws r items runs }
    ensures shown { (ws : List Weather) (r : RingState) (items : List ItemRecord)
        (runs : List (List Visit)) → length r.slaves ≤ MAX_SLAVES → IsAccepted r.slaves items
        → AllByRecursion IsItem items → IsMovingCycle ws r items runs
        → verdict_moving ws r items runs ≡ Good → OutputsShown ws r items runs }
    ensures again { (ws : List Weather) (r : RingState) (items others : List ItemRecord)
        (runs : List (List Visit)) → IsAccepted r.slaves items → AllByRecursion IsItem items
        → IsMovingCycle ws r items runs → AskTheSame items others
        → IsAccepted (ring_moving r runs).slaves others }
    ensures still_expected { (ws : List Weather) (r : RingState) (items others : List ItemRecord)
        (runs : List (List Visit)) → IsAccepted r.slaves items → AllByRecursion IsItem items
        → AllByRecursion IsItem others → IsMovingCycle ws r items runs → AskTheSame items others
        → map (expected_of (line_of (ring_moving r runs))) others ≡ map (expected_of (line_of r)) items }
    ensures still { (ws : List Weather) (r : RingState) (items : List ItemRecord)
        → (runs : List (List Visit)) × IsMovingCycle ws r items runs
        × (answers_moving ws r items runs ≡ answers_under ws r items)
        × (ring_moving r runs ≡ ring_under ws r items) }
    ensures over_ports { (items : List ItemRecord) (expected : List ℕ) (came : AllThatCame)
        (result : Result Verdict CycleFault) (items_later : List ItemRecord) → AllByRecursion IsItem items
        → IsPortCycle in_turn came items expected result items_later []
        → SaysOfEachMoving items expected came result items_later }
{}
