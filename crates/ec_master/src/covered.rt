//! What stands in the master's image, in each slave's memory and before its application once a cycle is over,
//! bit by bit, each promise the contract of a function that does nothing.

ghost use Rattle.std.specs.Prelude.{◌≡◌, ◌+◌, ◌/◌, ◌≤◌, ℕ, true, Some, List, length, slice_index, Result, Ok};
ghost use Rattle.std.specs.List.{AllByRecursion};
ghost use Rattle.ec_regs.specs.Bits.{bit};
ghost use Rattle.ec_regs.specs.declared.registers.TheConstants.{PROCESS_MEMORY};
ghost use Rattle.ec_regs.specs.declared.sync_man.SyncMan.{SyncMan};
ghost use Rattle.ec_app.specs.State.{SlaveState};
ghost use Rattle.ec_line.specs.Fit.{Reads, Writes};
ghost use Rattle.ec_check.specs.Line.{controllers};
ghost use Rattle.ec_map.specs.Covered.{is_asked, IsCovered};
ghost use Rattle.ec_map.specs.NotShown.{AreShown};
ghost use Rattle.ec_map.specs.declared.covered.Way.TheVariants as ways;
ghost use Rattle.ec_map.specs.Item.{ItemRecord, IsItem};
ghost use Rattle.ec_master.specs.Covered.{HaveInputs, NoWriteTo, last_sent, IsOutputByte};
ghost use Rattle.ec_master.specs.Covered.{InputsStand, OutputsAreShown};
ghost use Rattle.ec_master.specs.Covered.{CompletesWhere, IsCompleted, IsShownWhole};
ghost use Rattle.ec_ring.specs.Ring.{RingState};
ghost use Rattle.ec_ring.specs.declared.links.TheConstants.{MAX_SLAVES};
ghost use Rattle.ec_ring.specs.declared.weather.Weather.{Weather};
ghost use Rattle.ec_master.specs.Certificate.{verdict_under};
ghost use Rattle.ec_master.specs.Suffice.{SaysOf};
ghost use Rattle.ec_master.specs.Travelled.{answers_under, ring_under};
ghost use Rattle.ec_master.specs.Work.{with_answers};
ghost use Rattle.ec_master.specs.declared.cycle.CycleFault.{CycleFault};
ghost use Rattle.ec_master.specs.declared.verdict.Verdict.{Verdict};
ghost use Rattle.ec_master.specs.declared.verdict.Verdict.TheVariants.{Good};
ghost use Rattle.ec_master.specs.Unordered.{by_station, slaves_after_all, AreAnswers, IsAccepted};

use ec_map::fit_line;

/// Each answer of a cycle has, for each bit that the slave of a station maps for reading and that the item
/// reads, the bit of that slave's memory as it was before the cycle: inputs are not written in it.
pub fn inputs_stand()
    ensures { (slaves : List SlaveState) (items got : List ItemRecord) (n : ℕ) (s : SlaveState)
        → IsAccepted slaves items → AllByRecursion IsItem items
        → AreAnswers (by_station slaves) items got → by_station slaves n ≡ Some s
        → HaveInputs s.controller items got }
{}

/// After a cycle each bit of a slave's memory that the slave maps for writing is the one that the last item
/// sent which writes its logical bit, where no item is an addressed write to the slave's station.
pub fn outputs_stand()
    ensures { (slaves : List SlaveState) (items : List ItemRecord) (n l p v : ℕ) (s later : SlaveState)
        → IsAccepted slaves items → AllByRecursion IsItem items → by_station slaves n ≡ Some s
        → slaves_after_all items (by_station slaves) n ≡ Some later → Writes s.controller l p
        → NoWriteTo n items → last_sent items l ≡ Some v → bit later.controller.memory p ≡ v }
{}

/// After a cycle the application of a slave is shown a byte of its outputs as it stands in the memory, where
/// each item that writes the byte completes its area, and some item completes that.
pub fn outputs_are_shown()
    ensures { (slaves : List SlaveState) (items : List ItemRecord) (n number k : ℕ) (area : SyncMan)
        (s later : SlaveState) → IsAccepted slaves items → AllByRecursion IsItem items
        → by_station slaves n ≡ Some s → slaves_after_all items (by_station slaves) n ≡ Some later
        → IsOutputByte s.controller number (PROCESS_MEMORY + k) area
        → AllByRecursion (CompletesWhere s.controller (PROCESS_MEMORY + k) area) items
        → IsCompleted s.controller area items
        → slice_index later.controller.shown k ≡ slice_index later.controller.memory (PROCESS_MEMORY + k) }
{}

/// Where `first_uncovered` finds nothing an item reads each bit that a slave maps for reading, and the items
/// send a bit for each that it maps for writing.
pub fn covered_bits()
    ensures reads { (slaves : List SlaveState) (items : List ItemRecord) (n l p : ℕ) (s : SlaveState)
        → IsCovered (controllers slaves) items → by_station slaves n ≡ Some s → Reads s.controller l p
        → is_asked ways.Reads l items ≡ true }
    ensures writes { (slaves : List SlaveState) (items : List ItemRecord) (n l p : ℕ) (s : SlaveState)
        → IsCovered (controllers slaves) items → by_station slaves n ≡ Some s → Writes s.controller l p
        → (v : ℕ) × (last_sent items l ≡ Some v) }
{}

/// Where `first_not_shown` finds nothing on an accepted line each byte that a slave maps for writing lies in
/// an area of outputs that each item which writes the byte completes, and some item completes it; where no
/// item is an addressed write to the slave's station.
pub fn covered_outputs()
    ensures { (slaves : List SlaveState) (items : List ItemRecord) (n l p : ℕ) (s : SlaveState)
        → IsAccepted slaves items → AllByRecursion IsItem items → AreShown (controllers slaves) items
        → by_station slaves n ≡ Some s → Writes s.controller l p → NoWriteTo n items
        → IsShownWhole s.controller items (p / 8) }
{
    fit_line();
}

/// On an accepted line where `first_uncovered` and `first_not_shown` find nothing, a cycle whose verdict is
/// good, whatever was lost or passed twice, has each mapped input of each slave in the items, as it was
/// before the cycle; and shows each slave's application, for each mapped output, the bit that the master sent
/// last, where no item is an addressed write to the slave's station. `weather_cycle` says so of its own
/// verdict (`inputs_stand`, `outputs_are_shown`), and `ring_cycle` of every cycle with at most one link down;
/// over ports it is so of each ring that would have given what came (`over_ports`; of the end of `run_cycle`
/// that ring is said to be one by `frames_suffice`).
pub fn covered_and_good()
    ensures inputs { (ws : List Weather) (r : RingState) (items : List ItemRecord)
        → length r.slaves ≤ MAX_SLAVES → IsAccepted r.slaves items → AllByRecursion IsItem items
        → verdict_under ws r items ≡ Good
        → InputsStand r.slaves items (with_answers items (answers_under ws r items)) }
    ensures outputs { (ws : List Weather) (r : RingState) (items : List ItemRecord)
        → length r.slaves ≤ MAX_SLAVES → IsAccepted r.slaves items → AllByRecursion IsItem items
        → IsCovered (controllers r.slaves) items → AreShown (controllers r.slaves) items
        → verdict_under ws r items ≡ Good
        → OutputsAreShown r.slaves items (ring_under ws r items).slaves }
    ensures over_ports { (ws : List Weather) (r : RingState) (items later : List ItemRecord)
        (result : Result Verdict CycleFault) → length r.slaves ≤ MAX_SLAVES → IsAccepted r.slaves items
        → AllByRecursion IsItem items → IsCovered (controllers r.slaves) items
        → AreShown (controllers r.slaves) items → SaysOf ws r items result later → result ≡ Ok Good
        → InputsStand r.slaves items later × OutputsAreShown r.slaves items (ring_under ws r items).slaves }
{
    fit_line();
}
