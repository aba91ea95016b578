//! What the working counters of a cycle certify, whatever befell its frames, each promise the contract of a
//! function that does nothing.

ghost use Rattle.std.specs.Prelude.{◌≡◌, ℕ, ◌≤◌, ◌<◌, ◌+◌, Some, List, [], length, map, slice_get};
ghost use Rattle.std.specs.Prelude.{Result, Ok};
ghost use Rattle.std.specs.List.{AllByRecursion};
ghost use Rattle.ec_regs.specs.declared.registers.TheConstants.{PROCESS_MEMORY, PROCESS_MEMORY_SIZE};
ghost use Rattle.ec_app.specs.State.{SlaveState};
ghost use Rattle.ec_esc.specs.State.{ControllerState};
ghost use Rattle.ec_esc.specs.declared.counting.TheConstants.{MOST_CONTROLLERS};
ghost use Rattle.ec_line.specs.After.{Entry};
ghost use Rattle.ec_line.specs.Request.{OnWay};
ghost use Rattle.ec_line.specs.Trip.{Trip, passed};
ghost use Rattle.ec_ring.specs.Travel.{as_trip};
ghost use Rattle.ec_master.specs.Rounds.{round_counter, AreRecent, AreOfRound};
ghost use Rattle.ec_line.specs.Shown.{ShowsLast, NoAreaTwice};
ghost use Rattle.ec_map.specs.Item.{ItemRecord, IsItem};
ghost use Rattle.ec_ring.specs.Ring.{RingState, line_of};
ghost use Rattle.ec_ring.specs.declared.links.TheConstants.{MAX_SLAVES};
ghost use Rattle.ec_ring.specs.declared.weather.Weather.{Weather};
ghost use Rattle.ec_map.specs.Share.{expected_of};
ghost use Rattle.ec_master.specs.Again.{AskTheSame};
ghost use Rattle.ec_master.specs.Certificate.{verdict_under, verdict_by_counts, IsOneDown};
ghost use Rattle.ec_master.specs.Certificate.{memory_at, memory_in, reached_memory, application_at, shown_at};
ghost use Rattle.ec_master.specs.Cut.{frames_of};
ghost use Rattle.ec_master.specs.Ports.{IsPortCycle};
ghost use Rattle.ec_master.specs.Given.{AllThatCame, in_turn};
ghost use Rattle.ec_master.specs.Suffice.{AllGivenBy, Brings, SaysOfEach};
ghost use Rattle.ec_master.specs.WeatherTrips.{InWeather, WeatherTrips};
ghost use Rattle.ec_line.specs.Answered.{sent_of};
ghost use Rattle.ec_master.specs.Travelled.{trips_under, answers_under, ring_under, weathers_under};
ghost use Rattle.ec_master.specs.Unordered.{by_station, slaves_after_all, AreAnswers, IsAccepted};
ghost use Rattle.ec_master.specs.Work.{with_answers};
ghost use Rattle.ec_master.specs.declared.cycle.CycleFault.{CycleFault};
ghost use Rattle.ec_master.specs.declared.verdict.Verdict.{Verdict};
ghost use Rattle.ec_master.specs.declared.verdict.Verdict.TheVariants.{Good};

/// The verdict is that by counts: the first item for which the copies that came back have not counted what
/// the line counts if each slave is passed once.
pub fn verdict_counts()
    ensures { (ws : List Weather) (r : RingState) (items : List ItemRecord)
        → length r.slaves ≤ MAX_SLAVES → IsAccepted r.slaves items → AllByRecursion IsItem items
        → verdict_under ws r items ≡ verdict_by_counts (trips_under ws r items) items (line_of r) }
{}

/// Where the verdict is good, whatever was lost or passed twice, the answers are those of the unordered cycle
/// of all slaves, and each memory is what it leaves.
pub fn good_image()
    ensures answers { (ws : List Weather) (r : RingState) (items : List ItemRecord)
        → length r.slaves ≤ MAX_SLAVES → IsAccepted r.slaves items → AllByRecursion IsItem items
        → verdict_under ws r items ≡ Good
        → AreAnswers (by_station r.slaves) items (with_answers items (answers_under ws r items)) }
    ensures memories { (ws : List Weather) (r : RingState) (items : List ItemRecord) (n : ℕ)
        → length r.slaves ≤ MAX_SLAVES → IsAccepted r.slaves items → AllByRecursion IsItem items
        → verdict_under ws r items ≡ Good → memory_at (by_station (ring_under ws r items).slaves) n
        ≡ memory_at (slaves_after_all items (by_station r.slaves)) n }
{}

/// Each slave's application is shown a byte as the unordered cycle shows it, where in each frame the last
/// item that shows the byte anew is the last that writes it; so each byte, where no two items of a frame
/// write into one area of its outputs.
pub fn good_outputs()
    ensures shown_last { (ws : List Weather) (r : RingState) (items : List ItemRecord) (n k : ℕ)
        (s : SlaveState) → length r.slaves ≤ MAX_SLAVES → IsAccepted r.slaves items
        → AllByRecursion IsItem items → verdict_under ws r items ≡ Good → k < PROCESS_MEMORY_SIZE
        → by_station r.slaves n ≡ Some s
        → AllByRecursion (ShowsLast s.controller (PROCESS_MEMORY + k)) (frames_of items)
        → shown_at (by_station (ring_under ws r items).slaves) k n
        ≡ shown_at (slaves_after_all items (by_station r.slaves)) k n }
    ensures no_area_twice { (ws : List Weather) (r : RingState) (items : List ItemRecord) (n k : ℕ)
        (s : SlaveState) → length r.slaves ≤ MAX_SLAVES → IsAccepted r.slaves items
        → AllByRecursion IsItem items → verdict_under ws r items ≡ Good → k < PROCESS_MEMORY_SIZE
        → by_station r.slaves n ≡ Some s
        → AllByRecursion (NoAreaTwice s.controller) (frames_of items)
        → shown_at (by_station (ring_under ws r items).slaves) k n
        ≡ shown_at (slaves_after_all items (by_station r.slaves)) k n }
{}

/// On every verdict a slave's memory is that after the items of those frames of which a copy reached it, each
/// once.
pub fn memory_on_every_verdict()
    ensures { (ws : List Weather) (r : RingState) (items : List ItemRecord) (k : ℕ) (s : SlaveState)
        → IsAccepted r.slaves items → AllByRecursion IsItem items → slice_get r.slaves k ≡ Some s
        → memory_in (ring_under ws r items).slaves k ≡ Some (reached_memory (trips_under ws r items) k s) }
{}

/// The application of each slave is as before a cycle.
pub fn applications_kept()
    ensures { (ws : List Weather) (r : RingState) (items : List ItemRecord) (n : ℕ)
        → IsAccepted r.slaves items → AllByRecursion IsItem items
        → application_at (by_station (ring_under ws r items).slaves) n
        ≡ application_at (by_station r.slaves) n }
{}

/// Where each frame that is sent travels with at most one link down, the same for both copies, and nothing is
/// lost, the verdict is good.
pub fn one_link_down()
    ensures { (ws : List Weather) (r : RingState) (items : List ItemRecord)
        → length r.slaves ≤ MAX_SLAVES → IsAccepted r.slaves items → AllByRecursion IsItem items
        → AllByRecursion (IsOneDown (length r.slaves)) (weathers_under ws r items)
        → verdict_under ws r items ≡ Good }
{}

/// A line is checked once. Behind a cycle in any weather, whatever its verdict, items that ask the same are
/// accepted, and what is expected of their counters is as it was.
pub fn checked_once()
    ensures again { (ws : List Weather) (r : RingState) (items others : List ItemRecord)
        → IsAccepted r.slaves items → AllByRecursion IsItem items → AskTheSame items others
        → IsAccepted (ring_under ws r items).slaves others }
    ensures still_expected { (ws : List Weather) (r : RingState) (items others : List ItemRecord)
        → IsAccepted r.slaves items → AllByRecursion IsItem items → AllByRecursion IsItem others
        → AskTheSame items others
        → map (expected_of (line_of (ring_under ws r items))) others ≡ map (expected_of (line_of r)) items }
{}

/// The copies of a frame that goes out in a round, over a line of at most 256 controllers, are of that round,
/// whatever befalls them: so what is late is late by whole rounds, which a good verdict excludes
/// (`frames_suffice`, `this_round`).
pub fn of_round()
    ensures { (k : ℕ) (t : Trip) (line : List ControllerState) → length line ≤ MOST_CONTROLLERS
        → AllByRecursion (λ (e : Entry). OnWay e.request e.sent) t.entries
        → AllByRecursion (λ (e : Entry). e.sent.counter ≡ round_counter k) t.entries
        → AreOfRound k (Ok (as_trip t (passed t line)).came) }
{}

/// Of ports only what came back of each frame counts. Where it is what a ring's trips give, the copies in
/// either place, the cycle ends in no fault; its verdict is that by counts; on a good one the items have the
/// answers of the unordered cycle of the ring's slaves, which have its memories and shown bytes (these where
/// in each frame the last item that shows a byte is the last that writes it); on another they are as before
/// (`says`). Where the items went out with the counter of round `k` and every copy is of that round or of one
/// of the fifteen before it, a good verdict rests on copies of round `k` alone (`this_round`).
pub fn frames_suffice()
    ensures says { (items : List ItemRecord) (expected : List ℕ) (came : AllThatCame)
        (result : Result Verdict CycleFault) (items_later : List ItemRecord) → AllByRecursion IsItem items
        → IsPortCycle in_turn came items expected result items_later []
        → SaysOfEach items expected came result items_later }
    ensures this_round { (k : ℕ) (items : List ItemRecord) (expected : List ℕ) (came : AllThatCame)
        (items_later : List ItemRecord)
        → AllByRecursion (λ (r : ItemRecord). r.counter ≡ round_counter k) items
        → length expected ≡ length items → AllByRecursion (λ (e : ℕ). e < 4096) expected
        → AllByRecursion (AreRecent k) came
        → IsPortCycle in_turn came items expected (Ok Good) items_later []
        → AllByRecursion (AreOfRound k) came }
{}

/// What comes back over `WeatherPorts` is what the trips of its ring give, so what is said of ports by what
/// came (`run_cycle`, `frames_suffice`; `Reporting::cycle`, `told`) is said of that ring in its weathers.
/// Where all frames have gone out, the ring is the one behind them.
pub fn weathers_give()
    ensures gives { (items : List ItemRecord) (before later : InWeather) (came : AllThatCame)
        → AllByRecursion IsItem items → Brings WeatherTrips before (map sent_of (frames_of items)) came later
        → AllGivenBy (trips_under before.ahead before.ring items) (line_of before.ring) came }
    ensures ring { (items : List ItemRecord) (before later : InWeather) (came : AllThatCame)
        → AllByRecursion IsItem items → Brings WeatherTrips before (map sent_of (frames_of items)) came later
        → length came ≡ length (frames_of items)
        → later.ring ≡ ring_under before.ahead before.ring items }
{}
