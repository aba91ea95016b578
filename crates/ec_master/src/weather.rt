//! A master's cycle whatever befalls its frames.

ghost use Rattle.std.specs.Prelude.{◌≡◌, ◌≢◌, ◌≤◌, ℕ, Some, List, length, map, slice_get};
ghost use Rattle.std.specs.List.{AllByRecursion};
ghost use Rattle.ec_app.specs.State.{SlaveState};
ghost use Rattle.ec_map.specs.Item.{ItemRecord, IsItem};
ghost use Rattle.ec_map.specs.Share.{expected_of};
ghost use Rattle.ec_ring.specs.Ring.{line_of};
ghost use Rattle.ec_ring.specs.declared.links.TheConstants.{MAX_SLAVES};
ghost use Rattle.ec_master.specs.Certificate.{verdict_under, verdict_by_counts, IsOneDown};
ghost use Rattle.ec_master.specs.Certificate.{application_at, memory_in, reached_memory};
ghost use Rattle.ec_master.specs.Good.{IsGoodCycle};
ghost use Rattle.ec_master.specs.Again.{AskTheSame};
ghost use Rattle.ec_master.specs.Ports.{taken_on};
ghost use Rattle.ec_master.specs.Travelled.{trips_under, answers_under, ring_under, weathers_under};
ghost use Rattle.ec_master.specs.Unordered.{by_station, IsAccepted};

use crate::ring::travel;
use crate::verdict::{Verdict, conclude};
use crate::work::Work;
use ec_map::fit_line;
use ec_ring::{Travel, Weather};

/// One cycle over a ring in any weather: frame i travels under weather i, and those past the list under the
/// ring's own links, copy A first. The verdict compares each counter with what is expected of the line
/// (`ec_map::expected`, which the caller has asked for each item). On `Good` the work takes the joined
/// answers; else it is unchanged.
///
/// On a line and for items that the mapping checker accepts, whatever was lost or passed twice:
/// - `verdict`: it is that by counts of passes;
/// - `good`: on `Good` the answers are those of the cycle over slaves that are known by their stations alone,
///   and so is each memory (`image`, `memories`); so is each shown byte, where in each frame the last item
///   that shows it anew is the last that writes it (`outputs`), and where no two items of a frame write into
///   one area of outputs (`outputs_alone`); the work has each input that a slave maps and an item reads, as
///   it was before the cycle (`inputs_stand`); and each slave's application is shown, for each output that it
///   maps, the bit that the master sent last, where the items cover the line (`ec_map`, `first_uncovered` and
///   `first_not_shown` find nothing) and none is an addressed write to the slave's station
///   (`outputs_are_shown`);
/// - `untouched_work`: on another verdict the work is unchanged;
/// - `memory_on_every_verdict`: a slave's memory is that after the items of those frames of which a copy
///   reached it, each once;
/// - `good_when_one_link_is_down`: where each frame that is sent travels with at most one link down, the same
///   for both copies, and nothing is lost, the verdict is `Good`.
///
/// A line is checked once: behind the cycle, whatever its verdict, it accepts the work again, also with other
/// data (`again`, of any items that ask the same), and `expected` is what is expected of them
/// (`still_expected`).
///
/// On any line and for any items the verdict is that on the answers that the frames' trips bring (`judged`),
/// and the work takes these on `Good` alone (`taken`).
pub fn weather_cycle<T: Travel>(
    ring: &mut T,
    weather: &[Weather],
    expected: &[u16],
    work: &mut Work,
) -> Verdict
    requires { expected.now ≡ map (expected_of (line_of (T.ring ring.old))) work.old }
    ensures verdict { IsAccepted (T.ring ring.old).slaves work.old → result
        ≡ verdict_by_counts (trips_under weather.now (T.ring ring.old) work.old) work.old
        (line_of (T.ring ring.old)) }
    ensures good { IsAccepted (T.ring ring.old).slaves work.old → result ≡ Verdict.Good
        → IsGoodCycle work.old work.new (T.ring ring.old).slaves (T.ring ring.new).slaves }
    ensures untouched_work { result ≢ Verdict.Good → work.new ≡ work.old }
    ensures memory_on_every_verdict { (k : ℕ) (s : SlaveState) → IsAccepted (T.ring ring.old).slaves work.old
        → slice_get (T.ring ring.old).slaves k ≡ Some s → memory_in (T.ring ring.new).slaves k
        ≡ Some (reached_memory (trips_under weather.now (T.ring ring.old) work.old) k s) }
    ensures applications { (n : ℕ) → IsAccepted (T.ring ring.old).slaves work.old
        → application_at (by_station (T.ring ring.new).slaves) n
        ≡ application_at (by_station (T.ring ring.old).slaves) n }
    ensures good_when_one_link_is_down { IsAccepted (T.ring ring.old).slaves work.old
        → AllByRecursion (IsOneDown (length (T.ring ring.old).slaves))
        (weathers_under weather.now (T.ring ring.old) work.old) → result ≡ Verdict.Good }
    ensures judged { result ≡ verdict_under weather.now (T.ring ring.old) work.old }
    ensures taken { work.new
        ≡ taken_on result work.old (answers_under weather.now (T.ring ring.old) work.old) }
    ensures asks_the_same { IsAccepted (T.ring ring.old).slaves work.old → AskTheSame work.old work.new }
    ensures again { (others : List ItemRecord) → IsAccepted (T.ring ring.old).slaves work.old
        → AskTheSame work.old others → IsAccepted (T.ring ring.new).slaves others }
    ensures still_expected { (others : List ItemRecord) → IsAccepted (T.ring ring.old).slaves work.old
        → AllByRecursion IsItem others → AskTheSame work.old others
        → map (expected_of (line_of (T.ring ring.new))) others
        ≡ expected.now }
    ensures links { (T.ring ring.new).links ≡ (T.ring ring.old).links }
    ensures frames { T.ring ring.new ≡ ring_under weather.now (T.ring ring.old) work.old }
{
    work.are_items();
    fit_line();
    weather_cycle_in(ring, weather, expected, work, &mut Work::new())
}

/// A cycle as `weather_cycle` makes it, with a second work as room for what was sent: nothing but the items
/// is copied. What the second work holds before and after does not matter. All that is known of such a cycle
/// follows from its verdict, which is that on the answers that the frames' trips bring (`judged`), and from
/// what the work (`taken`) and the ring (`frames`) are then. A line is checked once, as there.
pub fn weather_cycle_in<T: Travel>(
    ring: &mut T,
    weather: &[Weather],
    expected: &[u16],
    work: &mut Work,
    sent: &mut Work,
) -> Verdict
    requires { expected.now ≡ map (expected_of (line_of (T.ring ring.old))) work.old }
    ensures judged { result ≡ verdict_under weather.now (T.ring ring.old) work.old }
    ensures taken { work.new
        ≡ taken_on result work.old (answers_under weather.now (T.ring ring.old) work.old) }
    ensures frames { T.ring ring.new ≡ ring_under weather.now (T.ring ring.old) work.old }
    ensures limit { length (T.ring ring.old).slaves ≤ MAX_SLAVES }
    ensures asks_the_same { IsAccepted (T.ring ring.old).slaves work.old → AskTheSame work.old work.new }
    ensures again { (others : List ItemRecord) → IsAccepted (T.ring ring.old).slaves work.old
        → AskTheSame work.old others → IsAccepted (T.ring ring.new).slaves others }
    ensures still_expected { (others : List ItemRecord) → IsAccepted (T.ring ring.old).slaves work.old
        → AllByRecursion IsItem others → AskTheSame work.old others
        → map (expected_of (line_of (T.ring ring.new))) others ≡ expected.now }
{
    work.are_items();
    sent.assign(work);
    travel(ring, weather, work);
    conclude(work, sent, expected)
}
