//! A line and a work are checked once, before the first cycle.

ghost use Rattle.std.specs.Prelude.{◌≡◌, ◌≢◌, Ok, OnOk, IfOk, IfErr, IsOk, map, take, length};
ghost use Rattle.std.specs.List.{AllByRecursion};
ghost use Rattle.ec_check.specs.Fit.{IsFit};
ghost use Rattle.ec_check.specs.Line.{controllers};
ghost use Rattle.ec_map.specs.Place.{IsPlaced};
ghost use Rattle.ec_map.specs.Share.{expected_of};
ghost use Rattle.ec_ring.specs.Ring.{line_of};
ghost use Rattle.ec_master.specs.Acceptance.{IsRefusal};
ghost use Rattle.ec_master.specs.Certificate.{verdict_by_counts, IsOneDown};
ghost use Rattle.ec_master.specs.Good.{IsGoodCycle};
ghost use Rattle.ec_master.specs.Travelled.{trips_under, weathers_under};
ghost use Rattle.ec_master.specs.Unordered.{IsAccepted};

use crate::verdict::Verdict;
use crate::weather::weather_cycle;
use crate::work::{MAX_ITEMS, Work};
use ec_app::Slave;
use ec_check::{MapFault, check};
use ec_map::{PlaceFault, check_item, expected};
use ec_ring::{Ring, Weather};

/// Why a line with a work is not accepted.
#[derive(Clone, Copy, PartialEq, Eq, Debug)]
pub enum Refusal {
    /// The line breaks a rule of mapping.
    Line(MapFault),
    /// The line is fit, and the item with this number is the first that goes where a cycle may not.
    Item(usize, PlaceFault),
}

/// Checks a line and a work on it. What is accepted stays so from cycle to cycle, whatever their verdicts,
/// and also with other data in the items (`again` of `ring_cycle` and `weather_cycle`), so that a master
/// checks once.
pub fn accept(line: &[Slave], work: &Work) -> Result<(), Refusal>
    ensures accepted { OnOk result (IsAccepted line.now work.now) }
    ensures refused { IfErr result (IsRefusal line.now work.now) }
{
    match check(line) {
        Ok(()) => place_items(line, work),
        Err(fault) => Err(Refusal::Line(fault)),
    }
}

/// Checks where the items of a work go on a fit line.
fn place_items(line: &[Slave], work: &Work) -> Result<(), Refusal>
    requires { IsFit (controllers line.now) }
    ensures placed { OnOk result (AllByRecursion (IsPlaced (controllers line.now)) work.now) }
    ensures refused { IfErr result (IsRefusal line.now work.now) }
{
    for k in 0..work.len() {
        match check_item(line, work.item(k)) {
            Ok(()) => {}
            Err(fault) => return Err(Refusal::Item(k, fault)),
        }
    }
    Ok(())
}

/// What is expected of each counter of a work, by the item's number (`ec_map::expected`).
pub fn all_expected(line: &[Slave], work: &Work) -> [u16; MAX_ITEMS]
    ensures { take (length work.now) result ≡ map (expected_of (controllers line.now)) work.now }
{
    let mut all = [0; MAX_ITEMS];
    for k in 0..work.len() {
        all[k] = expected(line, work.item(k));
    }
    all
}

/// Checks a ring's line and a work on it, and then makes one cycle in any weather (`weather_cycle`). Its
/// promise has no premise but its own answer: on `Ok(Good)` the work has the answers, and each slave the
/// memory, of the cycle over slaves that are known by their stations alone, and all else that a good verdict
/// says (`good`); else the work is as before. A refusal leaves the ring as it is, too.
pub fn checked_cycle(
    ring: &mut Ring,
    weather: &[Weather],
    work: &mut Work,
) -> Result<Verdict, Refusal>
    ensures refused { IfErr result (λ refusal. IsRefusal ring.old.slaves work.old refusal
        × (ring.new ≡ ring.old)) }
    ensures verdict { IfOk result (λ verdict. verdict
        ≡ verdict_by_counts (trips_under weather.now ring.old work.old) work.old (line_of ring.old)) }
    ensures good { result ≡ Ok Verdict.Good
        → IsGoodCycle work.old work.new ring.old.slaves ring.new.slaves }
    ensures untouched_work { result ≢ Ok Verdict.Good → work.new ≡ work.old }
    ensures good_when_one_link_is_down { IsOk result → AllByRecursion (IsOneDown (length ring.old.slaves))
        (weathers_under weather.now ring.old work.old) → result ≡ Ok Verdict.Good }
    ensures again { IsOk result → IsAccepted ring.new.slaves work.new }
{
    match accept(ring.slaves(), work) {
        Ok(()) => {
            let expected = all_expected(ring.slaves(), work);
            Ok(weather_cycle(ring, weather, &expected[..work.len()], work))
        }
        Err(refusal) => Err(refusal),
    }
}
