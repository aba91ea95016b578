//! A master's cycle over a ring.

ghost use Rattle.std.specs.Prelude.{◌≡◌, ◌+◌, ◌<◌, ◌≤◌, ℕ, [], List, length, map};
ghost use Rattle.std.specs.List.{AllByRecursion};
ghost use Rattle.ec_wire.specs.Datagram.{nth};
ghost use Rattle.ec_line.specs.After.{Entry};
ghost use Rattle.ec_line.specs.Trip.{joined_of, passed};
ghost use Rattle.ec_ring.specs.Ring.{line_of, with_line};
ghost use Rattle.ec_ring.specs.declared.links.TheConstants.{MAX_SLAVES};
ghost use Rattle.ec_ring.specs.Travel.{trip_of};
ghost use Rattle.ec_master.specs.Covered.{InputsStand, OutputsAreShown};
ghost use Rattle.ec_master.specs.Cut.{IsFrameOf, frame_at};
ghost use Rattle.ec_master.specs.Work.{with_answers, nth_item};
ghost use Rattle.ec_master.specs.declared.work.TheConstants.{MAX_ITEMS};
ghost use Rattle.ec_master.specs.Travelled.{answers_under, ring_under, AtMostOneDown, reached};
ghost use Rattle.ec_master.specs.Travelled.{unreached};
ghost use Rattle.ec_master.specs.Again.{AskTheSame};
ghost use Rattle.ec_check.specs.Line.{controllers};
ghost use Rattle.ec_map.specs.Covered.{IsCovered};
ghost use Rattle.ec_map.specs.Item.{ItemRecord, IsItem};
ghost use Rattle.ec_map.specs.NotShown.{AreShown};
ghost use Rattle.ec_map.specs.Share.{expected_of};
ghost use Rattle.ec_master.specs.Unordered.{station, by_station, IsCycle, IsAccepted};

use crate::cut::frame_from;
use crate::weathers_ahead::WeathersAhead;
use crate::work::Work;
use ec_map::fit_line;
use ec_merge::join_frames;
use ec_ring::{Travel, Weather};
use ec_wire::FrameBuf;

/// Sends a frame over a ring and joins what comes back. A ring makes no strangers, so the copies of a frame
/// of items are always joined.
fn carry<T: Travel>(ring: &mut T, sent: &FrameBuf, weather: &Weather) -> FrameBuf
    ensures joined { (es : List Entry) → IsFrameOf es sent.now
        → let t = trip_of weather.now es (length (T.ring ring.old).slaves)
        in result ≡ joined_of t (passed t (line_of (T.ring ring.old))) }
    ensures ring { (es : List Entry) → IsFrameOf es sent.now
        → let t = trip_of weather.now es (length (T.ring ring.old).slaves)
        in T.ring ring.new ≡ with_line (T.ring ring.old) (passed t (line_of (T.ring ring.old))).line }
{
    let came = ring.trip(sent, weather);
    match join_frames(sent, came.a.as_ref(), came.b.as_ref()) {
        Ok(joined) => joined,
        Err(_) => sent.copy(),
    }
}

/// Sends the frame that begins with the item at `first` over a ring and joins what comes back: an answer for
/// each of its items, of the item's size.
fn exchange<T: Travel>(ring: &mut T, weather: &Weather, work: &Work, first: usize) -> FrameBuf
    requires { first < length work.now }
    ensures joined { let r = T.ring ring.old
        in let t = trip_of weather.now (frame_at first work.now) (length r.slaves)
        in result ≡ joined_of t (passed t (line_of r)) }
    ensures ring { let r = T.ring ring.old
        in let t = trip_of weather.now (frame_at first work.now) (length r.slaves)
        in T.ring ring.new ≡ with_line r (passed t (line_of r)).line }
    ensures count { length result ≡ length (frame_at first work.now) }
    ensures some { 1 ≤ length result }
    ensures room { first + length result ≤ length work.now }
    ensures sizes { (j : ℕ) → j < length result
        → length (nth result j).payload ≡ length (nth_item work.now (first + j)).payload }
    ensures limit { length work.now ≤ MAX_ITEMS }
{
    work.are_items();
    let sent = frame_from(work, first);
    carry(ring, &sent, weather)
}

/// Sends all frames of a work over a ring, one after the other, each under its own weather, and past the list
/// of weathers under the ring's own links. The work takes the answers as they come.
pub(crate) fn travel<T: Travel>(ring: &mut T, weather: &[Weather], work: &mut Work)
    ensures work { work.new ≡ with_answers work.old (answers_under weather.now (T.ring ring.old) work.old) }
    ensures ring { T.ring ring.new ≡ ring_under weather.now (T.ring ring.old) work.old }
    ensures limit { length (T.ring ring.old).slaves ≤ MAX_SLAVES }
{
    let links = ring.links();
    let mut ahead = WeathersAhead::new(weather);
    let mut first = 0;
    while first < work.len() {
        let under = ahead.take_next(links);
        let joined = exchange(ring, &under, work, first);
        work.take_answers(first, &joined);
        first += joined.count();
    }
}

/// One cycle over a ring: each frame of the work travels under the ring's own links, copy A first, and the
/// work takes the joined answers: data, working counters and the ADP of broadcast reads. It always succeeds.
///
/// On a line and for items that the mapping checker accepts, with at most one link down, the work and the
/// slaves are afterwards those of the cycle over slaves that are known by their stations alone
/// (`order_free`): neither the order of the slaves nor the break shows. With more links down they are those
/// of that cycle over the slaves that a copy reaches (`reached`), and the others are as before (`unreached`).
///
/// With at most one link down the work then has each input that a slave maps and an item reads, as it was
/// before the cycle (`inputs_stand`), and each slave's application is shown, for each output that it maps,
/// the bit that the master sent last (`outputs_are_shown`), where the items cover the line (`ec_map`,
/// `first_uncovered` and `first_not_shown` find nothing) and none is an addressed write to its station.
///
/// A line is checked once: behind the cycle it accepts the work again, also with other data (`again`, of any
/// items that ask the same), and what is expected of each counter is as it was (`still_expected`).
pub fn ring_cycle<T: Travel>(ring: &mut T, work: &mut Work)
    ensures order_free { AtMostOneDown (T.ring ring.old) → IsAccepted (T.ring ring.old).slaves work.old
        → IsCycle (by_station (T.ring ring.old).slaves) work.old work.new
        (by_station (T.ring ring.new).slaves) }
    ensures reached { IsAccepted (T.ring ring.old).slaves work.old
        → IsCycle (by_station (reached (T.ring ring.old))) work.old work.new
        (by_station (reached (T.ring ring.new))) }
    ensures unreached { IsAccepted (T.ring ring.old).slaves work.old
        → unreached (T.ring ring.new) ≡ unreached (T.ring ring.old) }
    ensures places { IsAccepted (T.ring ring.old).slaves work.old
        → map station (T.ring ring.new).slaves ≡ map station (T.ring ring.old).slaves }
    ensures inputs_stand { AtMostOneDown (T.ring ring.old) → IsAccepted (T.ring ring.old).slaves work.old
        → InputsStand (T.ring ring.old).slaves work.old work.new }
    ensures outputs_are_shown { AtMostOneDown (T.ring ring.old)
        → IsAccepted (T.ring ring.old).slaves work.old
        → IsCovered (controllers (T.ring ring.old).slaves) work.old
        → AreShown (controllers (T.ring ring.old).slaves) work.old
        → OutputsAreShown (T.ring ring.old).slaves work.old (T.ring ring.new).slaves }
    ensures links { (T.ring ring.new).links ≡ (T.ring ring.old).links }
    ensures frames { work.new ≡ with_answers work.old (answers_under [] (T.ring ring.old) work.old) }
    ensures ring { T.ring ring.new ≡ ring_under [] (T.ring ring.old) work.old }
    ensures asks_the_same { IsAccepted (T.ring ring.old).slaves work.old → AskTheSame work.old work.new }
    ensures again { (others : List ItemRecord) → IsAccepted (T.ring ring.old).slaves work.old
        → AskTheSame work.old others → IsAccepted (T.ring ring.new).slaves others }
    ensures still_expected { (others : List ItemRecord) → IsAccepted (T.ring ring.old).slaves work.old
        → AllByRecursion IsItem others → AskTheSame work.old others
        → map (expected_of (line_of (T.ring ring.new))) others
        ≡ map (expected_of (line_of (T.ring ring.old))) work.old }
{
    work.are_items();
    fit_line();
    travel(ring, &[], work);
}
