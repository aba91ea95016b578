//! The laws of a ring, each the contract of a function that does nothing.

ghost use Rattle.std.specs.Prelude.{◌≡◌, ℕ, ◌<◌, ◌≤◌, ◌↔◌, true, false, None, List, length};
ghost use Rattle.ec_wire.specs.Datagram.{DatagramRecord};
ghost use Rattle.ec_esc.specs.State.{ControllerState};
ghost use Rattle.ec_line.specs.After.{Entry};
ghost use Rattle.ec_line.specs.Answered.{sent_of};
ghost use Rattle.ec_line.specs.Trip.{passed};
ghost use Rattle.ec_ring.specs.Links.{AreUp, IsOnlyDown, is_whole};
ghost use Rattle.ec_ring.specs.Reach.{front, back, ReachesA, ReachesB, arrival_a, arrival_b};
ghost use Rattle.ec_ring.specs.Ring.{RingState, line_of, with_line};
ghost use Rattle.ec_ring.specs.Travel.{travelled, trip_of, as_trip};
ghost use Rattle.ec_ring.specs.Walk.{is_circulating};
ghost use Rattle.ec_ring.specs.declared.links.Links.{Links};
ghost use Rattle.ec_ring.specs.declared.weather.Weather.{Weather};

/// The slaves that a copy passes are those that it reaches over links that are up; and a line is whole
/// where all its links are up.
pub fn reach()
    ensures a { (links : Links) (n x : ℕ) → x < n → (x < front links n) ↔ ReachesA links x }
    ensures b { (links : Links) (n x : ℕ) → x < n → (back links n ≤ x) ↔ ReachesB links n x }
    ensures whole { (links : Links) (n : ℕ) → (is_whole links n ≡ true) ↔ AreUp links 0 n }
{}

/// Under the same links no slave is passed by both copies; and each by one, where at most one link is down.
pub fn same_links()
    ensures apart { (links : Links) (n : ℕ) → front links n ≤ back links n }
    ensures one_down { (links : Links) (n k : ℕ) → IsOnlyDown links n k → front links n ≡ back links n }
{}

/// A copy that cannot start over its first link is processed by nobody.
pub fn lost_by_links()
    ensures a { (links : Links) (n : ℕ) → arrival_a links n ≡ None → front links n ≡ 0 }
    ensures b { (links : Links) (n : ℕ) → arrival_b links n ≡ None → back links n ≡ n }
{}

/// A trip leaves as many controllers as there were. Those that a ring is given are its line, and others stand
/// in their place.
pub fn line_lasts()
    ensures size { (w : Weather) (sent : List DatagramRecord) (line : List ControllerState)
        → length (travelled w sent line).line ≡ length line }
    ensures line { (r : RingState) (line : List ControllerState) → length line ≡ length r.slaves
        → line_of (with_line r line) ≡ line }
    ensures again { (r : RingState) (line later : List ControllerState) → length line ≡ length later
        → with_line (with_line r line) later ≡ with_line r later }
{}

/// A trip of a frame whose first circulating bit is not set is one over pieces of the line: the first ones
/// for copy A, the last ones for copy B.
pub fn trip_passes()
    ensures { (w : Weather) (es : List Entry) (line : List ControllerState)
        → is_circulating (sent_of es) ≡ false → let t = trip_of w es (length line)
        in travelled w (sent_of es) line ≡ as_trip t (passed t line) }
{}
