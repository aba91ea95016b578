//! That a good cycle is of its own copies, each law the contract of a function that does nothing.

ghost use Rattle.std.specs.Prelude.{◌≡◌, ◌≢◌, ◌≤◌, ◌<◌, ◌+◌, ◌^◌, ◌⊎◌, ℕ, false, List, [], ◌∷◌};
ghost use Rattle.std.specs.Prelude.{◌++◌, length, map, Result, Ok};
ghost use Rattle.std.specs.List.{AllByRecursion};
ghost use Rattle.ec_wire.specs.Datagram.{DatagramRecord};
ghost use Rattle.ec_esc.specs.State.{ControllerState, IsController};
ghost use Rattle.ec_line.specs.After.{Entry};
ghost use Rattle.ec_line.specs.Answered.{sent_of};
ghost use Rattle.ec_line.specs.Trip.{passed};
ghost use Rattle.ec_line.specs.Moving.{Visit};
ghost use Rattle.ec_map.specs.Item.{ItemRecord};
ghost use Rattle.ec_map.specs.Share.{expected_of};
ghost use Rattle.ec_ring.specs.Ring.{RingState, line_of};
ghost use Rattle.ec_ring.specs.Travel.{trip_of};
ghost use Rattle.ec_ring.specs.Walk.{is_circulating};
ghost use Rattle.ec_ring.specs.declared.links.TheConstants.{MAX_SLAVES};
ghost use Rattle.ec_ring.specs.declared.port.PortFault.{PortFault};
ghost use Rattle.ec_ring.specs.declared.weather.Came.{Came};
ghost use Rattle.ec_ring.specs.declared.weather.Weather.{Weather};
ghost use Rattle.ec_seal.specs.Taken.{losing};
ghost use Rattle.ec_seal.specs.Trips.{numbered_trip};
ghost use Rattle.ec_master.specs.Cut.{frames_of};
ghost use Rattle.ec_master.specs.Given.{AllThatCame};
ghost use Rattle.ec_master.specs.Moments.{IsMovingCycle, SaysOfEachMoving, SaysOfMoving};
ghost use Rattle.ec_master.specs.Suffice.{Brings, GivenBy, SaysOfEach};
ghost use Rattle.ec_master.specs.Unordered.{IsAccepted};
ghost use Rattle.ec_master.specs.declared.cycle.CycleFault.{CycleFault};
ghost use Rattle.ec_master.specs.declared.verdict.Verdict.{Verdict};
ghost use Rattle.ecat_remote.specs.History.{PastTrip, IsPast, Went};
ghost use Rattle.ecat_remote.specs.Moving.{NetworkGaveMoving, losing_each};
ghost use Rattle.ecat_remote.specs.Network.{AreAllTaken, Gave, IsGivenBy, IsOfCycle, NetworkGaveAll};
ghost use Rattle.ecat_remote.specs.Network.{NoneFailed, Takes, TakesAll, by_number, pasts_of};
ghost use Rattle.ecat_remote.specs.Trips.{RemoteState, RemoteTrips, HeardCopies, IsTurn, HasRoom};
ghost use Rattle.ecat_remote.specs.declared.enough.Both.{Both};

use crate::carrier::Carrier;

/// No number is given twice: over any history of fewer than 2^63 trips (`Went`: cycles, probes, looks, trips
/// that failed) no trip has the number of an earlier one (`fresh`). Each trip of ports is one of such a
/// history, or its frame had no room for a number and nothing has changed (`is`). Histories can be joined
/// (`more`).
pub fn no_number_is_given_twice<C: Carrier>()
    ensures is { (before later : RemoteState C) (sent : List DatagramRecord) (came : Result Came PortFault)
        → RemoteTrips C.gives C.heard before sent came later
        → (later ≡ before) ⊎ IsPast before (record { number = before.next; frame = sent }) later }
    ensures more { (first before later : RemoteState C) (past more : List PastTrip) → Went first past before
        → Went before more later → Went first (past ++ more) later }
    ensures fresh { (first before : RemoteState C) (past : List PastTrip) → length past < 2 ^ 63
        → Went first past before → AllByRecursion (λ p. p.number ≢ before.next) past }
{}

/// What came of a trip over a network that gives whatever it will, where what bears a number of this trip is
/// one of its two copies, is what a trip of the frame itself gives that loses what was not taken (`given`),
/// and the line behind both is the same (`line`).
pub fn a_trip_is_its_own<C: Carrier>()
    ensures given { (before later : RemoteState C) (es : List Entry) (both : Both) (came : Came) (w : Weather)
        (line : List ControllerState) → AllByRecursion IsController line
        → is_circulating (sent_of es) ≡ false
        → Takes C.gives C.heard before (sent_of es) both came later
        → Gave (record { number = before.next; frame = sent_of es; weather = w; line = line })
        (by_number both)
        → GivenBy (trip_of (losing (by_number both) w) es (length line)) line (Ok came) }
    ensures line { (before later : RemoteState C) (es : List Entry) (w : Weather)
        (line : List ControllerState) (taken : Came) → AllByRecursion IsController line
        → is_circulating (sent_of es) ≡ false → IsTurn before (sent_of es) later
        → (numbered_trip before.next w (sent_of es) line).line
        ≡ (passed (trip_of (losing taken w) es (length line)) line).line }
{}

/// A good cycle is of its own copies. On the trips of a cycle of which none failed copies were taken
/// (`taken`; `watched`: so it is where it is known of each where it arrived, as of a running master). Over
/// the line of a ring, and whatever the network gave, late, doubled, mixed up, of earlier trips, of earlier
/// runs or of other masters: where what bears a number of a trip is one of the trip's two copies, the ring's
/// own trips in some weathers give what came (`given`), so the end of the cycle says of the ring all that a
/// cycle over it says in these weathers (`says`; `says_moving`: of one that moves while the frames travel). A
/// good verdict is of this cycle. Where all frames went out, the ring behind that cycle is the one that is
/// left (`left`). The cycle's trips are a history, so no earlier trip has their numbers (`past`).
pub fn a_good_is_of_its_cycle<C: Carrier>()
    ensures taken { (before later : RemoteState C) (frames : List (List DatagramRecord)) (came : AllThatCame)
        → NoneFailed came → AllByRecursion HasRoom frames
        → Brings (RemoteTrips C.gives C.heard) before frames came later
        → AreAllTaken C.gives C.heard before frames came later }
    ensures watched { (before later : RemoteState C) (frames : List (List DatagramRecord))
        (came : AllThatCame) → NoneFailed came → AllByRecursion HasRoom frames
        → Brings (HeardCopies C.gives C.heard) before frames came later
        → AreAllTaken C.gives C.heard before frames came later }
    ensures past { (before later : RemoteState C) (frames : List (List DatagramRecord))
        (taken : List Both) (came : AllThatCame)
        → TakesAll C.gives C.heard before frames taken came later
        → Went before (pasts_of before.next frames taken) later }
    ensures given { (before later : RemoteState C) (r : RingState) (items : List ItemRecord)
        (taken : List Both) (came : AllThatCame) (behind : List ControllerState)
        → AllByRecursion IsController (line_of r)
        → TakesAll C.gives C.heard before (map sent_of (frames_of items)) taken came later
        → NetworkGaveAll before.next (line_of r) (map sent_of (frames_of items)) taken behind
        → IsGivenBy r items came behind }
    ensures says { (before later : RemoteState C) (r : RingState) (items : List ItemRecord)
        (expected : List ℕ) (taken : List Both) (came : AllThatCame) (behind : List ControllerState)
        (result : Result Verdict CycleFault) (items_later : List ItemRecord)
        → length r.slaves ≤ MAX_SLAVES → IsAccepted r.slaves items
        → expected ≡ map (expected_of (line_of r)) items
        → SaysOfEach items expected came result items_later
        → TakesAll C.gives C.heard before (map sent_of (frames_of items)) taken came later
        → NetworkGaveAll before.next (line_of r) (map sent_of (frames_of items)) taken behind
        → IsOfCycle r items came behind result items_later }
    ensures says_moving { (before later : RemoteState C) (r : RingState) (items : List ItemRecord)
        (expected : List ℕ) (ws : List Weather) (runs : List (List Visit)) (taken : List Both)
        (came : AllThatCame) (result : Result Verdict CycleFault) (items_later : List ItemRecord)
        → length r.slaves ≤ MAX_SLAVES → IsAccepted r.slaves items → IsMovingCycle ws r items runs
        → expected ≡ map (expected_of (line_of r)) items
        → SaysOfEachMoving items expected came result items_later
        → TakesAll C.gives C.heard before (map sent_of (frames_of items)) taken came later
        → NetworkGaveMoving before.next (length r.slaves) (frames_of items) ws runs taken
        → SaysOfMoving (losing_each taken ws) r items runs result items_later }
{}
