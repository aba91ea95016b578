//! The laws of lines that are served, each the contract of a function that does nothing.

ghost use Rattle.std.specs.List.{AllByRecursion};
ghost use Rattle.std.specs.Prelude.{◌≡◌, ◌≤◌, ℕ, Bool, false, List, [], ◌∷◌, ◌++◌, length, map, Some, Result};
ghost use Rattle.std.specs.Option.{option_map};
ghost use Rattle.ec_wire.specs.Datagram.{DatagramRecord};
ghost use Rattle.ec_esc.specs.State.{ControllerState, IsController};
ghost use Rattle.ec_line.specs.After.{Entry};
ghost use Rattle.ec_line.specs.Answered.{sent_of};
ghost use Rattle.ec_line.specs.Moving.{Visit};
ghost use Rattle.ec_map.specs.Item.{ItemRecord};
ghost use Rattle.ec_map.specs.Share.{expected_of};
ghost use Rattle.ec_ring.specs.Ring.{RingState, line_of};
ghost use Rattle.ec_ring.specs.Travel.{travelled, trip_of};
ghost use Rattle.ec_ring.specs.Walk.{is_circulating};
ghost use Rattle.ec_ring.specs.declared.links.TheConstants.{MAX_SLAVES};
ghost use Rattle.ec_ring.specs.declared.port.Port.{Port};
ghost use Rattle.ec_ring.specs.declared.port.PortFault.{PortFault};
ghost use Rattle.ec_ring.specs.declared.weather.Weather.{Weather};
ghost use Rattle.ec_seal.specs.Moving.{moving_back};
ghost use Rattle.ec_applications.specs.State.{ApplicationsState};
ghost use Rattle.ec_master.specs.Cut.{frames_of};
ghost use Rattle.ec_master.specs.Given.{AllThatCame};
ghost use Rattle.ec_master.specs.Moments.{SaysOfEachMoving, SaysOfMoving};
ghost use Rattle.ec_master.specs.Unordered.{IsAccepted};
ghost use Rattle.ec_master.specs.declared.cycle.CycleFault.{CycleFault};
ghost use Rattle.ec_master.specs.declared.verdict.Verdict.{Verdict};
ghost use Rattle.ecat_remote.specs.Network.{TakesAll};
ghost use Rattle.ecat_remote.specs.Trips.{RemoteState};
ghost use Rattle.ecat_serve.specs.Answering.{spared};
ghost use Rattle.ecat_serve.specs.Rounds.{IsAnswered, IsDropped, Serving};
ghost use Rattle.ecat_serve.specs.State.{spoken};
ghost use Rattle.ecat_serve.specs.declared.ends.Arrived.{Arrived};
ghost use Rattle.ecat_serve.specs.declared.served.Round.{Round};
ghost use Rattle.ecat_served.specs.Acting.{StaysSound, once_acted};
ghost use Rattle.ecat_served.specs.Cycles.{AreAllMetOn, AreServedTrips, IsServedCycle, IsVisitedCycle};
ghost use Rattle.ecat_served.specs.Cycles.{came_on_each, packets_of};
ghost use Rattle.ecat_served.specs.History.{IsHistory, Packet, walk_of};
ghost use Rattle.ecat_served.specs.Network.{BothTaken, IsGivenCycle, IsSealedCycle, LineGaveAll};
ghost use Rattle.ecat_served.specs.Network.{SaysOfServed};
ghost use Rattle.ecat_served.specs.Serving.{IsSound, packet_at, ring_walked};
ghost use Rattle.ecat_served.specs.Trips.{IsListening, IsQuiet, IsServedTrip, IsVisited, Sent, Traffic};
ghost use Rattle.ecat_served.specs.Trips.{came_from, came_moving, came_served, plain, sealed};

use ec_applications::promises::{
    acting_leaves, behind_leaves, moves_between_passages, serving_moves_slaves,
    telling_moves_slaves,
};
use ec_seal::numbers_go_through_moving;
use ecat_remote::{Carrier, a_good_is_of_its_cycle};
use ecat_serve::Ends;

/// Histories of a line are put end to end (`joined`) and cut behind any packet (`cut`). A packet that leaves
/// the line as it met it is quiet (`unmoved`), as one is that only listens, by NOPs and logical reads
/// (`listening`): it may lie between the copies of a trip. So may whatever the slaves of `ecat_serve` do
/// behind a packet, each its step, and then applications and EEPROMs (`acts`).
pub fn histories_go_on()
    ensures joined { (line between later : List ControllerState) (ps qs : List Packet)
        → IsHistory line ps between → IsHistory between qs later → IsHistory line (ps ++ qs) later }
    ensures cut { (line later : List ControllerState) (ps qs : List Packet) → IsHistory line (ps ++ qs) later
        → (between : List ControllerState) × IsHistory line ps between × IsHistory between qs later }
    ensures unmoved { (p : Packet) → (walk_of p).line ≡ p.met → IsQuiet p }
    ensures listening { (p : Packet) → AllByRecursion IsController p.met → IsListening p.frame → IsQuiet p }
    ensures acts { (s : ApplicationsState) (r : RingState) → StaysSound s r
        → IsHistory (line_of r) [] (line_of (once_acted s r)) }
{
    acting_leaves();
    behind_leaves();
    moves_between_passages();
    serving_moves_slaves();
}

/// A packet that `ecat_serve` answers is one more of a line's history: it meets the line once its slaves were
/// told of who speaks, walks under the links that are served, and then the slaves act (`answered`). What
/// leaves an end is what its walk gave, unless it was lost there (`sent`). One that is dropped is none of it,
/// and the slaves act all the same (`dropped`).
pub fn serving_makes_a_history<E: Ends>()
    ensures answered { (arrived : Arrived) (packet : List ℕ) (before later : Serving E)
        (result : Result Round PortFault) (answered : IsAnswered E.sends arrived packet before result later)
        → let heard = spoken before.line arrived.at arrived.from in
        let p = packet_at heard arrived.at answered.frame answered.walks.links
        in IsSound before.line (ring_walked heard p)
        → IsHistory (line_of before.line.ring) (p ∷ []) (line_of later.line.ring) }
    ensures sent { (arrived : Arrived) (packet : List ℕ) (before later : Serving E)
        (result : Result Round PortFault) (answered : IsAnswered E.sends arrived packet before result later)
        → let heard = spoken before.line arrived.at arrived.from in
        let p = packet_at heard arrived.at answered.frame answered.walks.links
        in (lost : Bool)
        × (option_map (λ (x : List DatagramRecord × Port). x.0) (spared answered.walked answered.arrival)
        ≡ came_from lost (Some p)) }
    ensures dropped { (packet : List ℕ) (before later : Serving E) (result : Result Round PortFault)
        → IsDropped packet before result later → IsSound before.line before.line.ring
        → IsHistory (line_of before.line.ring) [] (line_of later.line.ring) }
{
    acting_leaves();
    behind_leaves();
    moves_between_passages();
    serving_moves_slaves();
    telling_moves_slaves();
}

/// A trip on a line that is served, whose slaves act behind every packet and not while one walks, is a trip
/// over a line that moves: whichever copy came first, if they came, and whatever quiet packets lay between.
/// Each copy met each slave as it was when its packet came, and what the line gave back is what such a trip
/// gives (`plain`); so it is of copies that go out under their numbers (`numbered`). Each trip of a ring
/// (`ec_ring::Ring::trip`) is one on such a line, at which nobody acts and to which nobody else speaks
/// (`still`).
pub fn a_trip_on_a_served_line()
    ensures plain { (f : List Entry) (w : Weather) (line later : List ControllerState) (got : Traffic)
        → is_circulating (sent_of f) ≡ false → IsServedTrip (plain f) w line got later
        → (vs : List Visit) × IsVisited (trip_of w f (length line)) line got later vs
        × (came_served w got ≡ came_moving (trip_of w f (length line)) vs) }
    ensures numbered { (n : ℕ) (f : List Entry) (w : Weather) (line later : List ControllerState)
        (got : Traffic) → is_circulating (sent_of f) ≡ false → IsServedTrip (sealed n f) w line got later
        → (vs : List Visit) × IsVisited (trip_of w f (length line)) line got later vs
        × (came_served w got ≡ moving_back n (trip_of w f (length line)) vs) }
    ensures still { (f : List Entry) (w : Weather) (line : List ControllerState)
        → AllByRecursion IsController line
        → (got : Traffic) × IsServedTrip (plain f) w line got (travelled w (sent_of f) line).line
        × (came_served w got ≡ (travelled w (sent_of f) line).came) }
{
    numbers_go_through_moving();
}

/// Trips that follow one another on a served line are one history (`history`). A cycle of such trips is one
/// over a line that moves, and what the line gave back is what its trips give (`moving`). So the end of such
/// a cycle says of the ring what it says of one that moves, at the moments at which the cycle's own packets
/// met its slaves (`says`).
pub fn a_cycle_on_a_served_line()
    ensures history { (sents : List Sent) (ws : List Weather) (gots : List Traffic)
        (line later : List ControllerState) → AreServedTrips sents ws gots line later
        → IsHistory line (packets_of gots) later }
    ensures moving { (ws : List Weather) (r : RingState) (items : List ItemRecord) (gots : List Traffic)
        (later : List ControllerState) → IsServedCycle ws r items gots later
        → (runs : List (List Visit)) × IsVisitedCycle ws r items gots later runs }
    ensures says { (ws : List Weather) (r : RingState) (items : List ItemRecord) (expected : List ℕ)
        (gots : List Traffic) (later : List ControllerState) (result : Result Verdict CycleFault)
        (items_later : List ItemRecord) → length r.slaves ≤ MAX_SLAVES → IsAccepted r.slaves items
        → expected ≡ map (expected_of (line_of r)) items → IsServedCycle ws r items gots later
        → SaysOfEachMoving items expected (came_on_each ws gots) result items_later
        → (runs : List (List Visit)) × AreAllMetOn gots runs
        × SaysOfMoving ws r items runs result items_later }
{}

/// What a Good of a master on `ecat serve` says. Over a net that gives packets whenever and as often as it
/// will, of a cycle whose numbered frames come to a served line one trip after the other: where what was
/// taken and bears a number of its trip is what that line made of a copy of the trip, the cycle is one over a
/// line that moves, and the net gave of it what was taken (`gave`). So the end of the cycle says of the line
/// all that it says of one that moves, with no premise on how its slaves do (`says`).
pub fn a_good_on_a_served_line<C: Carrier>()
    ensures gave { (n : ℕ) (ws : List Weather) (r : RingState) (items : List ItemRecord) (gots : List Traffic)
        (later : List ControllerState) (taken : List BothTaken) → IsSealedCycle n ws r items gots later
        → LineGaveAll n ws gots taken
        → (runs : List (List Visit)) × IsGivenCycle n ws r items gots later taken runs }
    ensures says { (before after : RemoteState C) (ws : List Weather) (r : RingState)
        (items : List ItemRecord) (expected : List ℕ) (gots : List Traffic) (later : List ControllerState)
        (taken : List BothTaken) (came : AllThatCame) (result : Result Verdict CycleFault)
        (items_later : List ItemRecord)
        → length r.slaves ≤ MAX_SLAVES → IsAccepted r.slaves items
        → expected ≡ map (expected_of (line_of r)) items
        → SaysOfEachMoving items expected came result items_later
        → TakesAll C.gives C.heard before (map sent_of (frames_of items)) taken came after
        → IsSealedCycle before.next ws r items gots later → LineGaveAll before.next ws gots taken
        → SaysOfServed ws r items gots later taken result items_later }
{
    numbers_go_through_moving();
    a_good_is_of_its_cycle::<C>();
}
