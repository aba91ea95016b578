//! What the calls in their order come to, each promise the contract of a function that does nothing.

ghost use Rattle.std.specs.Prelude.{◌≡◌, ◌↔◌, ◌≤◌, ◌<◌, ◌^◌, ℕ, Bool, List, [], ◌∷◌, map, length};
ghost use Rattle.std.specs.Prelude.{Ok, Some, None};
ghost use Rattle.std.specs.List.{AllByRecursion};
ghost use Rattle.ec_wire.specs.Datagram.{DatagramRecord};
ghost use Rattle.ec_wire.specs.Fault.{IsSpelt};
ghost use Rattle.ec_wire.specs.Spelling.{spelling};
ghost use Rattle.ec_wire.specs.declared.fault.Form.{Form};
ghost use Rattle.ec_esc.specs.State.{ControllerState};
ghost use Rattle.ec_esc.specs.declared.counting.TheConstants.{MOST_CONTROLLERS};
ghost use Rattle.ec_line.specs.Mapping.{mapping};
ghost use Rattle.ec_check.specs.Fit.{IsFit};
ghost use Rattle.ec_map.specs.Covered.{IsGap};
ghost use Rattle.ec_map.specs.Item.{IsItem};
ghost use Rattle.ec_map.specs.NotShown.{IsNotShown};
ghost use Rattle.ec_map.specs.Place.{IsPlaced, IsPlaceFault};
ghost use Rattle.ec_map.specs.Share.{expected_of};
ghost use Rattle.ec_map.specs.declared.covered.Gap.{Gap};
ghost use Rattle.ec_map.specs.declared.not_shown.NotShown.{NotShown};
ghost use Rattle.ec_map.specs.declared.place.PlaceFault.{PlaceFault};
ghost use Rattle.ec_ring.specs.Arrivals.{arrivals_of};
ghost use Rattle.ec_ring.specs.declared.port.Port.TheVariants.{A, B};
ghost use Rattle.ec_ring.specs.declared.weather.Came.{Came};
ghost use Rattle.ec_ring.specs.declared.weather.Weather.{Weather};
ghost use Rattle.ec_diag.specs.Heard.{IsProbe};
ghost use Rattle.ec_diag.specs.Located.{Tells};
ghost use Rattle.ec_master.specs.Cut.{concat};
ghost use Rattle.ec_master.specs.Ports.{IsPortCycle};
ghost use Rattle.ec_master.specs.Rounds.{round_counter, AreRecent, AreOfRound};
ghost use Rattle.ec_master.specs.Given.{in_turn};
ghost use Rattle.ec_master.specs.Moments.{SaysOfEachMoving};
ghost use Rattle.ec_master.specs.Suffice.{SaysOfEach};
ghost use Rattle.ec_master.specs.Work.{with_answers};
ghost use Rattle.ec_master.specs.declared.verdict.Verdict.TheVariants.{Good};
ghost use Rattle.ec_merge.specs.Frames.{IsOwn};
ghost use Rattle.ec_number.specs.Number.{CameUnder, opened, with_number};
ghost use Rattle.rummymaple.specs.Cable.{AreHeard, IsArrival};
ghost use Rattle.rummymaple.specs.Calls.{AreGoodCalls, AreJoinedBytes, AreStoredBytes};
ghost use Rattle.rummymaple.specs.Join.{IsPut};
ghost use Rattle.rummymaple.specs.Numbered.{IsOpened};
ghost use Rattle.rummymaple.specs.Turn.{Held};
ghost use Rattle.rummymaple.specs.Numbers.{form_of};
ghost use Rattle.rummymaple.specs.Copies.{AreGiven, Packets};
ghost use Rattle.rummymaple.specs.Turns.{AreGoodTurns, AreTurns};
ghost use Rattle.rummymaple.specs.Cycle.{AreCalls, AreGood, as_ports_give};
ghost use Rattle.rummymaple.specs.Image.{AreStored, HasAnswers};
ghost use Rattle.rummymaple.specs.Asked.{request, requests};
ghost use Rattle.rummymaple.specs.Items.{asked, refusal, AreTaken};
ghost use Rattle.rummymaple.specs.Mapping.{line_of};
ghost use Rattle.rummymaple.specs.ReadBack.{AreOfLine};
ghost use Rattle.rummymaple.specs.declared.cable.Cable.{Cable};
ghost use Rattle.rummymaple.specs.declared.item.Item.{Item};
ghost use Rattle.rummymaple.specs.declared.open.OpenEnd.TheVariants.{Opened};
ghost use Rattle.ec_check.specs.declared.records.Records.{Records};

use ec_diag::promises::trips_are_heard;
use ec_master::certificate::frames_suffice;
use ec_master::moments::good_at_one_moment;
use ec_number::numbers_are_apart;
use ec_wire::one_spelling;

/// Calls in their order are a cycle over ports that give what came: where each frame is made behind the one
/// before it, what came back of it is joined, and the verdict on each is good, so is that of `run_cycle`
/// (`cycle`). So all that a good cycle says of a ring holds of each ring that would have given what came
/// (`says`), and of each that moves meanwhile what a good cycle says of such a one: for each slave and frame
/// one moment (`says_moving`). Where each item went out with the counter of round `k`, that is with `sent` at
/// 2,048 times `k` modulo 65,536, and is expected to gain less than 4,096, and every copy is of that round or
/// of one of the fifteen before it, the good cycle rests on no copy of an earlier one (`this_round`). Such
/// calls are those of which [`rmp_join`](crate::rmp_join) and [`rmp_judge`](crate::rmp_judge) say, by
/// whatever packets, that each frame is joined and good, where what was sent is what
/// [`rmp_frame`](crate::rmp_frame) made (`told`).
pub fn calls_are_a_cycle()
    ensures cycle { (items : List Item) (image : List ℕ) (came : List Came)
        (joined : List (List DatagramRecord))
        → AreCalls (map (asked image) items) 0 came joined → AreGood items 0 joined
        → IsPortCycle in_turn (as_ports_give came) (map (asked image) items) (map (λ i. i.expected) items)
        (Ok Good) (with_answers (map (asked image) items) (concat joined)) [] }
    ensures says { (items : List Item) (image : List ℕ) (came : List Came)
        (joined : List (List DatagramRecord))
        → AllByRecursion IsItem (map (asked image) items)
        → AreCalls (map (asked image) items) 0 came joined → AreGood items 0 joined
        → SaysOfEach (map (asked image) items) (map (λ i. i.expected) items) (as_ports_give came)
        (Ok Good) (with_answers (map (asked image) items) (concat joined)) }
    ensures says_moving { (items : List Item) (image : List ℕ) (came : List Came)
        (joined : List (List DatagramRecord))
        → AllByRecursion IsItem (map (asked image) items)
        → AreCalls (map (asked image) items) 0 came joined → AreGood items 0 joined
        → SaysOfEachMoving (map (asked image) items) (map (λ i. i.expected) items) (as_ports_give came)
        (Ok Good) (with_answers (map (asked image) items) (concat joined)) }
    ensures this_round { (k : ℕ) (items : List Item) (image : List ℕ) (came : List Came)
        (joined : List (List DatagramRecord))
        → AreCalls (map (asked image) items) 0 came joined → AreGood items 0 joined
        → AllByRecursion (λ (i : Item). i.sent ≡ round_counter k) items
        → AllByRecursion (λ (i : Item). i.expected < 4096) items
        → AllByRecursion (AreRecent k) (as_ports_give came)
        → AllByRecursion (AreOfRound k) (as_ports_give came) }
    ensures told { (form : Form) (items later : List Item) (image : List ℕ) (packets : List Packets)
        (bytes : List (List ℕ)) → AreGoodCalls form image items 0 packets bytes later
        → (came : List Came) × (joined : List (List DatagramRecord))
        × AreGiven form packets came × AreJoinedBytes bytes joined
        × AreCalls (map (asked image) items) 0 came joined × AreGood items 0 joined
        × (map (asked image) later ≡ map (asked image) items) }
{
    one_spelling();
    frames_suffice();
    good_at_one_moment();
}

/// What is told of the cable is so: over any line of controllers, fit or not, where the sent frame is a
/// broadcast read of registers and no more, and each packet that spells a frame is a copy of one trip that
/// arrived at the port where it is said to have come, both of them under the same links.
pub fn what_is_told_is_so()
    ensures { (form : Form) (sent a b : List ℕ) (cable : Cable) (w : Weather) (line : List ControllerState)
        (d : DatagramRecord) (heard : AreHeard form sent a b (length line) cable)
        → heard.frame ≡ d ∷ [] → IsProbe d → length line ≤ MOST_CONTROLLERS → w.a ≡ w.b
        → IsArrival form A a (arrivals_of w (d ∷ []) line) → IsArrival form B b (arrivals_of w (d ∷ []) line)
        → Tells heard.located w.a (length line) }
{
    trips_are_heard();
}

/// Turns of a cycle from its first item on, of which each frame is made behind the one before it, and what
/// came back of it is joined and judged good, are calls in their order (`calls`), and so a good cycle over
/// ports that give what came (`cycle`). Such turns are those of which
/// [`rmp_cycle_came`](crate::rmp_cycle_came) says, of whatever packets, that they are good, where what was
/// sent is what [`rmp_cycle_next`](crate::rmp_cycle_next) made: a port gives the frame that a packet spells,
/// and of a packet that spells none nothing (`packets`).
pub fn turns_are_a_cycle()
    ensures packets { (form : Form) (h later : Held) (packets : List Packets)
        → form_of h.cycle.form ≡ Some form → AreGoodTurns form h packets later
        → (came : List Came) × (joined : List (List DatagramRecord))
        × AreGiven form packets came × AreTurns h came joined later }
    ensures calls { (h later : Held) (came : List Came) (joined : List (List DatagramRecord))
        → AreTurns h came joined later → h.cycle.first ≡ 0
        → AreCalls (map (asked h.image) h.items) 0 came joined × AreGood h.items 0 joined }
    ensures cycle { (h later : Held) (came : List Came) (joined : List (List DatagramRecord))
        → AreTurns h came joined later → h.cycle.first ≡ 0
        → IsPortCycle in_turn (as_ports_give came) (map (asked h.image) h.items)
        (map (λ i. i.expected) h.items) (Ok Good)
        (with_answers (map (asked h.image) h.items) (concat joined)) [] }
{
    one_spelling();
    calls_are_a_cycle();
}

/// The image has the answers of the items, and nothing else: where the calls in their order cover the items
/// and each joined frame is stored, over whatever image, each item that reads, and into whose place no
/// later item reads, has in its place the data that the work of `run_cycle` takes; of places that overlap
/// the last item that reads prevails; and every other byte is as it was (`stored`). Each joined frame is so
/// where [`rmp_store`](crate::rmp_store) says it of the bytes that spell it (`bytes`). So does the image of
/// a cycle by turns behind its last frame, whatever waited before it (`taken`), and that of a cycle of
/// which [`rmp_cycle_came`](crate::rmp_cycle_came) says that each turn is good, by whatever packets
/// (`told`).
pub fn image_has_the_answers()
    ensures stored { (items : List Item) (image before later : List ℕ) (came : List Came)
        (joined : List (List DatagramRecord))
        → AreCalls (map (asked image) items) 0 came joined → AreStored items 0 joined before later
        → HasAnswers items (with_answers (map (asked image) items) (concat joined)) before later }
    ensures bytes { (items : List Item) (before later : List ℕ) (bytes : List (List ℕ))
        (joined : List (List DatagramRecord)) → AreJoinedBytes bytes joined
        → AreStoredBytes items 0 bytes joined before later → AreStored items 0 joined before later }
    ensures taken { (h later : Held) (came : List Came) (joined : List (List DatagramRecord))
        → AreTurns h came joined later → h.cycle.first ≡ 0 → AreTaken (length h.image) h.items
        → length h.waiting ≡ length h.image
        → HasAnswers h.items (with_answers (map (asked h.image) h.items) (concat joined)) h.image
        later.image }
    ensures told { (form : Form) (h later : Held) (packets : List Packets)
        → form_of h.cycle.form ≡ Some form → h.cycle.first ≡ 0 → AreGoodTurns form h packets later
        → (came : List Came) × (joined : List (List DatagramRecord))
        × AreGiven form packets came × AreTurns h came joined later
        × HasAnswers h.items (with_answers (map (asked h.image) h.items) (concat joined)) h.image
        later.image }
{
    one_spelling();
    turns_are_a_cycle();
}

/// Records that are the bytes of the slaves' registers are mapped as the slaves' controllers are, so that
/// what is found of records that were read back holds of the line itself, as long as its mapping stays: a
/// line is fit exactly where its records are ([`rmp_check`](crate::rmp_check)); an item, with its data from
/// an image, goes where a cycle may not on the line exactly where it does by the records, at the slave that
/// they name (`outside`, [`rmp_check_item`](crate::rmp_check_item)); where it does not, and the records are
/// fit, the line adds to its counter what is expected by the records (`expected`,
/// [`rmp_expected`](crate::rmp_expected)); the same mapped bits are asked for by no item (`gaps`,
/// [`rmp_covered`](crate::rmp_covered)); and the same mapped areas of outputs are not shown whole (`areas`,
/// [`rmp_shown`](crate::rmp_shown)).
pub fn records_are_the_line()
    ensures mapping { (records : List Records) (line : List ControllerState) → AreOfLine records line
        → mapping (line_of records) ≡ mapping line }
    ensures fit { (records : List Records) (line : List ControllerState) → AreOfLine records line
        → IsFit (line_of records) → IsFit line }
    ensures unfit { (records : List Records) (line : List ControllerState) → AreOfLine records line
        → IsFit line → IsFit (line_of records) }
    ensures outside { (records : List Records) (line : List ControllerState) (image : List ℕ) (i : Item)
        (fault : PlaceFault) → AreOfLine records line → refusal (length image) i ≡ None
        → IsPlaceFault (line_of records) (request i) fault ↔ IsPlaceFault line (asked image i) fault }
    ensures expected { (records : List Records) (line : List ControllerState) (image : List ℕ) (i : Item)
        → AreOfLine records line → refusal (length image) i ≡ None → IsItem (asked image i)
        → IsFit (line_of records) → IsPlaced (line_of records) (request i)
        → expected_of (line_of records) (request i) ≡ expected_of line (asked image i) }
    ensures gaps { (records : List Records) (line : List ControllerState) (image : List ℕ)
        (items : List Item) (gap : Gap) → AreOfLine records line → AreTaken (length image) items
        → IsGap (line_of records) (requests items) gap ↔ IsGap line (map (asked image) items) gap }
    ensures areas { (records : List Records) (line : List ControllerState) (image : List ℕ)
        (items : List Item) (found : NotShown) → AreOfLine records line → AreTaken (length image) items
        → IsNotShown (line_of records) (requests items) found
        ↔ IsNotShown line (map (asked image) items) found }
{}

/// A packet opens under one number alone, and as what a join takes. What [`rmp_open`] opens under a number
/// came of no frame under another (`one`): so no copy of another trip is opened, however late and however
/// often it comes, as long as no number is used twice. What is put into the room spells a frame that is no
/// stranger to the sent one (`own`); of a packet in which the number stands behind what came of the frame,
/// turned round or not, it is what came (`told`).
///
/// [`rmp_open`]: crate::rmp_open
pub fn packets_open_under_one_number()
    ensures one { (form : Form) (m n : ℕ) (sent packet before later : List ℕ) (count : ℕ)
        (other copy : List DatagramRecord) → m < 2 ^ 64 → n < 2 ^ 64
        → IsOpened (Some form) m sent packet before (Opened count) later
        → IsSpelt form packet copy → CameUnder n other copy → m ≡ n }
    ensures own { (form : Form) (n : ℕ) (sent packet before later : List ℕ) (count : ℕ)
        (frame copy : List DatagramRecord) → IsSpelt form sent frame → IsSpelt form packet copy
        → IsOpened (Some form) n sent packet before (Opened count) later
        → IsOwn frame (opened copy) × IsPut (spelling (opened copy)) before count later }
    ensures told { (form : Form) (n : ℕ) (sent packet before later : List ℕ) (count : ℕ) (turned : Bool)
        (came : List DatagramRecord) → IsSpelt form packet (with_number turned n came)
        → IsOpened (Some form) n sent packet before (Opened count) later
        → IsPut (spelling came) before count later }
{
    one_spelling();
    numbers_are_apart();
}
