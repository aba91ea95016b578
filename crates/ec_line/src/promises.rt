//! The laws of a line, each the contract of a function that does nothing.

ghost use Rattle.std.specs.Prelude.{◌≡◌, ◌≤◌, ◌<◌, ◌+◌, ◌*◌, ℕ, None};
ghost use Rattle.std.specs.Prelude.{Some, List, [], ◌∷◌, ◌++◌, ◌↔◌, length, map, false, slice_index};
ghost use Rattle.ec_regs.specs.Bits.{bit};
ghost use Rattle.std.specs.List.{AllByRecursion, Contains};
ghost use Rattle.ec_regs.specs.declared.registers.TheConstants.{PROCESS_MEMORY, PROCESS_MEMORY_SIZE};
ghost use Rattle.ec_wire.specs.Datagram.{DatagramRecord};
ghost use Rattle.ec_merge.specs.Frames.{IsOwn, joined_record};
ghost use Rattle.ec_areas.specs.Areas.{is_locked};
ghost use Rattle.ec_areas.specs.Records.{fmmus_of, sync_managers_of};
ghost use Rattle.ec_esc.specs.State.{ControllerState, IsController};
ghost use Rattle.ec_esc.specs.Pass.{pass};
ghost use Rattle.ec_line.specs.Accepted.{Accepts, AcceptsAll};
ghost use Rattle.ec_line.specs.After.{Entry, after, after_frame};
ghost use Rattle.ec_line.specs.Answered.{Answered, AnsweredFrame, sent_of};
ghost use Rattle.ec_line.specs.Answers.{Answers, AllAgree};
ghost use Rattle.ec_line.specs.Steady.{SameSteady};
ghost use Rattle.ec_line.specs.Claims.{claim, taken, gain};
ghost use Rattle.ec_line.specs.Fit.{IsFitAlone, IsFitLine, Reads, Writes};
ghost use Rattle.ec_wire.specs.declared.kind.Kind.TheVariants.{Lrd, Lwr, Lrw};
ghost use Rattle.ec_line.specs.Memory.{SameMemories};
ghost use Rattle.ec_line.specs.Mapping.{mapping_of};
ghost use Rattle.ec_line.specs.Moved.{AllMoved};
ghost use Rattle.ec_line.specs.Moving.{IsAlike, HasMoved};
ghost use Rattle.ec_line.specs.Request.{Request, OnWay};
ghost use Rattle.ec_line.specs.Run.{trips_run, TripsReady, AnsweredTrips, CountsWholeAll};
ghost use Rattle.ec_line.specs.Run.{after_trips, reached_trips, visited_trips, IsWholeTrip};
ghost use Rattle.ec_line.specs.Shown.{ShowsLastInRun, SameShownWhere, NoAreaTwice, ShowsLast};
ghost use Rattle.ec_line.specs.Trip.{Trip, line_pass, passed, returned};

use ec_esc::MOST_CONTROLLERS;

/// A pass, of any data that arrive, is the controller's answer, and leaves the controller after the item.
pub fn one_pass()
    ensures answered { (r : Request) (c : ControllerState) (d : DatagramRecord) → OnWay r d
        → Answered r (c ∷ []) d (pass c d).datagram }
    ensures left { (r : Request) (c : ControllerState) (d : DatagramRecord) → IsController c → Accepts r c
        → OnWay r d
        → (pass c d).state ≡ after r d.payload c }
{}

/// Steady bytes last through an accepted request, and with them what a controller claims, takes and counts,
/// its records, what it accepts, and that it is fit.
pub fn steady_lasts()
    ensures steady { (r : Request) (payload : List ℕ) (c : ControllerState) → IsController c → Accepts r c
        → SameSteady c (after r payload c) }
    ensures claims { (r : Request) (c later : ControllerState) (i : ℕ) → IsFitAlone c → Accepts r c
        → SameSteady c later
        → claim r later i ≡ claim r c i }
    ensures takes { (r : Request) (c later : ControllerState) → IsController c → SameSteady c later
        → taken r later ≡ taken r c }
    ensures gains { (r : Request) (c later : ControllerState) → IsController c → SameSteady c later
        → gain r later ≡ gain r c }
    ensures controller { (r : Request) (payload : List ℕ) (c : ControllerState) → IsController c
        → IsController (after r payload c) }
    ensures managers { (c later : ControllerState) → IsController c → SameSteady c later
        → sync_managers_of later.memory ≡ sync_managers_of c.memory }
    ensures fmmus { (c later : ControllerState) → IsController c → SameSteady c later
        → fmmus_of later.memory ≡ fmmus_of c.memory }
    ensures fit { (c later : ControllerState) → IsFitAlone c → IsController later → SameSteady c later
        → IsFitAlone later }
    ensures accepts { (r : Request) (c later : ControllerState) → IsController c → SameSteady c later
        → Accepts r c
        → Accepts r later }
{}

/// A set of controllers has at most one answer.
pub fn one_answer()
    ensures { (r : Request) (xs : List ControllerState) (sent got other : ℕ → ℕ)
        → Answers (claim r) xs sent got
        → Answers (claim r) xs sent other → (i : ℕ) → got i ≡ other i }
{}

/// Over a fit line, for any trips (copy A over a first piece of the line and copy B over a last piece, in
/// either order, circulating bits set or not, any copy lost): what came back and was joined is the answer of
/// those that the copies passed which came back, and each controller is left by each frame as often as a copy
/// passed it.
pub fn trips_core()
    ensures answered { (ts : List Trip) (line : List ControllerState) → TripsReady ts line
        → AnsweredTrips ts (λ t. returned t line) (trips_run ts line).joined }
    ensures left { (ts : List Trip) (line : List ControllerState) → TripsReady ts line
        → (trips_run ts line).line ≡ visited_trips ts line }
{}

/// Where in each trip both copies come back, and copy B begins where copy A ends, the answer is that of the
/// whole line, and each controller is left once by each frame.
pub fn whole_trips()
    ensures answered { (ts : List Trip) (line : List ControllerState) → TripsReady ts line
        → AllByRecursion IsWholeTrip ts
        → AnsweredTrips ts (λ t. line) (trips_run ts line).joined }
    ensures left { (ts : List Trip) (line : List ControllerState) → TripsReady ts line
        → AllByRecursion IsWholeTrip ts
        → (trips_run ts line).line ≡ after_trips ts line }
{}

/// Where the counters have moved as the whole line counts, whatever was lost or passed twice, the answer is
/// that of the whole line, and each memory is as if each controller had been passed once by each frame. So is
/// each shown byte of a controller, where in each frame the last entry that shows it is the last that writes
/// it.
pub fn good_counters()
    ensures answered { (ts : List Trip) (line : List ControllerState) → length line ≤ MOST_CONTROLLERS
        → TripsReady ts line → CountsWholeAll ts line (trips_run ts line).joined
        → AnsweredTrips ts (λ t. line) (trips_run ts line).joined }
    ensures memories { (ts : List Trip) (line : List ControllerState) → length line ≤ MOST_CONTROLLERS
        → TripsReady ts line → CountsWholeAll ts line (trips_run ts line).joined
        → SameMemories (trips_run ts line).line (after_trips ts line) }
    ensures shown { (ts : List Trip) (line : List ControllerState) (k : ℕ) → length line ≤ MOST_CONTROLLERS
        → TripsReady ts line → CountsWholeAll ts line (trips_run ts line).joined → k < PROCESS_MEMORY_SIZE
        → SameShownWhere (ShowsLastInRun ts (PROCESS_MEMORY + k)) k line (trips_run ts line).line
        (after_trips ts line) }
{}

/// Where no two entries of a frame write into one area of outputs, the last entry that shows a byte is the
/// last that writes it.
pub fn no_area_twice()
    ensures { (x : ControllerState) (address : ℕ) (es : List Entry) → NoAreaTwice x es
        → ShowsLast x address es }
{}

/// Whatever was lost, each memory is that after the frames of which a copy reached the controller, each once.
pub fn reached_memories()
    ensures { (ts : List Trip) (line : List ControllerState) → TripsReady ts line
        → SameMemories (trips_run ts line).line (reached_trips ts line) }
{}

/// A frame twice is a frame once, for memory.
pub fn twice_is_once()
    ensures { (es : List Entry) (c : ControllerState) → IsController c → AcceptsAll es c
        → (after_frame es (after_frame es c)).memory ≡ (after_frame es c).memory }
{}

/// What a logical read or exchange claims of a controller that is fit alone is said by the set of its
/// readable pairs: the bit that a pair names, and nothing where no pair names the data bit. A logical write
/// claims nothing.
pub fn claims_by_pairs()
    ensures lrd { (a n : ℕ) (c : ControllerState) (i p : ℕ) → IsFitAlone c → i < 8 * n → Reads c (8 * a + i) p
        → claim (record { kind = Lrd; address = a; count = n }) c i ≡ Some (bit c.memory p) }
    ensures lrw { (a n : ℕ) (c : ControllerState) (i p : ℕ) → IsFitAlone c → i < 8 * n → Reads c (8 * a + i) p
        → claim (record { kind = Lrw; address = a; count = n }) c i ≡ Some (bit c.memory p) }
    ensures not_lrd { (a n : ℕ) (c : ControllerState) (i : ℕ) → ((p : ℕ) → ¬ Reads c (8 * a + i) p)
        → claim (record { kind = Lrd; address = a; count = n }) c i ≡ None }
    ensures not_lrw { (a n : ℕ) (c : ControllerState) (i : ℕ) → ((p : ℕ) → ¬ Reads c (8 * a + i) p)
        → claim (record { kind = Lrw; address = a; count = n }) c i ≡ None }
    ensures lwr { (a n : ℕ) (c : ControllerState) (i : ℕ)
        → claim (record { kind = Lwr; address = a; count = n }) c i ≡ None }
{}

/// What it takes of a logical write or exchange is said by the set of its writable pairs: a memory bit that a
/// pair names takes the pair's data bit, and every other bit of the memory takes nothing. Of a logical read
/// it takes nothing.
pub fn takes_by_pairs()
    ensures lwr { (a n : ℕ) (c : ControllerState) (p i : ℕ) → IsFitAlone c → i < 8 * n
        → Writes c (8 * a + i) p
        → taken (record { kind = Lwr; address = a; count = n }) c p ≡ Some i }
    ensures lrw { (a n : ℕ) (c : ControllerState) (p i : ℕ) → IsFitAlone c → i < 8 * n
        → Writes c (8 * a + i) p
        → taken (record { kind = Lrw; address = a; count = n }) c p ≡ Some i }
    ensures not_lwr { (a n : ℕ) (c : ControllerState) (p : ℕ) → ((i : ℕ) → i < 8 * n
        → ¬ Writes c (8 * a + i) p)
        → taken (record { kind = Lwr; address = a; count = n }) c p ≡ None }
    ensures not_lrw { (a n : ℕ) (c : ControllerState) (p : ℕ) → ((i : ℕ) → i < 8 * n
        → ¬ Writes c (8 * a + i) p)
        → taken (record { kind = Lrw; address = a; count = n }) c p ≡ None }
    ensures lrd { (a n : ℕ) (c : ControllerState) (p : ℕ)
        → taken (record { kind = Lrd; address = a; count = n }) c p ≡ None }
{}

/// The relation of answers: nobody answers with what was sent; those that answer one after the other, or one
/// copy each that are joined, have answered together; and sets with the same members answer the same.
pub fn relation()
    ensures nobody { (r : Request) (sent : ℕ → ℕ) → Answers (claim r) [] sent sent }
    ensures one_after_the_other { (r : Request) (xs ys : List ControllerState) (sent between got :
        DatagramRecord)
        → AllAgree (claim r) ys xs → Answered r xs sent between → Answered r ys between got
        → Answered r (xs ++ ys) sent got }
    ensures joined { (r : Request) (xs ys : List ControllerState) (sent a b : DatagramRecord) → OnWay r sent
        → AllAgree (claim r) xs ys → AllAgree (claim r) ys xs → Answered r xs sent a → Answered r ys sent b
        → Answered r (xs ++ ys) sent (joined_record sent a b) }
    ensures same_members { (r : Request) (xs ys : List ControllerState) (sent got : ℕ → ℕ)
        → ((c : ControllerState) → Contains xs c ↔ Contains ys c) → Answers (claim r) xs sent got
        → Answers (claim r) ys sent got }
{}

/// A copy passes controllers of a fit line, each once: its frame is answered by all of them as they were at
/// first, and each is left as by the items that were sent.
pub fn one_copy()
    ensures answered { (es : List Entry) (line : List ControllerState) → IsFitLine line
        → AllByRecursion (AcceptsAll es) line → AllByRecursion (λ e. OnWay e.request e.sent) es
        → AnsweredFrame es line (line_pass line (sent_of es)).frame }
    ensures left { (es : List Entry) (line : List ControllerState) → IsFitLine line
        → AllByRecursion (AcceptsAll es) line → AllByRecursion (λ e. OnWay e.request e.sent) es
        → (line_pass line (sent_of es)).line ≡ map (after_frame es) line }
{}

/// A copy that went over a line is no stranger: it has the datagrams of the sent frame, each with the
/// command, the index, the data length and the fixed address that were sent, and each working counter has
/// moved by at most three for each controller, whatever the controllers are.
pub fn own_copies()
    ensures a { (t : Trip) (line : List ControllerState)
        → AllByRecursion (λ e. OnWay e.request e.sent) t.entries
        → IsOwn (sent_of t.entries) (passed t line).a }
    ensures b { (t : Trip) (line : List ControllerState)
        → AllByRecursion (λ e. OnWay e.request e.sent) t.entries
        → IsOwn (sent_of t.entries) (passed t line).b }
    ensures moved_a { (t : Trip) (line : List ControllerState)
        → AllByRecursion (λ e. OnWay e.request e.sent) t.entries
        → AllMoved (3 * length line) (sent_of t.entries) (passed t line).a }
    ensures moved_b { (t : Trip) (line : List ControllerState)
        → AllByRecursion (λ e. OnWay e.request e.sent) t.entries
        → AllMoved (3 * length line) (sent_of t.entries) (passed t line).b }
{}

/// An application may change whatever leaves the mapping (the station address, the FMMUs, and the sync
/// managers but for their status and PDI bytes): then the controller reads, writes, accepts, counts, takes
/// and shows as before, and stays fit. It has moved as an application may where what it shows is also as it
/// was, and each byte of process memory that no sync manager of inputs or of a mailbox guards: no bit that an
/// accepted request writes is among the others.
pub fn moves_by_mapping()
    ensures alike { (c later : ControllerState) → mapping_of later ≡ mapping_of c → IsController later
        → IsAlike c later }
    ensures moved { (c later : ControllerState) → mapping_of later ≡ mapping_of c → IsController later
        → later.shown ≡ c.shown
        → ((a : ℕ) → PROCESS_MEMORY ≤ a → is_locked (sync_managers_of c.memory) a ≡ false
        → slice_index later.memory a ≡ slice_index c.memory a)
        → HasMoved c later }
{}
