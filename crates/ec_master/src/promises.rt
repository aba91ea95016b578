//! The laws of a cycle over a ring, each the contract of a function that does nothing.

ghost use Rattle.std.specs.Prelude.{◌≡◌, ◌⊎◌, ◌&&◌, ◌+◌, ◌*◌, ◌/◌, ◌<◌, ◌≤◌, ℕ, true, false, None, Some};
ghost use Rattle.std.specs.Prelude.{List, [], ◌∷◌, length, map};
ghost use Rattle.std.specs.List.{AllByRecursion};
ghost use Rattle.std.specs.List.Sorted.{IsPermutation};
ghost use Rattle.ec_regs.specs.Bits.{bit};
ghost use Rattle.ec_regs.specs.AddressRange.{within};
ghost use Rattle.ec_areas.specs.Ranges.{takes_writes};
ghost use Rattle.ec_esc.specs.State.{ControllerState, IsController};
ghost use Rattle.ec_app.specs.State.{SlaveState};
ghost use Rattle.ec_line.specs.After.{Entry, after};
ghost use Rattle.ec_line.specs.Claims.{claim};
ghost use Rattle.ec_wire.specs.declared.kind.Kind.TheVariants.{Brd, Fprd, Fpwr};
ghost use Rattle.ec_map.specs.Item.{ItemRecord, IsItem};
ghost use Rattle.ec_map.specs.Place.{ado_named};
ghost use Rattle.ec_map.specs.Share.{serves_item_read, serves_item_write, request_of};
ghost use Rattle.ec_ring.specs.Links.{IsOnlyDown};
ghost use Rattle.ec_ring.specs.Ring.{RingState};
ghost use Rattle.ec_ring.specs.declared.links.TheConstants.{MAX_SLAVES};
ghost use Rattle.ec_ring.specs.declared.weather.Weather.{Weather};
ghost use Rattle.ec_master.specs.Cut.{cut, entries_from, fits_frame, IsCut};
ghost use Rattle.ec_master.specs.Travelled.{answers_under, ring_under, reached, unreached};
ghost use Rattle.ec_master.specs.Certificate.{verdict_under, memory_at};
ghost use Rattle.ec_master.specs.Unordered.{station, by_station, ByStation, HasBytes, IsCycle, IsAccepted};
ghost use Rattle.ec_master.specs.declared.verdict.Verdict.TheVariants.{Good};
ghost use Rattle.ec_master.specs.Work.{with_answers};

/// Frames, copies, places and links do not show. Over a ring with no link down but perhaps one, a cycle is
/// the unordered cycle of its slaves. With any links down it is that of the slaves that a copy reaches, and
/// leaves the others as they were. In any weather each slave keeps its place and its station.
pub fn order_free()
    ensures whole { (r : RingState) (items : List ItemRecord) (k : ℕ) → IsOnlyDown r.links (length r.slaves) k
        → IsAccepted r.slaves items → AllByRecursion IsItem items
        → IsCycle (by_station r.slaves) items (with_answers items (answers_under [] r items))
        (by_station (ring_under [] r items).slaves) }
    ensures reached { (r : RingState) (items : List ItemRecord) → IsAccepted r.slaves items
        → AllByRecursion IsItem items
        → IsCycle (by_station (reached r)) items (with_answers items (answers_under [] r items))
        (by_station (reached (ring_under [] r items))) }
    ensures unreached { (r : RingState) (items : List ItemRecord) → IsAccepted r.slaves items
        → AllByRecursion IsItem items → unreached (ring_under [] r items) ≡ unreached r }
    ensures one_down { (r : RingState) (k : ℕ) → IsOnlyDown r.links (length r.slaves) k
        → reached r ≡ r.slaves }
    ensures stations { (ws : List Weather) (r : RingState) (items : List ItemRecord)
        → IsAccepted r.slaves items → AllByRecursion IsItem items
        → map station (ring_under ws r items).slaves ≡ map station r.slaves }
{}

/// Items whose data are bytes, as those of every work are (`Work::data_are_bytes`), take answers whose data
/// are, over any ring and in any weather.
pub fn answers_are_bytes()
    ensures { (ws : List Weather) (r : RingState) (items : List ItemRecord) → AllByRecursion HasBytes items
        → AllByRecursion HasBytes (with_answers items (answers_under ws r items)) }
{}

/// The unordered cycle has one outcome: data, counters and slaves, where the data are bytes, as those of
/// every work are (`Work::data_are_bytes`).
pub fn one_cycle()
    ensures { (before later after : ByStation) (sent got other : List ItemRecord)
        → AllByRecursion HasBytes got → AllByRecursion HasBytes other → IsCycle before sent got later
        → IsCycle before sent other after → (other ≡ got) × ((n : ℕ) → after n ≡ later n) }
{}

/// Acceptance does not hang on the order of the slaves, and neither do slaves by their stations.
pub fn accepted_in_any_order()
    ensures accepted { (slaves later : List SlaveState) (items : List ItemRecord)
        → IsPermutation slaves later → IsAccepted slaves items → IsAccepted later items }
    ensures stations { (slaves later : List SlaveState) (items : List ItemRecord) (n : ℕ)
        → IsPermutation slaves later → IsAccepted slaves items
        → by_station later n ≡ by_station slaves n }
{}

/// Order and break do not show: two rings with the same slaves, in whatever order they stand, each with no
/// link down but perhaps one, give a work the same data and counters and leave the same slaves. The slaves
/// are those of one accepted ring in another order (`any_order`), or those of two accepted rings by their
/// stations (`by_stations`).
pub fn two_orders()
    ensures any_order { (r s : RingState) (items : List ItemRecord) (k m : ℕ)
        → IsOnlyDown r.links (length r.slaves) k → IsOnlyDown s.links (length s.slaves) m
        → IsPermutation r.slaves s.slaves → IsAccepted r.slaves items → AllByRecursion IsItem items
        → AllByRecursion HasBytes items
        → (with_answers items (answers_under [] s items) ≡ with_answers items (answers_under [] r items))
        × ((n : ℕ) → by_station (ring_under [] s items).slaves n
        ≡ by_station (ring_under [] r items).slaves n) }
    ensures by_stations { (r s : RingState) (items : List ItemRecord) (k m : ℕ)
        → IsOnlyDown r.links (length r.slaves) k → IsOnlyDown s.links (length s.slaves) m
        → IsAccepted r.slaves items → IsAccepted s.slaves items → AllByRecursion IsItem items
        → AllByRecursion HasBytes items → ((n : ℕ) → by_station s.slaves n ≡ by_station r.slaves n)
        → (with_answers items (answers_under [] s items) ≡ with_answers items (answers_under [] r items))
        × ((n : ℕ) → by_station (ring_under [] s items).slaves n
        ≡ by_station (ring_under [] r items).slaves n) }
{}

/// What befell the frames does not show in a good cycle: in any two weathers that end in `Good` a work gets
/// the same data and counters, and each memory is the same.
pub fn two_good()
    ensures { (ws us : List Weather) (r : RingState) (items : List ItemRecord)
        → length r.slaves ≤ MAX_SLAVES → IsAccepted r.slaves items → AllByRecursion IsItem items
        → AllByRecursion HasBytes items → verdict_under ws r items ≡ Good → verdict_under us r items ≡ Good
        → (with_answers items (answers_under us r items) ≡ with_answers items (answers_under ws r items))
        × ((n : ℕ) → memory_at (by_station (ring_under us r items).slaves) n
        ≡ memory_at (by_station (ring_under ws r items).slaves) n) }
{}

/// The frames of a work are the one division of its items into consecutive frames, none empty, each of which
/// fits and would not with the next item.
pub fn the_cut()
    ensures is_cut { (es : List Entry) → AllByRecursion (λ e. fits_frame (e ∷ []) ≡ true) es
        → IsCut es (cut es) }
    ensures one_cut { (es : List Entry) (frames : List (List Entry)) → IsCut es frames → frames ≡ cut es }
    ensures items_fit { (k : ℕ) (items : List ItemRecord) → AllByRecursion IsItem items
        → AllByRecursion (λ e. fits_frame (e ∷ []) ≡ true) (entries_from k items) }
{}

/// What addressed items and broadcast reads claim of a controller, and what they leave in its memory, is said
/// by the range: a served read claims its bits, a broadcast read those that are 1, a write none. A served
/// write leaves its data in those bytes that take writes, and every other bit stays.
pub fn by_range()
    ensures fprd { (r : ItemRecord) (c : ControllerState) (i : ℕ) → r.kind ≡ Fprd
        → serves_item_read c r ≡ true → i < 8 * length r.payload
        → claim (request_of r) c i ≡ Some (bit c.memory (8 * ado_named r + i)) }
    ensures not_fprd { (r : ItemRecord) (c : ControllerState) (i : ℕ) → r.kind ≡ Fprd
        → serves_item_read c r ≡ false → claim (request_of r) c i ≡ None }
    ensures brd { (r : ItemRecord) (c : ControllerState) (i : ℕ) → r.kind ≡ Brd → IsItem r
        → i < 8 * length r.payload → bit c.memory (8 * r.address + i) ≡ 1
        → claim (request_of r) c i ≡ Some 1 }
    ensures not_brd { (r : ItemRecord) (c : ControllerState) (i : ℕ) → r.kind ≡ Brd → IsItem r
        → bit c.memory (8 * r.address + i) ≡ 0 → claim (request_of r) c i ≡ None }
    ensures writes { (r : ItemRecord) (c : ControllerState) (i : ℕ) → r.kind ≡ Fpwr
        → claim (request_of r) c i ≡ None }
    ensures fpwr { (r : ItemRecord) (c : ControllerState) (i : ℕ) → r.kind ≡ Fpwr → IsController c
        → serves_item_write c r ≡ true → i < 8 * length r.payload
        → takes_writes c.memory (ado_named r + i / 8) ≡ true
        → bit (after (request_of r) r.payload c).memory (8 * ado_named r + i) ≡ bit r.payload i }
    ensures beside_fpwr { (r : ItemRecord) (c : ControllerState) (p : ℕ) → r.kind ≡ Fpwr
        → (within (ado_named r) (length r.payload) (p / 8) && takes_writes c.memory (p / 8)) ≡ false
        → bit (after (request_of r) r.payload c).memory p ≡ bit c.memory p }
    ensures not_fpwr { (r : ItemRecord) (c : ControllerState) → r.kind ≡ Fpwr → IsController c
        → serves_item_write c r ≡ false → (after (request_of r) r.payload c).memory ≡ c.memory }
    ensures reads { (r : ItemRecord) (c : ControllerState) → (r.kind ≡ Brd) ⊎ (r.kind ≡ Fprd)
        → IsController c → (after (request_of r) r.payload c).memory ≡ c.memory }
{}
