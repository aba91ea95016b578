//! What the checker's answers give the promises about cycles, and what the share of a slave is.

ghost use Rattle.std.specs.Prelude.{◌≡◌, ◌↔◌, ◌+◌, ℕ, true, if◌then◌else◌, List, length};
ghost use Rattle.std.specs.List.{AllByRecursion};
ghost use Rattle.ec_wire.specs.declared.kind.Kind.TheVariants.{Lrd, Lwr, Lrw, Brd, Fprd, Fpwr};
ghost use Rattle.ec_esc.specs.Pass.{serves_read as reads_bits, serves_write as writes_bits};
ghost use Rattle.ec_esc.specs.State.{ControllerState};
ghost use Rattle.ec_line.specs.Accepted.{Accepts};
ghost use Rattle.ec_line.specs.Mapping.{mapping};
ghost use Rattle.ec_check.specs.Fit.{IsFit};
ghost use Rattle.ec_map.specs.Item.{ItemRecord, IsItem, AsksTheSame};
ghost use Rattle.ec_map.specs.Place.{IsPlaced};
ghost use Rattle.ec_map.specs.Share.{share, request_of, serves_item_read, serves_item_write};
ghost use Rattle.ec_map.specs.Share.{ReadsBit, WritesBit};

/// An item that `check_item` accepts is one that each slave of a fit line accepts.
pub fn accepted_items()
    ensures { (line : List ControllerState) (r : ItemRecord) → IsFit line → IsItem r → IsPlaced line r
        → AllByRecursion (Accepts (request_of r)) line }
{}

/// A slave's share in the counter of an item, which is what the pass of its datagram counts, kind by kind: 1
/// for a logical read where it reads a bit, 1 for a logical write where it writes one, 1 and 2 for an
/// exchange, 1 for a broadcast read, and 1 for an addressed read or write that it serves.
pub fn shares_by_kind()
    ensures lrd { (r : ItemRecord) (c : ControllerState) → r.kind ≡ Lrd
        → share r c ≡ (if reads_bits c r.address (length r.payload) then 1 else 0) }
    ensures lwr { (r : ItemRecord) (c : ControllerState) → r.kind ≡ Lwr
        → share r c ≡ (if writes_bits c r.address (length r.payload) then 1 else 0) }
    ensures lrw { (r : ItemRecord) (c : ControllerState) → r.kind ≡ Lrw
        → share r c ≡ (if reads_bits c r.address (length r.payload) then 1 else 0)
        + (if writes_bits c r.address (length r.payload) then 2 else 0) }
    ensures brd { (r : ItemRecord) (c : ControllerState) → IsItem r → r.kind ≡ Brd → share r c ≡ 1 }
    ensures fprd { (r : ItemRecord) (c : ControllerState) → r.kind ≡ Fprd
        → share r c ≡ (if serves_item_read c r then 1 else 0) }
    ensures fpwr { (r : ItemRecord) (c : ControllerState) → r.kind ≡ Fpwr
        → share r c ≡ (if serves_item_write c r then 1 else 0) }
{}

/// A controller reads bits of a range of logical bytes exactly where a readable pair of it has its logical
/// bit there, and writes some exactly where a writable pair has.
pub fn shares_by_pairs()
    ensures reads { (c : ControllerState) (address n : ℕ)
        → (reads_bits c address n ≡ true) ↔ ((l p : ℕ) × ReadsBit c address n l p) }
    ensures writes { (c : ControllerState) (address n : ℕ)
        → (writes_bits c address n ≡ true) ↔ ((l p : ℕ) × WritesBit c address n l p) }
{}

/// Whether an item is placed on a line hangs on the line's mapping alone, and on what the item asks: its
/// kind, its address and how many bytes it has.
pub fn placed_by_mapping()
    ensures { (line later : List ControllerState) (r s : ItemRecord) → mapping later ≡ mapping line
        → AsksTheSame r s → IsPlaced line r → IsPlaced later s }
{}

/// A slave's share in the counter of an item hangs on what the item asks alone, not on its data or on what
/// was answered.
pub fn same_shares()
    ensures { (r s : ItemRecord) (c : ControllerState) → IsItem r → IsItem s → AsksTheSame r s
        → share s c ≡ share r c }
{}
