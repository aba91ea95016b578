//! What is expected of the items of a cycle lasts as long as the line's mapping, and where they may go does
//! not hang on the order of its slaves, as laws.

ghost use Rattle.std.specs.Prelude.{◌≡◌, List};
ghost use Rattle.std.specs.List.Sorted.{IsPermutation};
ghost use Rattle.ec_esc.specs.State.{ControllerState};
ghost use Rattle.ec_line.specs.Accepted.{Accepts};
ghost use Rattle.ec_line.specs.Mapping.{mapping_of, mapping};
ghost use Rattle.ec_check.specs.Fit.{IsFit};
ghost use Rattle.ec_map.specs.Item.{ItemRecord, IsItem};
ghost use Rattle.ec_map.specs.Place.{IsPlaced};
ghost use Rattle.ec_map.specs.Share.{share, request_of, expected_of};

/// A slave's share in the counter of an item that it accepts hangs on its mapping alone: on its station
/// address and on the records of its FMMUs and sync managers, but for the status bytes of these (IEC
/// 61158-4-12, working counter). So what a fit line adds to the counter of a placed item hangs on the line's.
pub fn shares_by_mapping()
    ensures share { (r : ItemRecord) (c later : ControllerState) → IsItem r → mapping_of later ≡ mapping_of c
        → Accepts (request_of r) c → Accepts (request_of r) later → share r later ≡ share r c }
    ensures expected { (line later : List ControllerState) (r : ItemRecord) → mapping later ≡ mapping line
        → IsFit line → IsItem r → IsPlaced line r → expected_of later r ≡ expected_of line r }
{}

/// Whether an item is placed on a fit line does not hang on the order of its slaves.
pub fn placed_in_any_order()
    ensures { (line later : List ControllerState) (r : ItemRecord) → IsPermutation line later → IsFit line
        → IsPlaced line r → IsPlaced later r }
{}
