//! What an application is shown after an item, by the areas of its outputs: the contract of a function that
//! does nothing.

ghost use Rattle.std.specs.Prelude.{◌≡◌, ◌&&◌, ◌+◌, ◌-◌, ◌*◌, ◌/◌, ◌<◌, ℕ, true, false, None, Some};
ghost use Rattle.std.specs.Prelude.{length, slice_get, slice_index};
ghost use Rattle.ec_regs.specs.AddressRange.{within};
ghost use Rattle.ec_regs.specs.SyncMan.{guards_outputs};
ghost use Rattle.ec_regs.specs.declared.registers.TheConstants.{PROCESS_MEMORY, PROCESS_MEMORY_SIZE};
ghost use Rattle.ec_regs.specs.declared.sync_man.SyncMan.{SyncMan};
ghost use Rattle.ec_areas.specs.Areas.{guards};
ghost use Rattle.ec_areas.specs.Ranges.{takes_writes};
ghost use Rattle.ec_areas.specs.Records.{sync_managers_of};
ghost use Rattle.ec_areas.specs.Showing.{last_byte};
ghost use Rattle.ec_esc.specs.State.{ControllerState, IsController};
ghost use Rattle.ec_line.specs.After.{after};
ghost use Rattle.ec_line.specs.Claims.{taken};
ghost use Rattle.ec_map.specs.Item.{ItemRecord};
ghost use Rattle.ec_map.specs.Place.{ado_named};
ghost use Rattle.ec_map.specs.Share.{serves_item_write, request_of};
ghost use Rattle.ec_wire.specs.declared.kind.Kind.TheVariants.{Fpwr};

/// After an item of any kind the application is shown a byte as it then stands in the memory, where the byte
/// lies in an area of outputs of which a bit of the last byte took data (`shown`); every other byte that it
/// is shown is as before (`kept`). Which bits take data is said by the sets of writable pairs for logical
/// items (`ec_line`, `takes_by_pairs`) and by the range for addressed writes (`range`, `beside`, `idle`).
pub fn shown_by_areas()
    ensures shown { (r : ItemRecord) (c : ControllerState) (k i b p : ℕ) (s : SyncMan) → IsController c
        → k < PROCESS_MEMORY_SIZE → slice_get (sync_managers_of c.memory) i ≡ Some s
        → guards_outputs s ≡ true → guards s (PROCESS_MEMORY + k) ≡ true → b < 8
        → taken (request_of r) c (8 * last_byte s + b) ≡ Some p
        → slice_index (after (request_of r) r.payload c).shown k
        ≡ slice_index (after (request_of r) r.payload c).memory (PROCESS_MEMORY + k) }
    ensures kept { (r : ItemRecord) (c : ControllerState) (k : ℕ) → IsController c → k < PROCESS_MEMORY_SIZE
        → ((i b : ℕ) (s : SyncMan) → slice_get (sync_managers_of c.memory) i ≡ Some s
        → guards_outputs s ≡ true → guards s (PROCESS_MEMORY + k) ≡ true → b < 8
        → taken (request_of r) c (8 * last_byte s + b) ≡ None)
        → slice_index (after (request_of r) r.payload c).shown k ≡ slice_index c.shown k }
    ensures range { (r : ItemRecord) (c : ControllerState) (i : ℕ) → r.kind ≡ Fpwr
        → serves_item_write c r ≡ true → i < 8 * length r.payload
        → takes_writes c.memory (ado_named r + i / 8) ≡ true
        → taken (request_of r) c (8 * ado_named r + i) ≡ Some i }
    ensures beside { (r : ItemRecord) (c : ControllerState) (p : ℕ) → r.kind ≡ Fpwr
        → (within (ado_named r) (length r.payload) (p / 8) && takes_writes c.memory (p / 8)) ≡ false
        → taken (request_of r) c p ≡ None }
    ensures idle { (r : ItemRecord) (c : ControllerState) (p : ℕ) → r.kind ≡ Fpwr
        → serves_item_write c r ≡ false → taken (request_of r) c p ≡ None }
{}
