//! What the slave information interface promises, as laws.

ghost use Rattle.std.specs.Prelude.{◌≡◌, ◌++◌, ◌+◌, ◌*◌, ◌/◌, ◌%◌, ◌<◌, ◌^◌, ◌∷◌, false, ℕ, List, length};
ghost use Rattle.std.specs.Prelude.{slice_index, take, drop};
ghost use Rattle.std.specs.List.{flat_map};
ghost use Rattle.ec_regs.specs.Bits.{AreBytes};
ghost use Rattle.ec_regs.specs.declared.registers.TheConstants.{MEMORY_SIZE};
ghost use Rattle.ec_areas.specs.Ranges.{has_sii, is_in_sii};
ghost use Rattle.ec_esc.specs.State.{ControllerState, IsController};
ghost use Rattle.ec_line.specs.Mapping.{mapping_of};
ghost use Rattle.ec_line.specs.Moving.{HasMoved};
ghost use Rattle.ec_sii.specs.Eeprom.{asked, eight_at, place, registers_after, sii_answer};
ghost use Rattle.ec_sii.specs.Image.{category, general_bytes, head_bytes, image_bytes, pdo_bytes};
ghost use Rattle.ec_sii.specs.Image.{sync_manager_bytes, text};
ghost use Rattle.ec_sii.specs.Made.{HeadFits, PartsFit, made_categories, made_category, made_entry};
ghost use Rattle.ec_sii.specs.Made.{made_general, made_head, made_pdo, made_text, parts_of};
ghost use Rattle.ec_sii.specs.Reading.{AreCategories, category_at, entry_at, general_in, head_in, pdo_at};
ghost use Rattle.ec_sii.specs.Reading.{sync_manager_at, text_at};
ghost use Rattle.ec_sii.specs.Served.{served};
ghost use Rattle.ec_sii.specs.declared.eeprom.TheConstants.{READ};
ghost use Rattle.ec_sii.specs.declared.image.Pdo.{Pdo};
ghost use Rattle.ec_sii.specs.declared.image.PdoEntry.{PdoEntry};
ghost use Rattle.ec_sii.specs.declared.image.SiiContents.{SiiContents};
ghost use Rattle.ec_sii.specs.declared.image.SiiSyncManager.{SiiSyncManager};
ghost use Rattle.ec_sii.specs.declared.reading.TheConstants.{HEAD};
ghost use Rattle.ec_sii.specs.declared.registers.SiiRegisters.{SiiRegisters};

/// A controller without the interface stays as it is. With it, serving leaves its mapping, and is a move that
/// may come between two passages of a cycle's copies: it leaves what the controller reads, writes, accepts,
/// counts, takes and shows, each bit that an accepted request writes, and what the application is shown.
pub fn serving_moves()
    ensures without { (contents : List ℕ) (c : ControllerState) → has_sii c.memory ≡ false
        → served contents c ≡ c }
    ensures stays { (contents : List ℕ) (c : ControllerState) → IsController c → AreBytes contents
        → IsController (served contents c) }
    ensures mapping { (contents : List ℕ) (c : ControllerState) → IsController c → AreBytes contents
        → mapping_of (served contents c) ≡ mapping_of c }
    ensures moved { (contents : List ℕ) (c : ControllerState) → IsController c → AreBytes contents
        → HasMoved c (served contents c) }
{}

/// Serving leaves all but registers 0x0500 to 0x050F: each other byte of the memory, what the application is
/// shown, and whether AL control was written.
pub fn serving_leaves()
    ensures shown { (contents : List ℕ) (c : ControllerState) → (served contents c).shown ≡ c.shown }
    ensures written { (contents : List ℕ) (c : ControllerState)
        → (served contents c).written ≡ c.written }
    ensures size { (contents : List ℕ) (c : ControllerState) → length c.memory ≡ MEMORY_SIZE
        → length (served contents c).memory ≡ MEMORY_SIZE }
    ensures beside { (contents : List ℕ) (c : ControllerState) (address : ℕ)
        → length c.memory ≡ MEMORY_SIZE → is_in_sii address ≡ false
        → slice_index (served contents c).memory address ≡ slice_index c.memory address }
{}

/// A read is answered by the eight bytes from its word on, with no error and no command left. What was
/// answered is answered no second time: the registers stay, whatever the contents become.
pub fn answers_once()
    ensures words { (contents : List ℕ) (r : SiiRegisters) → asked r ≡ READ
        → (registers_after contents r (sii_answer contents r)).words ≡ eight_at contents (place r) }
    ensures command { (contents : List ℕ) (r : SiiRegisters) → asked r ≡ READ
        → (registers_after contents r (sii_answer contents r)).command ≡ 0 }
    ensures once { (first later : List ℕ) (r a : SiiRegisters)
        → a ≡ registers_after first r (sii_answer first r)
        → registers_after later a (sii_answer later a) ≡ a }
{}

/// What was made is read as the facts that it was made of, whatever stands before it and behind it: the head,
/// with a checksum that fits; a category that has a byte, with whole words, and its bytes (`words`); the end.
/// So an image has behind its head the categories that were put, in their order, and no other (`all`).
pub fn made_is_read()
    ensures head { (c : SiiContents) (rest : List ℕ) → HeadFits c
        → head_in (head_bytes c ++ rest) ≡ Ok (made_head c) }
    ensures category { (front bytes rest : List ℕ) (kind : ℕ) → kind < 0xFFFF
        → 0 < length bytes → length bytes / 2 + length bytes % 2 < 2 ^ 16
        → category_at (front ++ category kind bytes ++ rest) (length front)
        ≡ Ok (Some (made_category kind bytes (length front))) }
    ensures words { (front bytes rest : List ℕ) (kind : ℕ) → 0 < length bytes
        → take (length bytes) (drop (length front + 4) (front ++ category kind bytes ++ rest))
        ≡ bytes }
    ensures end { (front rest : List ℕ)
        → category_at (front ++ 255 ∷ 255 ∷ rest) (length front) ≡ Ok None }
    ensures all { (c : SiiContents) → PartsFit (parts_of c)
        → AreCategories (image_bytes c) HEAD (made_categories HEAD (parts_of c)) }
{}

/// What was made of a category's facts is read as these: each text by its number, what General tells, a sync
/// manager, a PDO, which ends where the next begins, and each of its entries.
pub fn made_parts_are_read()
    ensures text { (count : ℕ) (before : List (List ℕ)) (letters rest : List ℕ)
        → length before < count
        → text_at (count ∷ flat_map text before ++ text letters ++ rest) (length before + 1)
        ≡ Some (made_text before letters) }
    ensures general { (rest : List ℕ) (details : ℕ)
        → general_in (general_bytes details ++ rest) ≡ Some (made_general details) }
    ensures sync_manager { (front rest : List ℕ) (m : SiiSyncManager) → m.start < 2 ^ 16
        → m.length < 2 ^ 16
        → sync_manager_at (front ++ sync_manager_bytes m ++ rest) (length front) ≡ Some m }
    ensures pdo { (front rest : List ℕ) (name : ℕ) (p : Pdo) → p.index < 2 ^ 16
        → pdo_at (front ++ pdo_bytes name p ++ rest) (length front)
        ≡ Ok (Some (made_pdo name p (length front))) }
    ensures entry { (front rest : List ℕ) (name : ℕ) (p : Pdo) (before after : List PdoEntry)
        (e : PdoEntry) → p.entries.items ≡ before ++ e ∷ after → e.index < 2 ^ 16
        → entry_at (front ++ pdo_bytes name p ++ rest) (length front + 8 + 8 * length before)
        ≡ Some (made_entry e) }
{}
