//! What applications leave of a line, as laws.

ghost use Rattle.std.specs.Prelude.{◌≡◌, ◌≢◌, ◌&&◌, ℕ, suc, Bool, false, not};
ghost use Rattle.std.specs.Prelude.{List, [], Some, length, slice_get};
ghost use Rattle.std.specs.List.{All};
ghost use Rattle.ec_app.specs.Slave.{step};
ghost use Rattle.ec_app.specs.State.{SlaveState};
ghost use Rattle.ec_app.specs.declared.roles.TheConstants.{ANSWER_MAILBOX};
ghost use Rattle.ec_areas.specs.Ranges.{has_sii};
ghost use Rattle.ec_areas.specs.Records.{sync_manager_at};
ghost use Rattle.ec_esc.specs.Application.{with_mail_repeated, with_repeat_told};
ghost use Rattle.ec_esc.specs.State.{ControllerState, IsController};
ghost use Rattle.ec_line.specs.Moving.{HasMoved};
ghost use Rattle.ec_regs.specs.Bits.{AreBytes};
ghost use Rattle.ec_regs.specs.SyncMan.{asks_again};
ghost use Rattle.ec_regs.specs.declared.registers.TheConstants.{MEMORY_SIZE};
ghost use Rattle.ec_ring.specs.Ring.{RingState};
ghost use Rattle.ec_applications.specs.Acting.{acted};
ghost use Rattle.ec_applications.specs.Behind.{line_behind};
ghost use Rattle.ec_applications.specs.Eeproms.{all_served};
ghost use Rattle.ec_applications.specs.Left.{HasMemory, KeepsAllElse, KeepsAllButAnswers};
ghost use Rattle.ec_applications.specs.Links.{all_told, dl_status, is_lost, slave_told};
ghost use Rattle.ec_applications.specs.Repeats.{repeated};
ghost use Rattle.ec_applications.specs.State.{ApplicationsState};
ghost use Rattle.ec_applications.specs.declared.application.Application.{Application};
ghost use Rattle.ec_applications.specs.declared.eeproms.PlacedEeprom.{PlacedEeprom};

/// Applications change no link and add no slave. A slave that has none stays as it is; of any other one all
/// stays but the areas that the master reads: its registers (so its station, its AL status and its mapping),
/// its outputs, what it is shown, whether AL control was written, and its own state.
pub fn acting_leaves()
    ensures links { (times : ℕ) (all : List Application) (r : RingState) →
        (acted times all r).links ≡ r.links }
    ensures size { (times : ℕ) (all : List Application) (r : RingState)
        → length (acted times all r).slaves ≡ length r.slaves }
    ensures beside { (times : ℕ) (all : List Application) (r : RingState) (k : ℕ)
        → All (λ (one : Application). one.place ≢ k) all
        → slice_get (acted times all r).slaves k ≡ slice_get r.slaves k }
    ensures slave { (times : ℕ) (all : List Application) (r : RingState) (k : ℕ) (before after : SlaveState)
        → slice_get r.slaves k ≡ Some before → slice_get (acted times all r).slaves k ≡ Some after
        → HasMemory before → KeepsAllElse before after }
{}

/// A step of a slave, and what its application does, are moves that may come between two passages of a
/// cycle's copies: they leave what the controller reads, writes, accepts, counts, takes and shows, each bit
/// that an accepted request writes, and what the application is shown. So a line whose slaves step and whose
/// inputs count keeps the premise under which a good cycle is of one moment of each slave
/// (`ec_line::moving::good_moments`).
pub fn moves_between_passages()
    ensures step { (s : SlaveState) → IsController s.controller → IsController (step s).controller
        → HasMoved s.controller (step s).controller }
    ensures acting { (times : ℕ) (all : List Application) (r : RingState) (k : ℕ) (before after : SlaveState)
        → slice_get r.slaves k ≡ Some before → slice_get (acted times all r).slaves k ≡ Some after
        → IsController before.controller → IsController after.controller
        → HasMoved before.controller after.controller }
    ensures both { (x y z : ControllerState) → HasMoved x y → HasMoved y z → HasMoved x z }
{}

/// A line whose slaves have no applications is as it was.
pub fn idle_acts()
    ensures { (times : ℕ) (r : RingState) → acted times [] r ≡ r }
{}

/// Behind a step, once applications have acted and EEPROMs have answered (`Applications::act`), no link has
/// changed and no slave has come. A slave that has neither stays as it is; of any other one all stays but the
/// areas that the master reads, registers 0x0500 to 0x050F, the slave information interface, and of a device
/// registers 0x080D and 0x080F, the status byte and the PDI byte of the mailbox that the master reads, which
/// may have the last mail once more.
pub fn behind_leaves()
    ensures links { (s : ApplicationsState) (r : RingState) → (line_behind s r).links ≡ r.links }
    ensures size { (s : ApplicationsState) (r : RingState)
        → length (line_behind s r).slaves ≡ length r.slaves }
    ensures beside { (s : ApplicationsState) (r : RingState) (k : ℕ)
        → All (λ (one : Application). one.place ≢ k) s.all
        → All (λ (one : PlacedEeprom). one.place ≢ k) s.eeproms
        → slice_get (line_behind s r).slaves k ≡ slice_get r.slaves k }
    ensures slave { (s : ApplicationsState) (r : RingState) (k : ℕ) (before after : SlaveState)
        → slice_get r.slaves k ≡ Some before → slice_get (line_behind s r).slaves k ≡ Some after
        → HasMemory before → KeepsAllButAnswers before after }
{}

/// What EEPROMs answer is a move too, and so is a mail that is given once more: each slave is as before, or
/// has moved as an application may between two passages of a cycle's copies.
pub fn serving_moves_slaves()
    ensures { (all : List PlacedEeprom) (r : RingState) (k : ℕ) (before after : SlaveState)
        → slice_get r.slaves k ≡ Some before → slice_get (all_served all r).slaves k ≡ Some after
        → IsController before.controller → All (λ (one : PlacedEeprom). AreBytes one.eeprom) all
        → HasMoved before.controller after.controller }
{}

/// A mail is given once more one time for each time that the master asks (IEC 61158-4-12, sync manager,
/// repeat request): once it was given, or it was told alone that this was done, the mailbox asks for none,
/// and nothing is done again. A plain slave, whose controller does not tell of itself, stays as it is.
pub fn repeats_once()
    ensures given { (c : ControllerState) → length c.memory ≡ MEMORY_SIZE
        → asks_again (sync_manager_at (with_mail_repeated c ANSWER_MAILBOX).memory ANSWER_MAILBOX) ≡ false }
    ensures told { (c : ControllerState) → length c.memory ≡ MEMORY_SIZE
        → asks_again (sync_manager_at (with_repeat_told c ANSWER_MAILBOX).memory ANSWER_MAILBOX) ≡ false }
    ensures once { (c : ControllerState) → length c.memory ≡ MEMORY_SIZE
        → repeated (repeated c) ≡ repeated c }
    ensures plain { (c : ControllerState) → has_sii c.memory ≡ false → repeated c ≡ c }
{}

/// By DL status of a slave's links, before it and behind it, and DL status of its links later on, a link is
/// lost at port 0 where there was one before it and is none later, and at port 1 where there was one behind
/// it and is none later (IEC 61158-4-12, lost link counter).
pub fn links_get_lost()
    ensures port_0 { (before behind later_before later_behind : Bool)
        → is_lost (dl_status before behind) (dl_status later_before later_behind) 0
        ≡ (before && not later_before) }
    ensures port_1 { (before behind later_before later_behind : Bool)
        → is_lost (dl_status before behind) (dl_status later_before later_behind) 1
        ≡ (behind && not later_behind) }
{}

/// A line that is told of its links (`tell_each`) keeps them. A slave whose controller tells of itself has DL
/// status of the links before and behind it, one more in the counter of lost links of each port that had a
/// link by DL status before and has none now, and all else of it as before; any other one is as before. That
/// is a move too, as what EEPROMs answer is.
pub fn telling_moves_slaves()
    ensures links { (is_up : ℕ → Bool) (r : RingState) → (all_told is_up r).links ≡ r.links }
    ensures told { (is_up : ℕ → Bool) (r : RingState) (k : ℕ) (before : SlaveState)
        → slice_get r.slaves k ≡ Some before
        → slice_get (all_told is_up r).slaves k
        ≡ Some (slave_told (dl_status (is_up k) (is_up (suc k))) before) }
    ensures moved { (is_up : ℕ → Bool) (r : RingState) (k : ℕ) (before after : SlaveState)
        → slice_get r.slaves k ≡ Some before → slice_get (all_told is_up r).slaves k ≡ Some after
        → IsController before.controller → HasMoved before.controller after.controller }
{}
