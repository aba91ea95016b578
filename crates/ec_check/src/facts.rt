//! What a fit line gives a cycle, and what fitness hangs on, as laws.

ghost use Rattle.std.specs.Prelude.{◌≡◌, ◌<◌, ℕ, true, None, List, length};
ghost use Rattle.std.specs.List.{AllByRecursion};
ghost use Rattle.std.specs.List.Sorted.{IsPermutation};
ghost use Rattle.ec_regs.specs.Pairs.{is_switched_on};
ghost use Rattle.ec_regs.specs.declared.al.AlStatus.{AlStatus};
ghost use Rattle.ec_areas.specs.Records.{sync_manager_at};
ghost use Rattle.ec_regs.specs.Bits.{AreBytes};
ghost use Rattle.ec_esc.specs.Application.{put_inputs_fault, with_al, with_inputs, are_told, with_registers};
ghost use Rattle.ec_esc.specs.Application.{with_mail_repeated, with_repeat_told};
ghost use Rattle.ec_line.specs.Moving.{HasMoved};
ghost use Rattle.ec_esc.specs.State.{ControllerState, IsController};
ghost use Rattle.ec_app.specs.Slave.{step};
ghost use Rattle.ec_app.specs.State.{SlaveState};
ghost use Rattle.ec_line.specs.Fit.{IsFitLine};
ghost use Rattle.ec_line.specs.Mapping.{mapping, mapping_of};
ghost use Rattle.ec_check.specs.Line.{fmmu_of, HasFmmu};
ghost use Rattle.ec_check.specs.Fit.{IsFit};
ghost use Rattle.ec_check.specs.Facts.{IsWellPlaced};

/// Each active FMMU of a fit line is good and lies in one area of its kind; and the line has the facts that
/// the promises about cycles take.
pub fn fit_line()
    ensures placed { (line : List ControllerState) (slave number : ℕ) → IsFit line → HasFmmu line slave number
        → is_switched_on (fmmu_of line slave number) ≡ true
        → IsWellPlaced line slave (fmmu_of line slave number) }
    ensures facts { (line : List ControllerState) → AllByRecursion IsController line → IsFit line
        → IsFitLine line }
{}

/// Whether a line is fit hangs on its mapping alone: on each slave's station address and on the records of
/// its FMMUs and sync managers, but for the status bytes of these.
pub fn fit_by_mapping()
    ensures { (line later : List ControllerState) → mapping later ≡ mapping line → IsFit line → IsFit later }
{}

/// Whether a line is fit does not hang on the order of its slaves.
pub fn fit_in_any_order()
    ensures { (line later : List ControllerState) → IsPermutation line later → IsFit line → IsFit later }
{}

/// What an application does leaves the mapping of its controller: a step of its slave (`Slave::step`), AL
/// status and AL status code that it sets (`Controller::set_al`), inputs that it puts
/// (`Controller::put_inputs`), registers that it tells: DL information, DL status, counters of lost links,
/// and the slave information interface (`Controller::set_information`, `set_dl_status`, `set_lost_links`,
/// `set_sii`; IEC 61158-4-12, sync manager, and IEC 61158-6-12, AL management and CoE), and a mail that the
/// master has once more (`Controller::repeat_mail`, `tell_repeated`). The last two are moves, which leave all
/// that is shown and written, too.
pub fn mapping_lasts()
    ensures step { (s : SlaveState) → IsController s.controller
        → mapping_of (step s).controller ≡ mapping_of s.controller }
    ensures al { (c : ControllerState) (status : AlStatus) (code : ℕ) → IsController c
        → mapping_of (with_al c status code) ≡ mapping_of c }
    ensures inputs { (c : ControllerState) (sm : ℕ) (bytes : List ℕ) → IsController c
        → put_inputs_fault (sync_manager_at c.memory sm) bytes ≡ None
        → mapping_of (with_inputs c sm bytes) ≡ mapping_of c }
    ensures told { (c : ControllerState) (from : ℕ) (bytes : List ℕ) → IsController c
        → are_told from (length bytes) ≡ true → AreBytes bytes
        → mapping_of (with_registers c from bytes) ≡ mapping_of c }
    ensures moved { (c : ControllerState) (from : ℕ) (bytes : List ℕ) → IsController c → AreBytes bytes
        → are_told from (length bytes) ≡ true → HasMoved c (with_registers c from bytes) }
    ensures repeated { (c : ControllerState) (sm : ℕ) → IsController c → sm < 8
        → mapping_of (with_mail_repeated c sm) ≡ mapping_of c }
    ensures moved_by_repeat { (c : ControllerState) (sm : ℕ) → IsController c → sm < 8
        → HasMoved c (with_mail_repeated c sm) }
    ensures moved_by_telling { (c : ControllerState) (sm : ℕ) → IsController c → sm < 8
        → HasMoved c (with_repeat_told c sm) }
{}
