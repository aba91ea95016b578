//! The laws of slaves that are brought to a state, each the contract of a function that does nothing.

ghost use Rattle.std.specs.Prelude.{◌≡◌, ◌<◌, ◌≤◌, ℕ, Bool, false, List, [], ◌∷◌, Option, Result, Ok};
ghost use Rattle.std.specs.List.{AllByRecursion};
ghost use Rattle.ec_regs.specs.declared.al.AlState.{AlState};
ghost use Rattle.ec_regs.specs.declared.al.AlState.TheVariants.{Op};
ghost use Rattle.ec_regs.specs.declared.registers.TheConstants.{SYNC_MANAGER_COUNT};
ghost use Rattle.ec_regs.specs.declared.sync_man.SyncMan.{SyncMan};
ghost use Rattle.ec_areas.specs.Records.{sync_manager_at};
ghost use Rattle.ec_esc.specs.Application.{al_status};
ghost use Rattle.ec_app.specs.State.{SlaveState};
ghost use Rattle.ec_app.specs.declared.sdo.Sdo.TheVariants.{Upload, Download};
ghost use Rattle.ec_app.specs.declared.value.Value.{Value};
ghost use Rattle.ec_app.specs.declared.roles.TheConstants.{OUTPUTS};
ghost use Rattle.ec_ring.specs.Ring.{RingState, stepped};
ghost use Rattle.ec_master.specs.RingTrips.{RingTrips};
ghost use Rattle.ec_services.specs.Surely.{IsSure};
ghost use Rattle.ec_services.specs.Transfer.{uploading, downloading};
ghost use Rattle.ec_services.specs.declared.fault.MasterFault.{MasterFault};
ghost use Rattle.ec_services.specs.declared.mailbox.Peer.{Peer};
ghost use Rattle.ec_run.specs.Phase.{Brings, steps_of};
ghost use Rattle.ec_run.specs.Recovery.{IsRecovered};
ghost use Rattle.ec_run.specs.Step.{IsDone};
ghost use Rattle.ec_run.specs.Travels.{IsWithin};
ghost use Rattle.ec_run.specs.Wanted.{wanted_by};
ghost use Rattle.ec_run.specs.declared.phase.Phase.TheVariants as phase;
ghost use Rattle.ec_run.specs.declared.phase.StepFault.{StepFault};
ghost use Rattle.ec_run.specs.declared.recovery.Outcome.{Outcome};
ghost use Rattle.ec_run.specs.declared.recovery.Outcome.TheVariants.{Brought, Left};
ghost use Rattle.ec_run.specs.declared.recovery.Seen.{Seen};
ghost use Rattle.ec_run.specs.declared.step.Step.TheVariants.{State};
ghost use Rattle.ec_run.specs.declared.wanted.Wanted.{Wanted};
ghost use Rattle.ec_over_ring.specs.Brought.{AreAllIn, HasAreas, HaveAddresses, IsAloneIn, ReachesAll};
ghost use Rattle.ec_over_ring.specs.Fit.{CanStart, CanTake, HaveNoObjects, IsFitFor, NeedsSame, StandsFit};
ghost use Rattle.ec_over_ring.specs.Fit.{IsFree, Succeeds};
ghost use Rattle.ec_over_ring.specs.Started.{AreWanted, IsSetUp, IsWanted};
ghost use Rattle.ec_over_ring.specs.States.{HasStation};

/// A recovery (`ec_run::recover`) over a ring with at most one link down, of which nothing is lost. Where it
/// says that it has brought a slave to Op, one slave of the ring alone has that station address in the end,
/// and it is in Op without an error (`brought`), whatever the slaves had to do at first, in whatever states,
/// and whoever had which station. A slave that is in Op without an error and has its station alone is left
/// alone after one look, by which every slave has taken its step and nothing else has changed (`left`).
pub fn recovered()
    ensures brought { (place : ℕ) (wanted : Wanted) (tells_places : Bool) (seen : Seen) (r later : RingState)
        → ReachesAll r → wanted.station < 65536
        → IsRecovered RingTrips r place wanted tells_places (Brought seen) later
        → IsAloneIn Op wanted.station later }
    ensures left { (place : ℕ) (wanted : Wanted) (tells_places : Bool) (outcome : Outcome)
        (r later : RingState) (before : List SlaveState) (s : SlaveState) (behind : List SlaveState)
        → HasStation wanted.station r before s behind
        → al_status s.controller ≡ record { state = Op; error = false }
        → IsRecovered RingTrips r place wanted tells_places outcome later
        → (outcome ≡ Left) × (later ≡ stepped r) }
{}

/// A step that asks a slave for a state (`ec_run::Step::State`), over such a ring: where it is done, one
/// slave alone has that station address in the end, and it is in that state without an error.
pub fn entered()
    ensures { (place : ℕ) (wanted : Wanted) (state : AlState) (r later : RingState)
        → ReachesAll r → wanted.station < 65536
        → IsDone RingTrips r place wanted (State state) (Ok tt) later
        → IsAloneIn state wanted.station later }
{}

/// A line whose slaves are asked for a state one after the other (`ec_run::bring`), over such a ring: where
/// no step fails, all of them are in that state in the end, each without an error and alone with its station
/// address (`entered`), whoever had which station at first. A slave that came to it stays there while the
/// others are asked, whatever mails are in its mailboxes. So the last phase of a start-up (`bring_line` of
/// `Op`) leaves the whole line in Op, behind whatever trips the phases before it made (`in_op`).
pub fn line_entered()
    ensures entered { (place : ℕ) (line : List Wanted) (state : AlState) (r later : RingState)
        → ReachesAll r → HaveAddresses line
        → Brings RingTrips r place line (State state ∷ []) (Ok tt) later
        → AreAllIn state line later }
    ensures in_op { (trips : ℕ) (line : List Wanted) (r between later : RingState)
        → ReachesAll r → HaveAddresses line → IsWithin RingTrips trips r between
        → Brings RingTrips between 0 line (steps_of phase.Op) (Ok tt) later
        → AreAllIn Op line later }
{}

/// The last two phases of a start-up (`bring_line` of `SafeOp` and of `Op`), over such a ring, behind
/// whatever trips the phases before them made, of slaves that are wanted with station addresses that differ.
/// Where both end without a fault, each slave of the line alone has its station address in the end, is in Op
/// without an error, and its registers hold what was wanted: the start, length, control and switch of its
/// sync managers from number 2 on, and all bytes of its FMMUs. Each record stands since it was read back,
/// and no later step and no step of an application undoes it.
pub fn started_over_ring()
    ensures { (trips : ℕ) (line : List Wanted) (r in_pre_op in_safe_op later : RingState)
        → ReachesAll r → AreWanted line → IsWithin RingTrips trips r in_pre_op
        → Brings RingTrips in_pre_op 0 line (steps_of phase.SafeOp) (Ok tt) in_safe_op
        → Brings RingTrips in_safe_op 0 line (steps_of phase.Op) (Ok tt) later
        → AllByRecursion (IsSetUp later) line }
{}

/// A whole start-up over such a ring (`bring_line` of each phase) of slaves that each have their station
/// address alone, fit what is wanted of them, and take their startup objects. No step of any phase fails,
/// whatever state each slave was in at first, whatever error it told, and whatever mails were in its
/// mailboxes. In the end each is in Op without an error; all its records stand: its FMMUs, its sync managers
/// from number 2 on, and its mailboxes; and each object that its startup objects name has the value that the
/// last of them wants (`succeeds`).
///
/// A slave takes its startup objects where it has mailboxes, each object is there, may be written and has a
/// value of that size, and none of its sync managers for process data, as they are set at first, has a byte
/// of the mailboxes. One that is switched off, as all are when a slave is powered up, has none
/// (`switched_off`); and a line of which no startup object is wanted takes them all (`no_objects`).
pub fn start_succeeds()
    ensures succeeds { (line : List Wanted) (r in_init in_pre_op told in_safe_op later : RingState)
        (init pre_op startup safe_op op : Result (Unit {0}) StepFault)
        → ReachesAll r → AreWanted line → AllByRecursion (CanStart r) line
        → AllByRecursion (CanTake r) line
        → Brings RingTrips r 0 line (steps_of phase.Init) init in_init
        → Brings RingTrips in_init 0 line (steps_of phase.PreOp) pre_op in_pre_op
        → Brings RingTrips in_pre_op 0 line (steps_of phase.Startup) startup told
        → Brings RingTrips told 0 line (steps_of phase.SafeOp) safe_op in_safe_op
        → Brings RingTrips in_safe_op 0 line (steps_of phase.Op) op later
        → Succeeds line init pre_op startup safe_op op later }
    ensures no_objects { (line : List Wanted) (r : RingState) → AllByRecursion (CanStart r) line
        → HaveNoObjects line → AllByRecursion (CanTake r) line }
    ensures switched_off { (memory : List ℕ) (area : Option SyncMan)
        → ((n : ℕ) → OUTPUTS ≤ n → n < SYNC_MANAGER_COUNT → (sync_manager_at memory n).activate ≡ 0)
        → IsFree memory area }
{}

/// A call that recovers (`upload_surely` and `download_surely`) over such a ring leaves each slave of a line
/// that was started as it is, the one that is asked as well: in Op without an error, alone with its station
/// address, and with its FMMUs and the sync managers of its process data, whatever the call comes to and
/// whatever mails are in the mailboxes. All that it writes lies in process memory.
pub fn calls_leave_line()
    ensures upload { (peer peer_later : Peer) (index sub limit : ℕ) (result : Result Value MasterFault)
        (wanted : Wanted) (r later : RingState) → ReachesAll r → IsWanted wanted → HasAreas peer
        → IsSure RingTrips r peer (uploading index sub) limit result peer_later later
        → IsSetUp r wanted → IsSetUp later wanted }
    ensures download { (peer peer_later : Peer) (index sub : ℕ) (value : Value) (limit : ℕ)
        (result : Result (Unit {0}) MasterFault) (wanted : Wanted) (r later : RingState)
        → ReachesAll r → IsWanted wanted → HasAreas peer
        → IsSure RingTrips r peer (downloading index sub value) limit result peer_later later
        → IsSetUp r wanted → IsSetUp later wanted }
{}

/// What is read off a slave that stands as it is to be (`ec_run::Wanted::of`) fits each slave whose
/// application needs the same, as `start_succeeds` asks: say the one that it is read off, in whatever state
/// and with whatever records it is found later. It is of a station address and of records that registers can
/// hold, and asks for no startup object.
pub fn read_off_fits()
    ensures fits { (s t : SlaveState) → StandsFit s → NeedsSame s t → IsFitFor (wanted_by s) t }
    ensures wanted { (s : SlaveState) → StandsFit s → IsWanted (wanted_by s) }
    ensures objects { (s : SlaveState) → HaveNoObjects (wanted_by s ∷ []) }
{}
