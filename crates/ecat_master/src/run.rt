//! A master that runs: the start-up of a line, and then cycle after cycle.

ghost use Rattle.std.specs.Prelude.{◌≡◌, ◌≢◌, ◌-◌, ◌*◌, ◌<◌, ◌⊎◌, ◌&&◌, ℕ, Ok, Err, IfOk, IsOk, Option};
ghost use Rattle.std.specs.Prelude.{false, length, true};
ghost use Rattle.ec_run.specs.declared.cycles.TheConstants.{MOST_CYCLES};
ghost use Rattle.ec_run.specs.Cycles.{AddUp, End};
ghost use Rattle.ec_run.specs.Travels.{IsWithin};
ghost use Rattle.ec_run.specs.Watched.{PortsTrip};
ghost use Rattle.ecat_master.specs.Course.{IsCourse, IsRound, sides_of, round_trips};
ghost use Rattle.ecat_master.specs.Ended.{IsEnded, HasStatus, is_well};
ghost use Rattle.ecat_master.specs.Exits.{asked_status, start_status};
ghost use Rattle.ecat_master.specs.GoodRun.{EndsGood, IsGoodRun};
ghost use Rattle.ecat_master.specs.Last.{in_op, status_told};
ghost use Rattle.ecat_master.specs.Over.{IsOver, ends_well};
ghost use Rattle.ecat_master.specs.Start.{IsCaused, IsStarted};
ghost use Rattle.ecat_master.specs.declared.run.StartFailure.TheVariants.{Told};
ghost use Rattle.ecat_master.specs.declared.startup.StartFault.{StartFault};
ghost use Rattle.ecat_master.specs.declared.teller.Unwritten.{Unwritten};
ghost use Rattle.ecat_master.specs.declared.run.TheConstants.{FAILED, GOOD};

use crate::identity::Identity;
use crate::known::{Known, ToldOf, failures_of};
use crate::late::CycleTrips;
use crate::leaving::{Left, leave_line, leave_of, put_left};
use crate::pace::Pace;
use crate::ports::{put_failing, put_failures};
use crate::startup::{StartEnd, StartFault, put_start_fault, start};
use crate::task::{Task, report_of, take_outputs};
use crate::teller::{Teller, Unwritten};
use crate::telling::{CycleEnd, Images, put_counts, tell_image};
use ec_diag::Located;
use ec_master::{CycleFault, Verdict, Work};
use ec_regs::AlState;
use ec_ring::{HeardPorts, LateCopies, MAX_SLAVES, Port};
use ec_run::{Counts, Cycles, MOST_CYCLES, Outputs, Rooms, Wanted, Watched, tells_all_in_op};
use ec_services::MasterFault;
use ecat_text::Lines;
use std::io::{self, Write};

/// The exit status where all went well.
pub const GOOD: u8 = 0;

/// The exit status where the line could not be started, or the last cycle was not good.
pub const REFUSED: u8 = 1;

/// The exit status where a port or the output failed.
pub const FAILED: u8 = 3;

/// How a master runs.
#[derive(Clone, Copy)]
pub struct Plan<'a> {
    /// What the items of each cycle send.
    pub outputs: Outputs<'a>,
    /// Whether the first cycle that is not good is the last one.
    pub stop: bool,
    /// Whether slaves that have left Op are brought up again.
    pub recover: bool,
    /// How often AL status of such a slave is read at the most for a state that it is asked for, once behind
    /// each cycle; then it counts as one that cannot be brought up.
    pub tries: u32,
    /// Whether a line of progress is written every second.
    pub progress: bool,
    /// Whether a line is written into the log for every cycle.
    pub log: bool,
    /// Whether that line has what the items sent, and what they hold behind the cycle.
    pub log_images: bool,
    /// Whether the first line of the log that cannot be written ends the run; else that is told, once, and
    /// the cycles go on without a log.
    pub log_or_stop: bool,
    /// Whether the last item of the work reads the states of all slaves (`ec_run::states_item`).
    pub states: bool,
    /// Who the slaves are to be, by their places; nobody in particular where it is shorter than the line.
    pub identities: &'a [Identity],
    /// The names of the slaves, by their places, as messages tell them; one without a name has an empty one,
    /// or stands behind as many slaves as there are.
    pub names: &'a [String],
    /// The state in which the slaves are left at the end; `None` leaves them as they are.
    pub leave: Option<AlState>,
    /// Whether the task may say another one.
    pub leave_by_task: bool,
}

/// Do the last good cycle's answers tell that all slaves are in Op? Where cycles don't tell the states,
/// nothing speaks against it.
fn in_op(states: bool, image: &Option<Work>) -> bool
    ensures { result ≡ in_op states image.now }
{
    match image {
        Some(image) if states => tells_all_in_op(image),
        Some(_) => true,
        None => !states,
    }
}

/// How a master runs on a line.
#[derive(Clone, Copy)]
pub struct LinePlan<'a> {
    /// What the slaves are to be told, by their places.
    pub line: &'a [Wanted],
    /// What the counters of a cycle's items are to gain, in their order.
    pub expected: &'a [u16],
    /// How it runs.
    pub plan: &'a Plan<'a>,
}

/// How a round has ended: a cycle, and what was done behind it.
#[derive(Clone, Copy)]
struct Rounded {
    /// How the cycle ended.
    ended: Result<Verdict, CycleFault>,
    /// Whether it is to be the last one; or what could not be written of it.
    told: Result<bool, Unwritten>,
}

impl LinePlan<'_> {
    /// How many items of a cycle are the scene's: the read of the states behind them is not.
    pub(crate) fn items(&self) -> usize {
        self.expected
            .len()
            .saturating_sub(usize::from(self.plan.states))
    }

    /// Makes one round: the outputs of the task are taken, a cycle is made, the task is told what it came to,
    /// and then the others are, while the cable or a slave may be looked at.
    fn round<P, T, D, W, V, L>(
        &self,
        cycles: &mut Cycles,
        rooms: &mut Rooms,
        ports: &mut Watched<P>,
        pace: &mut T,
        task: &mut D,
        teller: &mut Teller<'_, W, V, L>,
    ) -> Rounded
    where
        P: HeardPorts,
        T: Pace,
        D: Task,
        W: Write,
        V: Write,
        L: Write,
        requires items { length self.now.expected.now ≡ length cycles.old.asked }
        requires room { cycles.old.counts.cycles < MOST_CYCLES }
        requires sum { AddUp cycles.old.counts }
        ensures round { IsRound (sides_of P.trips D.listens D.held T.over) self.now cycles.old ports.old
            result.ended cycles.new ports.new }
        ensures adds_up { AddUp cycles.new.counts }
        ensures stops { result.told ≡ Ok true → (self.now.plan.now.stop ≡ true)
            × (ends_well result.ended (in_op self.now.plan.now.states cycles.new.image) ≡ false) }
    {
        let began = pace.now();
        let late = pace.late();
        teller
            .lateness
            .take(cycles.counts.cycles, late, pace.missed());
        take_outputs(task, cycles);
        let first = ports.trips_made();
        ports.begin_cycle(teller.time_left(pace.left(), pace.spare()));
        let ended = cycles.cycle_in(ports, self.plan.outputs, self.expected, rooms);
        let late_copies = end_cycle(ports);
        let at = pace.now();
        let trips = CycleTrips {
            first,
            behind: ports.trips_made(),
            began,
        };
        let end = CycleEnd {
            ended,
            in_op: in_op(self.plan.states, &cycles.image),
            at,
            unsure: teller.take_cycle(cycles.counts, trips, late_copies, at, ended, self.plan),
        };
        task.report(&report_of(cycles, end, late, self.items(), ports));
        teller.acyclic.begin(task, self.line, self.plan.tries);
        let images = images_of(rooms, cycles);
        let told = teller.follow(cycles.counts, end, ports, self, images);
        teller.acyclic.tell(task);
        let failures = failures_of(ports);
        let told = self.answered(told, cycles, rooms, failures, task, teller);
        Rounded { ended, told }
    }

    /// Has a task answer behind a round, and answers what was told of that: what could not be written of
    /// answers is of the output. So often a send or a receive has failed at port A, and at port B.
    fn answered<D, W, V, L>(
        &self,
        told: Result<bool, Unwritten>,
        cycles: &Cycles,
        rooms: &Rooms,
        failures: [u64; 2],
        task: &mut D,
        teller: &mut Teller<'_, W, V, L>,
    ) -> Result<bool, Unwritten>
    where
        D: Task,
        W: Write,
        V: Write,
        L: Write,
        ensures last { result ≡ Ok true → told ≡ Ok true }
        ensures told { (result ≡ told) ⊎ ((why : Unwritten) × (result ≡ Err why)) }
    {
        let told_of = ToldOf {
            tells_states: self.plan.states,
            states: &teller.states,
            took: &teller.took,
            lateness: &teller.lateness,
            late_copies: &teller.late_copies,
        };
        let known = Known {
            items: self.items(),
            images: images_of(rooms, cycles),
            counts: cycles.counts,
            line: self.line,
            cable: teller.told.cable(),
            told: told_of,
            failures,
        };
        let _ = task.show(&known, &mut teller.err);
        match task.answer(&known, &mut teller.out) {
            Ok(()) => told,
            Err(_) => Err(Unwritten::Output),
        }
    }
}

/// What a log may have of a cycle: its items as they went out, and what the last good one left of them.
fn images_of<'a>(rooms: &'a Rooms, cycles: &'a Cycles) -> Images<'a> {
    Images {
        sent: rooms.sent(),
        image: cycles.image.as_ref(),
    }
}

/// Makes cycle after cycle, as long as the pace has another one, with the outputs of a task, and tells of
/// them; between two cycles the cable or a slave may be looked at. It answers how the last one ended; nothing
/// where there was none. An error is one of `out` or of the log. A cycle is the last one only for a cause
/// (`over`): the pace has no other, as many were made as are counted, it did not end well and the plan wants
/// that to be the end, or it could not be written what it came to.
pub fn run_cycles<P, T, D, W, V, L>(
    cycles: &mut Cycles,
    ports: &mut Watched<P>,
    line_plan: &LinePlan<'_>,
    pace: &mut T,
    task: &mut D,
    teller: &mut Teller<'_, W, V, L>,
) -> Result<Option<Result<Verdict, CycleFault>>, Unwritten>
where
    P: HeardPorts,
    T: Pace,
    D: Task,
    W: Write,
    V: Write,
    L: Write,
    requires items { length line_plan.now.expected.now ≡ length cycles.old.asked }
    requires sum { AddUp cycles.old.counts }
    ensures adds_up { AddUp cycles.new.counts }
    ensures asked { length cycles.new.asked ≡ length cycles.old.asked }
    ensures course { (last : Option End) × IsCourse (sides_of P.trips D.listens D.held T.over) line_plan.now
        cycles.old ports.old last cycles.new ports.new }
    ensures last { IfOk result (λ last. IsCourse (sides_of P.trips D.listens D.held T.over) line_plan.now
        cycles.old ports.old last cycles.new ports.new) }
    ensures over { IsOver T.over line_plan.now.plan.now pace.new result cycles.new }
    ensures trips { IsWithin (PortsTrip P.trips) ((cycles.new.counts.cycles - cycles.old.counts.cycles)
        * round_trips (length cycles.old.asked) line_plan.now.plan.now.stop) ports.old.ports ports.new.ports }
{
    let made = make_rounds(cycles, ports, line_plan, pace, task, teller);
    pace.end();
    teller.acyclic.give_up();
    teller.acyclic.tell(task);
    close(made, line_plan, teller)
}

/// Tells, behind cycles that could be written, what is not told yet, and answers how they ended.
fn close<W: Write, V: Write, L: Write>(
    made: Result<Option<Result<Verdict, CycleFault>>, Unwritten>,
    line_plan: &LinePlan<'_>,
    teller: &mut Teller<'_, W, V, L>,
) -> Result<Option<Result<Verdict, CycleFault>>, Unwritten>
    ensures { (result ≡ made) ⊎ ((why : Unwritten) × (result ≡ Err why)) }
{
    if made.is_ok()
        && let Err(unwritten) = teller.close(line_plan)
    {
        return Err(unwritten);
    }
    made
}

/// Makes round after round, as long as the pace has another cycle and none is to be the last one, and answers
/// how the last cycle ended.
fn make_rounds<P, T, D, W, V, L>(
    cycles: &mut Cycles,
    ports: &mut Watched<P>,
    line_plan: &LinePlan<'_>,
    pace: &mut T,
    task: &mut D,
    teller: &mut Teller<'_, W, V, L>,
) -> Result<Option<Result<Verdict, CycleFault>>, Unwritten>
where
    P: HeardPorts,
    T: Pace,
    D: Task,
    W: Write,
    V: Write,
    L: Write,
    requires items { length line_plan.now.expected.now ≡ length cycles.old.asked }
    requires sum { AddUp cycles.old.counts }
    ensures adds_up { AddUp cycles.new.counts }
    ensures course { (last : Option End) × IsCourse (sides_of P.trips D.listens D.held T.over) line_plan.now
        cycles.old ports.old last cycles.new ports.new }
    ensures last { IfOk result (λ last. IsCourse (sides_of P.trips D.listens D.held T.over) line_plan.now
        cycles.old ports.old last cycles.new ports.new) }
    ensures over { IsOver T.over line_plan.now.plan.now pace.new result cycles.new }
{
    let mut last = None;
    let mut rooms = Rooms::new();
    while is_due(cycles.counts, pace) {
        let round = line_plan.round(cycles, &mut rooms, ports, pace, task, teller);
        last = Some(round.ended);
        match round.told {
            Ok(false) => {}
            Ok(true) => return Ok(last),
            Err(unwritten) => return Err(unwritten),
        }
    }
    Ok(last)
}

/// Is another cycle due? None is where as many were counted as can be.
fn is_due<T: Pace>(counts: Counts, pace: &mut T) -> bool
    ensures due { result ≡ true → counts.cycles < MOST_CYCLES }
    ensures over { result ≡ false → (counts.cycles ≡ MOST_CYCLES) ⊎ T.over pace.new }
{
    counts.cycles < MOST_CYCLES && pace.next()
}

/// Tells the ports that a cycle is over, and answers which copies came late.
fn end_cycle<P: HeardPorts>(ports: &mut Watched<P>) -> LateCopies
    ensures { ports.new ≡ ports.old }
{
    ports.end_cycle();
    ports.take_late()
}

/// The exit status of cycles of which the last one ended so, where its answers tell that all slaves are in Op
/// or don't.
fn status_of(last: Option<Result<Verdict, CycleFault>>, in_op: bool) -> u8
    ensures { result ≡ status_told last in_op }
{
    match last {
        None => GOOD,
        Some(Ok(Verdict::Good)) if in_op => GOOD,
        Some(Ok(_)) | Some(Err(CycleFault::Stranger)) => REFUSED,
        Some(Err(CycleFault::Port)) => FAILED,
    }
}

/// The exit status of cycles of which the last one ended so, where the slaves were left as they were to be or
/// not.
fn status_where(last: Option<Result<Verdict, CycleFault>>, left: Left, in_op: bool) -> u8
    ensures status { result ≡ status_told last (is_well left && in_op) }
    ensures good { result ≡ GOOD → status_told last in_op ≡ GOOD }
{
    status_of(last, left.is_well() && in_op)
}

/// The exit status of a question without an answer.
fn asked_status(fault: MasterFault) -> u8
    ensures status { result ≡ asked_status fault }
    ensures never_good { result ≢ GOOD }
{
    match fault {
        MasterFault::Port => FAILED,
        MasterFault::NoSlave
        | MasterFault::Refused(_)
        | MasterFault::Abort(_)
        | MasterFault::NoAnswer
        | MasterFault::BadAnswer
        | MasterFault::Broken
        | MasterFault::Stranger => REFUSED,
    }
}

/// The exit status of a line that could not be started.
fn status_of_start(fault: &StartFault) -> u8
    ensures status { result ≡ start_status fault.now }
    ensures never_good { result ≢ GOOD }
{
    match fault {
        StartFault::Ask(fault) => asked_status(*fault),
        StartFault::Step(failed) => asked_status(failed.fault),
        StartFault::Identity(slave) => match slave.found {
            Ok(_) => REFUSED,
            Err(fault) => asked_status(fault),
        },
        StartFault::Count(_) | StartFault::Cable(_) => REFUSED,
    }
}

/// To whom a master tells what goes on.
#[derive(Drop)]
pub struct Writers<'a, W, V, L> {
    /// A line for each part of the start-up and for what changes while the cycles run, and at the end how
    /// many there were and the last image.
    pub out: &'a mut W,
    /// The progress, and what could not be written elsewhere.
    pub err: &'a mut V,
    /// A line for every cycle, where the plan says so.
    pub log: &'a mut L,
}

/// Brings up a line over two ports and makes cycle after cycle, leaves the slaves in the state of the plan,
/// and answers the exit status (`GOOD`, `REFUSED`, `FAILED`). `work` is what each cycle asks. Its cycles
/// serve `task`: they send the outputs that it holds, and it is told what each of them came to.
///
/// `GOOD` says that the line was started, that cycles were made from there on, and that the last one was good
/// with all slaves in Op (`good`). Each status has its cause (`ended`): what could not be written, the fault
/// of a line that was not started, or else how the last cycle ended, and how the slaves were left behind it.
pub fn master<P, T, D, W, V, L>(
    ports: P,
    work: Work,
    line_plan: &LinePlan<'_>,
    pace: &mut T,
    task: &mut D,
    writers: Writers<'_, W, V, L>,
) -> u8
where
    P: HeardPorts + Drop,
    T: Pace,
    D: Task,
    W: Write,
    V: Write,
    L: Write,
    requires { length line_plan.now.expected.now ≡ length work }
    ensures good { result ≡ GOOD
        → IsGoodRun (sides_of P.trips D.listens D.held T.over) ports work line_plan.now }
    ensures ended { IsEnded (sides_of P.trips D.listens D.held T.over) ports work line_plan.now result }
{
    let Writers { out, err, log } = writers;
    let mut ports = Watched::new(ports);
    let names = line_plan.plan.names;
    let cable = match begin(&mut ports, line_plan, &mut Lines::named(out, names)) {
        Ok(cable) => cable,
        Err(StartFailure::Told(status)) => return status,
        Err(StartFailure::Output) => return output_failed(err),
    };
    let mut cycles = Cycles::new(work);
    let out = Lines::named(out, names);
    let mut teller = Teller::new(out, Lines::new(err), Lines::new(log), cable);
    let ran = run_cycles(&mut cycles, &mut ports, line_plan, pace, task, &mut teller);
    let leave = leave_of(line_plan.plan, task);
    let left = leave_line(&mut ports, leave, line_plan.line.len());
    conclude(ran, left, &cycles, line_plan, &ports, &mut teller)
}

/// Why a master ends before its first cycle.
#[derive(Clone, Copy)]
enum StartFailure {
    /// It is told, and this is the exit status.
    Told(u8),
    /// The output could not be written.
    Output,
}

/// Brings up a line, and answers where its cable is broken; or how it ended, once the fault is told.
fn begin<P: HeardPorts, W: Write>(
    ports: &mut Watched<P>,
    line_plan: &LinePlan<'_>,
    lines: &mut Lines<'_, W>,
) -> Result<Located, StartFailure>
    ensures started { IfOk result (λ cable. IsStarted P.trips ports.old line_plan.now.line.now
        line_plan.now.plan.now.identities.now cable ports.new) }
    ensures told { (status : ℕ) → result ≡ Err (Told status) → status ≢ GOOD }
    ensures by_fault { (status : ℕ) → result ≡ Err (Told status) → (fault : StartFault)
        × IsCaused P.trips ports.old line_plan.now.line.now line_plan.now.plan.now.identities.now fault
        × (status ≡ start_status fault) }
{
    let line = line_plan.line;
    match start(ports, line, line_plan.plan.identities, lines) {
        Ok(cable) => Ok(cable),
        Err(StartEnd::Output) => Err(StartFailure::Output),
        Err(StartEnd::Fault(fault)) => match put_failed_start(ports, &fault, line, lines) {
            Ok(()) => Err(StartFailure::Told(status_of_start(&fault))),
            Err(_) => Err(StartFailure::Output),
        },
    }
}

/// Tells of each port that fails, and then the fault of a start.
fn put_failed_start<P: HeardPorts, W: Write>(
    ports: &Watched<P>,
    fault: &StartFault,
    line: &[Wanted],
    lines: &mut Lines<'_, W>,
) -> io::Result<()> {
    for port in [Port::A, Port::B] {
        if let Some(error) = ports.health(port).error {
            put_failing(port, error, lines)?;
            lines.end()?;
        }
    }
    put_start_fault(ports, fault, line, lines)
}

/// Tells that the output cannot be written, and answers the exit status.
fn output_failed<V: Write>(err: &mut V) -> u8
    ensures { result ≡ FAILED }
{
    let _ = err.write_all(b"output: Write\n");
    FAILED
}

/// Tells how a run ended: whether the slaves were left as they were to be, how many cycles there were and how
/// long they took, and the last image. What could not be written is named on what is left, with the sums.
fn conclude<P: HeardPorts, W: Write, V: Write, L: Write>(
    ran: Result<Option<Result<Verdict, CycleFault>>, Unwritten>,
    left: Left,
    cycles: &Cycles,
    line_plan: &LinePlan<'_>,
    ports: &Watched<P>,
    teller: &mut Teller<'_, W, V, L>,
) -> u8
    ensures good { result ≡ GOOD
        → IfOk ran (λ last. EndsGood last line_plan.now.plan.now cycles.now) }
    ensures ran { result ≡ GOOD → IsOk ran }
    ensures told { HasStatus ran (is_well left && in_op line_plan.now.plan.now.states cycles.now.image)
        result }
{
    let plan = line_plan.plan;
    if ran != Err(Unwritten::Output) && put_end(left, cycles, line_plan, ports, teller).is_ok() {
        return match ran {
            Ok(_) if !teller.is_logged() => FAILED,
            Ok(last) => status_where(last, left, in_op(plan.states, &cycles.image)),
            Err(_) => {
                let _ = put_unwritten("log: Write", &mut teller.err);
                FAILED
            }
        };
    }
    let not_in_op = teller.states.cycles_if(plan.states);
    let _ = put_unwritten("output: Write", &mut teller.err);
    let _ = put_sum(cycles, not_in_op, &mut teller.err);
    FAILED
}

/// Writes what could not be written.
fn put_unwritten<W: Write>(what: &str, lines: &mut Lines<'_, W>) -> io::Result<()> {
    lines.text(what)?;
    lines.end()
}

/// Writes in which state the slaves were left, how many cycles there were, how long they took, and the last
/// image.
fn put_end<P: HeardPorts, W: Write, V: Write, L: Write>(
    left: Left,
    cycles: &Cycles,
    line_plan: &LinePlan<'_>,
    ports: &Watched<P>,
    teller: &mut Teller<'_, W, V, L>,
) -> io::Result<()> {
    let states = line_plan.plan.states;
    let not_in_op = teller.states.cycles_if(states);
    let lines = &mut teller.out;
    put_left(left, lines)?;
    put_sum(cycles, not_in_op, lines)?;
    if teller.took.put("cycle time", lines)? {
        lines.end()?;
    }
    teller.lateness.put(lines)?;
    teller.late_copies.put(lines)?;
    put_failures(ports, lines)?;
    match &cycles.image {
        Some(image) => tell_image(image, line_plan.expected, states, lines),
        None => Ok(()),
    }
}

/// Writes how many cycles there were.
fn put_sum<W: Write>(
    cycles: &Cycles,
    not_in_op: Option<u64>,
    lines: &mut Lines<'_, W>,
) -> io::Result<()> {
    put_counts(cycles.counts, not_in_op, lines)?;
    lines.end()
}
