//! `ecat master`: what its words say, and what it opens.

ghost use Rattle.std.specs.Prelude.{◌≡◌, ◌||◌, IfOk, None, Ok, Some, false, is_none, is_some};
ghost use Rattle.std.specs.Option.{unwrap_or};
ghost use Rattle.ec_regs.specs.declared.al.AlState.TheVariants.{Init};
ghost use Rattle.ec_run.specs.declared.step.TheConstants.{MOST_READS};
ghost use Rattle.ecat_acts.specs.Progress.{tells_lines, usual_progress};

use crate::console::Console;
use crate::controlling::run_controlled;
use crate::course::course_of;
use crate::failure::{Failure, report, report_file};
use crate::images::images_at;
use crate::patience::{Impatient, tell_left_out};
use crate::progress::{Progress, progress_by, recent_of};
use crate::remote::{left_in, patience, reach_of, tell_late};
use crate::tape::{Pcap, end_unawaited, unawaited_at};
use ec_regs::AlState;
use ec_run::{Image, MOST_READS, Outputs};
use ecat_args::MasterWords;
use ecat_control as control;
use ecat_course::{Course, act_master};
use ecat_door::{DoorTask, MOST_ANSWER, Text};
use ecat_events::{Counted, Objects, Telling, Voice, room_if, told_if};
use ecat_master::{Pace, Plan, Task, Writers};
use ecat_pace::{Beat, Ending};
use ecat_reach::{Reach, open_ports};
use ecat_record::{Moments, Recorder};
use ecat_remote::{Carrier, RemotePorts, Timer};
use ecat_scene::{Scene, SceneFault};
use ecat_screen::{Kept, Shared, Watching};
use ecat_setup::LineFailure;
use ecat_stamps::{Stamped, Utc};
use ecat_task::{Rest, TaskFault, Terms, UdpTask};
use ecat_text::Lines;
use ecat_unblocking::{AT_ONCE, Behind, Screen, Unblocking, never_waits};
use std::cell::Cell;
use std::net::Net;
use std::os::fd::AsRawFd;
use std::random::RandomSource;
use std::rt::{Clock, Files, Stdin};
use std::time::Duration;
use std::{fs, io};

/// What the words of `master` say but for its scene.
#[derive(Clone, Copy)]
pub(crate) struct Running<'a> {
    /// How the line is reached.
    reach: Reach<'a>,
    /// After how many cycles it ends; with the input where there is none.
    cycles: Option<u32>,
    /// Whether it ends with the input too where it ends after so many cycles.
    until_end: bool,
    /// How many microseconds lie between the beginnings of cycles.
    every: Option<u32>,
    /// Whether it never sleeps while it waits.
    busy: bool,
    /// For how many microseconds copies are waited for, where the words say so.
    limit: Option<u32>,
    /// What the outputs are: `count`, or the path of a file.
    outputs: Option<&'a str>,
    /// The path of a file that gets a line for each cycle.
    log: Option<&'a str>,
    /// Whether that line has what the cycle sent and took.
    log_images: bool,
    /// Whether it ends where the log cannot be written.
    log_or_stop: bool,
    /// Whether each line that it writes and logs begins with the time.
    is_stamped: bool,
    /// Whether what it tells are objects of JSON.
    pub(crate) json: bool,
    /// The program that gives the outputs, if there is one.
    program: Option<Program<'a>>,
    /// Whether it ends at the first cycle that is not good.
    stop: bool,
    /// Whether slaves are brought up again.
    recover: bool,
    /// How often a state that they are asked for is read at the most.
    tries: u32,
    /// What standard error is told of its cycles.
    progress: Progress,
    /// The state in which the slaves are left.
    leave: Option<AlState>,
    /// Whether lines of the input are done between its cycles.
    pub(crate) control: bool,
    /// Where each copy is kept.
    pcap: Option<Pcap<'a>>,
}

impl<'w> Running<'w> {
    /// What the words say at this console, unless they do not say how the line is reached, or name no state.
    fn of(words: &MasterWords<'w>, console: &Console) -> Result<Running<'w>, Failure>
        ensures cycles { IfOk result (λ running. running.cycles ≡ words.now.cycles) }
        ensures until_end { IfOk result (λ running. running.until_end ≡ words.now.until_end) }
        ensures every { IfOk result (λ running. running.every ≡ words.now.every) }
        ensures busy { IfOk result (λ running. running.busy ≡ words.now.busy) }
        ensures limit { IfOk result (λ running. running.limit ≡ words.now.limit) }
        ensures outputs { IfOk result (λ running. running.outputs ≡ words.now.outputs) }
        ensures log { IfOk result (λ running. running.log ≡ words.now.log) }
        ensures log_images { IfOk result (λ running. running.log_images ≡ words.now.log_images) }
        ensures log_or_stop { IfOk result (λ running. running.log_or_stop ≡ words.now.log_or_stop) }
        ensures unstamped { words.now.clock ≡ None → IfOk result (λ running. running.is_stamped ≡ false) }
        ensures json { IfOk result (λ running. running.json ≡ words.now.json) }
        ensures stop { IfOk result (λ running. running.stop ≡ words.now.stop) }
        ensures recover { IfOk result (λ running. running.recover ≡ words.now.recover) }
        ensures tries { IfOk result (λ running. running.tries ≡ unwrap_or words.now.tries MOST_READS) }
        ensures progress { words.now.progress ≡ None → IfOk result (λ running. running.progress
            ≡ usual_progress console.now.is_watched words.now.control) }
        ensures leave { words.now.leave ≡ None → IfOk result (λ running. running.leave ≡ Some Init) }
        ensures control { IfOk result (λ running. running.control ≡ words.now.control) }
        ensures pcap { IfOk result (λ running. is_some running.pcap ≡ is_some words.now.pcap) }
    {
        let reach = reach_of(words.at, words.raw)?;
        let leave = left_in(words.leave)?;
        let program = program_of(words)?;
        let tries = tries_of(words)?;
        let is_stamped = stamped_by(words.clock)?;
        let progress = progress_by(words.progress, console.is_watched, words.control)?;
        Ok(Running {
            reach,
            cycles: words.cycles,
            until_end: words.until_end,
            every: words.every,
            busy: words.busy,
            limit: words.limit,
            outputs: words.outputs,
            log: words.log,
            log_images: words.log_images,
            log_or_stop: words.log_or_stop,
            is_stamped,
            json: words.json,
            program,
            stop: words.stop,
            recover: words.recover,
            tries,
            progress,
            leave,
            control: words.control,
            pcap: Pcap::of(words.pcap, words.force),
        })
    }

    /// Does it end with the input? It does where it is not to end after so many cycles, or where it is to end
    /// with both. Who is spoken to by the input ends with it in any case: its task sees that.
    fn ends_with_input(&self) -> bool
        ensures { result ≡ (is_none self.now.cycles || self.now.until_end) }
    {
        self.cycles.is_none() || self.until_end
    }

    /// How a master runs that has these outputs. Whether cycles tell the states, and who the slaves are to
    /// be, is said by its course.
    fn plan<'a>(&self, outputs: Outputs<'a>) -> Plan<'a>
        ensures outputs { result.outputs ≡ outputs.entry }
        ensures stop { result.stop ≡ self.now.stop }
        ensures recover { result.recover ≡ self.now.recover }
        ensures tries { result.tries ≡ self.now.tries }
        ensures progress { result.progress ≡ tells_lines self.now.progress }
        ensures log { result.log ≡ is_some self.now.log }
        ensures log_images { result.log_images ≡ self.now.log_images }
        ensures log_or_stop { result.log_or_stop ≡ self.now.log_or_stop }
        ensures leave { result.leave ≡ self.now.leave }
        ensures leave_by_task { result.leave_by_task ≡ self.now.control }
    {
        Plan {
            outputs,
            stop: self.stop,
            recover: self.recover,
            tries: self.tries,
            progress: self.progress == Progress::Lines,
            log: self.log.is_some(),
            log_images: self.log_images,
            log_or_stop: self.log_or_stop,
            states: false,
            identities: &[],
            names: &[],
            leave: self.leave,
            leave_by_task: self.control,
        }
    }
}

/// A program that gives the outputs of a master, as words say it.
#[derive(Clone, Copy)]
struct Program<'a> {
    /// Where it speaks, `HOST:PORT`.
    address: &'a str,
    /// Whether other machines may reach that address.
    is_open: bool,
    /// After how many cycles without a packet its outputs are stale.
    stale_after: Option<u32>,
    /// What they become then.
    rest: Rest,
}

impl Program<'_> {
    /// The terms of a program that gives so many bytes of outputs.
    fn terms(&self, count: usize) -> Terms {
        Terms {
            count,
            stale_after: self.stale_after,
            rest: self.rest,
            is_open: self.is_open,
        }
    }
}

/// The program that the words name, if they name one.
fn program_of<'w>(words: &MasterWords<'w>) -> Result<Option<Program<'w>>, Failure> {
    let rest = match words.io_rest {
        None | Some("kept") => Rest::Kept,
        Some("zeros") => Rest::Zeros,
        Some("safe-op") if words.recover => return Err(Failure::RestRecovers),
        Some("safe-op") => Rest::SafeOp,
        Some(_) => return Err(Failure::Rest),
    };
    match words.io {
        Some(_) if words.outputs.is_some() => Err(Failure::TwoOutputs),
        _ if words.control && (words.io.is_some() || words.outputs.is_some()) => {
            Err(Failure::ControlOutputs)
        }
        Some(address) => Ok(Some(Program {
            address,
            is_open: words.io_open,
            stale_after: words.io_stale,
            rest,
        })),
        None if words.io_open || words.io_stale.is_some() || words.io_rest.is_some() => {
            Err(Failure::IoAlone)
        }
        None => Ok(None),
    }
}

/// How often a state of a slave that is brought up again is read at the most, as the words say.
fn tries_of(words: &MasterWords<'_>) -> Result<u32, Failure>
    ensures { IfOk result (λ tries. tries ≡ unwrap_or words.now.tries MOST_READS) }
{
    match words.tries {
        Some(_) if !words.recover => Err(Failure::TriesAlone),
        Some(tries) => Ok(tries),
        None => Ok(MOST_READS),
    }
}

/// Does the time of the clock stand there, as a word says? Where there is none it does not.
pub(crate) fn stamped_by(word: Option<&str>) -> Result<bool, Failure>
    ensures usual { word.entry ≡ None → result ≡ Ok false }
{
    match word {
        None | Some("none") => Ok(false),
        Some("utc") => Ok(true),
        Some(_) => Err(Failure::Stamps),
    }
}

/// What time it is from now on, where lines begin with it.
fn utc_of<R: Clock>(clock: &R, is_stamped: bool) -> io::Result<Option<Utc<'_, R>>> {
    if is_stamped {
        Ok(Some(Utc::begin(clock)?))
    } else {
        Ok(None)
    }
}

/// What the outputs of a master are to be: those of its scene, a number that grows, or these images.
fn outputs_of<'a>(word: Option<&str>, images: &'a [Image]) -> Outputs<'a> {
    match word {
        None => Outputs::Kept,
        Some(word) if word == "count" => Outputs::Count,
        Some(_) => Outputs::Images(images),
    }
}

/// The images of so many bytes that a word names by a file, if it names one; the exit status where they could
/// not be had.
fn images_of<R, W, V>(
    rt: &R,
    word: Option<&str>,
    length: usize,
    out: &mut W,
    err: &mut V,
) -> Result<Vec<Image>, u8>
where
    R: Files + AllocGlobal,
    W: io::Write,
    V: io::Write,
{
    match word {
        Some(path) if path != "count" => images_at(rt, path, length, out, err),
        _ => Ok(Vec::new(rt.alloc())),
    }
}

/// What a master has of its console while it runs: the input, how patient its writers are, whether their
/// lines are its own, which may begin with the time, or answers, and the last lines for a page.
#[derive(Drop)]
pub(crate) struct Attended<'p, 'o, 'c> {
    pub(crate) input: Stdin,
    pub(crate) is_patient: &'p Cell<bool>,
    pub(crate) are_own: &'o Cell<bool>,
    /// Whether what is written are objects already.
    pub(crate) are_objects: &'o Cell<bool>,
    pub(crate) recent: &'c Shared,
}

/// Brings the line of a scene to Op, as the words of `master` say, and answers the exit status. No cycle
/// waits for who reads the output or standard error.
#[inline(never)]
pub fn master_by<R, W, V>(
    rt: &R,
    words: &MasterWords<'_>,
    console: Console,
    scene: Result<Scene, SceneFault>,
    out: &mut W,
    err: &mut V,
) -> u8
where
    R: Clock + Files + Net + RandomSource + AllocGlobal,
    R::File: AsRawFd,
    W: io::Write,
    V: io::Write,
{
    let running = match Running::of(words, &console) {
        Ok(running) => running,
        Err(failure) => return report(&failure, out, err),
    };
    tell_late(words.late, err);
    let mut out = Screen::of(rt, out, console.output_terminal());
    let mut err = Screen::of(rt, err, console.errors_terminal());
    master_read(rt, running, console, scene, &mut out, &mut err)
}

/// Has a master run whose output and standard error may be read at this console, or not, and tells how many
/// lines of them were left out.
fn master_read<R, W, V>(
    rt: &R,
    running: Running<'_>,
    console: Console,
    scene: Result<Scene, SceneFault>,
    out: &mut W,
    err: &mut V,
) -> u8
where
    R: Clock + Files + Net + RandomSource + AllocGlobal,
    R::File: AsRawFd,
    W: io::Write,
    V: io::Write,
{
    let Ok(recent) = recent_of(rt.alloc(), running.progress) else {
        return report(&Failure::Line(LineFailure::NoMemory), out, err);
    };
    let (is_patient, are_own, are_objects) = (Cell::new(true), Cell::new(true), Cell::new(false));
    let (output, errors) = (Behind(console.output), Behind(console.errors));
    let mut out = Unblocking::new(out, output, AT_ONCE, &is_patient);
    let mut err = Unblocking::new(err, errors, AT_ONCE, &is_patient);
    let attended = Attended {
        input: console.input,
        is_patient: &is_patient,
        are_own: &are_own,
        are_objects: &are_objects,
        recent: &recent,
    };
    let is_apart = !(console.is_read && console.is_watched);
    let mut kept = Kept::new(&mut out, &recent, is_apart, &is_patient);
    let status = master_at(rt, running, attended, scene, &mut kept, &mut err);
    tell_left_out("output", out.left_out(), &mut err);
    tell_left_out("standard error", err.left_out(), &mut err);
    status
}

/// Brings the line of a scene to Op, where it lies, and cycles on it. The sockets and the log are opened once
/// it is known that there is something to cycle on, and what the outputs are.
fn master_at<R, W, V>(
    rt: &R,
    running: Running<'_>,
    attended: Attended<'_, '_, '_>,
    scene: Result<Scene, SceneFault>,
    out: &mut W,
    err: &mut V,
) -> u8
where
    R: Clock + Files + Net + RandomSource + AllocGlobal,
    R::File: AsRawFd,
    W: io::Write,
    V: io::Write,
{
    let course = match course_of(rt.alloc(), scene, out, err) {
        Ok(course) => course,
        Err(status) => return status,
    };
    let images = match images_of(rt, running.outputs, course.image_length(), out, err) {
        Ok(images) => images,
        Err(status) => return status,
    };
    let mut recorder = match unawaited_at(rt, running.pcap, attended.is_patient, out, err) {
        Ok(recorder) => recorder,
        Err(status) => return status,
    };
    let prepared = Prepared {
        running,
        plan: running.plan(outputs_of(running.outputs, images.as_slice())),
        attended,
    };
    let status = master_logged(rt, course, prepared, &mut recorder, out, err);
    end_unawaited(&mut recorder, status, err)
}

/// A master that is about to run: by which words and to which plan, and what it has of its console.
#[derive(Drop)]
struct Prepared<'a, 'p, 'o, 'c> {
    running: Running<'a>,
    plan: Plan<'a>,
    attended: Attended<'p, 'o, 'c>,
}

/// Opens the log of a master, if it has one, has it run, and tells how many lines of the log were left out,
/// since no cycle waits for who reads it.
fn master_logged<R, T, M, W, V>(
    rt: &R,
    course: Box<Course>,
    prepared: Prepared<'_, '_, '_, '_>,
    recorder: &mut Recorder<T, M>,
    out: &mut W,
    err: &mut V,
) -> u8
where
    R: Clock + Files + Net + RandomSource + AllocGlobal,
    R::File: AsRawFd,
    T: io::Write,
    M: Moments,
    W: io::Write,
    V: io::Write,
{
    let Some(path) = prepared.running.log else {
        return run_master(rt, course, prepared, recorder, out, err, &mut io::sink());
    };
    let mut file = match fs::create(rt, path) {
        Ok(file) => file,
        Err(error) => return report_file(&Failure::Log, path, &error, out, err),
    };
    never_waits(&file);
    let reader = Behind(file.as_raw_fd());
    let is_patient = prepared.attended.is_patient;
    let mut log = Unblocking::new(&mut file, reader, AT_ONCE, is_patient);
    let status = run_master(rt, course, prepared, recorder, out, err, &mut log);
    tell_left_out("log", log.left_out(), err);
    status
}

/// Asks for the time where the lines of a master begin with it, and has it run.
fn run_master<R, T, M, W, V, L>(
    rt: &R,
    course: Box<Course>,
    prepared: Prepared<'_, '_, '_, '_>,
    recorder: &mut Recorder<T, M>,
    out: &mut W,
    err: &mut V,
    log: &mut L,
) -> u8
where
    R: Clock + Net + RandomSource + AllocGlobal,
    T: io::Write,
    M: Moments,
    W: io::Write,
    V: io::Write,
    L: io::Write,
{
    let running = prepared.running;
    let Ok(utc) = utc_of(rt, running.is_stamped) else {
        return report(&Failure::Clock, out, err);
    };
    let Ok(before_lines) = utc_of(rt, running.is_stamped && !running.json) else {
        return report(&Failure::Clock, out, err);
    };
    let mut out = Stamped::new(out, &before_lines, prepared.attended.are_own);
    let writers = Writers {
        out: &mut out,
        err,
        log,
    };
    run_timed(rt, course, prepared, recorder, writers, &utc)
}

/// Has a master run for the task that its words name, by a clock, if it tells the time: objects and the lines
/// of its log have the time in them.
fn run_timed<'u, R, T, M, W, V, L>(
    rt: &R,
    course: Box<Course>,
    prepared: Prepared<'_, '_, 'u, '_>,
    recorder: &mut Recorder<T, M>,
    writers: Writers<'_, W, V, L>,
    utc: &'u Option<Utc<'u, R>>,
) -> u8
where
    R: Clock + Net + RandomSource + AllocGlobal,
    T: io::Write,
    M: Moments,
    W: io::Write,
    V: io::Write,
    L: io::Write,
{
    let Prepared {
        running,
        plan,
        attended,
    } = prepared;
    let Writers { out, err, log } = writers;
    let Ok(gathered) = room_if(rt.alloc(), running.json) else {
        return report(&Failure::Line(LineFailure::NoMemory), out, err);
    };
    let voice = Voice {
        are_own: attended.are_own,
        are_objects: attended.are_objects,
        counts: Counted::Cycles,
    };
    let mut out = Objects::new(out, gathered, voice, utc);
    let mut log = Stamped::new(log, utc, attended.are_own);
    let writers = Writers {
        out: &mut out,
        err,
        log: &mut log,
    };
    let cycling = Cycling { running, plan };
    if running.control {
        run_controlled(rt, course, cycling, attended, recorder, writers)
    } else {
        run_by_program(rt, course, cycling, attended, recorder, writers)
    }
}

/// How a master cycles: by which words, and to which plan.
#[derive(Clone, Copy)]
pub(crate) struct Cycling<'a> {
    pub(crate) running: Running<'a>,
    plan: Plan<'a>,
}

/// Has a master run whose outputs are those of a program, if there is one, until its input has ended or so
/// many cycles were made.
fn run_by_program<R, T, M, W, V, L>(
    rt: &R,
    course: Box<Course>,
    cycling: Cycling<'_>,
    attended: Attended<'_, '_, '_>,
    recorder: &mut Recorder<T, M>,
    writers: Writers<'_, W, V, L>,
) -> u8
where
    R: Clock + Net + RandomSource + AllocGlobal,
    T: io::Write,
    M: Moments,
    W: io::Write,
    V: io::Write,
    L: io::Write,
{
    let Writers { out, err, log } = writers;
    let Ok(beat) = beat_of(rt, cycling.running, Some(attended.input)) else {
        return report(&Failure::Clock, out, err);
    };
    let mut pace = Impatient::new(beat, attended.is_patient);
    let count = course.image_length();
    let task = match door_of(rt, cycling.running.program, &course) {
        Ok(task) => task,
        Err(fault) => return report(&Failure::Task(fault), out, err),
    };
    tell_task(task.task(), count, err);
    let Ok(told) = told_if(rt.alloc(), cycling.running.json) else {
        return report(&Failure::Line(LineFailure::NoMemory), out, err);
    };
    let task = Telling::new(task, told, attended.are_objects);
    let mut task = Watching::new(task, attended.recent);
    let writers = Writers {
        out,
        err: &mut *err,
        log,
    };
    let status = cycle_for(rt, course, cycling, recorder, &mut pace, &mut task, writers);
    let _ = task.task.task.task().put_sum(&mut Lines::new(err));
    status
}

/// Opens the ports of a master, and has it cycle for a task.
pub(crate) fn cycle_for<R, T, M, P, D, W, V, L>(
    rt: &R,
    course: Box<Course>,
    cycling: Cycling<'_>,
    recorder: &mut Recorder<T, M>,
    pace: &mut P,
    task: &mut D,
    writers: Writers<'_, W, V, L>,
) -> u8
where
    R: Clock + Net + RandomSource + AllocGlobal,
    T: io::Write,
    M: Moments,
    P: Pace,
    D: Task,
    W: io::Write,
    V: io::Write,
    L: io::Write,
{
    let Cycling { running, plan } = cycling;
    let Ok(counters) = course.counters(rt.alloc()) else {
        return report_to(&Failure::Line(LineFailure::NoMemory), writers);
    };
    match open_ports(rt, running.reach, patience(running.limit), recorder) {
        Ok(ports) => {
            let ports = ready(ports, counters, running.busy);
            act_master(Box::into_inner(course), ports, &plan, pace, task, writers)
        }
        Err(fault) => report_to(&Failure::from(fault), writers),
    }
}

/// Tells the writers of a master why it does not run, and answers the exit status.
pub(crate) fn report_to<W, V, L>(failure: &Failure, writers: Writers<'_, W, V, L>) -> u8
where
    W: io::Write,
    V: io::Write,
    L: io::Write,
{
    let Writers { out, err, log: _ } = writers;
    report(failure, out, err)
}

/// The task of a program that gives the outputs of a course, or none.
fn task_of<R>(rt: &R, program: Option<Program<'_>>, course: &Course) -> Result<UdpTask, TaskFault>
where
    R: Net + AllocGlobal,
{
    let Some(program) = program else {
        return Ok(UdpTask::none(rt.alloc())?);
    };
    let terms = program.terms(course.image_length());
    let stations = course.stations(rt.alloc())?;
    UdpTask::open(rt, rt.alloc(), program.address, terms, stations)
}

/// The door of the task of a program, or of none: nobody can ask then, and there is no room for an answer.
fn door_of<R>(
    rt: &R,
    program: Option<Program<'_>>,
    course: &Course,
) -> Result<DoorTask<UdpTask>, TaskFault>
where
    R: Net + AllocGlobal,
{
    let room = if program.is_some() { MOST_ANSWER } else { 0 };
    let items = control::Outputs::of(rt.alloc(), course.work(), course.items())?;
    let text = Text::with_room(rt.alloc(), room)?;
    let task = task_of(rt, program, course)?;
    let signals = course.signals(rt.alloc())?;
    Ok(DoorTask::new(task, items, signals, text))
}

/// Tells where a program gives outputs, if one does, and how many bytes of them. A fault of that line is
/// passed over.
fn tell_task<V: io::Write>(task: &UdpTask, count: usize, err: &mut V) {
    if let Some(address) = task.address() {
        let _ = writeln!(err, "task: outputs of {count} bytes wanted at {address}");
    }
}

/// Ports that expect these counters of a cycle, and never sleep where they are to be busy.
fn ready<C: Carrier, T: Timer>(
    ports: RemotePorts<C, T>,
    counters: Vec<u16>,
    busy: bool,
) -> RemotePorts<C, T> {
    let ports = ports.expecting(counters);
    if busy { ports.busily() } else { ports }
}

/// The beat of a master's cycles, which end after as many as the words say, or with the input, if it is this
/// beat that has it. Where no limit is given, each cycle ends a fifth of the time before the next one is due.
pub(crate) fn beat_of<'a, R>(
    rt: &'a R,
    running: Running<'_>,
    input: Option<Stdin>,
) -> io::Result<Beat<'a, R, Stdin>>
where
    R: Clock + Net + AllocGlobal,
{
    let ending = match input {
        Some(input) if running.ends_with_input() => Some(Ending::of(rt, rt.alloc(), input)?),
        _ => None,
    };
    let every = match running.every {
        Some(micros) => Some(Duration::from_micros(u64::from(micros))),
        None => None,
    };
    let beat = Beat::new(rt, every, running.cycles, ending)?;
    let beat = if running.limit.is_none() {
        beat.sparing()
    } else {
        beat
    };
    Ok(if running.busy { beat.busily() } else { beat })
}
