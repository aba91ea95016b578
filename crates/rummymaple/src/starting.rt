//! The start-up of a line by turns: slaves are counted, given their station addresses, and brought to Op.

ghost use Rattle.std.specs.Prelude.{◌≡◌, IfSome, Some};
ghost use Rattle.ec_services.specs.Mailbox.{IsPeer};
ghost use Rattle.ec_services.specs.declared.surely.Progress.{Progress as ProgressState};
ghost use Rattle.ec_turns.specs.Start.{HasPeer, StillPeer};
ghost use Rattle.rummymaple.specs.Sent.{sent_answer};
ghost use Rattle.rummymaple.specs.Starting.{IsBegun, IsCourseTurn, IsGoing, IsNextOf, IsOpenNext, IsOpenTurn};
ghost use Rattle.rummymaple.specs.Starting.{IsSettled, IsStarted, course_in, course_with, down_in, end_answer};
ghost use Rattle.rummymaple.specs.Starting.{end_code, is_stranger, none_turned, plan_in, slave_in, stage_in};
ghost use Rattle.rummymaple.specs.Starting.{start_answer, start_code, start_number, step_number, step_part};
ghost use Rattle.rummymaple.specs.declared.sent.SentEnd.{SentEnd as SentState};
ghost use Rattle.rummymaple.specs.declared.starting.StartTurn.{StartTurn as Turned};

use crate::cycle::{DONE, ENDED, UNDER_WAY};
use crate::failure::{failure_code, failure_number};
use crate::heard::{BothHeard, both_heard};
use crate::mail::Mail;
use crate::numbers::{Code, Copy, form_of};
use crate::packet::WrittenAnswer;
use crate::sent::{SentEnd, put_sent};
use crate::wanted::{Startup, are_objects, objects_for, wanted_of};
use ec_check::Records;
use ec_ring::MAX_SLAVES;
use ec_run::{Step, StepProgress, Wanted};
use ec_services::{MasterFault, Progress};
use ec_turns::{HeldPorts, Plan, Stage, Start as Course, StartFault, StartTurn as CourseTurn};
use ec_wire::Form;

/// No link is down.
const NONE_DOWN: u16 = 0xFFFF;

/// A start-up, in the caller's memory: `struct rmp_start` of the header.
#[repr(C)]
#[derive(Clone, Copy)]
pub struct Start {
    /// How many steps of the stage are left with the slave.
    pub left: usize,
    /// How far the mails are by which a startup object is written.
    pub mail: Mail,
    /// How many slaves the line has, 1 to 256.
    pub slaves: u16,
    /// The link that is down, 65,535 where none is.
    pub down: u16,
    /// The place of the slave with which the stage is, the first one's being 0.
    pub place: u16,
    /// The stage that is under way, 0 to 6.
    pub stage: u8,
    /// The last stage.
    pub last: u8,
    /// Whether a startup object is being written: 0 or 1.
    pub is_writing: u8,
    /// How often the slave was asked for what it has not come to yet, or how often slaves were counted.
    pub asked: u32,
    /// How often no slave answered.
    pub unanswered: u32,
    /// How packets are framed: 0 an Ethernet frame's payload, 1 a UDP packet's.
    pub form: u32,
    /// How far it is: [`UNDER_WAY`], [`DONE`] or [`ENDED`].
    pub state: u32,
}

/// How the taking of what came back of a frame ended.
#[derive(Clone, Copy)]
pub enum StartEnd {
    /// There is another frame.
    Goes,
    /// The last stage is done with every slave.
    Done,
    /// Why it cannot be, and in which stage.
    Failed(StartFault, Stage),
    /// There is no such form.
    BadForm,
    /// The numbers, or an object of the slave, are none.
    BadNumbers,
    /// The start-up is not under way.
    Over,
}

/// What became of two packets.
#[derive(Clone, Copy)]
pub struct StartTurn {
    /// How it ended.
    pub end: StartEnd,
    /// What came of copy a.
    pub a: Copy,
    /// What came of copy b.
    pub b: Copy,
}

/// What became of two packets, in numbers: `struct rmp_started` of the header.
#[repr(C)]
#[derive(Clone, Copy)]
pub struct StartAnswer {
    /// Where a step failed, the place of its slave, the first one's being 0.
    pub place: usize,
    /// Where the start-up failed, the stage.
    pub stage: u32,
    /// Where a step failed, which: 1 a station address, 2 a sync manager, 3 an FMMU, 4 a startup object, 5 a
    /// state; else 0.
    pub step: u32,
    /// The number of that sync manager, FMMU or startup object, or the state; else 0.
    pub part: u32,
    /// An AL status code, the code of an abort, or how many slaves were counted; else 0.
    pub number: u32,
    /// How it ended.
    pub code: u32,
    /// What came of copy a: 0 nothing, 1 a frame, 2 bytes that are no frame.
    pub copy_a: u32,
    /// What came of copy b.
    pub copy_b: u32,
}

/// The stage with a number.
#[tactic(auto, unfolding(crate::specs::Starting::stage_in))]
fn stage_in(number: u8) -> Option<Stage>
    ensures { result ≡ stage_in number }
{
    match number {
        0 => Some(Stage::Count),
        1 => Some(Stage::Behind),
        2 => Some(Stage::Stations),
        3 => Some(Stage::Init),
        4 => Some(Stage::PreOp),
        5 => Some(Stage::SafeOp),
        6 => Some(Stage::Op),
        _ => None,
    }
}

/// The number of a stage.
#[tactic(auto, unfolding(crate::specs::Starting::stage_in))]
fn stage_code(stage: Stage) -> u8
    ensures { stage_in result ≡ Some stage }
{
    match stage {
        Stage::Count => 0,
        Stage::Behind => 1,
        Stage::Stations => 2,
        Stage::Init => 3,
        Stage::PreOp => 4,
        Stage::SafeOp => 5,
        Stage::Op => 6,
    }
}

impl Start {
    /// The link that is down, where one is.
    fn down(&self) -> Option<u16>
        ensures { result ≡ down_in self.now }
    {
        if self.down == NONE_DOWN {
            None
        } else {
            Some(self.down)
        }
    }

    /// What the start-up is to do; nothing where the numbers are those of none.
    fn plan(&self) -> Option<Plan>
        ensures { result ≡ plan_in self.now }
    {
        if self.slaves == 0 || usize::from(self.slaves) > MAX_SLAVES {
            return None;
        }
        match stage_in(self.last) {
            Some(last) => Some(Plan {
                slaves: self.slaves,
                down: self.down(),
                last,
            }),
            None => None,
        }
    }

    /// How far it is with a stage, whose startup object is so far.
    fn with(&self, stage: Stage, written: Option<Progress>) -> Course
        requires { IfSome written (λ (p : ProgressState). IsPeer p.peer) }
        ensures is { result ≡ course_with self.now stage written }
        ensures peer { HasPeer result }
    {
        Course {
            stage,
            place: self.place,
            left: self.left,
            first: StepProgress {
                asked: self.asked,
                unanswered: self.unanswered,
                written,
            },
        }
    }

    /// How far it is; nothing where the numbers are those of no start-up.
    fn course(&self) -> Option<Course>
        ensures is { result ≡ course_in self.now }
        ensures peer { IfSome result HasPeer }
    {
        let Some(stage) = stage_in(self.stage) else {
            return None;
        };
        if self.is_writing == 0 {
            return Some(self.with(stage, None));
        }
        match self.mail.progress() {
            Some(progress) => Some(self.with(stage, Some(progress))),
            None => None,
        }
    }

    /// The same numbers, but for how far it is.
    fn going(self, course: Course) -> Start
        requires { HasPeer course }
        ensures { IsGoing self course result }
    {
        let idle = Start {
            left: course.left,
            place: course.place,
            stage: stage_code(course.stage),
            is_writing: 0,
            asked: course.first.asked,
            unanswered: course.first.unanswered,
            ..self
        };
        match course.first.written {
            Some(progress) => Start {
                mail: Mail::of(&progress),
                is_writing: 1,
                ..idle
            },
            None => idle,
        }
    }

    /// What the slave at the place is to be told, of these records and objects; nothing where there is none.
    fn slave(&self, records: &[Records], startup: &[Startup]) -> Option<Wanted>
        ensures { result ≡ slave_in records.now startup.now self.now }
    {
        let place = usize::from(self.place);
        let objects = objects_for(startup, place);
        if records.len() != usize::from(self.slaves) || !are_objects(objects) {
            return None;
        }
        match records.get(place) {
            Some(records) => Some(wanted_of(records, objects)),
            None => None,
        }
    }
}

/// Which step it is: 1 a station address, 2 a sync manager, 3 an FMMU, 4 a startup object, 5 a state.
fn step_number(step: Step) -> u32
    ensures { result ≡ step_number step }
{
    match step {
        Step::Station | Step::StationBehind(_) | Step::StationBefore => 1,
        Step::SyncManager(_) => 2,
        Step::Fmmu(_) => 3,
        Step::Startup(_) => 4,
        Step::State(_) => 5,
    }
}

/// The number of its part, or the code of its state.
fn step_part(step: Step) -> u32
    ensures { result ≡ step_part step }
{
    match step {
        Step::Station | Step::StationBehind(_) | Step::StationBefore => 0,
        Step::SyncManager(number) | Step::Fmmu(number) | Step::Startup(number) => {
            u32::from(number)
        }
        Step::State(state) => u32::from(state.code()),
    }
}

/// The code of a fault.
fn start_code(fault: StartFault) -> Code
    ensures { result ≡ start_code fault }
{
    match fault {
        StartFault::Ask(fault) => failure_code(fault),
        StartFault::Count(_) => Code::OtherCount,
        StartFault::Step(fault) => failure_code(fault.fault),
    }
}

/// The number that it tells.
fn start_number(fault: StartFault) -> u32
    ensures { result ≡ start_number fault }
{
    match fault {
        StartFault::Ask(fault) => failure_number(fault),
        StartFault::Count(found) => u32::from(found),
        StartFault::Step(fault) => failure_number(fault.fault),
    }
}

impl StartEnd {
    /// Its code.
    fn code(self) -> Code
        ensures { result ≡ end_code self }
    {
        match self {
            StartEnd::Goes => Code::GoesOn,
            StartEnd::Done => Code::Good,
            StartEnd::Failed(fault, _) => start_code(fault),
            StartEnd::BadForm => Code::BadForm,
            StartEnd::BadNumbers => Code::BadNumbers,
            StartEnd::Over => Code::NotUnderWay,
        }
    }

    /// The answer, but for what came of the copies.
    fn answer(self) -> StartAnswer
        ensures { result ≡ end_answer self }
    {
        let blank = StartAnswer {
            place: 0,
            stage: 0,
            step: 0,
            part: 0,
            number: 0,
            code: self.code().number(),
            copy_a: 0,
            copy_b: 0,
        };
        match self {
            StartEnd::Failed(StartFault::Step(fault), stage) => StartAnswer {
                place: usize::from(fault.place),
                stage: stage.number(),
                step: step_number(fault.step),
                part: step_part(fault.step),
                number: failure_number(fault.fault),
                ..blank
            },
            StartEnd::Failed(fault, stage) => StartAnswer {
                stage: stage.number(),
                number: start_number(fault),
                ..blank
            },
            _ => blank,
        }
    }
}

impl StartTurn {
    /// What became of the packets, in numbers.
    fn answer(self) -> StartAnswer
        ensures { result ≡ start_answer self }
    {
        StartAnswer {
            copy_a: self.a.number(),
            copy_b: self.b.number(),
            ..self.end.answer()
        }
    }
}

/// No packet was looked at.
fn none_turned(end: StartEnd) -> StartTurn
    ensures { result ≡ none_turned end }
{
    StartTurn {
        end,
        a: Copy::Lost,
        b: Copy::Lost,
    }
}

/// Is it for a copy of another frame that a start-up fails?
fn is_stranger(fault: StartFault) -> bool
    ensures { result ≡ is_stranger fault }
{
    match fault {
        StartFault::Ask(MasterFault::Stranger) => true,
        StartFault::Step(fault) => fault.fault == MasterFault::Stranger,
        _ => false,
    }
}

/// How a start-up stands behind a turn in a stage: another frame goes out, or it is over. Where a copy was
/// none of its frame, it stands as before.
fn settle(start: &mut Start, stage: Stage, turn: CourseTurn) -> StartEnd
    requires { StillPeer turn }
    ensures { IsSettled start.old stage turn result start.new }
{
    match turn {
        CourseTurn::Goes(course) => {
            *start = start.going(course);
            StartEnd::Goes
        }
        CourseTurn::Ended(Ok(())) => {
            start.state = DONE;
            StartEnd::Done
        }
        CourseTurn::Ended(Err(fault)) => {
            if !is_stranger(fault) {
                start.state = ENDED;
            }
            StartEnd::Failed(fault, stage)
        }
    }
}

/// Takes the packets that came back of the frame of a start-up.
fn turn_course(
    form: Form,
    start: &mut Start,
    plan: Plan,
    course: Course,
    wanted: &Wanted,
    a: &[u8],
    b: &[u8],
) -> StartTurn
    requires { HasPeer course }
    ensures { IsCourseTurn form plan wanted.now course a.now b.now start.old result start.new }
{
    let BothHeard { came, a, b } = both_heard(form, a, b);
    let mut held = HeldPorts::giving(came);
    let turn = course.turn(&mut held, plan, wanted);
    let end = settle(start, course.stage, turn);
    StartTurn { end, a, b }
}

/// Takes the packets that came back of the frame of a start-up that is under way.
fn turn_open(
    start: &mut Start,
    records: &[Records],
    startup: &[Startup],
    a: &[u8],
    b: &[u8],
) -> StartTurn
    ensures { IsOpenTurn records.now startup.now a.now b.now start.old result start.new }
{
    let Some(form) = form_of(start.form) else {
        return none_turned(StartEnd::BadForm);
    };
    let wanted = start.slave(records, startup);
    match (start.plan(), start.course(), wanted) {
        (Some(plan), Some(course), Some(wanted)) => {
            turn_course(form, start, plan, course, &wanted, a, b)
        }
        _ => none_turned(StartEnd::BadNumbers),
    }
}

/// Takes the packets that came back of the frame of any start-up.
fn turn_any(
    start: &mut Start,
    records: &[Records],
    startup: &[Startup],
    a: &[u8],
    b: &[u8],
) -> StartTurn
    ensures { IsStarted records.now startup.now a.now b.now start.old result start.new }
{
    if start.state != UNDER_WAY {
        return none_turned(StartEnd::Over);
    }
    turn_open(start, records, startup, a, b)
}

/// Puts the frame of a start-up that is under way at the front of the room.
fn next_open(start: &Start, records: &[Records], startup: &[Startup], room: &mut [u8]) -> SentEnd
    ensures { IsOpenNext records.now startup.now start.now room.old result room.new }
{
    match (start.plan(), start.course(), start.slave(records, startup)) {
        (Some(plan), Some(course), Some(wanted)) => put_sent(&course.frame(plan, &wanted), room),
        _ => SentEnd::BadNumbers,
    }
}

/// Begins a start-up of so many slaves, 1 to 256, by packets that are framed so: from a stage on, 0 where the
/// slaves are to be counted and given their station addresses, to a last one. `down` is the link that is
/// down, 65,535 where none is.
#[unsafe(no_mangle)]
pub extern "C" fn rmp_start_begin(form: u32, slaves: u16, down: u16, first: u8, last: u8) -> Start
    ensures { IsBegun form slaves down first last result }
{
    let start = Start {
        left: 0,
        mail: Mail::none(0),
        slaves,
        down,
        place: 0,
        stage: first,
        last,
        is_writing: 0,
        asked: 0,
        unanswered: 0,
        form,
        state: UNDER_WAY,
    };
    match (stage_in(first), start.plan()) {
        (Some(first), Some(plan)) => start.going(Course::at(plan, first)),
        _ => start,
    }
}

/// Puts the next frame of a start-up at the front of `room`, by the records of the slaves and the objects
/// that are written to them, both by place; `startup` may be shorter. It is the last frame again until what
/// came of that is taken. Any other end leaves `room` as it is.
#[unsafe(no_mangle)]
pub extern "C" fn rmp_start_next(
    start: &Start,
    records: &[Records],
    startup: &[Startup],
    room: &mut [u8],
) -> WrittenAnswer
    ensures { (end : SentState) × (result ≡ sent_answer end)
        × IsNextOf records.now startup.now start.now room.old end room.new }
{
    let end = if start.state == UNDER_WAY {
        next_open(start, records, startup, room)
    } else {
        SentEnd::Over
    };
    end.answer()
}

/// Takes what came back of the frame that was sent last: packets `a` and `b`, each of length 0 where nothing
/// came. Behind it another frame goes out, or the start-up is done or ended, as the answer says.
#[unsafe(no_mangle)]
pub extern "C" fn rmp_start_came(
    start: &mut Start,
    records: &[Records],
    startup: &[Startup],
    a: &[u8],
    b: &[u8],
) -> StartAnswer
    ensures { (turn : Turned) × (result ≡ start_answer turn)
        × IsStarted records.now startup.now a.now b.now start.old turn start.new }
{
    turn_any(start, records, startup, a, b).answer()
}
