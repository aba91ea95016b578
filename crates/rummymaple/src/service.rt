//! What is asked of one slave besides cycles, by turns: an object is read or written, a state is asked for,
//! an error is acknowledged.

ghost use Rattle.std.specs.Prelude.{◌≡◌, ◌≤◌, IfSome, Some};
ghost use Rattle.ec_regs.specs.Al.{code_of, state_of};
ghost use Rattle.ec_acyclic.specs.Next.{HasPeer};
ghost use Rattle.ec_acyclic.specs.declared.service.Service.TheVariants.{Acknowledge, Read};
ghost use Rattle.rummymaple.specs.Sent.{sent_answer};
ghost use Rattle.rummymaple.specs.Service.{IsBegun, IsNextOf, IsNoneBegun, IsOpenNext, IsOpenTurn, IsServed};
ghost use Rattle.rummymaple.specs.Service.{IsSettled, IsStateBegun, IsTalkTurn, IsWriteBegun, counter_of};
ghost use Rattle.rummymaple.specs.Service.{IsAsking, download_in, next_in, none_turned, peer_of};
ghost use Rattle.rummymaple.specs.Service.{service_answer, service_code, service_number, service_size};
ghost use Rattle.rummymaple.specs.Service.{talk_in, upload_in};
ghost use Rattle.rummymaple.specs.Values.{value_in};
ghost use Rattle.rummymaple.specs.declared.sent.SentEnd.{SentEnd as SentState};
ghost use Rattle.rummymaple.specs.declared.service.ServiceTurn.{ServiceTurn as Turned};

use crate::cycle::{DONE, ENDED, UNDER_WAY};
use crate::failure::{failure_code, failure_number};
use crate::heard::{BothHeard, both_heard};
use crate::mail::Mail;
use crate::numbers::{Code, Copy, form_of};
use crate::packet::WrittenAnswer;
use crate::sent::{SentEnd, put_sent};
use crate::values::{value_in, value_number, value_size};
use ec_acyclic::{Answer, Next, Service as Asked, Talk, Turn};
use ec_app::roles::{ANSWER_MAILBOX, REQUEST_MAILBOX};
use ec_check::{Mapped, Records};
use ec_regs::AlState;
use ec_run::peer_between;
use ec_services::MasterFault;
use ec_turns::{HeldPorts, frame_of_service};
use ec_wire::Form;

/// The counters of mails run from 1 to this one.
const COUNTERS: u32 = 7;

/// A service with one slave, in the caller's memory: `struct rmp_service` of the header.
#[repr(C)]
#[derive(Clone, Copy)]
pub struct Service {
    /// How far its mails are, with the station address of the slave.
    pub mail: Mail,
    /// The index of the object.
    pub index: u16,
    /// Its subindex.
    pub sub: u8,
    /// How many bytes are written to it: 1, 2 or 4.
    pub size: u8,
    /// The state that is asked for, or in which the error is acknowledged: 1, 2, 4 or 8.
    pub al_state: u8,
    /// What goes out next, 0 to 7.
    pub next: u8,
    /// What is written to the object.
    pub value: u32,
    /// How often in a row no slave answered.
    pub unanswered: u32,
    /// How many trips are left.
    pub trips: u32,
    /// How packets are framed: 0 an Ethernet frame's payload, 1 a UDP packet's.
    pub form: u32,
    /// How far it is: [`UNDER_WAY`], [`DONE`] or [`ENDED`].
    pub state: u32,
}

/// How the taking of what came back of a frame ended.
#[derive(Clone, Copy)]
pub enum ServiceEnd {
    /// There is another frame.
    Goes,
    /// The slave has answered so.
    Told(Answer),
    /// Why it has not.
    Failed(MasterFault),
    /// There is no such form.
    BadForm,
    /// The numbers are those of no service.
    BadNumbers,
    /// The service is not under way.
    Over,
}

/// What became of two packets.
#[derive(Clone, Copy)]
pub struct ServiceTurn {
    /// How it ended.
    pub end: ServiceEnd,
    /// What came of copy a.
    pub a: Copy,
    /// What came of copy b.
    pub b: Copy,
}

/// What became of two packets, in numbers: `struct rmp_served` of the header.
#[repr(C)]
#[derive(Clone, Copy)]
pub struct ServiceAnswer {
    /// The value of the object that was read, the state that the slave is in, the AL status code of a refusal
    /// or the code of an abort; else 0.
    pub number: u32,
    /// How many bytes a value has, 1, 2 or 4; else 0.
    pub size: u32,
    /// How it ended.
    pub code: u32,
    /// What came of copy a: 0 nothing, 1 a frame, 2 bytes that are no frame.
    pub copy_a: u32,
    /// What came of copy b.
    pub copy_b: u32,
}

impl Service {
    /// One trip more by which an object is read.
    fn upload(&self) -> Option<Next>
        ensures is { result ≡ upload_in self.now }
        ensures peer { IfSome result (HasPeer self.now.mail.station) }
    {
        match self.mail.progress() {
            Some(progress) => Some(Next::Upload {
                index: self.index,
                sub: self.sub,
                progress,
            }),
            None => None,
        }
    }

    /// One by which it is written.
    fn download(&self) -> Option<Next>
        ensures is { result ≡ download_in self.now }
        ensures peer { IfSome result (HasPeer self.now.mail.station) }
    {
        match (self.mail.progress(), value_in(self.size, self.value)) {
            (Some(progress), Some(value)) => Some(Next::Download {
                index: self.index,
                sub: self.sub,
                value,
                progress,
            }),
            _ => None,
        }
    }

    /// What goes out next; nothing where the numbers are those of no service.
    #[tactic(auto, unfolding(crate::specs::Service::next_in))]
    fn next(&self) -> Option<Next>
        ensures is { result ≡ next_in self.now }
        ensures peer { IfSome result (HasPeer self.now.mail.station) }
    {
        match (self.next, AlState::from_code(self.al_state)) {
            (0, _) => Some(Next::NoMailboxes),
            (1, _) => self.upload(),
            (2, _) => self.download(),
            (3, Some(state)) => Some(Next::Request(state)),
            (4, Some(state)) => Some(Next::Reached(state)),
            (5, _) => Some(Next::InWhich),
            (6, Some(state)) => Some(Next::Acknowledge(state)),
            (7, _) => Some(Next::Cleared),
            _ => None,
        }
    }

    /// The service that the numbers are; nothing where they are those of none.
    fn talk(&self) -> Option<Talk>
        ensures { result ≡ talk_in self.now }
    {
        match self.next() {
            Some(next) => Some(Talk::resumed(self.mail.station, next, self.unanswered, self.trips)),
            None => None,
        }
    }

    /// A service in numbers, whose packets are framed so.
    fn of(form: u32, talk: &Talk) -> Service
        ensures talk { talk_in result ≡ Some talk.now }
        ensures form { result.form ≡ form }
        ensures state { result.state ≡ UNDER_WAY }
    {
        let blank = Service {
            mail: Mail::none(talk.station()),
            index: 0,
            sub: 0,
            size: 0,
            al_state: 0,
            next: 0,
            value: 0,
            unanswered: talk.unanswered(),
            trips: talk.trips(),
            form,
            state: UNDER_WAY,
        };
        blank.asking(talk.next())
    }

    /// The same numbers, but for what goes out next.
    #[tactic(auto, unfolding(crate::specs::Service::next_in))]
    fn asking(self, next: Next) -> Service
        requires { HasPeer self.mail.station next }
        ensures next { next_in result ≡ Some next }
        ensures kept { IsAsking self result }
    {
        match next {
            Next::NoMailboxes => Service { next: 0, ..self },
            Next::Upload {
                index,
                sub,
                progress,
            } => Service {
                next: 1,
                mail: Mail::of(&progress),
                index,
                sub,
                ..self
            },
            Next::Download {
                index,
                sub,
                value,
                progress,
            } => Service {
                next: 2,
                mail: Mail::of(&progress),
                index,
                sub,
                size: value_size(value),
                value: value_number(value),
                ..self
            },
            Next::Request(state) => Service {
                next: 3,
                al_state: state_code(state),
                ..self
            },
            Next::Reached(state) => Service {
                next: 4,
                al_state: state_code(state),
                ..self
            },
            Next::InWhich => Service { next: 5, ..self },
            Next::Acknowledge(state) => Service {
                next: 6,
                al_state: state_code(state),
                ..self
            },
            Next::Cleared => Service { next: 7, ..self },
        }
    }
}

impl ServiceEnd {
    /// Its code.
    fn code(self) -> Code
        ensures { result ≡ service_code self }
    {
        match self {
            ServiceEnd::Goes => Code::GoesOn,
            ServiceEnd::Told(_) => Code::Good,
            ServiceEnd::Failed(fault) => failure_code(fault),
            ServiceEnd::BadForm => Code::BadForm,
            ServiceEnd::BadNumbers => Code::BadNumbers,
            ServiceEnd::Over => Code::NotUnderWay,
        }
    }

    /// The number that it tells.
    fn number(self) -> u32
        ensures { result ≡ service_number self }
    {
        match self {
            ServiceEnd::Told(Answer::Value(value)) => value_number(value),
            ServiceEnd::Told(Answer::In(state)) => u32::from(state.code()),
            ServiceEnd::Failed(fault) => failure_number(fault),
            _ => 0,
        }
    }

    /// How many bytes the value has that it tells.
    fn size(self) -> u32
        ensures { result ≡ service_size self }
    {
        match self {
            ServiceEnd::Told(Answer::Value(value)) => u32::from(value_size(value)),
            _ => 0,
        }
    }
}

impl ServiceTurn {
    /// What became of the packets, in numbers.
    fn answer(self) -> ServiceAnswer
        ensures { result ≡ service_answer self }
    {
        ServiceAnswer {
            number: self.end.number(),
            size: self.end.size(),
            code: self.end.code().number(),
            copy_a: self.a.number(),
            copy_b: self.b.number(),
        }
    }
}

/// The code of a state, by which it is known again.
fn state_code(state: AlState) -> u8
    ensures is { result ≡ code_of state }
    ensures read_back { state_of result ≡ Some state }
{
    match state {
        AlState::Init => 1,
        AlState::PreOp => 2,
        AlState::SafeOp => 4,
        AlState::Op => 8,
    }
}

/// No packet was looked at.
fn none_turned(end: ServiceEnd) -> ServiceTurn
    ensures { result ≡ none_turned end }
{
    ServiceTurn {
        end,
        a: Copy::Lost,
        b: Copy::Lost,
    }
}

/// The numbers of no service.
#[tactic(auto, unfolding(crate::specs::Service::next_in))]
fn none_begun(form: u32) -> Service
    ensures { IsNoneBegun form result }
{
    Service {
        mail: Mail::none(0),
        index: 0,
        sub: 0,
        size: 0,
        al_state: 0,
        next: 8,
        value: 0,
        unanswered: 0,
        trips: 0,
        form,
        state: UNDER_WAY,
    }
}

/// How a service stands behind a turn: another frame goes out, or it is over. Where a copy was none of its
/// frame, it stands as before.
fn settle(service: &mut Service, turn: Turn) -> ServiceEnd
    ensures { IsSettled service.old turn result service.new }
{
    match turn {
        Turn::Goes(talk) => {
            *service = Service::of(service.form, &talk);
            ServiceEnd::Goes
        }
        Turn::Ended(Ok(answer)) => {
            service.state = DONE;
            ServiceEnd::Told(answer)
        }
        Turn::Ended(Err(MasterFault::Stranger)) => ServiceEnd::Failed(MasterFault::Stranger),
        Turn::Ended(Err(fault)) => {
            service.state = ENDED;
            ServiceEnd::Failed(fault)
        }
    }
}

/// Takes the packets that came back of the frame of a service.
fn turn_talk(form: Form, service: &mut Service, talk: Talk, a: &[u8], b: &[u8]) -> ServiceTurn
    ensures { IsTalkTurn form a.now b.now service.old talk result service.new }
{
    let BothHeard { came, a, b } = both_heard(form, a, b);
    let mut held = HeldPorts::giving(came);
    let turn = talk.turn(&mut held);
    let end = settle(service, turn);
    ServiceTurn { end, a, b }
}

/// Takes the packets that came back of the frame of a service that is under way.
fn turn_open(service: &mut Service, a: &[u8], b: &[u8]) -> ServiceTurn
    ensures { IsOpenTurn a.now b.now service.old result service.new }
{
    let Some(form) = form_of(service.form) else {
        return none_turned(ServiceEnd::BadForm);
    };
    match service.talk() {
        Some(talk) => turn_talk(form, service, talk, a, b),
        None => none_turned(ServiceEnd::BadNumbers),
    }
}

/// Takes the packets that came back of the frame of any service.
fn turn_any(service: &mut Service, a: &[u8], b: &[u8]) -> ServiceTurn
    ensures { IsServed a.now b.now service.old result service.new }
{
    if service.state != UNDER_WAY {
        return none_turned(ServiceEnd::Over);
    }
    turn_open(service, a, b)
}

/// Takes what came back of the frame that was sent last: packets `a` and `b`, each of length 0 where nothing
/// came. Behind it another frame goes out, or the service is done or ended, as the answer says.
#[unsafe(no_mangle)]
pub extern "C" fn rmp_service_came(service: &mut Service, a: &[u8], b: &[u8]) -> ServiceAnswer
    ensures { (turn : Turned) × (result ≡ service_answer turn)
        × IsServed a.now b.now service.old turn service.new }
{
    turn_any(service, a, b).answer()
}

/// Puts the frame of a service that is under way at the front of the room.
fn next_open(service: &Service, room: &mut [u8]) -> SentEnd
    ensures { IsOpenNext service.now room.old result room.new }
{
    match service.talk() {
        Some(talk) => put_sent(&frame_of_service(talk), room),
        None => SentEnd::BadNumbers,
    }
}

/// Puts the next frame of a service at the front of `room`; it is the last one again until what came of that
/// is taken. Where the service ends without another frame, nothing is put, and there is nothing to send: what
/// came of it is nothing. Any other end leaves `room` as it is.
#[unsafe(no_mangle)]
pub extern "C" fn rmp_service_next(service: &Service, room: &mut [u8]) -> WrittenAnswer
    ensures { (end : SentState) × (result ≡ sent_answer end) × IsNextOf service.now room.old end room.new }
{
    let end = if service.state == UNDER_WAY {
        next_open(service, room)
    } else {
        SentEnd::Over
    };
    end.answer()
}

/// Begins a service with a slave, by mail with a peer that its records show to be one.
fn begin(form: u32, records: &Records, counter: u8, service: Asked, trips: u32) -> Service
    requires least { 1 ≤ counter }
    requires most { counter ≤ 7 }
    ensures { IsBegun form (peer_of records.now counter) records.now service trips result }
{
    let station = records.station();
    let requests = records.sync_manager(REQUEST_MAILBOX);
    let answers = records.sync_manager(ANSWER_MAILBOX);
    let peer = peer_between(station, &requests, &answers, counter);
    Service::of(form, &Talk::begun(service, station, peer, trips))
}

/// A counter of mails that follows a number, 1 to 7.
fn counter_of(number: u32) -> u8
    ensures is { result ≡ counter_of number }
    ensures least { 1 ≤ result }
    ensures most { result ≤ 7 }
{
    (number % COUNTERS) as u8 + 1
}

/// Begins the reading of an object of the slave with these records, by so many trips at the most. `number`
/// is one more from one service to the next with that slave: the counters of their mails follow it.
#[unsafe(no_mangle)]
pub extern "C" fn rmp_read_begin(
    form: u32,
    records: &Records,
    index: u16,
    sub: u8,
    number: u32,
    trips: u32,
) -> Service
    ensures { IsBegun form (peer_of records.now (counter_of number)) records.now (Read index sub) trips
        result }
{
    let counter = counter_of(number);
    begin(form, records, counter, Asked::Read { index, sub }, trips)
}

/// Begins the writing of a value of `size` bytes, 1, 2 or 4, to an object of that slave. The numbers of one
/// that does not fit so many bytes are those of no service.
#[unsafe(no_mangle)]
pub extern "C" fn rmp_write_begin(
    form: u32,
    records: &Records,
    index: u16,
    sub: u8,
    size: u8,
    value: u32,
    number: u32,
    trips: u32,
) -> Service
    ensures { IsWriteBegun form records.now index sub (value_in size value) number trips result }
{
    let Some(value) = value_in(size, value) else {
        return none_begun(form);
    };
    let counter = counter_of(number);
    let service = Asked::Write { index, sub, value };
    begin(form, records, counter, service, trips)
}

/// Begins that a slave is asked for a state, 1 (Init), 2 (Pre-Op), 4 (Safe-Op) or 8 (Op), and that AL status
/// is read until it is there. The numbers of another one are those of no service.
#[unsafe(no_mangle)]
pub extern "C" fn rmp_state_begin(form: u32, records: &Records, state: u8, trips: u32) -> Service
    ensures { IsStateBegun form records.now (state_of state) trips result }
{
    let Some(state) = AlState::from_code(state) else {
        return none_begun(form);
    };
    begin(form, records, 1, Asked::State(state), trips)
}

/// Begins that an error of a slave is acknowledged in the state that it is in.
#[unsafe(no_mangle)]
pub extern "C" fn rmp_acknowledge_begin(form: u32, records: &Records, trips: u32) -> Service
    ensures { IsBegun form (peer_of records.now 1) records.now Acknowledge trips result }
{
    begin(form, records, 1, Asked::Acknowledge, trips)
}
