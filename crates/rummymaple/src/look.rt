//! A look at the state of one slave, as a frame and what came of it.

ghost use Rattle.std.specs.Prelude.{◌≡◌};
ghost use Rattle.rummymaple.specs.Look.{IsFormLook, IsLookPut, IsLooked, look_answer, look_code, look_error};
ghost use Rattle.rummymaple.specs.Look.{look_state, none_seen, seen_code, seen_end};
ghost use Rattle.rummymaple.specs.Numbers.{form_of};
ghost use Rattle.rummymaple.specs.Sent.{sent_answer};
ghost use Rattle.rummymaple.specs.declared.look.Look.{Look as Looked};
ghost use Rattle.rummymaple.specs.declared.sent.SentEnd.{SentEnd as SentState};

use crate::failure::failure_code;
use crate::heard::{BothHeard, both_heard};
use crate::numbers::{Code, Copy, form_of};
use crate::packet::WrittenAnswer;
use crate::sent::put_sent;
use ec_run::Seen;
use ec_services::MasterFault;
use ec_turns::{frame_of_look, look_in};
use ec_wire::Form;

/// How a look ended.
#[derive(Clone, Copy)]
pub enum LookEnd {
    /// This was seen.
    Seen(Seen),
    /// Why nothing was.
    Failed(MasterFault),
    /// There is no such form.
    BadForm,
}

/// What became of two packets.
#[derive(Clone, Copy)]
pub struct Look {
    /// How it ended.
    pub end: LookEnd,
    /// What came of copy a.
    pub a: Copy,
    /// What came of copy b.
    pub b: Copy,
}

/// What is seen of a slave, in numbers: `struct rmp_seen` of the header.
#[repr(C)]
#[derive(Clone, Copy)]
pub struct LookAnswer {
    /// The state that the slave is in, 1, 2, 4 or 8; 0 where that is not known.
    pub state: u32,
    /// The AL status code of an error that stands; else 0.
    pub error: u32,
    /// How it ended.
    pub code: u32,
    /// What came of copy a: 0 nothing, 1 a frame, 2 bytes that are no frame.
    pub copy_a: u32,
    /// What came of copy b.
    pub copy_b: u32,
}

/// The code of what was seen.
fn seen_code(seen: Seen) -> Code
    ensures { result ≡ seen_code seen }
{
    match seen {
        Seen::In(_) => Code::Good,
        Seen::Error(_, _) => Code::Refused,
        Seen::Nobody => Code::NoSlave,
        Seen::Unheard => Code::NoAnswer,
        Seen::Several => Code::BadAnswer,
    }
}

impl LookEnd {
    /// Its code.
    fn code(self) -> Code
        ensures { result ≡ look_code self }
    {
        match self {
            LookEnd::Seen(seen) => seen_code(seen),
            LookEnd::Failed(fault) => failure_code(fault),
            LookEnd::BadForm => Code::BadForm,
        }
    }

    /// The state that it tells.
    fn state(self) -> u32
        ensures { result ≡ look_state self }
    {
        match self {
            LookEnd::Seen(Seen::In(state)) => u32::from(state.code()),
            LookEnd::Seen(Seen::Error(state, _)) => u32::from(state.code()),
            _ => 0,
        }
    }

    /// The AL status code that it tells.
    fn error(self) -> u32
        ensures { result ≡ look_error self }
    {
        match self {
            LookEnd::Seen(Seen::Error(_, code)) => u32::from(code),
            _ => 0,
        }
    }
}

impl Look {
    /// What was seen, in numbers.
    fn answer(self) -> LookAnswer
        ensures { result ≡ look_answer self }
    {
        LookAnswer {
            state: self.end.state(),
            error: self.end.error(),
            code: self.end.code().number(),
            copy_a: self.a.number(),
            copy_b: self.b.number(),
        }
    }
}

/// How a look ends that saw this.
fn seen_end(seen: Result<Seen, MasterFault>) -> LookEnd
    ensures { result ≡ seen_end seen }
{
    match seen {
        Ok(seen) => LookEnd::Seen(seen),
        Err(fault) => LookEnd::Failed(fault),
    }
}

/// What two packets show of the slave with a station address.
fn look_by(form: Form, station: u16, a: &[u8], b: &[u8]) -> Look
    ensures { IsFormLook form station a.now b.now result }
{
    let BothHeard { came, a, b } = both_heard(form, a, b);
    let end = seen_end(look_in(station, came));
    Look { end, a, b }
}

/// No packet was looked at.
fn none_seen() -> Look
    ensures { result ≡ none_seen }
{
    Look {
        end: LookEnd::BadForm,
        a: Copy::Lost,
        b: Copy::Lost,
    }
}

/// Puts the frame at the front of `room` by which AL status is read of the slave with a station address. Any
/// other end leaves `room` as it is.
#[unsafe(no_mangle)]
pub extern "C" fn rmp_look_next(station: u16, room: &mut [u8]) -> WrittenAnswer
    ensures { (end : SentState) × (result ≡ sent_answer end) × IsLookPut station room.old end room.new }
{
    put_sent(&frame_of_look(station), room).answer()
}

/// Tells what came back of that frame: packets `a` and `b`, each of length 0 where nothing came.
#[unsafe(no_mangle)]
pub extern "C" fn rmp_look_came(form: u32, station: u16, a: &[u8], b: &[u8]) -> LookAnswer
    ensures { (seen : Looked) × (result ≡ look_answer seen)
        × IsLooked (form_of form) station a.now b.now seen }
{
    let look = match form_of(form) {
        Some(form) => look_by(form, station, a, b),
        None => none_seen(),
    };
    look.answer()
}
