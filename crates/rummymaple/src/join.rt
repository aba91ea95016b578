//! What came back of a frame that was sent both ways round the ring, joined into one answer.

ghost use Rattle.std.specs.Prelude.{◌≡◌, List, Some};
ghost use Rattle.ec_wire.specs.Datagram.{DatagramRecord};
ghost use Rattle.ec_wire.specs.Fault.{IsSpelt};
ghost use Rattle.rummymaple.specs.Copies.{IsCopy};
ghost use Rattle.rummymaple.specs.Join.{EndsIn, AreJoined, IsJoin, end_code, end_place, end_count};
ghost use Rattle.rummymaple.specs.Join.{none_joined, join_answer};
ghost use Rattle.rummymaple.specs.Numbers.{form_of};
ghost use Rattle.rummymaple.specs.declared.join.Join.{Join};

use crate::numbers::{Code, Copy, form_of};
use crate::packet::{blank, put_frame};
use ec_merge::{JoinFault, join_into};
use ec_wire::{Form, FrameBuf, WireFault};

/// How a join ended.
#[derive(Clone, Copy)]
pub enum JoinEnd {
    /// The copies are joined, and the answer has so many bytes.
    Joined(usize),
    /// A copy cannot have come of the sent frame.
    Stranger(JoinFault),
    /// The copies belong together, and their answer does not fit the room for it.
    NoRoom,
    /// What is said to be sent is no frame.
    NotSent(WireFault),
    /// There is no such form.
    BadForm,
}

/// What came of two packets.
#[derive(Clone, Copy)]
pub struct Join {
    /// How it ended.
    pub end: JoinEnd,
    /// What came of copy a.
    pub a: Copy,
    /// What came of copy b.
    pub b: Copy,
}

/// What came of two packets, in numbers: `struct rmp_joined` of the header.
#[repr(C)]
#[derive(Clone, Copy)]
pub struct JoinAnswer {
    /// How many bytes of the joined frame were written.
    pub bytes: usize,
    /// The first datagram at which a stranger differs, or the byte at fault of what is said to be sent.
    pub at: usize,
    /// How it ended.
    pub code: u32,
    /// What came of copy a: 0 nothing, 1 a frame, 2 bytes that are no frame.
    pub copy_a: u32,
    /// What came of copy b.
    pub copy_b: u32,
}

impl JoinEnd {
    /// Its code.
    fn code(self) -> Code
        ensures { result ≡ end_code self }
    {
        match self {
            JoinEnd::Joined(_) => Code::Good,
            JoinEnd::Stranger(JoinFault::StrangerA(_)) => Code::StrangerA,
            JoinEnd::Stranger(JoinFault::StrangerB(_)) => Code::StrangerB,
            JoinEnd::NoRoom => Code::NoRoom,
            JoinEnd::NotSent(_) => Code::NotSent,
            JoinEnd::BadForm => Code::BadForm,
        }
    }

    /// The place that it names.
    fn place(self) -> usize
        ensures { result ≡ end_place self }
    {
        match self {
            JoinEnd::Stranger(JoinFault::StrangerA(k)) => k,
            JoinEnd::Stranger(JoinFault::StrangerB(k)) => k,
            JoinEnd::NotSent(fault) => fault.at,
            JoinEnd::Joined(_) | JoinEnd::NoRoom | JoinEnd::BadForm => 0,
        }
    }

    /// How many bytes were written.
    fn count(self) -> usize
        ensures { result ≡ end_count self }
    {
        match self {
            JoinEnd::Joined(count) => count,
            _ => 0,
        }
    }
}

impl Join {
    /// The join in numbers.
    fn answer(self) -> JoinAnswer
        ensures { result ≡ join_answer self }
    {
        JoinAnswer {
            bytes: self.end.count(),
            at: self.end.place(),
            code: self.end.code().number(),
            copy_a: self.a.number(),
            copy_b: self.b.number(),
        }
    }
}

/// Nothing was joined.
fn none_joined(end: JoinEnd) -> Join
    ensures { result ≡ none_joined end }
{
    Join {
        end,
        a: Copy::Lost,
        b: Copy::Lost,
    }
}

/// Puts the frame that these bytes spell in the place of a lost copy.
fn stand_in(place: &mut FrameBuf, form: Form, sent: &[u8])
    ensures { (frame : List DatagramRecord) → IsSpelt form sent.now frame → place.new ≡ frame }
{
    let _read = place.refill(sent, form);
}

/// Reads a packet into a place for a copy of the frame that the sent bytes spell.
pub(crate) fn read_copy(place: &mut FrameBuf, form: Form, sent: &[u8], packet: &[u8]) -> Copy
    ensures { (frame : List DatagramRecord) → IsSpelt form sent.now frame
        → IsCopy form packet.now frame result place.new }
{
    if packet.is_empty() {
        stand_in(place, form, sent);
        return Copy::Lost;
    }
    match place.refill(packet, form) {
        Ok(()) => Copy::Came,
        Err(_) => {
            stand_in(place, form, sent);
            Copy::NoFrame
        }
    }
}

/// Joins two copies and puts their answer into the room.
fn end_of(sent: &FrameBuf, a: &mut FrameBuf, b: &FrameBuf, room: &mut [u8]) -> JoinEnd
    ensures { EndsIn sent.now a.old b.now room.old result room.new }
{
    if let Err(stranger) = join_into(sent, a, b) {
        return JoinEnd::Stranger(stranger);
    }
    match put_frame(a, room) {
        Some(count) => JoinEnd::Joined(count),
        None => JoinEnd::NoRoom,
    }
}

/// Joins the packets that came back of a frame, which these bytes spell.
fn join_copies(
    frame: &FrameBuf,
    form: Form,
    sent: &[u8],
    a: &[u8],
    b: &[u8],
    room: &mut [u8],
) -> Join
    requires { IsSpelt form sent.now frame.now }
    ensures { AreJoined form sent.now a.now b.now room.old result room.new }
{
    let mut copy_a = blank();
    let a = read_copy(&mut copy_a, form, sent, a);
    let mut copy_b = blank();
    let b = read_copy(&mut copy_b, form, sent, b);
    let end = end_of(frame, &mut copy_a, &copy_b, room);
    Join { end, a, b }
}

/// Joins the packets that came back of the frame that these bytes spell.
fn join_packets(form: Form, sent: &[u8], a: &[u8], b: &[u8], room: &mut [u8]) -> Join
    ensures { IsJoin (Some form) sent.now a.now b.now room.old result room.new }
{
    let mut frame = blank();
    match frame.refill(sent, form) {
        Ok(()) => join_copies(&frame, form, sent, a, b, room),
        Err(fault) => none_joined(JoinEnd::NotSent(fault)),
    }
}

/// Joins what came back of a frame that was sent both ways round the ring: `sent` are its bytes, `a` and `b`
/// the packets, each of length 0 where nothing came. The answer's bytes go to the front of `room`, which any
/// other end leaves as it is.
#[unsafe(no_mangle)]
pub extern "C" fn rmp_join(
    form: u32,
    sent: &[u8],
    a: &[u8],
    b: &[u8],
    room: &mut [u8],
) -> JoinAnswer
    ensures { (join : Join) × (result ≡ join_answer join)
        × IsJoin (form_of form) sent.now a.now b.now room.old join room.new }
{
    let join = match form_of(form) {
        Some(form) => join_packets(form, sent, a, b, room),
        None => none_joined(JoinEnd::BadForm),
    };
    join.answer()
}
