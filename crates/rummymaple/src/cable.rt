//! Where the cable is broken, by what came back of a broadcast read that was sent both ways round the ring.

ghost use Rattle.std.specs.Prelude.{◌≡◌, ◌⊎◌, ℕ, List, None, Some, true};
ghost use Rattle.ec_wire.specs.Datagram.{nth};
ghost use Rattle.ec_wire.specs.Fault.{IsSpelt};
ghost use Rattle.rummymaple.specs.Cable.{IsHeard, IsKnown, AreHeard, IsCable, none_heard, cable_answer};
ghost use Rattle.rummymaple.specs.Cable.{place_of, is_asked, IsNotAsked};
ghost use Rattle.rummymaple.specs.Numbers.{form_of};
ghost use Rattle.rummymaple.specs.declared.cable.Cable.{Cable};

use crate::numbers::{Code, Copy, form_of};
use crate::packet::blank;
use ec_diag::{Heard, Located};
use ec_ring::Port;
use ec_wire::{Command, Form, FrameBuf, WireFault};

/// How the search for a broken link ended.
#[derive(Clone, Copy)]
pub enum CableEnd {
    /// This is known of the links.
    Told(Located),
    /// What is said to be sent is no frame.
    NotSent(WireFault),
    /// What is said to be sent does not begin with a broadcast read, or with one that circulates already.
    NotBroadcast,
    /// There is no such form.
    BadForm,
}

/// What two packets tell of the cable.
#[derive(Clone, Copy)]
pub struct Cable {
    /// How the search ended.
    pub end: CableEnd,
    /// What came at port A.
    pub a: Copy,
    /// What came at port B.
    pub b: Copy,
}

/// What is known of the links of a line, in numbers. Links are numbered from 0, before the first slave, to
/// the number of slaves, behind the last one.
#[derive(Clone, Copy)]
pub struct CablePlace {
    /// What is known: 0 nothing, 1 all links are up, 2 one link is down, 3 two and perhaps some between them,
    /// 4 one and perhaps some behind it, 5 one and perhaps some before it, 6 the packets contradict.
    pub kind: u32,
    /// The first link that is down, where it is known, else 0.
    pub first: usize,
    /// The last link that is down, where it is known, else 0.
    pub last: usize,
}

/// What two packets tell of the cable, in numbers: `struct rmp_located` of the header.
#[repr(C)]
#[derive(Clone, Copy)]
pub struct CableAnswer {
    /// The first link that is down, where it is known, else 0.
    pub first: usize,
    /// The last link that is down, where it is known, else 0.
    pub last: usize,
    /// The byte at fault of what is said to be sent.
    pub at: usize,
    /// How the search ended.
    pub code: u32,
    /// What is known, as [`CablePlace`] numbers it.
    pub cable: u32,
    /// What came at port A: 0 nothing, 1 a frame, 2 bytes that are no frame.
    pub copy_a: u32,
    /// What came at port B.
    pub copy_b: u32,
}

/// What is known of the links, in numbers.
fn place_of(located: Located) -> CablePlace
    ensures { result ≡ place_of located }
{
    let (kind, first, last) = match located {
        Located::Unknown => (0, 0, 0),
        Located::Whole => (1, 0, 0),
        Located::One(k) => (2, k, k),
        Located::Between(p, q) => (3, p, q),
        Located::First(k) => (4, k, 0),
        Located::Last(k) => (5, 0, k),
        Located::Changed => (6, 0, 0),
    };
    CablePlace { kind, first, last }
}

impl Cable {
    /// What is known in numbers.
    fn answer(self) -> CableAnswer
        ensures { result ≡ cable_answer self }
    {
        let (located, at, code) = match self.end {
            CableEnd::Told(located) => (located, 0, Code::Good),
            CableEnd::NotSent(fault) => (Located::Unknown, fault.at, Code::NotSent),
            CableEnd::NotBroadcast => (Located::Unknown, 0, Code::NotBroadcast),
            CableEnd::BadForm => (Located::Unknown, 0, Code::BadForm),
        };
        let place = place_of(located);
        CableAnswer {
            first: place.first,
            last: place.last,
            at,
            code: code.number(),
            cable: place.kind,
            copy_a: self.a.number(),
            copy_b: self.b.number(),
        }
    }
}

/// No packet was looked at.
fn none_heard(end: CableEnd) -> Cable
    ensures { result ≡ none_heard end }
{
    Cable {
        end,
        a: Copy::Lost,
        b: Copy::Lost,
    }
}

/// What came at a port, and what is heard of it.
#[derive(Drop)]
struct HeardPacket {
    /// What the packet is.
    copy: Copy,
    /// What it tells, if it tells anything.
    heard: Option<Heard>,
}

impl HeardPacket {
    /// It tells nothing.
    fn silent(copy: Copy) -> HeardPacket
        ensures copy { result.copy ≡ copy }
        ensures heard { result.heard ≡ None }
    {
        HeardPacket { copy, heard: None }
    }
}

/// Reads the packet that came at a port into the place of a frame, and hears it.
fn hear(sent: &FrameBuf, place: &mut FrameBuf, form: Form, packet: &[u8], at: Port) -> HeardPacket
    ensures { IsHeard form at sent.now packet.now result.copy result.heard }
{
    if packet.is_empty() {
        return HeardPacket::silent(Copy::Lost);
    }
    let heard = match place.refill(packet, form) {
        Ok(()) => Heard::of(sent, place, at),
        Err(_) => return HeardPacket::silent(Copy::NoFrame),
    };
    HeardPacket {
        copy: Copy::Came,
        heard,
    }
}

/// What is known of the links of a line of so many slaves where this is heard at port A, and this at port B.
fn known(slaves: usize, a: Option<Heard>, b: Option<Heard>) -> Located
    ensures { IsKnown slaves a b result }
{
    let by_a = Located::Unknown.and_heard(slaves, a);
    by_a.and_heard(slaves, b)
}

/// Does a frame begin with a broadcast read that does not circulate yet?
fn begins_with_read(sent: &FrameBuf) -> bool
    ensures { result ≡ is_asked (nth sent.now 0) }
{
    // For the prover: a frame that is counted has a datagram.
    let _count = sent.count();
    sent.command(0).code() == Command::Brd.code() && !sent.circulating(0)
}

/// What the packets at both ports tell of a line of so many slaves.
fn hear_both(sent: &FrameBuf, form: Form, a: &[u8], b: &[u8], slaves: usize) -> Cable
    requires { is_asked (nth sent.now 0) ≡ true }
    ensures { (bytes : List ℕ) → IsSpelt form bytes sent.now
        → AreHeard form bytes a.now b.now slaves result }
{
    let mut place = blank();
    let at_a = hear(sent, &mut place, form, a, Port::A);
    let at_b = hear(sent, &mut place, form, b, Port::B);
    Cable {
        end: CableEnd::Told(known(slaves, at_a.heard, at_b.heard)),
        a: at_a.copy,
        b: at_b.copy,
    }
}

/// What the packets at both ports tell, where the frame that was sent can tell of the cable.
fn hear_frame(sent: &FrameBuf, form: Form, a: &[u8], b: &[u8], slaves: usize) -> Cable
    ensures { (bytes : List ℕ) → IsSpelt form bytes sent.now
        → AreHeard form bytes a.now b.now slaves result ⊎ IsNotAsked form bytes result }
{
    if !begins_with_read(sent) {
        return none_heard(CableEnd::NotBroadcast);
    }
    hear_both(sent, form, a, b, slaves)
}

/// What the packets at both ports tell that came back of the frame that these bytes spell.
fn hear_packets(form: Form, sent: &[u8], a: &[u8], b: &[u8], slaves: usize) -> Cable
    ensures { IsCable (Some form) sent.now a.now b.now slaves result }
{
    let mut frame = blank();
    match frame.refill(sent, form) {
        Ok(()) => hear_frame(&frame, form, a, b, slaves),
        Err(fault) => none_heard(CableEnd::NotSent(fault)),
    }
}

/// Says where the cable of a line of so many slaves is broken, as far as the packets tell that came back of
/// a frame: `sent` are its bytes, `a` what came at port A and `b` what came at port B, each of length 0 where
/// nothing came. A frame whose first datagram is no broadcast read is refused.
#[unsafe(no_mangle)]
pub extern "C" fn rmp_where(
    form: u32,
    sent: &[u8],
    a: &[u8],
    b: &[u8],
    slaves: usize,
) -> CableAnswer
    ensures { (cable : Cable) × (result ≡ cable_answer cable)
        × IsCable (form_of form) sent.now a.now b.now slaves cable }
{
    let cable = match form_of(form) {
        Some(form) => hear_packets(form, sent, a, b, slaves),
        None => none_heard(CableEnd::BadForm),
    };
    cable.answer()
}
