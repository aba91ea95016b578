//! A packet that came back, opened: a copy of the frame that went out under a number, or none of it.

ghost use Rattle.std.specs.Prelude.{◌≡◌, ◌<◌, ◌↔◌, length, true, Some};
ghost use Rattle.rummymaple.specs.Numbers.{form_of};
ghost use Rattle.rummymaple.specs.Numbered.{HasItsNumber, IsPutOpened, IsOpenedPacket};
ghost use Rattle.rummymaple.specs.Numbered.{IsOpenedUnder, IsOpened, open_answer};
ghost use Rattle.rummymaple.specs.declared.open.OpenEnd.{OpenEnd};

use crate::numbers::{Code, fault_code, form_of};
use crate::packet::{WrittenAnswer, blank, put_frame};
use ec_merge::stranger_in;
use ec_number::{number_frame, open_frame};
use ec_wire::{Form, FrameBuf, WireFault};

/// How the opening of a packet ended.
#[derive(Clone, Copy)]
pub enum OpenEnd {
    /// It is a copy of the frame under the number, and has so many bytes without it.
    Opened(usize),
    /// It is a copy, and does not fit the room for it.
    NoRoom,
    /// It is a frame, and bears another number, or none.
    OtherNumber,
    /// It bears the number, but is no copy of the frame: this datagram differs first.
    OtherFrame(usize),
    /// It is no frame.
    NoFrame(WireFault),
    /// What is said to be sent is no frame.
    NotSent(WireFault),
    /// What is said to be sent has no place for a number.
    Full,
    /// There is no such form.
    BadForm,
}

impl OpenEnd {
    /// The end in numbers.
    fn answer(self) -> WrittenAnswer
        ensures { result ≡ open_answer self }
    {
        let (bytes, at, code) = match self {
            OpenEnd::Opened(count) => (count, 0, Code::Good),
            OpenEnd::NoRoom => (0, 0, Code::NoRoom),
            OpenEnd::OtherNumber => (0, 0, Code::OtherNumber),
            OpenEnd::OtherFrame(k) => (0, k, Code::OtherFrame),
            OpenEnd::NoFrame(fault) => (0, fault.at, fault_code(fault.kind)),
            OpenEnd::NotSent(fault) => (0, fault.at, Code::NotSent),
            OpenEnd::Full => (0, 0, Code::Full),
            OpenEnd::BadForm => (0, 0, Code::BadForm),
        };
        WrittenAnswer {
            bytes,
            at,
            code: code.number(),
        }
    }
}

/// Whether a frame bears the number of the one that went out.
fn has_number(sent: &FrameBuf, copy: &FrameBuf) -> bool
    ensures { (result ≡ true) ↔ HasItsNumber sent.now copy.now }
{
    let sent_last = sent.count() - 1;
    let last = copy.count() - 1;
    copy.data(last) == sent.data(sent_last)
}

/// Takes its number off a copy of the numbered frame that went out, and puts what it is then into the room.
fn put_opened(sent: &FrameBuf, copy: &mut FrameBuf, room: &mut [u8]) -> OpenEnd
    requires { 1 < length sent.now }
    ensures { IsPutOpened sent.now copy.old room.old result room.new }
{
    if !has_number(sent, copy) {
        return OpenEnd::OtherNumber;
    }
    if let Some(k) = stranger_in(sent, copy) {
        return OpenEnd::OtherFrame(k);
    }
    open_frame(copy);
    match put_frame(copy, room) {
        Some(count) => OpenEnd::Opened(count),
        None => OpenEnd::NoRoom,
    }
}

/// Opens a packet by the numbered frame that went out.
fn open_packet(sent: &FrameBuf, form: Form, packet: &[u8], room: &mut [u8]) -> OpenEnd
    requires { 1 < length sent.now }
    ensures { IsOpenedPacket form sent.now packet.now room.old result room.new }
{
    let mut copy = blank();
    match copy.refill(packet, form) {
        Ok(()) => put_opened(sent, &mut copy, room),
        Err(fault) => OpenEnd::NoFrame(fault),
    }
}

/// Opens a packet by a frame that went out under this number.
fn open_under(
    frame: &mut FrameBuf,
    number: u64,
    form: Form,
    packet: &[u8],
    room: &mut [u8],
) -> OpenEnd
    ensures { IsOpenedUnder form number frame.old packet.now room.old result room.new }
{
    let _datagrams = frame.count(); // its clause says that a frame has one
    match number_frame(frame, number) {
        Ok(()) => open_packet(frame, form, packet, room),
        Err(_) => OpenEnd::Full,
    }
}

/// Opens a packet by the frame, which these bytes spell, that went out under this number.
fn open_by(form: Form, number: u64, sent: &[u8], packet: &[u8], room: &mut [u8]) -> OpenEnd
    ensures { IsOpened (Some form) number sent.now packet.now room.old result room.new }
{
    let mut frame = blank();
    match frame.refill(sent, form) {
        Ok(()) => open_under(&mut frame, number, form, packet, room),
        Err(fault) => OpenEnd::NotSent(fault),
    }
}

/// Opens a packet that came back: `sent` are the bytes of the frame that went out under this number. Where
/// the packet is a copy of it, what it is without the number goes to the front of `room`. Any other end
/// leaves `room` as it is.
#[unsafe(no_mangle)]
pub extern "C" fn rmp_open(
    form: u32,
    number: u64,
    sent: &[u8],
    packet: &[u8],
    room: &mut [u8],
) -> WrittenAnswer
    ensures { (end : OpenEnd) × (result ≡ open_answer end)
        × IsOpened (form_of form) number sent.now packet.now room.old end room.new }
{
    let end = match form_of(form) {
        Some(form) => open_by(form, number, sent, packet, room),
        None => OpenEnd::BadForm,
    };
    end.answer()
}
