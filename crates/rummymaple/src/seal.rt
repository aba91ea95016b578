//! A frame that goes out with a number behind it, by which its copy is known when it comes back.

ghost use Rattle.std.specs.Prelude.{◌≡◌};
ghost use Rattle.rummymaple.specs.Numbered.{IsPutSealed, IsSealed, seal_answer};
ghost use Rattle.rummymaple.specs.declared.seal.SealEnd.{SealEnd};

use crate::numbers::Code;
use crate::packet::{WrittenAnswer, blank, put_frame};
use ec_number::number_frame;
use ec_wire::{Form, FrameBuf, WireFault};

/// How the numbering of a frame ended.
#[derive(Clone, Copy)]
pub enum SealEnd {
    /// The frame with its number has so many bytes.
    Sealed(usize),
    /// It does not fit the room for it.
    NoRoom,
    /// What is said to be sent is no frame.
    NotSent(WireFault),
    /// The frame has no place for a number.
    Full,
}

impl SealEnd {
    /// The end in numbers.
    fn answer(self) -> WrittenAnswer
        ensures { result ≡ seal_answer self }
    {
        let (bytes, at, code) = match self {
            SealEnd::Sealed(count) => (count, 0, Code::Good),
            SealEnd::NoRoom => (0, 0, Code::NoRoom),
            SealEnd::NotSent(fault) => (0, fault.at, Code::NotSent),
            SealEnd::Full => (0, 0, Code::Full),
        };
        WrittenAnswer {
            bytes,
            at,
            code: code.number(),
        }
    }
}

/// Puts a frame with a number behind it at the front of the room.
fn put_sealed(frame: &mut FrameBuf, number: u64, room: &mut [u8]) -> SealEnd
    ensures { IsPutSealed number frame.old room.old result room.new }
{
    match number_frame(frame, number) {
        Ok(()) => {}
        Err(_) => return SealEnd::Full,
    }
    match put_frame(frame, room) {
        Some(count) => SealEnd::Sealed(count),
        None => SealEnd::NoRoom,
    }
}

/// Puts the frame that these bytes spell with a number behind it at the front of the room.
fn seal_bytes(number: u64, sent: &[u8], room: &mut [u8]) -> SealEnd
    ensures { IsSealed number sent.now room.old result room.new }
{
    let mut frame = blank();
    match frame.refill(sent, Form::Udp) {
        Ok(()) => put_sealed(&mut frame, number, room),
        Err(fault) => SealEnd::NotSent(fault),
    }
}

/// Puts the frame whose bytes are `sent` with this number behind it at the front of `room`: 20 bytes more, a
/// NOP whose data are the number with its low byte first. All else is as in `sent`, but for the header's
/// length and the bit of the datagram before it that says that another follows. Any other end leaves `room`
/// as it is.
#[unsafe(no_mangle)]
pub extern "C" fn rmp_seal(number: u64, sent: &[u8], room: &mut [u8]) -> WrittenAnswer
    ensures { (end : SealEnd) × (result ≡ seal_answer end)
        × IsSealed number sent.now room.old end room.new }
{
    seal_bytes(number, sent, room).answer()
}
