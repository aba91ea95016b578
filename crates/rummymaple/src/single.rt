//! Frames of one datagram, of any command: what a master asks besides its cycles.

ghost use Rattle.std.specs.Prelude.{◌≡◌, ◌≤◌, ◌<◌, length, MatchOption};
ghost use Rattle.ec_wire.specs.Datagram.{command_of};
ghost use Rattle.rummymaple.specs.Single.{commands, single, IsPutSingle, IsSingle, single_answer};
ghost use Rattle.rummymaple.specs.declared.single.SingleEnd.{SingleEnd};

use crate::numbers::Code;
use crate::packet::{WrittenAnswer, put_frame};
use arrayvec::ArrayVec;
use ec_wire::{Command, Datagram, FrameBuf, MAX_DATA};

/// How the making of a frame of one datagram ended.
#[derive(Clone, Copy)]
pub enum SingleEnd {
    /// The frame has so many bytes.
    Made(usize),
    /// It does not fit the room for it.
    NoRoom,
    /// There are no data, or more than 1,486 bytes.
    BadLength,
    /// There is no such command.
    BadCommand,
}

impl SingleEnd {
    /// The end in numbers.
    fn answer(self) -> WrittenAnswer
        ensures { result ≡ single_answer self }
    {
        let (bytes, code) = match self {
            SingleEnd::Made(count) => (count, Code::Good),
            SingleEnd::NoRoom => (0, Code::NoRoom),
            SingleEnd::BadLength => (0, Code::BadLength),
            SingleEnd::BadCommand => (0, Code::BadCommand),
        };
        WrittenAnswer {
            bytes,
            at: 0,
            code: code.number(),
        }
    }
}

/// The command of a code, if it is one.
fn command_of(code: u32) -> Option<Command>
    ensures { MatchOption result (commands ≤ code)
        (λ command. (command ≡ command_of code) × (code < commands)) }
{
    if code >= 15 {
        return None;
    }
    Command::from_code(code as u8)
}

/// The frame of one datagram.
fn frame_of(command: Command, address: u32, payload: &[u8]) -> FrameBuf
    requires { length payload.now ≤ MAX_DATA }
    ensures { result ≡ single command address payload.now }
{
    let mut data = ArrayVec::new();
    data.try_extend_from_slice(payload).unwrap();
    FrameBuf::of(&Datagram {
        command,
        index: 0,
        address,
        circulating: false,
        irq: 0,
        payload: data,
        counter: 0,
    })
}

/// Puts the frame of one datagram into the room.
fn put_single(command: Command, address: u32, payload: &[u8], room: &mut [u8]) -> SingleEnd
    ensures { IsPutSingle command address payload.now room.old result room.new }
{
    if payload.is_empty() {
        return SingleEnd::BadLength;
    }
    if payload.len() > MAX_DATA {
        return SingleEnd::BadLength;
    }
    match put_frame(&frame_of(command, address, payload), room) {
        Some(count) => SingleEnd::Made(count),
        None => SingleEnd::NoRoom,
    }
}

/// Puts the frame of one datagram at the front of `room`: of the command with this code, 0 to 14, with these
/// data, index 0 and counter 0. `address` is the logical one, or ADP + 65,536 * ADO. Any other end leaves
/// `room` as it is.
#[unsafe(no_mangle)]
pub extern "C" fn rmp_single(
    command: u32,
    address: u32,
    payload: &[u8],
    room: &mut [u8],
) -> WrittenAnswer
    ensures { (end : SingleEnd) × (result ≡ single_answer end)
        × IsSingle command address payload.now room.old end room.new }
{
    let end = match command_of(command) {
        Some(command) => put_single(command, address, payload, room),
        None => SingleEnd::BadCommand,
    };
    end.answer()
}
