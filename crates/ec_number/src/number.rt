//! A number put behind a frame, read, and taken off.

ghost use Rattle.std.specs.Prelude.{◌≡◌, ◌↔◌, ◌+◌, ◌-◌, ◌<◌, false, length, IsErr, OnOk, OnErr};
ghost use Rattle.ec_wire.specs.Datagram.{record_of};
ghost use Rattle.ec_wire.specs.Spelling.{body_length};
ghost use Rattle.ec_wire.specs.declared.layout.TheConstants.{MAX_LENGTH};
ghost use Rattle.ec_number.specs.Number.{carrying, numbered, opened, number_of};
ghost use Rattle.ec_number.specs.declared.number.TheConstants.{NUMBER_LENGTH};

use arrayvec::ArrayVec;
use byteorder::{ByteOrder, LittleEndian};
use ec_wire::{Command, Datagram, FrameBuf, Full};

/// How many bytes of a frame its number takes: a datagram's head, eight bytes, and its working counter
/// (IEC 61158-4-12, the datagram structure).
pub const NUMBER_LENGTH: usize = 20;

/// The bytes of a number.
const NUMBER_BYTES: usize = 8;

/// The datagram that carries a number.
fn carrying(number: u64) -> Datagram
    ensures { record_of result ≡ carrying false number }
{
    let mut payload = ArrayVec::new();
    payload
        .try_extend_from_slice(&number.to_le_bytes())
        .unwrap();
    Datagram {
        command: Command::Nop,
        index: 0,
        address: 0,
        circulating: false,
        irq: 0,
        payload,
        counter: 0,
    }
}

/// Puts a number behind the datagrams of a frame that is to go out, unless fewer than [`NUMBER_LENGTH`] of
/// its bytes are free.
pub fn number_frame(frame: &mut FrameBuf, number: u64) -> Result<(), Full>
    ensures ok { OnOk result (frame.new ≡ numbered number frame.old) }
    ensures err { OnErr result (frame.new ≡ frame.old) }
    ensures full { IsErr result ↔ (MAX_LENGTH < body_length frame.old + NUMBER_LENGTH) }
{
    frame.push(&carrying(number))
}

/// The number that a frame bears, if its last datagram is a NOP of eight bytes: these, the low one first.
pub fn number_of(frame: &FrameBuf) -> Option<u64>
    ensures { result ≡ number_of frame.now }
{
    let last = frame.count() - 1;
    let payload = frame.data(last);
    if frame.command(last).code() == Command::Nop.code() && payload.len() == NUMBER_BYTES {
        Some(LittleEndian::read_u64(payload))
    } else {
        None
    }
}

/// Takes its number off a frame that came back.
pub fn open_frame(frame: &mut FrameBuf)
    requires { 1 < length frame.old }
    ensures { frame.new ≡ opened frame.old }
{
    frame.pop();
}
