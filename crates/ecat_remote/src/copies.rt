//! Which packets are copies of a frame that went out under the numbers of a trip.

ghost use Rattle.std.specs.Prelude.{◌≡◌, ◌≢◌, ℕ, ◌<◌, ◌+◌, true, false, List, length, Some, None, IfSome};
ghost use Rattle.ec_wire.specs.Datagram.{DatagramRecord};
ghost use Rattle.ec_wire.specs.Spelling.{IsFrameValue, body_length};
ghost use Rattle.ec_wire.specs.declared.layout.TheConstants.{MAX_LENGTH};
ghost use Rattle.ec_ring.specs.declared.port.Port.{Port};
ghost use Rattle.ec_number.specs.Number.{CameBack, numbered};
ghost use Rattle.ec_number.specs.declared.number.TheConstants.{NUMBER_LENGTH};
ghost use Rattle.ecat_remote.specs.Taken.{AreNumbered, IsCopyOfTrip, opened_copy, out_from, sought};
ghost use Rattle.ecat_remote.specs.Trips.{HasRoom};

use ec_number::{Trip, came_of, number_frame, number_of, open_frame};
use ec_ring::Port;
use ec_wire::{Form, FrameBuf};

/// A frame that came back, under its number, and the port from which it was sent.
#[derive(Drop)]
pub struct NumberedCopy {
    /// The port from which it was sent.
    pub from: Port,
    /// The frame as it came.
    pub frame: FrameBuf,
}

/// What goes out on a trip: a copy of the frame from each port, each under its number.
#[derive(Drop)]
pub struct Outgoing {
    /// The copy from port A.
    pub a: FrameBuf,
    /// The copy from port B.
    pub b: FrameBuf,
}

/// What a packet tells.
#[derive(Drop)]
pub(crate) struct Told {
    /// The copy of what went out, if it is one that was not taken already.
    pub(crate) copy: Option<NumberedCopy>,
    /// The number that it bears, if it bears one.
    pub(crate) number: Option<u64>,
    /// Whether it is a frame.
    pub(crate) is_frame: bool,
}

/// A frame as it goes out on a trip; none where it has no room for a number.
pub(crate) fn number_both(sent: &FrameBuf, trip: Trip) -> Option<Outgoing>
    ensures some { IfSome result (AreNumbered trip.number sent.now) }
    ensures room { IfSome result (λ out. HasRoom sent.now) }
    ensures none { result ≡ None → MAX_LENGTH < body_length sent.now + NUMBER_LENGTH }
    ensures frame { IsFrameValue sent.now }
{
    let _frame = sent.count();
    match numbered(sent, trip.a()) {
        Some(a) => match numbered(sent, trip.b()) {
            Some(b) => Some(Outgoing { a, b }),
            None => None,
        },
        None => None,
    }
}

/// A copy of a frame under a number, if it has room for one.
fn numbered(sent: &FrameBuf, number: u64) -> Option<FrameBuf>
    ensures some { IfSome result (λ copy. copy ≡ numbered number sent.now) }
    ensures room { IfSome result (λ copy. HasRoom sent.now) }
    ensures none { result ≡ None → MAX_LENGTH < body_length sent.now + NUMBER_LENGTH }
{
    let mut copy = sent.copy();
    match number_frame(&mut copy, number) {
        Ok(()) => Some(copy),
        Err(_) => None,
    }
}

/// What a packet tells: whether it is a copy of what went out, but for the one that was taken already, and
/// which number it bears.
pub(crate) fn told_by(sent: &Outgoing, already: Option<Port>, packet: &[u8]) -> Told
    ensures { (trip : ℕ) (frame : List DatagramRecord) → AreNumbered trip frame sent.now
        → IsCopyOfTrip (sought trip frame already) (Some packet.now) result.copy }
{
    match FrameBuf::read(packet, Form::Udp) {
        Ok(frame) => {
            let number = number_of(&frame);
            Told {
                copy: own_copy(sent, already, frame),
                number,
                is_frame: true,
            }
        }
        Err(_) => Told {
            copy: None,
            number: None,
            is_frame: false,
        },
    }
}

/// The copy of what went out that a frame is, if it is one that was not taken already.
fn own_copy(sent: &Outgoing, already: Option<Port>, frame: FrameBuf) -> Option<NumberedCopy>
    ensures found { IfSome result (λ copy. (copy.frame ≡ frame) × (already ≢ Some copy.from)
        × CameBack (out_from copy.from sent.now) frame) }
    ensures every { result ≡ None → (from : Port) → already ≢ Some from
        → CameBack (out_from from sent.now) frame → ⊥ }
{
    if is_from(Port::A, &sent.a, already, &frame) {
        return Some(NumberedCopy {
            from: Port::A,
            frame,
        });
    }
    if is_from(Port::B, &sent.b, already, &frame) {
        return Some(NumberedCopy {
            from: Port::B,
            frame,
        });
    }
    None
}

/// Whether a frame is the copy that went out from a port, if this was not taken already.
fn is_from(from: Port, numbered: &FrameBuf, already: Option<Port>, frame: &FrameBuf) -> bool
    ensures is { result ≡ true → (already ≢ Some from) × CameBack numbered.now frame.now }
    ensures no { result ≡ false → already ≢ Some from → CameBack numbered.now frame.now → ⊥ }
{
    if already == Some(from) {
        return false;
    }
    came_of(numbered, frame)
}

/// What came of a trip, with its number taken off.
pub(crate) fn opened(copy: NumberedCopy) -> FrameBuf
    requires { 1 < length copy.frame }
    ensures { result ≡ opened_copy copy }
{
    let mut frame = copy.frame;
    open_frame(&mut frame);
    frame
}
