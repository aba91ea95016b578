//! Which packets are copies of a frame that went out under a number.

ghost use Rattle.std.specs.Prelude.{◌≡◌, ◌↔◌, true, length, Some, IfSome};
ghost use Rattle.ec_merge.specs.Frames.{IsOwn};
ghost use Rattle.ec_number.specs.Number.{last_of, CameBack, IsCopyOf};

use ec_merge::stranger_in;
use ec_wire::{Form, FrameBuf};

/// The copy of a frame that went out under a number that a packet is, if it is one: the frame that it spells,
/// where this is no stranger, and the data of its last datagram are the sent ones.
pub fn copy_in(sent: &FrameBuf, packet: &[u8]) -> Option<FrameBuf>
    ensures { IsCopyOf sent.now (Some packet.now) result }
{
    match FrameBuf::read(packet, Form::Udp) {
        Ok(copy) => own_copy(sent, copy),
        Err(_) => None,
    }
}

/// A frame, if it came of the one that went out.
fn own_copy(sent: &FrameBuf, copy: FrameBuf) -> Option<FrameBuf>
    ensures kept { CameBack sent.now copy → result ≡ Some copy }
    ensures came { IfSome result (λ xs. (xs ≡ copy) × CameBack sent.now copy) }
{
    if came_of(sent, &copy) {
        Some(copy)
    } else {
        None
    }
}

/// Whether a frame came of the one that went out: it is no stranger, and the data of its last datagram are
/// the sent ones.
pub fn came_of(sent: &FrameBuf, copy: &FrameBuf) -> bool
    ensures { (result ≡ true) ↔ CameBack sent.now copy.now }
{
    is_own(sent, copy) && bears_number(sent, copy)
}

/// Is a frame no stranger?
fn is_own(sent: &FrameBuf, copy: &FrameBuf) -> bool
    ensures { (result ≡ true) ↔ IsOwn sent.now copy.now }
{
    stranger_in(sent, copy).is_none()
}

/// Are the data of its last datagram the sent ones?
fn bears_number(sent: &FrameBuf, copy: &FrameBuf) -> bool
    requires { length copy.now ≡ length sent.now }
    ensures { (result ≡ true) ↔ ((last_of copy.now).payload ≡ (last_of sent.now).payload) }
{
    let last = sent.count() - 1;
    copy.data(last) == sent.data(last)
}
