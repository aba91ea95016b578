//! What packets give as the copies of a frame whose bytes are at nobody's hand.

ghost use Rattle.std.specs.Prelude.{◌≡◌};
ghost use Rattle.rummymaple.specs.Heard.{AreHeard, IsHeard};

use crate::numbers::Copy;
use ec_ring::Came;
use ec_wire::{Form, FrameBuf};

/// What a packet gives as a copy.
#[derive(Drop)]
struct Heard {
    /// The frame that it spells.
    copy: Option<FrameBuf>,
    /// What is told of it.
    told: Copy,
}

/// What two packets give as the copies of a frame.
#[derive(Drop)]
pub(crate) struct BothHeard {
    /// The frames that they spell.
    pub(crate) came: Came,
    /// What is told of packet a.
    pub(crate) a: Copy,
    /// What is told of packet b.
    pub(crate) b: Copy,
}

/// What a packet gives as a copy: the frame that it spells, and nothing where it spells none.
fn read_packet(form: Form, packet: &[u8]) -> Heard
    ensures { IsHeard form packet.now result.told result.copy }
{
    if packet.is_empty() {
        return Heard {
            copy: None,
            told: Copy::Lost,
        };
    }
    match FrameBuf::read(packet, form) {
        Ok(frame) => Heard {
            copy: Some(frame),
            told: Copy::Came,
        },
        Err(_) => Heard {
            copy: None,
            told: Copy::NoFrame,
        },
    }
}

/// What two packets give.
pub(crate) fn both_heard(form: Form, a: &[u8], b: &[u8]) -> BothHeard
    ensures { AreHeard form a.now b.now result.a result.b result.came }
{
    let a = read_packet(form, a);
    let b = read_packet(form, b);
    BothHeard {
        came: Came {
            a: a.copy,
            b: b.copy,
        },
        a: a.told,
        b: b.told,
    }
}
