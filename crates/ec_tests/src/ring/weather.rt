//! What is promised of anything that a frame can travel over, at a ring.

ghost use Rattle.std.specs.Prelude.{◌≡◌};
ghost use Rattle.ec_ring.specs.Ring.{line_of, with_line};
ghost use Rattle.ec_ring.specs.Travel.{travelled};

use crate::ring::line::{THREE, calm, came, down, frame, ring, status};
use ec_ring::Weather;
use ec_ring::travel::Travel;
use ec_wire::FrameBuf;

/// The frame as it is sent.
const SENT: [u8; 16] = [
    0x0E, 0x10, 0x07, 0x01, 0x00, 0x00, 0x30, 0x01, 0x02, 0x00, 0x00, 0x00, 0x00, 0x00, 0x00, 0x00,
];

/// Sends a frame over anything that it can travel over, and answers copy A.
fn copy_a<T: Travel>(way: &mut T, sent: &FrameBuf, weather: &Weather) -> Option<FrameBuf>
    ensures came { result ≡ (travelled weather.now sent.now (line_of (T.ring way.old))).came.a }
    ensures ring { T.ring way.new
        ≡ with_line (T.ring way.old) (travelled weather.now sent.now (line_of (T.ring way.old))).line }
{
    way.trip(sent, weather).a
}

#[test]
fn copy_a_comes_back_from_anything_that_is_travelled(rt: HostRuntime) {
    let mut ring = ring(&rt, rt.alloc(), &THREE);
    let copy = copy_a(&mut ring, &frame(&rt, &SENT), &calm(down(&[2]), down(&[])));
    came(&rt, &copy, Some(&status(0x02, 0x00, 0x0C, 0x02)));
}
