//! How a work is cut into frames.

ghost use Rattle.std.specs.Prelude.{◌≡◌, ◌<◌, length};
ghost use Rattle.ec_line.specs.Answered.{sent_of};
ghost use Rattle.ec_master.specs.Cut.{frame_at};

use crate::work::Work;
use ec_wire::FrameBuf;

/// The frame that begins with the item at `first`: as many of the items from there on as fit, each with its
/// number as index.
pub fn frame_from(work: &Work, first: usize) -> FrameBuf
    requires { first < length work.now }
    ensures { result ≡ sent_of (frame_at first work.now) }
{
    let mut datagram = work.datagram(first);
    let mut frame = FrameBuf::of(&datagram);
    for k in first + 1..work.len() {
        work.put_datagram(k, &mut datagram);
        match frame.push(&datagram) {
            Ok(()) => {}
            Err(_) => return frame,
        }
    }
    frame
}
