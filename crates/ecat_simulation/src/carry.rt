//! A frame on its way over a ring, and what the master reads of it.

use ec_merge::{JoinFault, join_frames};
use ec_ring::{Travel, Weather};
use ec_wire::FrameBuf;

/// Sends a frame over the ring under its own links, copy A first, and joins what came back. No copy is a
/// stranger, since the ring makes none.
pub fn carry<T: Travel>(ring: &mut T, sent: &FrameBuf) -> Result<FrameBuf, JoinFault> {
    let came = ring.trip(sent, &Weather::calm(ring.links()));
    join_frames(sent, came.a.as_ref(), came.b.as_ref())
}
