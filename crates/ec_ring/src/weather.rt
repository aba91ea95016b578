//! What befalls a frame on its trip, and what comes back.

ghost use Rattle.std.specs.Prelude.{◌≡◌};
ghost use Rattle.ec_ring.specs.Weather.{calm};

use crate::links::Links;
use ec_wire::FrameBuf;

/// What befalls the two copies of one frame. Copy A starts at port A and copy B at port B; one has ended
/// its way before the other starts.
#[derive(Clone, Copy)]
pub struct Weather {
    /// The links under which copy A travels.
    pub a: Links,
    /// The links under which copy B travels.
    pub b: Links,
    /// Copy A is lost on its last hop, after its slaves.
    pub lost_a: bool,
    /// Copy B is lost on its last hop, after its slaves.
    pub lost_b: bool,
    /// Copy B goes first.
    pub b_first: bool,
}

impl Weather {
    /// The weather of a ring that nothing disturbs: both copies under its own links, copy A first, none lost
    /// on its last hop.
    pub fn calm(links: Links) -> Weather
        ensures { result ≡ calm links }
    {
        Weather {
            a: links,
            b: links,
            lost_a: false,
            lost_b: false,
            b_first: false,
        }
    }
}

/// The copies that came back, each under the port at which it started, wherever it arrived.
#[derive(Drop)]
pub struct Came {
    /// Copy A, unless it was lost.
    pub a: Option<FrameBuf>,
    /// Copy B, unless it was lost.
    pub b: Option<FrameBuf>,
}
