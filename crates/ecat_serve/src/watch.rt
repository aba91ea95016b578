//! Who is told of each packet that comes to a line.

ghost use Rattle.ec_wire.specs.Fault.{IsFirstFault};
ghost use Rattle.ec_wire.specs.declared.fault.Form.TheVariants.{Udp};
ghost use Rattle.ecat_serve.specs.Watching.{IsFrame};

use crate::cables::Cable;
use crate::ends::Arrived;
use ec_ring::Port;
use ec_wire::{FrameBuf, WireFault};

/// What becomes of a frame at the end of its walk.
#[derive(Clone, Copy, PartialEq, Eq, Debug)]
pub enum Leaving {
    /// It arrived at neither end.
    Nowhere,
    /// It arrived at this end, and is lost there, since a copy was to be.
    Lost(Port),
    /// It arrived at this end, where nobody has spoken.
    Unheard(Port),
    /// It leaves from this end, to whoever spoke last there.
    Left(Port),
}

/// Somebody who is told of each packet that comes to a line, in the order in which they come. What he is told
/// is so; what he does with it is his, and the line is served alike whoever watches it.
pub trait Watch {
    /// Somebody speaks at an end who was not the last one there. The frame by which he does is told next.
    fn speaker(&mut self, arrived: &Arrived);

    /// A packet came that is a frame in the UDP form, and has walked: as it arrived, if it did, and what
    /// becomes of it now.
    fn frame(&mut self, arrived: &Arrived, packet: &[u8], back: Option<&FrameBuf>, leaving: Leaving)
        requires { IsFrame packet.now };

    /// The cable at an end was pulled, or plugged in: so is that link of the line now.
    fn cable(&mut self, _cable: Cable, _link: usize) {}

    /// A packet came that is no frame in the UDP form, with its first fault.
    fn dropped(&mut self, arrived: &Arrived, packet: &[u8], fault: WireFault)
        requires { IsFirstFault Udp packet.now fault };
}

/// Somebody who passes over what he is told.
#[derive(Clone, Copy, PartialEq, Eq, Debug)]
pub struct Unwatched;

impl Watch for Unwatched {
    fn speaker(&mut self, _arrived: &Arrived) {}

    fn frame(
        &mut self,
        _arrived: &Arrived,
        _packet: &[u8],
        _back: Option<&FrameBuf>,
        _leaving: Leaving,
    ) {}

    fn dropped(&mut self, _arrived: &Arrived, _packet: &[u8], _fault: WireFault) {}
}
