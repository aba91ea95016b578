//! What the frames of a cycle go out over.

ghost use Rattle.std.specs.Prelude.{◌≡◌, ◌≤◌, ◌<◌, ℕ, List, Result, IsErr};
ghost use Rattle.ec_wire.specs.Datagram.{DatagramRecord};
ghost use Rattle.ec_ring.specs.declared.weather.Came.{Came};
ghost use Rattle.ec_ring.specs.declared.port.PortFault.{PortFault};

use ec_ring::{Came, PortFault};
use ec_wire::FrameBuf;

/// The two ports of a master, from each of which a copy of a frame goes out. An implementation says which
/// trips there are; nothing else is known of what comes back.
pub trait Ports {
    /// The trips that these ports can make: the ports before, the frame that is sent, what comes back, and
    /// the ports after.
    ghost trips: { Self → List DatagramRecord → Result Came PortFault → Self → Type 0 };

    /// How many trips have failed.
    ghost failed: { Self → ℕ };

    /// Sends two copies of a frame, one from each port, and receives those that come back, in either place.
    /// At the greatest count of failures no copies come back where a fault would be.
    fn trip(&mut self, sent: &FrameBuf) -> Result<Came, PortFault>
        ensures run { trips self.old sent.now result self.new }
        ensures counted { IsErr result → failed self.old < failed self.new }
        ensures never_lower { failed self.old ≤ failed self.new };

    /// How many trips have failed.
    fn failures(&self) -> u64
        ensures { result ≡ failed self.now };
}
