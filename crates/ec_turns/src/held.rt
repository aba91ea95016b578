//! Ports at which nobody waits.

ghost use Rattle.std.specs.Prelude.{◌≡◌};
ghost use Rattle.ec_turns.specs.Held.{HeldTrips, giving, nothing};

use ec_master::Ports;
use ec_ring::{Came, PortFault};
use ec_wire::FrameBuf;
use std::marker::Model;
use std::mem;

/// Ports at which nobody waits: a trip gives what was heard before it, once, and keeps the frame that it
/// sends. Contracts see both.
#[derive(Drop)]
pub struct HeldPorts {
    /// What the next trip gives.
    came: Came,
    /// The frame of the last trip, where one was made.
    sent: Option<FrameBuf>,
}

impl Model for HeldPorts {
    ghost use Rattle.ec_turns.specs.Held.{HeldState};

    ghost Value = { HeldState };

    ghost view = { λ h. record { came = h.came; sent = h.sent } };
}

/// That nothing came.
fn nothing() -> Came
    ensures { result ≡ nothing }
{
    Came { a: None, b: None }
}

impl HeldPorts {
    /// Ports that have made no trip, and that give this.
    pub fn giving(came: Came) -> HeldPorts
        ensures { result ≡ giving came }
    {
        HeldPorts { came, sent: None }
    }

    /// Ports that have made no trip, and that give nothing.
    pub fn silent() -> HeldPorts
        ensures { result ≡ giving nothing }
    {
        HeldPorts::giving(nothing())
    }

    /// The frame of the last trip; nothing where no trip was made.
    pub fn into_sent(self) -> Option<FrameBuf>
        ensures { result ≡ self.sent }
    {
        self.sent
    }
}

impl Ports for HeldPorts {
    ghost trips = { HeldTrips };

    ghost failed = { λ _. 0 };

    fn trip(&mut self, sent: &FrameBuf) -> Result<Came, PortFault> {
        self.sent = Some(sent.copy());
        Ok(mem::replace(&mut self.came, nothing()))
    }

    fn failures(&self) -> u64 {
        0
    }
}
