//! What a frame can travel over.

ghost use Rattle.std.specs.Prelude.{◌≡◌, ◌≤◌, length};
ghost use Rattle.ec_ring.specs.Ring.{RingState, line_of, with_line};
ghost use Rattle.ec_ring.specs.Travel.{came_of, travelled};
ghost use Rattle.ec_ring.specs.Walk.{walked};

use crate::links::{Links, MAX_SLAVES};
use crate::port::Port;
use crate::ring::Ring;
use crate::weather::{Came, Weather};
use ec_wire::FrameBuf;

/// Whatever a frame can travel over. Contracts see it as a ring: its slaves, at most 256, and its links.
pub trait Travel {
    ghost ring: { Self → RingState };

    /// The links of the ring itself.
    fn links(&self) -> Links
        ensures links { result ≡ (ring self.now).links }
        ensures limit { length (ring self.now).slaves ≤ MAX_SLAVES };

    /// Sends a frame on its trip: two copies of it, one from each port, travel one after the other as this
    /// weather has it, and what comes back is answered. Its slaves are left as the copies passed them; a
    /// copy that the weather loses has passed its slaves.
    fn trip(&mut self, sent: &FrameBuf, weather: &Weather) -> Came
        ensures came { result ≡ (travelled weather.now sent.now (line_of (ring self.old))).came }
        ensures ring { ring self.new
            ≡ with_line (ring self.old) (travelled weather.now sent.now (line_of (ring self.old))).line }
        ensures limit { length (ring self.old).slaves ≤ MAX_SLAVES };
}

impl Travel for Ring {
    ghost ring = { λ r. r };

    fn links(&self) -> Links {
        self.links
    }

    fn trip(&mut self, sent: &FrameBuf, weather: &Weather) -> Came {
        if weather.b_first {
            let b = self.send(Port::B, sent, &weather.b, weather.lost_b);
            let a = self.send(Port::A, sent, &weather.a, weather.lost_a);
            Came { a, b }
        } else {
            let a = self.send(Port::A, sent, &weather.a, weather.lost_a);
            let b = self.send(Port::B, sent, &weather.b, weather.lost_b);
            Came { a, b }
        }
    }
}

impl Ring {
    /// Sends a copy of a frame from a port; one that the weather loses is lost on its last hop, after its
    /// slaves.
    fn send(&mut self, from: Port, sent: &FrameBuf, links: &Links, lost: bool) -> Option<FrameBuf>
        ensures came { result ≡ came_of lost (walked from links.now sent.now (line_of self.old)) }
        ensures ring { self.new
            ≡ with_line self.old (walked from links.now sent.now (line_of self.old)).line }
        ensures limit { length self.old.slaves ≤ MAX_SLAVES }
    {
        // For the prover: a ring that is counted has at most `MAX_SLAVES` slaves.
        let _count = self.count();
        let mut frame = sent.copy();
        self.walk_in(from, &mut frame, links)?;
        if lost { None } else { Some(frame) }
    }
}
