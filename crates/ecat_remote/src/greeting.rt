//! How whoever serves a line is told where a master's ports are.

ghost use Rattle.std.specs.Prelude.{◌≤◌};

use crate::carrier::Carrier;
use ec_ring::Port;
use ec_wire::{FrameBuf, PACKET_ROOM};

/// The most microseconds for which what comes of a greeting is waited for.
const MOST: u64 = 1_000_000;

/// Sends a frame that asks nothing from each port that speaks, from port A first, and waits so many
/// microseconds, and a second at the most, for what comes of each at port A: there it comes back while nobody
/// has spoken at end B yet, and there it arrives from port B. So at the first trip both ports are known, and
/// no copy of it is missing. The frame bears no number, so no trip takes what comes of it.
pub fn greet<C: Carrier>(carrier: &mut C, greeting: &FrameBuf, within: u64)
    ensures never_lower { C.failed carrier.old ≤ C.failed carrier.new }
{
    greet_from(carrier, Port::A, greeting, within);
    greet_from(carrier, Port::B, greeting, within);
}

/// Sends it from a port, if that speaks, and waits for what comes of it.
fn greet_from<C: Carrier>(carrier: &mut C, from: Port, greeting: &FrameBuf, within: u64)
    ensures never_lower { C.failed carrier.old ≤ C.failed carrier.new }
{
    if !carrier.speaks(from) {
        return;
    }
    let mut packet = [0; PACKET_ROOM];
    let _ = carrier.send(from, greeting.bytes());
    let _ = carrier.receive(Port::A, &mut packet, within.min(MOST));
}
