//! What carries packets between a master's ports and a line that lies somewhere else.

ghost use Rattle.std.specs.Prelude.{◌≡◌, ◌≤◌, ◌<◌, ℕ, IfOk, IfSome, IsErr, take};
ghost use Rattle.std.specs.Option.{option_map};
ghost use Rattle.ec_wire.specs.declared.frame.TheConstants.{PACKET_ROOM};
ghost use Rattle.ecat_remote.specs.Taken.{Gives, Heard};
ghost use Rattle.ecat_remote.specs.Trips.{Speaks};

use crate::ready::Ready;
use ec_ring::{Port, PortFault, PortHealth};
use ec_wire::PACKET_ROOM;

/// What carries packets between a master's two ports and the ends of a line. A packet may be lost, and what
/// comes at a port may be anything.
pub trait Carrier {
    /// How many sends and receives have failed.
    ghost failed: { Self → ℕ };

    /// What a receive at a port gives: a packet or none, and the carrier behind it.
    ghost gives: { Gives Self };

    /// How many receives there were, as far as the carrier tells them apart: by this it is known that a
    /// packet was given in one trip and not before.
    ghost heard: { Heard Self };

    /// Does a port speak with an end of the line?
    ghost speaks: { Speaks Self };

    /// Does a port speak with an end of the line?
    fn speaks(&self, at: Port) -> bool
        ensures { result ≡ speaks self.now at };

    /// Sends a packet from a port to the line's end there; a port that speaks with no end sends nothing. At
    /// the greatest count of failures, 2^64 - 1, the answer is `Ok` where a fault would be.
    fn send(&mut self, from: Port, bytes: &[u8]) -> Result<(), PortFault>
        ensures counted { IsErr result → failed self.old < failed self.new }
        ensures never_lower { failed self.old ≤ failed self.new }
        ensures heard_on { heard self.old ≤ heard self.new };

    /// Waits until a packet may be at one of the ports, so many microseconds at the most, and says at which.
    /// It may end sooner, and it may say that there is one where there is none.
    fn wait(&self, within: u64) -> Ready;

    /// Receives a packet at a port into the front of the room, and answers how many bytes of it there are;
    /// `None` where none came within so many microseconds. A packet that is longer than the room fills it. At
    /// the greatest count of failures the answer is `None` where a fault would be.
    fn receive(
        &mut self,
        at: Port,
        into: &mut [u8; PACKET_ROOM],
        within: u64,
    ) -> Result<Option<usize>, PortFault>
        ensures room { IfOk result (λ found. IfSome found (λ count. count ≤ PACKET_ROOM)) }
        ensures gives { IfOk result (λ found. gives self.old at
            (option_map (λ (count : ℕ). take count into.new) found) self.new) }
        ensures counted { IsErr result → failed self.old < failed self.new }
        ensures never_lower { failed self.old ≤ failed self.new }
        ensures heard_on { heard self.old ≤ heard self.new };

    /// How many sends and receives have failed.
    fn failures(&self) -> u64
        ensures { result ≡ failed self.now };

    /// How the sends and receives of a port go, as far as the carrier knows the system's errors.
    fn health(&self, _at: Port) -> PortHealth {
        PortHealth::sound()
    }
}

/// Copies the bytes of a packet into the front of the room, as far as that goes, and says how many there are.
pub fn copy_front(frame: &[u8], into: &mut [u8; PACKET_ROOM]) -> usize
    ensures room { result ≤ PACKET_ROOM }
    ensures copied { take result into.new ≡ take PACKET_ROOM frame.now }
{
    let count = PACKET_ROOM.min(frame.len());
    into[..count].copy_from_slice(&frame[..count]);
    count
}
