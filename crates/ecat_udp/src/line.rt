//! What carries the packets between a master and the ends of its line.

ghost use Rattle.std.specs.Prelude.{◌≡◌, ◌≤◌, ◌<◌, ℕ, IfOk, IfSome, IsErr, take};
ghost use Rattle.std.specs.Option.{option_map};
ghost use Rattle.ec_wire.specs.declared.frame.TheConstants.{PACKET_ROOM};
ghost use Rattle.ecat_udp.specs.Received.{Gives};

use ec_master::PortFault;
use ec_ring::Port;
use ec_wire::PACKET_ROOM;

/// The sockets between which packets go: one at each port of the master, and one at each end of the line.
#[derive(Clone, Copy, PartialEq, Eq, Debug)]
pub enum Socket {
    /// The socket of the master's port A.
    MasterA,
    /// The socket of the master's port B.
    MasterB,
    /// The socket of the line's end before the first slave.
    LineA,
    /// The socket of the line's end behind the last slave.
    LineB,
}

/// What carries packets between the four sockets, and counts its failures. A packet may be lost, and what
/// comes at a socket may be anything.
pub trait PacketLine {
    /// How many sends and receives have failed.
    ghost failed: { Self → ℕ };

    /// What a receive at a socket gives: a packet or none, and the line behind it.
    ghost gives: { Gives Self };

    /// Sends a packet from one socket to another. At the greatest count of failures, 2^64 - 1, the answer is
    /// `Ok` where a fault would be.
    fn send(&mut self, from: Socket, to: Socket, bytes: &[u8]) -> Result<(), PortFault>
        ensures counted { IsErr result → failed self.old < failed self.new }
        ensures never_lower { failed self.old ≤ failed self.new };

    /// Receives a packet at a socket into the front of the room, and answers how many bytes of it there are;
    /// `None` where none came in time. A packet that is longer than the room fills it. At the greatest count
    /// of failures the answer is `None` where a fault would be.
    fn receive(
        &mut self,
        at: Socket,
        into: &mut [u8; PACKET_ROOM],
    ) -> Result<Option<usize>, PortFault>
        ensures room { IfOk result (λ found. IfSome found (λ count. count ≤ PACKET_ROOM)) }
        ensures gives { IfOk result (λ found. gives self.old at
            (option_map (λ (count : ℕ). take count into.new) found) self.new) }
        ensures counted { IsErr result → failed self.old < failed self.new }
        ensures never_lower { failed self.old ≤ failed self.new };

    /// How many sends and receives have failed.
    fn failures(&self) -> u64
        ensures { result ≡ failed self.now };
}
