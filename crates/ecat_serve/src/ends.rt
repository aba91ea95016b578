//! The two ends of a line, at which anybody may speak.

ghost use Rattle.std.specs.Prelude.{◌≤◌, IfOk, IfSome};
ghost use Rattle.ecat_serve.specs.Ends.{Receives, Sends, has_room};
ghost use Rattle.ecat_serve.specs.Lines.{IsInRoom};
ghost use Rattle.ec_wire.specs.declared.frame.TheConstants.{PACKET_ROOM};

use crate::cables::Cable;
use crate::lines::{InputLine, LINE_ROOM};
use ec_ring::{Port, PortFault};
use ec_wire::PACKET_ROOM;
use std::net::SocketAddr;
use std::time::Duration;

/// A packet that came in.
#[derive(Clone, Copy, PartialEq, Eq, Debug)]
pub struct Arrived {
    /// The end where it came in.
    pub at: Port,
    /// Who sent it.
    pub from: SocketAddr,
    /// How many bytes of the room it has.
    pub count: usize,
}

/// What somebody does who works on a line while it is served: the lines that he writes, and the cables that
/// he pulls. Which come is up to him.
pub trait Console {
    /// Takes the next line that came, into the front of the room; `None` where none has come.
    fn take_line(&mut self, into: &mut [u8; LINE_ROOM]) -> Option<InputLine>
        ensures room { IfSome result (λ line. IsInRoom line) };

    /// Takes the next cable that was pulled or plugged in; `None` where none was, or nobody looks at them.
    fn take_cable(&mut self) -> Option<Cable> {
        None
    }
}

/// The two ends of a line: end A before its first slave, end B behind its last. An implementation says which
/// packets come and what a send does; nothing else is known of either.
pub trait Ends {
    /// The receives that these ends can make: the ends before, the answer, the room behind it, the ends
    /// after.
    ghost receives: { Receives Self };

    /// The sends: the ends before, an end, whom it sends to, the packet, the answer, the ends after.
    ghost sends: { Sends Self };

    /// Waits for a packet at either end, and receives it into the front of the room; `None` where no more is
    /// to come, or where something else is to be looked at first. A packet that is longer than the room fills
    /// it.
    fn receive(&mut self, into: &mut [u8; PACKET_ROOM]) -> Result<Option<Arrived>, PortFault>
        ensures run { receives self.old result into.new self.new }
        ensures room { IfOk result (λ found. IfSome found (λ arrived. arrived.count ≤ PACKET_ROOM)) };

    /// Sends a packet from an end to somebody.
    fn send(&mut self, from: Port, to: SocketAddr, bytes: &[u8]) -> Result<(), PortFault>
        ensures run { sends self.old from to bytes.now result self.new };
}

/// What came while ends were waited at for a time.
#[derive(Clone, Copy, PartialEq, Eq, Debug)]
pub enum Waited {
    /// A packet came in.
    Arrived(Arrived),
    /// No packet has come yet.
    Silent,
    /// No more is to come, or something else is to be looked at first.
    Ended,
}

/// Ends that can be waited at for a time.
pub trait TimedEnds: Ends {
    /// Waits for a packet at either end as `receive` does, but so long at most; it may wait less.
    fn receive_within(
        &mut self,
        into: &mut [u8; PACKET_ROOM],
        limit: Duration,
    ) -> Result<Waited, PortFault>
        ensures room { IfOk result has_room };
}
