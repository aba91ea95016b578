//! A line of packets whose copies are recorded at the master's sockets.
ghost use Rattle.std.specs.Prelude.{◌≡◌};

use crate::copies::{Recorder, Way};
use crate::moments::Moments;
use ec_ring::{Port, PortFault};
use ec_wire::PACKET_ROOM;
use ecat_udp::{PacketLine, Socket};
use std::io::Write;

/// A line of packets, of which each that leaves a socket of the master, or arrives there, is recorded.
/// Contracts see the line.
#[derive(Drop)]
pub struct TapedLine<'t, L, W: Write, M: Moments> {
    line: L,
    recorder: &'t mut Recorder<W, M>,
}

impl<'t, L: PacketLine, W: Write, M: Moments> TapedLine<'t, L, W, M> {
    /// A line that is recorded.
    pub fn new(line: L, recorder: &'t mut Recorder<W, M>) -> TapedLine<'t, L, W, M> {
        TapedLine { line, recorder }
    }
}

// The master's port at a socket, if it is one of the master's.
fn port_at(socket: Socket) -> Option<Port> {
    match socket {
        Socket::MasterA => Some(Port::A),
        Socket::MasterB => Some(Port::B),
        Socket::LineA | Socket::LineB => None,
    }
}

impl<L: PacketLine, W: Write, M: Moments> PacketLine for TapedLine<'_, L, W, M> {
    ghost failed = { λ t. L.failed t.line };

    ghost gives = { λ old at packet new. L.gives old.line at packet new.line };

    fn send(&mut self, from: Socket, to: Socket, bytes: &[u8]) -> Result<(), PortFault> {
        if let Some(port) = port_at(from) {
            self.recorder.copy(port, Way::Leaves, bytes);
        }
        self.line.send(from, to, bytes)
    }

    fn receive(
        &mut self,
        at: Socket,
        into: &mut [u8; PACKET_ROOM],
    ) -> Result<Option<usize>, PortFault> {
        let found = self.line.receive(at, into)?;
        if let (Some(count), Some(port)) = (found, port_at(at)) {
            self.recorder.copy(port, Way::Arrives, &into[..count]);
        }
        Ok(found)
    }

    fn failures(&self) -> u64 {
        self.line.failures()
    }
}
