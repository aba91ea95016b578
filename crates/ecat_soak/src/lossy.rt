//! A line that loses packets.

ghost use Rattle.std.specs.Prelude.{◌≡◌};

use crate::random::Random;
use ec_master::PortFault;
use ec_wire::PACKET_ROOM;
use ecat_udp::{PacketLine, Socket};

/// One of so many packets is lost.
const ONE_IN: u64 = 1000;

/// A line of which a few packets are lost, as a seeded generator has it. Whoever sent one is not told.
#[derive(Drop)]
pub(crate) struct Lossy<L: PacketLine> {
    line: L,
    random: Random,
    lost: u64,
}

impl<L: PacketLine> Lossy<L> {
    /// A line of which no packet is lost yet.
    pub(crate) fn new(line: L, random: Random) -> Lossy<L> {
        Lossy {
            line,
            random,
            lost: 0,
        }
    }

    /// How many packets were lost.
    pub(crate) fn lost(&self) -> u64
        ensures { result ≡ self.now.lost }
    {
        self.lost
    }
}

impl<L: PacketLine> PacketLine for Lossy<L> {
    ghost failed = { λ lossy. L.failed lossy.line };

    ghost gives = { λ before at packet later. L.gives before.line at packet later.line };

    fn send(&mut self, from: Socket, to: Socket, bytes: &[u8]) -> Result<(), PortFault> {
        if self.random.draw() % ONE_IN == 0 {
            self.lost = self.lost.wrapping_add(1);
            return Ok(());
        }
        self.line.send(from, to, bytes)
    }

    fn receive(
        &mut self,
        at: Socket,
        into: &mut [u8; PACKET_ROOM],
    ) -> Result<Option<usize>, PortFault> {
        self.line.receive(at, into)
    }

    fn failures(&self) -> u64 {
        self.line.failures()
    }
}
