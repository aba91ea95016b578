//! A line in memory, which writes its calls down, and may fail at one of them.

ghost use Rattle.std.specs.Prelude.{⊤, ◌≡◌, ◌≤◌, ◌<◌, IsErr};

use ec_master::PortFault;
use ec_wire::PACKET_ROOM;
use ecat_udp::{PacketLine, Socket};

/// A call of a line.
#[derive(Clone, Copy, PartialEq, Eq, Debug)]
pub enum Call {
    /// A packet was sent, from a socket to another.
    Send(Socket, Socket),
    /// A packet was asked for at a socket.
    Receive(Socket),
}

/// What lies at a socket: its first bytes are those of a packet, none where there is no packet.
#[derive(Clone, Copy)]
struct Waiting {
    bytes: [u8; PACKET_ROOM],
    count: usize,
}

/// A line that keeps one packet for each socket.
#[derive(Drop)]
pub struct MemoryLine {
    waiting: [Waiting; 4],
    calls: [Option<Call>; 9],
    made: usize,
    failing: usize,
    trailing: usize,
    failed: u64,
}

impl MemoryLine {
    /// A line whose call of this number fails, from 1 on, and which puts so many zeros behind each packet, at
    /// most as many as there is room for.
    pub fn new(failing: usize, trailing: usize) -> MemoryLine {
        MemoryLine {
            waiting: [Waiting {
                bytes: [0; PACKET_ROOM],
                count: 0,
            }; 4],
            calls: [None; 9],
            made: 0,
            failing,
            trailing,
            failed: 0,
        }
    }

    /// How many calls were made.
    pub fn made(&self) -> usize {
        self.made
    }

    /// The first nine calls.
    pub fn calls(&self) -> [Option<Call>; 9] {
        self.calls
    }

    /// Writes a call down, and fails at the one that is to fail.
    fn call(&mut self, call: Call) -> Result<(), PortFault>
        ensures counted { IsErr result → self.old.failed < self.new.failed }
        ensures never_lower { self.old.failed ≤ self.new.failed }
    {
        if let Some(place) = self.calls.get_mut(self.made) {
            *place = Some(call);
        }
        self.made = self.made.wrapping_add(1);
        if self.made == self.failing && self.failed < u64::MAX {
            self.failed += 1;
            return Err(PortFault);
        }
        Ok(())
    }
}

/// The place of a socket's packet.
fn place(socket: Socket) -> usize
    ensures { result < 4 }
{
    match socket {
        Socket::MasterA => 0,
        Socket::MasterB => 1,
        Socket::LineA => 2,
        Socket::LineB => 3,
    }
}

impl PacketLine for MemoryLine {
    ghost failed = { λ line. line.failed };

    ghost gives = { λ before at packet later. ⊤ };

    fn send(&mut self, from: Socket, to: Socket, bytes: &[u8]) -> Result<(), PortFault> {
        self.call(Call::Send(from, to))?;
        let count = bytes.len().min(PACKET_ROOM);
        let mut packet = Waiting {
            bytes: [0; PACKET_ROOM],
            count,
        };
        packet.bytes[..count].copy_from_slice(&bytes[..count]);
        self.waiting[place(to)] = packet;
        Ok(())
    }

    fn receive(
        &mut self,
        at: Socket,
        into: &mut [u8; PACKET_ROOM],
    ) -> Result<Option<usize>, PortFault> {
        self.call(Call::Receive(at))?;
        let packet = self.waiting[place(at)];
        self.waiting[place(at)].count = 0;
        if packet.count == 0 {
            return Ok(None);
        }
        into.copy_from_slice(&packet.bytes);
        Ok(Some(packet.count.saturating_add(self.trailing).min(PACKET_ROOM)))
    }

    fn failures(&self) -> u64 {
        self.failed
    }
}
