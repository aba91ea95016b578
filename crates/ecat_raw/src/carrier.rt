//! What carries a master's frames over Ethernet.

ghost use Rattle.std.specs.Prelude.{◌≡◌, ◌+◌, ◌-◌, ◌^◌, ◌≤◌, IfOk, IfSome, IsErr, IsOk, length, take};
ghost use Rattle.std.specs.Option.{is_some};
ghost use Rattle.ec_wire.specs.declared.frame.TheConstants.{MAX_FRAME, PACKET_ROOM};
ghost use Rattle.ecat_remote.specs.Trips.{speaks_at};
ghost use Rattle.ecat_raw.specs.Ethernet.{answer_in};
ghost use Rattle.ecat_raw.specs.Taken.{IsGiven, taken};

use crate::ethernet::{ADDRESS_A, ADDRESS_B, answer_in, packet_of};
use crate::sockets::{Descriptors, PACKET, PacketSocket, RawFault, open_both};
use ec_ring::{Port, PortFault, PortHealth, count_failure};
use ec_wire::{MAX_FRAME, PACKET_ROOM};
use ecat_remote::{Carrier, PortsHealth, Ready, copy_front, wait_at};
use std::io::{self, ErrorKind};

/// A packet socket at each port of the master; with one alone port B sends and receives nothing.
///
/// A frame goes out to every station from `ADDRESS_A` or `ADDRESS_B`. What comes in is taken for an answer
/// where its type is 0x88A4, with at most two tags before it, and its source address says that it has passed
/// a controller: so a port takes neither its own frame for an answer nor another master's. Any other packet
/// is received as one of no bytes. A receive that waits by itself does so in whole milliseconds, as many as
/// there are begun ones; that no packet came by then is no failure. Each other error of the system counts as
/// a failure, as of an interface that is down.
#[derive(Drop)]
pub struct RawCarrier {
    a: PacketSocket,
    b: Option<PacketSocket>,
    failures: u64,
    health: PortsHealth,
}

impl RawCarrier {
    /// Takes over inherited packet sockets, which are closed with it.
    pub fn open(descriptors: Descriptors) -> Result<RawCarrier, RawFault>
        ensures none_failed { IfOk result (λ carrier. ⟦<RawCarrier as Carrier>⟧.failed carrier ≡ 0) }
    {
        let (a, b) = open_both(descriptors)?;
        Ok(RawCarrier::over(a, b))
    }

    /// A carrier over these sockets.
    pub(crate) fn over(a: PacketSocket, b: Option<PacketSocket>) -> RawCarrier
        ensures { result.failures ≡ 0 }
    {
        RawCarrier {
            a,
            b,
            failures: 0,
            health: PortsHealth::sound(),
        }
    }

    /// The socket of a port, if it has one.
    fn socket(&self, at: Port) -> Option<&PacketSocket>
        ensures { is_some result ≡ speaks_at (is_some self.now.b) at }
    {
        match at {
            Port::A => Some(&self.a),
            Port::B => self.b.as_ref(),
        }
    }
}

impl Carrier for RawCarrier {
    ghost failed = { λ carrier. carrier.failures };

    // which packets come is up to the line and to the system
    ghost gives = { λ before at packet later. IfSome packet IsGiven };

    // no two receives are told apart
    ghost heard = { λ carrier. 0 };

    ghost speaks = { λ carrier at. speaks_at (is_some carrier.b) at };

    fn speaks(&self, at: Port) -> bool {
        self.socket(at).is_some()
    }

    fn send(&mut self, from: Port, bytes: &[u8]) -> Result<(), PortFault> {
        let Some(socket) = self.socket(from) else {
            return Ok(());
        };
        if MAX_FRAME < bytes.len() {
            return count_failure(&mut self.failures);
        }
        match socket.send(packet_of(address_of(from), bytes).as_slice()) {
            Err(fault) if !is_silence(&fault) => {
                self.health.fails(from, &fault);
                count_failure(&mut self.failures)
            }
            _ => {
                self.health.works(from);
                Ok(())
            }
        }
    }

    fn wait(&self, within: u64) -> Ready {
        wait_at(&self.a.socket, self.b.as_ref().map(|b| &b.socket), within)
    }

    fn receive(
        &mut self,
        at: Port,
        into: &mut [u8; PACKET_ROOM],
        within: u64,
    ) -> Result<Option<usize>, PortFault> {
        let Some(socket) = self.socket(at) else {
            return Ok(None);
        };
        let mut packet = [0; PACKET];
        match socket.receive_within(&mut packet, milliseconds(within)) {
            Ok(count) => Ok(Some(take_answer(&packet[..count], into))),
            Err(fault) if is_silence(&fault) => Ok(None),
            Err(fault) => {
                self.health.fails(at, &fault);
                count_failure(&mut self.failures)?;
                Ok(None)
            }
        }
    }

    fn failures(&self) -> u64 {
        self.failures
    }

    fn health(&self, at: Port) -> PortHealth {
        self.health.at(at)
    }
}

/// So many microseconds in milliseconds, as many as are begun.
fn milliseconds(micros: u64) -> i32 {
    i32::try_from(micros.div_ceil(1000)).unwrap_or(i32::MAX)
}

/// The source address of what goes out from a port.
fn address_of(port: Port) -> [u8; 6] {
    match port {
        Port::A => ADDRESS_A,
        Port::B => ADDRESS_B,
    }
}

/// Takes the frame of an answer into the front of the room, and says how many bytes it has; of any other
/// packet it takes none.
fn take_answer(packet: &[u8], into: &mut [u8; PACKET_ROOM]) -> usize
    ensures room { result ≤ PACKET_ROOM }
    ensures taken { take result into.new ≡ taken (answer_in packet.now) }
{
    match answer_in(packet) {
        Some(frame) => copy_front(frame, into),
        None => 0,
    }
}

/// Does the error say that nothing came, or that nothing can be sent now?
fn is_silence(fault: &io::Error) -> bool {
    matches!(fault.kind(), ErrorKind::WouldBlock | ErrorKind::Interrupted)
}
