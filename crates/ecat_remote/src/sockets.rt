//! The system's sockets, each of which speaks with one end of a line.

ghost use Rattle.std.specs.Prelude.{⊤, ◌≡◌, ◌+◌, ◌-◌, ◌^◌, ◌≤◌, ◌<◌, IfOk, IfSome, IsErr, IsOk, length};
ghost use Rattle.std.specs.IoError.{error_kind};
ghost use Rattle.std.specs.Option.{is_some};
ghost use Rattle.ec_wire.specs.declared.frame.TheConstants.{PACKET_ROOM};
ghost use Rattle.ecat_remote.specs.Trips.{speaks_at};

use crate::address::RemoteEnds;
use crate::carrier::Carrier;
use crate::health::PortsHealth;
use crate::ready::Ready;
use crate::waiting::{receive_within, wait_at};
use ec_ring::{Port, PortFault, PortHealth, count_failure};
use ec_wire::PACKET_ROOM;
use std::io::{self, ErrorKind};
use std::net::{Ipv4Addr, Ipv6Addr, Net, UdpSocket};

/// Which socket could not be opened: its end's name does not resolve, or the system refuses.
#[derive(Debug, Drop)]
pub struct OpenFault {
    /// The end of the line that the socket was to speak with.
    pub end: Port,
    /// What the system says.
    pub error: io::Error,
}

/// A UDP socket at each port of the master, which speaks with the line's end there and with nobody else; with
/// one end alone port B sends and receives nothing.
///
/// That no packet came in time is no failure, nor is that nobody listens at the line's end; that is told of
/// the port ([`Carrier::health`]) until something comes there. Of a packet of more than 1,501 bytes the first
/// 1,501 are received. Each other error of the system counts as a failure.
#[derive(Drop)]
pub struct UdpCarrier {
    a: UdpSocket,
    b: Option<UdpSocket>,
    failures: u64,
    health: PortsHealth,
}

impl UdpCarrier {
    /// Opens a socket for each end, and looks its name up.
    pub fn open(net: &impl Net, ends: RemoteEnds<'_>) -> Result<UdpCarrier, OpenFault>
        ensures none_failed { IfOk result (λ carrier. ⟦<UdpCarrier as Carrier>⟧.failed carrier ≡ 0) }
    {
        let a = socket_at(net, Port::A, ends.a)?;
        let b = match ends.b {
            Some(end) => Some(socket_at(net, Port::B, end)?),
            None => None,
        };
        Ok(UdpCarrier {
            a,
            b,
            failures: 0,
            health: PortsHealth::sound(),
        })
    }

    /// The socket of a port, if it has one.
    fn socket(&self, at: Port) -> Option<&UdpSocket>
        ensures { is_some result ≡ speaks_at (is_some self.now.b) at }
    {
        match (at, &self.b) {
            (Port::A, _) => Some(&self.a),
            (Port::B, Some(b)) => Some(b),
            (Port::B, None) => None,
        }
    }

    /// Receives at a port; nothing comes at one without a socket.
    fn receive_at(&self, at: Port, into: &mut [u8], within: u64) -> io::Result<usize>
        ensures { IfOk result (λ count. count ≤ length into.old) }
    {
        match self.socket(at) {
            Some(socket) => receive_within(socket, into, within),
            None => Err(io::Error::from(ErrorKind::WouldBlock)),
        }
    }
}

impl Carrier for UdpCarrier {
    ghost failed = { λ carrier. carrier.failures };

    // what a socket gives is up to the line and to the system
    ghost gives = { λ before at packet later. ⊤ };

    // no two receives are told apart
    ghost heard = { λ carrier. 0 };

    ghost speaks = { λ carrier at. speaks_at (is_some carrier.b) at };

    fn speaks(&self, at: Port) -> bool {
        self.socket(at).is_some()
    }

    fn send(&mut self, from: Port, bytes: &[u8]) -> Result<(), PortFault> {
        let Some(socket) = self.socket(from) else {
            return Ok(());
        };
        match socket.send(bytes) {
            Err(fault) if !is_silence(&fault) => {
                self.health.fails(from, &fault);
                count_failure(&mut self.failures)
            }
            Err(fault) if is_refusal(&fault) => {
                self.health.is_refused(from, &fault);
                Ok(())
            }
            _ => {
                self.health.works(from);
                Ok(())
            }
        }
    }

    fn wait(&self, within: u64) -> Ready {
        wait_at(&self.a, self.b.as_ref(), within)
    }

    fn receive(
        &mut self,
        at: Port,
        into: &mut [u8; PACKET_ROOM],
        within: u64,
    ) -> Result<Option<usize>, PortFault> {
        match self.receive_at(at, into, within) {
            Ok(count) => {
                self.health.hears(at);
                Ok(Some(count))
            }
            Err(fault) if is_refusal(&fault) => {
                self.health.is_refused(at, &fault);
                Ok(None)
            }
            Err(fault) if is_silence(&fault) => Ok(None),
            Err(fault) => {
                self.health.fails(at, &fault);
                count_failure(&mut self.failures)?;
                Ok(None)
            }
        }
    }

    fn failures(&self) -> u64 {
        self.failures
    }

    fn health(&self, at: Port) -> PortHealth {
        self.health.at(at)
    }
}

/// Opens the socket of a port, to speak with the line's end there.
fn socket_at(net: &impl Net, end: Port, name: &str) -> Result<UdpSocket, OpenFault> {
    match unblocked(net, name) {
        Ok(socket) => Ok(socket),
        Err(error) => Err(OpenFault { end, error }),
    }
}

/// A socket that speaks with what a name resolves to, at which no receive waits by itself.
fn unblocked(net: &impl Net, name: &str) -> io::Result<UdpSocket> {
    let socket = connected(net, name)?;
    socket.set_nonblocking(true)?;
    Ok(socket)
}

/// A socket that speaks with what a name resolves to, by IPv4 or else by IPv6.
fn connected(net: &impl Net, name: &str) -> io::Result<UdpSocket> {
    let socket = UdpSocket::bind(net, (Ipv4Addr::UNSPECIFIED, 0))?;
    match socket.connect(name) {
        Ok(()) => Ok(socket),
        Err(fault) => match UdpSocket::bind(net, (Ipv6Addr::UNSPECIFIED, 0)) {
            Ok(other) if other.connect(name).is_ok() => Ok(other),
            _ => Err(fault),
        },
    }
}

/// Does the error say that nobody listens there?
fn is_refusal(fault: &io::Error) -> bool {
    fault.kind() == ErrorKind::ConnectionRefused
}

/// Does the error say that nothing came, or that nobody listens there?
fn is_silence(fault: &io::Error) -> bool {
    matches!(
        fault.kind(),
        ErrorKind::WouldBlock
            | ErrorKind::TimedOut
            | ErrorKind::Interrupted
            | ErrorKind::ConnectionRefused
    )
}
