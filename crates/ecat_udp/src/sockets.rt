//! The system's sockets.

ghost use Rattle.std.specs.Prelude.{⊤, ◌≡◌, ◌+◌, ◌-◌, ◌*◌, ◌^◌, ◌≤◌, ◌<◌, ◌⊎◌, ◌↔◌, IfOk, IsErr, IsOk, Err};
ghost use Rattle.std.specs.Duration.{as_nanos};
ghost use Rattle.std.specs.Net.Socket.{socket_port};
ghost use Rattle.ecat_udp.specs.Sockets.{asked_port, IsOnLoopback};
ghost use Rattle.ecat_udp.specs.declared.line.Socket.TheVariants.{MasterA, MasterB, LineA, LineB};

use crate::line::{PacketLine, Socket};
use ec_ring::{PortFault, count_failure};
use ec_wire::PACKET_ROOM;
use std::io;
use std::io::ErrorKind;
use std::net::{IpAddr, Ipv4Addr, Net, SocketAddr, UdpSocket};
use std::time::Duration;

/// Why a line of sockets could not be opened.
#[derive(Clone, Copy, PartialEq, Eq, Debug)]
pub enum BindFault {
    /// The port is 0, which stands for any free one, or 65,535, above which there is none for end B.
    NoSuchPort,
    /// A socket could not be opened, as where its port is in use.
    NoSocket,
}

/// One of the four sockets, and where it is reached.
#[derive(Drop)]
struct End {
    name: Socket,
    socket: UdpSocket,
    address: SocketAddr,
}

impl End {
    /// Opens the socket of this name for a line at this port.
    fn open(net: &impl Net, name: Socket, port: u16) -> io::Result<End>
        requires { port < 65535 }
        ensures { IfOk result (λ end. end.name ≡ name) }
    {
        let socket = UdpSocket::bind(net, asked_address(name, port))?;
        socket.set_read_timeout(Some(patience()))?;
        let address = socket.local_addr()?;
        Ok(End {
            name,
            socket,
            address,
        })
    }
}

/// Four UDP sockets on 127.0.0.1, the master's and the line's, in one process.
///
/// A receive waits at most 50 milliseconds; that no packet came by then is no failure. Of a packet of more
/// than 1,501 bytes the first 1,501 are received. Each other error of the system counts as a failure.
#[derive(Drop)]
pub struct UdpLine {
    master_a: End,
    master_b: End,
    line_a: End,
    line_b: End,
    failures: u64,
    ghost at_master_a: { master_a.name ≡ MasterA },
    ghost at_master_b: { master_b.name ≡ MasterB },
    ghost at_line_a: { line_a.name ≡ LineA },
    ghost at_line_b: { line_b.name ≡ LineB },
}

impl UdpLine {
    /// Opens the socket of the line's end A on this port (that of EtherCAT is 34980), that of its end B on
    /// the next one, and the master's two on free ones. Whether a port is free is up to the system.
    pub fn bind(net: &impl Net, port: u16) -> Result<UdpLine, BindFault>
        ensures no_such_port { (result ≡ Err BindFault.NoSuchPort) ↔ ((port ≡ 0) ⊎ (port ≡ 65535)) }
        ensures none_failed { IfOk result (λ line. ⟦<UdpLine as PacketLine>⟧.failed line ≡ 0) }
    {
        if port == 0 || port == u16::MAX {
            return Err(BindFault::NoSuchPort);
        }
        match UdpLine::open(net, port) {
            Ok(line) => Ok(line),
            Err(_) => Err(BindFault::NoSocket),
        }
    }

    /// Opens the line's ends at this port and the next one, and the master's sockets. The named ports come
    /// first: where the system may choose, it may choose one of them.
    fn open(net: &impl Net, port: u16) -> io::Result<UdpLine>
        requires { port < 65535 }
        ensures { IfOk result (λ line. line.failures ≡ 0) }
    {
        let line_a = End::open(net, Socket::LineA, port)?;
        let line_b = End::open(net, Socket::LineB, port)?;
        let master_a = End::open(net, Socket::MasterA, port)?;
        let master_b = End::open(net, Socket::MasterB, port)?;
        Ok(UdpLine {
            master_a,
            master_b,
            line_a,
            line_b,
            failures: 0,
        })
    }

    /// The socket of this name.
    fn end(&self, name: Socket) -> &End
        ensures { result.now.name ≡ name }
    {
        match name {
            Socket::MasterA => &self.master_a,
            Socket::MasterB => &self.master_b,
            Socket::LineA => &self.line_a,
            Socket::LineB => &self.line_b,
        }
    }

    /// What the system knows of the socket of this name.
    pub fn socket(&self, name: Socket) -> &UdpSocket {
        &self.end(name).socket
    }
}

impl PacketLine for UdpLine {
    ghost failed = { λ line. line.failures };

    // what a socket gives is up to the system
    ghost gives = { λ before at packet later. ⊤ };

    fn send(&mut self, from: Socket, to: Socket, bytes: &[u8]) -> Result<(), PortFault> {
        let address = self.end(to).address;
        match self.socket(from).send_to(bytes, address) {
            Ok(_) => Ok(()),
            Err(_) => count_failure(&mut self.failures),
        }
    }

    fn receive(
        &mut self,
        at: Socket,
        into: &mut [u8; PACKET_ROOM],
    ) -> Result<Option<usize>, PortFault> {
        match self.socket(at).recv_from(into) {
            Ok((count, _)) => Ok(Some(count)),
            Err(fault) => {
                if fault.kind() != ErrorKind::WouldBlock {
                    count_failure(&mut self.failures)?;
                }
                Ok(None)
            }
        }
    }

    fn failures(&self) -> u64 {
        self.failures
    }
}

/// The address that a socket asks the system for: one of this machine alone, with the port of that name.
fn asked_address(name: Socket, port: u16) -> SocketAddr
    requires { port < 65535 }
    ensures address { IsOnLoopback result }
    ensures port { socket_port result ≡ asked_port name port }
{
    SocketAddr::new(IpAddr::V4(Ipv4Addr::LOCALHOST), asked_port(name, port))
}

/// How long a receive waits for a packet.
fn patience() -> Duration
    ensures { as_nanos result ≡ 50 * 1_000_000 }
{
    Duration::from_millis(50)
}

/// The port that a socket asks the system for; 0 asks for any free one.
fn asked_port(name: Socket, port: u16) -> u16
    requires { port < 65535 }
    ensures { result ≡ asked_port name port }
{
    match name {
        Socket::MasterA | Socket::MasterB => 0,
        Socket::LineA => port,
        Socket::LineB => port + 1,
    }
}
