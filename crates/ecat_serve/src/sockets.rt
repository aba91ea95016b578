//! The ends of a line at the system's sockets.

ghost use Rattle.std.specs.Prelude.{◌≡◌, ◌≤◌, ◌<◌, ◌⊎◌, ◌↔◌, Err, IfOk, IfSome};
ghost use Rattle.std.specs.Net.Socket.{socket_ip, socket_port};
ghost use Rattle.std.specs.declared.net.ip_addr.IpAddr.TheVariants.{V4};
ghost use Rattle.ec_ring.specs.declared.port.Port.TheVariants.{A, B};
ghost use Rattle.ecat_serve.specs.Ends.{any_receive, any_send, asked_port, received, unwaited};
ghost use Rattle.ec_wire.specs.declared.frame.TheConstants.{PACKET_ROOM};

use crate::ends::{Arrived, Console, Ends, TimedEnds, Waited};
use crate::lines::{InputLine, LINE_ROOM};
use crate::waiting::{EndSockets, WaitFault, Waiting, may_try_again};
use ec_ring::{Port, PortFault};
use ec_wire::PACKET_ROOM;
use mio::net::UdpSocket;
use std::alloc::Global;
use std::io::{self, Read};
use std::net::{IpAddr, Ipv4Addr, Net, SocketAddr};
use std::os::fd::AsRawFd;
use std::time::Duration;

/// Why a line of sockets could not be opened.
#[derive(Clone, Copy, PartialEq, Eq, Debug)]
pub enum BindFault {
    /// The port is 0, which stands for any free one, or 65,535, above which there is none for end B.
    NoSuchPort,
    /// A socket could not be opened, as where its port is in use.
    NoSocket,
    /// Memory ran out.
    NoMemory,
}

/// The socket of an end.
#[derive(Drop)]
struct End {
    at: Port,
    socket: UdpSocket,
}

impl End {
    /// Opens the socket of an end for a line at this address and port.
    fn open(net: &impl Net, at: Port, address: Ipv4Addr, port: u16) -> io::Result<End>
        requires { port < 65535 }
        ensures { IfOk result (λ end. end.at ≡ at) }
    {
        let socket = UdpSocket::bind(net, asked_address(at, address, port))?;
        Ok(End { at, socket })
    }

    /// Receives a packet that waits there, if one does.
    fn receive(&self, into: &mut [u8; PACKET_ROOM]) -> Result<Option<Arrived>, PortFault>
        ensures room { IfOk result (λ found. IfSome found (λ arrived. arrived.count ≤ PACKET_ROOM)) }
        ensures here { IfOk result (λ found. IfSome found (λ arrived. arrived.at ≡ self.now.at)) }
    {
        received(self.at, self.socket.recv_from(into))
    }
}

/// The sockets of both ends.
#[derive(Drop)]
struct UdpSockets {
    end_a: End,
    end_b: End,
    ghost at_a: { end_a.at ≡ A },
    ghost at_b: { end_b.at ≡ B },
}

impl UdpSockets {
    /// Opens both for a line at this address and port, and has the system tell where something comes.
    fn open<I: Read + AsRawFd + Drop>(
        net: &impl Net,
        waiting: &Waiting<I>,
        address: Ipv4Addr,
        port: u16,
    ) -> io::Result<UdpSockets>
        requires { port < 65535 }
    {
        let end_a = End::open(net, Port::A, address, port)?;
        let end_b = End::open(net, Port::B, address, port)?;
        waiting.register(Port::A, &end_a.socket)?;
        waiting.register(Port::B, &end_b.socket)?;
        Ok(UdpSockets { end_a, end_b })
    }

    /// The socket of an end.
    fn end(&self, at: Port) -> &End
        ensures { result.now.at ≡ at }
    {
        match at {
            Port::A => &self.end_a,
            Port::B => &self.end_b,
        }
    }
}

impl EndSockets for UdpSockets {
    fn receive_at(
        &mut self,
        at: Port,
        into: &mut [u8; PACKET_ROOM],
    ) -> Result<Option<Arrived>, PortFault> {
        self.end(at).receive(into)
    }
}

/// Two UDP sockets at one address, one at each end of a line. At 127.0.0.1 this machine alone reaches them;
/// whoever reaches one may write to the slaves.
///
/// A receive waits until a packet is there, for as long as it takes. Where packets wait at both ends, the
/// end that was not the last one comes first. Of a packet of more than 1,501 bytes the first 1,501 are
/// received. Where there is an input, no more packets are to come once it has ended and no packet waits.
/// What it brings is passed over, or kept as lines: then a receive also ends where a line is there and no
/// packet waits, and after 32 packets in a row. A packet that the system does not take to send is lost; each
/// error of a receive but "try again" is a fault.
#[derive(Drop)]
pub struct UdpEnds<I: Read + AsRawFd + Drop> {
    /// What a receive waits with: the two sockets and the input.
    pub waiting: Waiting<I>,
    sockets: UdpSockets,
}

impl<I: Read + AsRawFd + Drop> UdpEnds<I> {
    /// Opens end A at this address and port (that of EtherCAT is 34980) and end B at the next port. Whether
    /// they can be had is up to the system. With an input the service ends where that does. An input for
    /// which one can't wait, as a file, counts as one that has ended, unless its lines are kept.
    pub fn bind(
        net: &impl Net,
        alloc: Global,
        address: Ipv4Addr,
        port: u16,
        input: Option<I>,
    ) -> Result<UdpEnds<I>, BindFault>
        ensures no_such_port { (result ≡ Err BindFault.NoSuchPort) ↔ ((port ≡ 0) ⊎ (port ≡ 65535)) }
    {
        if port == 0 || port == u16::MAX {
            return Err(BindFault::NoSuchPort);
        }
        let waiting = match Waiting::new(net, alloc, input) {
            Ok(waiting) => waiting,
            Err(fault) => return Err(unwaited(fault)),
        };
        match UdpSockets::open(net, &waiting, address, port) {
            Ok(sockets) => Ok(UdpEnds { waiting, sockets }),
            Err(_) => Err(BindFault::NoSocket),
        }
    }

    /// Has what the input brings be kept, as lines to be taken, from now on.
    pub fn keep_lines(&mut self) {
        self.waiting.keep_lines();
    }
}

impl<I: Read + AsRawFd + Drop> Ends for UdpEnds<I> {
    ghost receives = { any_receive };

    ghost sends = { any_send };

    fn receive(&mut self, into: &mut [u8; PACKET_ROOM]) -> Result<Option<Arrived>, PortFault> {
        self.waiting.receive(&mut self.sockets, into)
    }

    fn send(&mut self, from: Port, to: SocketAddr, bytes: &[u8]) -> Result<(), PortFault> {
        // A copy that the system does not take, as where the network of its address is down, is lost.
        let _ = self.sockets.end(from).socket.send_to(bytes, to);
        Ok(())
    }
}

impl<I: Read + AsRawFd + Drop> TimedEnds for UdpEnds<I> {
    fn receive_within(
        &mut self,
        into: &mut [u8; PACKET_ROOM],
        limit: Duration,
    ) -> Result<Waited, PortFault> {
        self.waiting.receive_within(&mut self.sockets, into, limit)
    }
}

impl<I: Read + AsRawFd + Drop> Console for UdpEnds<I> {
    fn take_line(&mut self, into: &mut [u8; LINE_ROOM]) -> Option<InputLine> {
        self.waiting.take_line(into)
    }
}

/// Why a line of sockets has nothing to wait for.
fn unwaited(fault: WaitFault) -> BindFault
    ensures { result ≡ unwaited fault }
{
    match fault {
        WaitFault::NoMemory => BindFault::NoMemory,
        WaitFault::Refused => BindFault::NoSocket,
    }
}

/// The address that an end asks the system for.
fn asked_address(at: Port, address: Ipv4Addr, port: u16) -> SocketAddr
    requires { port < 65535 }
    ensures address { socket_ip result ≡ V4 address }
    ensures port { socket_port result ≡ asked_port at port }
{
    SocketAddr::new(IpAddr::V4(address), asked_port(at, port))
}

/// The port that an end asks the system for.
fn asked_port(at: Port, port: u16) -> u16
    requires { port < 65535 }
    ensures { result ≡ asked_port at port }
{
    match at {
        Port::A => port,
        Port::B => port + 1,
    }
}

/// What a receive at an end comes to: nothing where it may be tried again.
fn received(
    at: Port,
    outcome: io::Result<(usize, SocketAddr)>,
) -> Result<Option<Arrived>, PortFault>
    ensures { result ≡ received at outcome }
{
    match outcome {
        Ok((count, from)) => Ok(Some(Arrived { at, from, count })),
        Err(fault) => {
            if may_try_again(&fault) {
                Ok(None)
            } else {
                Err(PortFault)
            }
        }
    }
}
