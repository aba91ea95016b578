//! Packet sockets that are inherited: somebody who may open them did, and named them by their descriptors.

ghost use Rattle.std.specs.Prelude.{◌≡◌, ◌≤◌, IfOk};

use crate::ethernet::ETHERCAT;
use ec_ring::Port;
use libc::net::{_SS_SIZE, POLLIN};
use libc::types::pollfd;
use os::FromRawFd;
use std::io::{self, ErrorKind};
use std::net::UdpSocket;
use std::os::fd::{AsRawFd, RawFd};

/// The most bytes of a packet that comes in: two addresses, two tags, the type, and one byte more than a
/// frame.
pub(crate) const PACKET: usize = 1523;

/// The family of packet sockets.
const AF_PACKET: u16 = 17;

/// The descriptors of one packet socket or two, each of which this process has inherited.
#[derive(Clone, Copy, PartialEq, Eq, Debug)]
pub struct Descriptors {
    /// The descriptor at end A, or at port A.
    pub a: u16,
    /// The one at B, if there is one.
    pub b: Option<u16>,
}

/// The descriptors that a text names, `A` or `A,B`; `None` where one is no number from 0 to 65,535.
pub fn descriptors_of(text: &str) -> Option<Descriptors> {
    match text.split_once(',') {
        Some((a, b)) => Some(Descriptors {
            a: a.parse().ok()?,
            b: Some(b.parse().ok()?),
        }),
        None => Some(Descriptors {
            a: text.parse().ok()?,
            b: None,
        }),
    }
}

/// Why descriptors are of no use, and which of the two.
#[derive(Clone, Copy, PartialEq, Eq, Debug)]
pub enum RawFault {
    /// Nothing is open under this one.
    NotOpen(Port),
    /// What is open is no packet socket.
    NoPacketSocket(Port),
    /// The packet socket is not bound to the type 0x88A4 on an interface.
    NotBound(Port),
    /// Both are the same one.
    Twice,
    /// The system refuses to tell of what comes to them.
    NotWatched,
    /// Memory ran out.
    NoMemory,
}

/// A packet socket at which no call waits.
#[derive(Drop)]
pub(crate) struct PacketSocket {
    pub(crate) socket: UdpSocket,
}

impl PacketSocket {
    /// Takes over a descriptor that names a packet socket, which is bound.
    pub(crate) fn open(descriptor: u16, at: Port) -> Result<PacketSocket, RawFault> {
        let descriptor = RawFd::from(descriptor);
        look_at(descriptor, at)?;
        let socket = unsafe { UdpSocket::from_raw_fd(descriptor) };
        match socket.set_nonblocking(true) {
            Ok(()) => Ok(PacketSocket { socket }),
            Err(_) => Err(RawFault::NotOpen(at)),
        }
    }

    /// Receives a packet that waits, into the front of the room. A longer one fills it.
    pub(crate) fn receive(&self, into: &mut [u8; PACKET]) -> io::Result<usize>
        ensures { IfOk result (λ count. count ≤ PACKET) }
    {
        self.socket.recv(into)
    }

    /// Receives a packet, for which it waits so many milliseconds at most.
    pub(crate) fn receive_within(&self, into: &mut [u8; PACKET], limit: i32) -> io::Result<usize>
        ensures { IfOk result (λ count. count ≤ PACKET) }
    {
        match self.receive(into) {
            Err(fault) if fault.kind() == ErrorKind::WouldBlock => {
                self.wait(limit);
                self.receive(into)
            }
            received => received,
        }
    }

    /// Waits until something comes, so many milliseconds at most.
    fn wait(&self, limit: i32) {
        let mut asked = [pollfd {
            fd: self.socket.as_raw_fd(),
            events: POLLIN,
            revents: 0,
        }];
        libc::net::poll(&mut asked, limit);
    }

    /// Sends a packet.
    pub(crate) fn send(&self, packet: &[u8]) -> io::Result<usize> {
        self.socket.send(packet)
    }
}

impl AsRawFd for PacketSocket {
    fn as_raw_fd(&self) -> RawFd {
        self.socket.as_raw_fd()
    }
}

/// Takes over one packet socket or two.
pub(crate) fn open_both(
    descriptors: Descriptors,
) -> Result<(PacketSocket, Option<PacketSocket>), RawFault> {
    if descriptors.b == Some(descriptors.a) {
        return Err(RawFault::Twice);
    }
    let a = PacketSocket::open(descriptors.a, Port::A)?;
    let b = match descriptors.b {
        Some(descriptor) => Some(PacketSocket::open(descriptor, Port::B)?),
        None => None,
    };
    Ok((a, b))
}

/// Sees whether a descriptor names a packet socket, and what it is bound to, by its own address: the family,
/// the type with its high byte first, and the number of the interface (Linux, `sockaddr_ll`).
fn look_at(descriptor: RawFd, at: Port) -> Result<(), RawFault> {
    let mut address = [0; _SS_SIZE];
    let mut length = 128;
    if unsafe { libc::net::getsockname(descriptor, &mut address, &mut length) } < 0 {
        return Err(if os::errno() == libc::EBADF {
            RawFault::NotOpen(at)
        } else {
            RawFault::NoPacketSocket(at)
        });
    }
    if u16::from_ne_bytes([address[0], address[1]]) != AF_PACKET {
        return Err(RawFault::NoPacketSocket(at));
    }
    let bound_to = u16::from_be_bytes([address[2], address[3]]);
    let interface = i32::from_ne_bytes([address[4], address[5], address[6], address[7]]);
    if bound_to != ETHERCAT || interface <= 0 {
        return Err(RawFault::NotBound(at));
    }
    Ok(())
}
