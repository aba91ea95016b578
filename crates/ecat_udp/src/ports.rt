//! A master's two ports whose frames go out in UDP packets.

ghost use Rattle.std.specs.Prelude.{◌≡◌, ◌≤◌, ◌<◌, List, IsErr, IfOk, IfSome, Some};
ghost use Rattle.std.specs.Option.{option_map};
ghost use Rattle.ec_wire.specs.Datagram.{DatagramRecord};
ghost use Rattle.ec_wire.specs.Fault.{IsSpelt};
ghost use Rattle.ec_wire.specs.declared.fault.Form.TheVariants.{Udp};
ghost use Rattle.ecat_udp.specs.Sockets.{master_at, line_at};
ghost use Rattle.ecat_udp.specs.Received.{IsReceived, AreReceived};
ghost use Rattle.ecat_udp.specs.Trips.{WalkedTrips, HeardTrips, after_copy, IsWalkedOnce, IsWalked};

use crate::line::{PacketLine, Socket};
use ec_master::{PortFault, Ports};
use ec_ring::{Arrival, Arrivals, Came, HeardPorts, Port, Ring, Travel};
use ec_wire::{Form, FrameBuf, PACKET_ROOM};
use std::marker::Model;

/// A master's two ports whose frames go out in packets, and behind them the ring that answers. Contracts see
/// the ring and what carries the packets.
///
/// A trip that fails leaves packets at the sockets, which the next trip would take for its own: after a fault
/// let the ring go on over a new line.
#[derive(Drop)]
pub struct UdpPorts<L: PacketLine> {
    ring: Ring,
    line: L,
}

impl<L: PacketLine> Model for UdpPorts<L> {
    ghost use Rattle.ecat_udp.specs.State.{PortsState};

    ghost Value = { PortsState L };

    ghost view = { λ p. record { ring = p.ring; line = p.line } };
}

impl<L: PacketLine> UdpPorts<L> {
    /// Ports over what carries the packets, and behind them this ring.
    pub fn new(ring: Ring, line: L) -> UdpPorts<L>
        ensures ring { result.ring ≡ ring }
        ensures line { result.line ≡ line }
    {
        UdpPorts { ring, line }
    }

    /// The ring behind the ports.
    pub fn ring(&self) -> &Ring
        ensures { result.now ≡ self.now.ring }
    {
        &self.ring
    }

    /// The ring, and what carried the packets.
    pub fn into_parts(self) -> (Ring, L)
        ensures ring { result.0 ≡ self.ring }
        ensures line { result.1 ≡ self.line }
    {
        (self.ring, self.line)
    }

    /// Sends both copies of a frame and lets them walk, that from port A first.
    fn send_copies(&mut self, sent: &FrameBuf) -> Result<(), PortFault>
        ensures ring { IsWalked self.old.ring self.new.ring }
        ensures counted { IsErr result → L.failed self.old.line < L.failed self.new.line }
        ensures never_lower { L.failed self.old.line ≤ L.failed self.new.line }
    {
        self.send_copy(Port::A, sent)?;
        self.send_copy(Port::B, sent)
    }

    /// Sends a copy of a frame from a port of the master to the line's end there, and lets the copy walk that
    /// comes there, whatever frame it is.
    fn send_copy(&mut self, from: Port, sent: &FrameBuf) -> Result<(), PortFault>
        ensures ring { IsWalkedOnce from self.old.ring self.new.ring }
        ensures counted { IsErr result → L.failed self.old.line < L.failed self.new.line }
        ensures never_lower { L.failed self.old.line ≤ L.failed self.new.line }
    {
        self.line
            .send(master_at(from), line_at(from), sent.bytes())?;
        match self.receive_frame(line_at(from))? {
            Some(copy) => self.let_walk(from, copy),
            None => Ok(()),
        }
    }

    /// Lets a copy walk from a port, under the ring's own links. From the end where it arrives, it is sent to
    /// the master's port of that name.
    fn let_walk(&mut self, from: Port, copy: FrameBuf) -> Result<(), PortFault>
        ensures ring { self.new.ring ≡ after_copy from copy self.old.ring }
        ensures counted { IsErr result → L.failed self.old.line < L.failed self.new.line }
        ensures never_lower { L.failed self.old.line ≤ L.failed self.new.line }
    {
        let links = self.ring.links();
        match self.ring.walk(from, copy, &links) {
            Some((copy, port)) => self.line.send(line_at(port), master_at(port), copy.bytes()),
            None => Ok(()),
        }
    }

    /// Receives what comes back at both ports, at port A first.
    fn receive_copies(&mut self) -> Result<Came, PortFault>
        ensures received { IfOk result (λ came. AreReceived L.gives came self.new.line) }
        ensures ring { self.new.ring ≡ self.old.ring }
        ensures counted { IsErr result → L.failed self.old.line < L.failed self.new.line }
        ensures never_lower { L.failed self.old.line ≤ L.failed self.new.line }
    {
        let a = self.receive_frame(Socket::MasterA)?;
        let b = self.receive_frame(Socket::MasterB)?;
        Ok(Came { a, b })
    }

    /// Receives a frame at a socket: none where no packet came, or one that is no frame.
    fn receive_frame(&mut self, at: Socket) -> Result<Option<FrameBuf>, PortFault>
        ensures received { IfOk result (λ copy. IsReceived L.gives at self.old.line copy self.new.line) }
        ensures ring { self.new.ring ≡ self.old.ring }
        ensures counted { IsErr result → L.failed self.old.line < L.failed self.new.line }
        ensures never_lower { L.failed self.old.line ≤ L.failed self.new.line }
    {
        let mut packet = [0; PACKET_ROOM];
        match self.line.receive(at, &mut packet)? {
            Some(count) => Ok(frame_in(&packet[..count])),
            None => Ok(None),
        }
    }
}

impl<L: PacketLine> Ports for UdpPorts<L> {
    ghost trips = { WalkedTrips L.gives };

    ghost failed = { λ ports. L.failed ports.line };

    /// Takes both copies over the ring, that from port A first, and receives at both ports what comes back: a
    /// packet that was received is a copy exactly where it spells a frame (`received`). The first call of the
    /// line that fails is the last.
    fn trip(&mut self, sent: &FrameBuf) -> Result<Came, PortFault>
        ensures ring { IsWalked self.old.ring self.new.ring }
        ensures received { IfOk result (λ came. AreReceived L.gives came self.new.line) }
        ensures counted { IsErr result → L.failed self.old.line < L.failed self.new.line }
        ensures never_lower { L.failed self.old.line ≤ L.failed self.new.line }
    {
        self.send_copies(sent)?;
        self.receive_copies()
    }

    fn failures(&self) -> u64 {
        self.line.failures()
    }
}

/// Where a copy arrived is known: at the port where it was received.
impl<L: PacketLine> HeardPorts for UdpPorts<L> {
    ghost trips = { HeardTrips L.gives };

    ghost failed = { λ ports. L.failed ports.line };

    fn trip_heard(&mut self, sent: &FrameBuf) -> Result<Arrivals, PortFault> {
        let came = self.trip(sent)?;
        Ok(Arrivals {
            a: Arrival::at_port(came.a, Port::A),
            b: Arrival::at_port(came.b, Port::B),
        })
    }

    fn failures(&self) -> u64 {
        self.line.failures()
    }
}

/// The frame that a packet is: no byte stands behind it.
fn frame_in(packet: &[u8]) -> Option<FrameBuf>
    ensures found { IfSome result (λ frame. IsSpelt Udp packet.now frame) }
    ensures only_found { (rs : List DatagramRecord) → IsSpelt Udp packet.now rs → result ≡ Some rs }
{
    FrameBuf::read(packet, Form::Udp).ok()
}

/// The socket of a port of the master.
fn master_at(port: Port) -> Socket
    ensures { result ≡ master_at port }
{
    match port {
        Port::A => Socket::MasterA,
        Port::B => Socket::MasterB,
    }
}

/// The socket of the line's end at a port of the master.
fn line_at(port: Port) -> Socket
    ensures { result ≡ line_at port }
{
    match port {
        Port::A => Socket::LineA,
        Port::B => Socket::LineB,
    }
}
