//! The ends of a line on Ethernet.

ghost use Rattle.std.specs.Prelude.{◌≡◌, ◌≤◌, IfOk, IfSome, length};
ghost use Rattle.ec_wire.specs.declared.frame.TheConstants.{MAX_FRAME, PACKET_ROOM};
ghost use Rattle.ecat_serve.specs.Ends.{any_receive, any_send};
ghost use Rattle.ecat_raw.specs.Ethernet.{under};
ghost use Rattle.ecat_raw.specs.Taken.{IsTaken};

use crate::ethernet::{
    ADDRESS_A, Header, Packet, answering, frame_in, header_in, header_of, sender_of, under,
};
use crate::sockets::{Descriptors, PACKET, PacketSocket, RawFault, open_both};
use ec_ring::{Port, PortFault};
use ec_wire::{MAX_FRAME, PACKET_ROOM};
use ecat_remote::copy_front;
use ecat_serve::{
    Arrived, Console, EndSockets, Ends, InputLine, LINE_ROOM, TimedEnds, WaitFault, Waited, Waiting,
};
use std::alloc::Global;
use std::io::Read;
use std::net::{Net, SocketAddr};
use std::os::fd::AsRawFd;
use std::time::Duration;

/// The packet sockets of both ends, and the header of the answer to what came last.
#[derive(Drop)]
struct RawSockets {
    a: PacketSocket,
    b: Option<PacketSocket>,
    answers_under: Header,
}

impl RawSockets {
    /// The socket of an end, if it has one.
    fn socket(&self, at: Port) -> Option<&PacketSocket> {
        match at {
            Port::A => Some(&self.a),
            Port::B => self.b.as_ref(),
        }
    }

    /// Receives a packet that waits at an end, if one does, and says how many bytes it has. From an interface
    /// that fails none comes.
    fn packet_at(&self, at: Port, into: &mut [u8; PACKET]) -> Option<usize>
        ensures { IfSome result (λ count. count ≤ PACKET) }
    {
        let socket = self.socket(at)?;
        match socket.receive(into) {
            Ok(count) => Some(count),
            Err(_) => None,
        }
    }

    /// Takes the frame of a packet into the front of the room, if it has one, and keeps the header under
    /// which its answer goes.
    fn take(&mut self, at: Port, packet: &[u8], into: &mut [u8; PACKET_ROOM]) -> Option<Arrived>
        ensures { IsTaken at packet.now self.old.answers_under.items result into.new
            self.new.answers_under.items }
    {
        let frame = frame_in(packet)?;
        self.answers_under = answering(header_in(packet));
        Some(Arrived {
            at,
            from: sender_of(packet),
            count: copy_front(frame, into),
        })
    }

    /// The packet of a frame that answers what came last: it goes under the header of that.
    fn answer_with(&self, frame: &[u8]) -> Packet
        requires { length frame.now ≤ MAX_FRAME }
        ensures { result.items ≡ under self.now.answers_under.items frame.now }
    {
        under(&self.answers_under, frame)
    }

    /// Sends a frame from an end, as the answer to what came last; from an end with no socket nothing. At an
    /// interface that fails it is lost.
    fn send(&self, from: Port, frame: &[u8]) -> Result<(), PortFault> {
        let Some(socket) = self.socket(from) else {
            return Ok(());
        };
        if MAX_FRAME < frame.len() {
            return Err(PortFault);
        }
        let _ = socket.send(self.answer_with(frame).as_slice());
        Ok(())
    }
}

impl EndSockets for RawSockets {
    fn receive_at(
        &mut self,
        at: Port,
        into: &mut [u8; PACKET_ROOM],
    ) -> Result<Option<Arrived>, PortFault> {
        let mut packet = [0; PACKET];
        for _passed in 0..u64::MAX {
            let Some(count) = self.packet_at(at, &mut packet) else {
                return Ok(None);
            };
            if let Some(arrived) = self.take(at, &packet[..count], into) {
                return Ok(Some(arrived));
            }
        }
        Ok(None)
    }
}

/// One packet socket or two, one at each end of a line; with one there is no end B. Whoever reaches such an
/// interface may write to the slaves.
///
/// A packet comes in where its type is 0x88A4, with at most two tags before it; any other is passed over. Its
/// frame is received without padding, of more than 1,501 bytes the first 1,501, and as if it came from the
/// link-local IPv6 address that its source address makes, at port 34980. An answer leaves under the header of
/// what came last, to everybody, with bit 1 of the first byte of its source address set; one that the system
/// does not take is lost, and from an interface that fails nothing comes until it works again. How it waits
/// for packets and for an input is told at `ecat_serve::Waiting`.
#[derive(Drop)]
pub struct RawEnds<I: Read + AsRawFd + Drop> {
    waiting: Waiting<I>,
    sockets: RawSockets,
}

impl<I: Read + AsRawFd + Drop> RawEnds<I> {
    /// Takes over inherited packet sockets, which are closed with it. With an input the service ends where
    /// that does.
    pub fn open(
        net: &impl Net,
        alloc: Global,
        descriptors: Descriptors,
        input: Option<I>,
    ) -> Result<RawEnds<I>, RawFault> {
        let (a, b) = open_both(descriptors)?;
        RawEnds::over(net, alloc, a, b, input)
    }

    /// Ends at these sockets.
    pub(crate) fn over(
        net: &impl Net,
        alloc: Global,
        a: PacketSocket,
        b: Option<PacketSocket>,
        input: Option<I>,
    ) -> Result<RawEnds<I>, RawFault> {
        let waiting = match Waiting::new(net, alloc, input) {
            Ok(waiting) => waiting,
            Err(WaitFault::NoMemory) => return Err(RawFault::NoMemory),
            Err(WaitFault::Refused) => return Err(RawFault::NotWatched),
        };
        register(&waiting, Port::A, &a)?;
        if let Some(socket) = &b {
            register(&waiting, Port::B, socket)?;
        }
        let sockets = RawSockets {
            a,
            b,
            answers_under: header_of(ADDRESS_A),
        };
        Ok(RawEnds { waiting, sockets })
    }

    /// Has what the input brings be kept, as lines to be taken, from now on.
    pub fn keep_lines(&mut self) {
        self.waiting.keep_lines();
    }
}

impl<I: Read + AsRawFd + Drop> Ends for RawEnds<I> {
    ghost receives = { any_receive };

    ghost sends = { any_send };

    fn receive(&mut self, into: &mut [u8; PACKET_ROOM]) -> Result<Option<Arrived>, PortFault> {
        self.waiting.receive(&mut self.sockets, into)
    }

    fn send(&mut self, from: Port, _to: SocketAddr, bytes: &[u8]) -> Result<(), PortFault> {
        self.sockets.send(from, bytes)
    }
}

impl<I: Read + AsRawFd + Drop> TimedEnds for RawEnds<I> {
    fn receive_within(
        &mut self,
        into: &mut [u8; PACKET_ROOM],
        limit: Duration,
    ) -> Result<Waited, PortFault> {
        self.waiting.receive_within(&mut self.sockets, into, limit)
    }
}

impl<I: Read + AsRawFd + Drop> Console for RawEnds<I> {
    fn take_line(&mut self, into: &mut [u8; LINE_ROOM]) -> Option<InputLine> {
        self.waiting.take_line(into)
    }
}

/// Has the system tell of what comes to the socket of an end.
fn register<I: Read + AsRawFd + Drop>(
    waiting: &Waiting<I>,
    at: Port,
    socket: &PacketSocket,
) -> Result<(), RawFault> {
    match waiting.register(at, socket) {
        Ok(()) => Ok(()),
        Err(_) => Err(RawFault::NotWatched),
    }
}
