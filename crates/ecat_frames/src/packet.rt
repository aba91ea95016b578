//! The frame of a packet, and what trips look at of the rest.

use arrayvec::ArrayVec;
use ec_wire::{Command, Datagram, Form, FrameBuf};
use ecat_capture::{Link, Packet, Payload, payload_of};
use ecat_trips::{Outline, Ports, Source as Sender};

/// A frame that asks nothing, in whose place those of packets come.
pub fn any_frame() -> FrameBuf {
    FrameBuf::of(&Datagram {
        command: Command::Nop,
        index: 0,
        address: 0,
        circulating: false,
        irq: 0,
        payload: ArrayVec::new(),
        counter: 0,
    })
}

/// An address of six bytes, as a number of 48 bits whose highest byte is the first; 0 where it is not there.
pub(crate) fn host_of(bytes: Option<&[u8]>) -> u64 {
    match bytes {
        Some([a, b, c, d, e, f, ..]) => u64::from_be_bytes([0, 0, *a, *b, *c, *d, *e, *f]),
        _ => 0,
    }
}

/// The interface of a packet: where the second header of Linux's `any` tells one, that one.
pub(crate) fn interface_of(packet: &Packet, bytes: &[u8]) -> u32 {
    match packet.link {
        Link::Ethernet | Link::Cooked => packet.interface,
        Link::CookedTwo => match bytes {
            [_, _, _, _, a, b, c, d, ..] => u32::from_be_bytes([*a, *b, *c, *d]),
            _ => packet.interface,
        },
    }
}

/// The ports of the UDP header in front of a place.
pub(crate) fn ports_of(bytes: &[u8], from: usize) -> Option<Ports> {
    let at = from.checked_sub(8)?;
    match bytes.get(at..)? {
        [a, b, c, d, ..] => Some(Ports {
            from: u16::from_be_bytes([*a, *b]),
            to: u16::from_be_bytes([*c, *d]),
        }),
        _ => None,
    }
}

/// Who sent a packet with this header whose bytes these are.
pub(crate) fn sender_of(link: Link, bytes: &[u8]) -> Sender {
    Sender::of(host_of(bytes.get(link.sender_place()..)))
}

/// When a packet was captured, in nanoseconds of the epoch, where the capture tells it.
pub(crate) fn time_of(packet: &Packet) -> Option<u64> {
    packet.time.map(|time| {
        time.seconds
            .saturating_mul(1_000_000_000)
            .saturating_add(time.nanoseconds)
    })
}

/// What trips look at of a packet beside its frame.
fn outline_of(packet: &Packet, bytes: &[u8], ports: Option<Ports>) -> Outline {
    Outline {
        number: packet.number,
        time: time_of(packet),
        interface: interface_of(packet, bytes),
        source: sender_of(packet.link, bytes),
        ports,
    }
}

/// Reads the frame of a packet whose bytes these are, if it has one, into the place of another one, and tells
/// the rest of the packet: its number, its time in nanoseconds of the epoch, its interface, who sent it, and
/// its UDP ports. One by UDP is read at any ports. Where there is none, the frame in that place means
/// nothing.
pub fn read_packet(packet: &Packet, bytes: &[u8], frame: &mut FrameBuf) -> Option<Outline> {
    match payload_of(packet.link, bytes) {
        Payload::Ethernet { from, to } => match frame.refill(&bytes[from..to], Form::Ethernet) {
            Ok(()) => Some(outline_of(packet, bytes, None)),
            Err(_) => None,
        },
        Payload::Udp { from, to } | Payload::OtherUdp { from, to } => {
            match frame.refill(&bytes[from..to], Form::Udp) {
                Ok(()) => Some(outline_of(packet, bytes, ports_of(bytes, from))),
                Err(_) => None,
            }
        }
        Payload::Fragment | Payload::Short | Payload::BadLength | Payload::Other => None,
    }
}
