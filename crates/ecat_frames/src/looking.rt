//! The addresses of all packets of a capture, by which their ways are told.

ghost use Rattle.std.specs.Prelude.{◌<◌, ◌≤◌, length};

use crate::ends::{Ends, Peers};
use crate::frames::{End, end_of};
use crate::notes::Notes;
use crate::packet::{any_frame, interface_of, ports_of, read_packet, sender_of};
use ec_wire::FrameBuf;
use ecat_capture::{Capture, Link, Packet, Payload, payload_of};
use ecat_source::Source;
use ecat_trips::{Bases, Marks, Outline, Source as Sender, has_counted};
use std::alloc::Global;

/// The addresses and the interfaces of packets, as far as they were looked at.
#[derive(Drop)]
pub struct Looked {
    bases: Bases,
    interface: Option<u32>,
    interfaces: bool,
    ends: Ends,
    notes: Notes,
}

/// Has a packet the type of EtherCAT just behind its Ethernet addresses?
fn is_plain(packet: &Packet, bytes: &[u8]) -> bool {
    packet.link == Link::Ethernet && matches!(bytes.get(12..14), Some([0x88, 0xa4]))
}

/// The peers of a UDP packet that may have a frame, but where their ports tell nothing.
fn peers_in(packet: &Packet, bytes: &[u8]) -> Option<Peers> {
    let from = match payload_of(packet.link, bytes) {
        Payload::Udp { from, .. } | Payload::OtherUdp { from, .. } => from,
        _ => return None,
    };
    let peers = Peers::of(packet, bytes, ports_of(bytes, from)?);
    if peers.are_alike() { None } else { Some(peers) }
}

impl Looked {
    /// No packet was looked at.
    pub fn new() -> Looked {
        Looked {
            bases: Bases::new(),
            interface: None,
            interfaces: false,
            ends: Ends::new(),
            notes: Notes::new(),
        }
    }

    /// Looks at a packet with a frame, and with these peers where it came by UDP.
    pub(crate) fn take(&mut self, outline: &Outline, peers: Option<Peers>, frame: &FrameBuf) {
        let is_told = match peers {
            Some(peers) => self.ends.take(peers, has_counted(frame)),
            None => false,
        };
        if !is_told {
            self.bases.take(outline.source);
        }
        match self.interface {
            None => self.interface = Some(outline.interface),
            Some(interface) => {
                self.interfaces = self.interfaces || interface != outline.interface;
            }
        }
    }

    /// Was a packet from there looked at that came the same way? One more tells nothing new.
    fn knows(&self, source: Sender, interface: u32) -> bool {
        (self.interfaces || self.interface == Some(interface))
            && self.bases.told.iter().any(|known| {
                known.base == source.base
                    && (if source.marked {
                        known.marked
                    } else {
                        known.plain
                    })
            })
    }

    /// Looks at a packet, if it has a frame; whether it has is read where it would tell something new alone.
    fn look_at(&mut self, packet: &Packet, bytes: &[u8], frame: &mut FrameBuf) {
        self.notes.take(packet, bytes, frame);
        if !is_plain(packet, bytes) {
            self.look_behind(packet, bytes, frame);
        } else if !self.knows(sender_of(Link::Ethernet, bytes), packet.interface) {
            self.read(packet, bytes, None, frame);
        }
    }

    /// Looks so at a packet whose frame, if it has one, does not lie just behind Ethernet addresses.
    fn look_behind(&mut self, packet: &Packet, bytes: &[u8], frame: &mut FrameBuf) {
        let peers = peers_in(packet, bytes);
        let is_known = match peers {
            Some(peers) => self.ends.knows(peers),
            None => self.knows(sender_of(packet.link, bytes), interface_of(packet, bytes)),
        };
        if !is_known {
            self.read(packet, bytes, peers, frame);
        }
    }

    /// Looks at the frame of a packet with these peers, if it has one.
    fn read(&mut self, packet: &Packet, bytes: &[u8], peers: Option<Peers>, frame: &mut FrameBuf) {
        match read_packet(packet, bytes, frame) {
            Some(outline) => self.take(&outline, peers, frame),
            None => {}
        }
    }

    /// What was noted of the packets.
    pub fn notes(&self) -> &Notes {
        &self.notes
    }

    /// What that tells of the ways, and the ends of lines that are reached by UDP.
    pub(crate) fn end(self) -> (Marks, Ends) {
        let mut bases = self.bases;
        let mut ends = self.ends;
        ends.settle();
        ends.tell(&mut bases);
        (Marks::of(bases, self.interfaces), ends)
    }
}

/// Looks at all packets of a capture that have a frame, as far as it can be read.
pub fn look<S: Source + Drop>(alloc: Global, source: S, looked: &mut Looked) -> End {
    let mut capture = Capture::new(alloc, source);
    let mut frame = any_frame();
    for _ in 0..u64::MAX {
        match capture.next() {
            Ok(Some(packet)) => looked.look_at(&packet, capture.bytes(), &mut frame),
            Ok(None) => return End::Whole,
            Err(fault) => return end_of(fault),
        }
    }
    End::Whole
}
