#![tactic(auto)]
//! The packets of captures as users have them, and what of a packet is EtherCAT.
//!
//! A user has whatever his tool saved: classic pcap in either byte order, with micro- or nanoseconds, or
//! pcapng, which Wireshark saves by default; of an Ethernet interface, or of Linux's `any`. One use, which
//! `capture/door.rt` of `ecat_capture_tests` tries:
//!
//! ```text
//! let mut capture = Capture::new(rt.alloc(), Bytes::new(&FILE));
//! while let Some(packet) = capture.next()? {
//!     match payload_of(packet.link, capture.bytes()) {
//!         Payload::Ethernet { from, to } => println!(rt; "{} {}", packet.number, to - from)?,
//!         _ => {}
//!     }
//! }
//! ```
//!
//! What is promised, over a source that tells its bytes:
//!
//! - [`Capture::step`] takes exactly one piece of the file from the front of what is left: a header, a record
//!   or a block, by the definition of each (`piece`), or says that the file ends in front of one (`end`); a
//!   packet's bytes, times, lengths and interface are those of its record or block;
//! - each fault has its cause in the bytes ahead, and its place is where the piece begins (`err`, `place`);
//!   `Read` comes only where the source's count of failures grew; after the end it is always the end
//!   (`ended`), and after a fault always `Failed` (`failed`);
//! - [`Capture::next`] passes over pieces that are no packets, and answers with the packet of such a step;
//! - what its calls give up to the end are all packets of the file in their order (`whole_file`), by the
//!   definition of a whole capture (`IsCapture`); and no bytes are a capture in two ways (`one_reading`);
//! - [`Link`]: where the type and the payload of a packet lie, by the link type of its capture
//!   (`specs/Links.antt`);
//! - [`payload_of`] finds a packet's EtherCAT frame by the table `payload_of`: behind up to two VLAN tags, or
//!   in a whole UDP packet over IPv4 or IPv6 to or from port 34980; at other ports it finds what may be one.
//!
//! A capture of any length takes the same memory: a window of what was read and not taken yet, which is at
//! most the longest piece (1 MiB) and one read (64 KiB), and 64 interfaces.

mod blocks;
mod capture;
mod classic;
mod ethernet;
mod fault;
mod link;
mod order;
mod packet;
mod pieces;
mod promises;
mod window;

pub use capture::{Capture, Step};
pub use ethernet::{Payload, frame_type, payload_of};
pub use fault::{CaptureFault, CaptureFaultKind};
pub use link::Link;
pub use packet::{Packet, Time};
pub use promises::{one_reading, whole_file};
