#![tactic(auto)]
//! Frames on Ethernet: the ends of a line and the ports of a master over packet sockets that are inherited.
//!
//! - `RawEnds`: one packet socket or two, at the ends of a line that is served. It is an `ecat_serve::Ends`
//!   and an `ecat_serve::Console`.
//! - `Carriers`: whether the interfaces at both ends have a carrier. It is an `ecat_serve::Plugs`.
//! - `RawCarrier`: one packet socket or two, at the ports of a master. It is an `ecat_remote::Carrier`.
//! - `Descriptors`: under which numbers they were inherited, as a text names them (`descriptors_of`), and
//!   `RawFault`: why they are of no use.
//! - `packet_of`, `frame_in`, `answer_in`: what is put around a frame, and what is taken out of a packet.
//!
//! To open a packet socket takes a right (on Linux CAP_NET_RAW) that this program neither has nor asks for: a
//! launcher opens them (`tools/raw`), each bound to one interface and to the type 0x88A4, and starts the
//! program, which inherits them.
//!
//! What is promised:
//!
//! - what goes out for a frame, and which frame is in what comes in, are definitions (`specs/Ethernet.antt`);
//!   a frame is taken out of its packet again (`taken_out_again`);
//! - what a master's port gives is the frame of some packet whose source address says that it has passed a
//!   controller, or no byte (`IsGiven` in `specs/Taken.antt`);
//! - a send or receive of a port that fails has grown the count of failures, and nothing lowers the count;
//! - the answer to a packet goes under its own header, with the bit set (`IsTaken`).
//!
//! Of the packets that come nothing is stated, nor that a descriptor stays what it was when it was looked at:
//! both are up to the system.

mod carrier;
mod carriers;
mod ends;
mod ethernet;
mod sockets;

pub use carrier::RawCarrier;
pub use carriers::Carriers;
pub use ends::RawEnds;
pub use ethernet::{
    ADDRESS_A, ADDRESS_B, ETHERCAT, MOST_PACKET, Packet, answer_in, frame_in, packet_of,
    taken_out_again,
};
pub use sockets::{Descriptors, RawFault, descriptors_of};

#[cfg(test)]
mod tests;
