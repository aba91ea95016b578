#![tactic(auto)]
//! The frames of a capture, each with what trips look at of its packet.
//!
//! Which way a packet went hangs on the addresses of all packets (`ecat_trips`). So a file is read twice: the
//! first reading ([`look`]) gathers the addresses, the second ([`Frames::of_file`]) gives the frames. Of a
//! stream ([`Frames::of_stream`]) the first 4,096 frames are held, and decide. By UDP a frame may come at any
//! ports. Which sockets are the ends of a line is told by the port 34980, by counters, by ports beside those
//! of other ends, and by who began (`ends`); each end stands for an address then, and the mark for what comes
//! from there. So the frames of both ends of a line are joined as those of two network interfaces are. One
//! use:
//!
//! ```text
//! let mut looked = Looked::new();
//! let _ = look(rt.alloc(), first, &mut looked);
//! let mut frames = Frames::of_file(rt.alloc(), again, looked, None);
//! while let Some(packet) = frames.next() {
//!     // `frames.frame()` is its frame, `frames.marks()` is what tells the ways
//! }
//! // `frames.end()` says how it ended
//! ```
//!
//! Packets without an EtherCAT frame are passed over; how many of them were cut when they were captured, and
//! how many packets are older than the one before, is noted ([`Notes`]).
//!
//! Promised is which socket of a pair is the end of a line, and what is told of each packet by the pairs that
//! were looked at (`specs/Ends.antt`); what is noted of packets that are taken (`specs/Notes.antt`); that any
//! bytes are taken, and that all calls end. What is read is tested where it is used.
//!
//! - `packet`: the frame of a packet, and its outline.
//! - `ends`: the ends of lines that are reached by UDP.
//! - `notes`: which packets were cut, and which are older than the one before.
//! - `looking`: the addresses of all packets.
//! - `frames`: one frame after the other.
//!
//! A file takes the memory of one packet, a stream 8 MB more.

mod ends;
mod frames;
mod looking;
mod notes;
mod packet;

pub use frames::{End, Frames, HELD};
pub use looking::{Looked, look};
pub use notes::{CutPackets, Notes, OldPackets, UNJOINED, is_cut_frame, says_frame};
pub use packet::{any_frame, read_packet};
