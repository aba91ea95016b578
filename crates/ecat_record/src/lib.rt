#![tactic(auto)]
//! Captures that are written: classic pcap over any writer, and the copies of EtherCAT frames in them.
//!
//! What a simulated line does, a user wants to see in Wireshark beside what a real one did. One use, which
//! `copies_tell_their_port_and_way` in `tape.rt` of `ecat_capture_tests` tries:
//!
//! ```text
//! let mut recorder = Recorder::new(&mut out, Counter::new());
//! recorder.copy(Port::A, Way::Leaves, frame.bytes());
//! recorder.copy(Port::B, Way::Arrives, back.bytes());
//! match recorder.finish() { .. }
//! ```
//!
//! - [`Tape`] is a capture: little endian, micro- or nanoseconds, link type Ethernet. Each packet is one
//!   record, and each record one write.
//! - [`Recorder`] writes copies of frames to one, as Ethernet frames to everybody of type 0x88A4. The source
//!   address tells the port of the master and the way ([`address_of`]): `10:52:4d:50:00:0a` leaves port A and
//!   `12:52:4d:50:00:0b` arrives at port B, as `ecat_raw` sends and controllers pass on.
//! - [`Moments`] are the times: a count, or the clock of the system.
//! - [`TapedRing`], [`TapedPorts`], [`TapedLine`] and [`TapedEnds`] record what travels over a ring, over
//!   packets, and to a line that is served; [`TapedCarrier`] what a master sends to a line somewhere else.
//!
//! What is promised, over a writer that tells its bytes:
//!
//! - what was written grows by exactly the header, and by exactly one record a packet (`header`, `grown`), by
//!   their definitions (`specs/Written.antt`); a copy's record is that of its Ethernet frame (`copy_record`);
//! - after a write that has failed nothing more is written (`silent`), and it is told at the end (`ok`);
//! - a reader reads back what was written: a header and records are a capture with just these packets, times
//!   and bytes (`reads_back`), by the definition that `ecat_capture` reads by;
//! - recording changes nothing: to contracts a recorded ring is the ring, a recorded line the line, so that
//!   what is proved of a cycle over them holds of one that is recorded.

mod carriers;
mod copies;
mod ends;
mod format;
mod lines;
mod moments;
mod promises;
mod rings;
mod tape;

pub use carriers::TapedCarrier;
pub use copies::{Recorder, Way, address_of, unrecorded};
pub use ends::TapedEnds;
pub use format::Unit;
pub use lines::TapedLine;
pub use moments::{Counter, Moments, WallClock};
pub use promises::reads_back;
pub use rings::{TapedPorts, TapedRing};
pub use tape::{MOST_PACKET, Tape, TapeFault};
