#![tactic(auto)]
//! Where the bytes of files come from, and the packets of a capture.
//!
//! A file may fail at any read, and a capture may be cut anywhere, made by another system, or no capture at
//! all; what a program says of it must not hang on how many bytes a read brings. One use, which
//! `source/captures.rt` of `ecat_capture_tests` tries in `want_of_memory_is_told`; `CAPTURE` is a capture of
//! one packet:
//!
//! ```text
//! let mut pcap = Pcap::new(rt.alloc(), Bytes::new(&CAPTURE));
//! match pcap.next() {
//!     Ok(Some(packet)) => assert_eq!(rt; packet.bytes.as_slice(), PACKET.as_slice()),
//!     Ok(None) => panic!(rt; "the capture ended"),
//!     Err(fault) => {
//!         assert_eq!(rt; fault, PcapFault::NoMemory);
//!         expect_fault(&rt, pcap.next(), PcapFault::Failed);
//!     }
//! }
//! ```
//!
//! What is promised:
//!
//! - [`Source`] gives bytes and counts its failures; [`Bytes`] tells a proof which it has, and [`Counted`]
//!   makes one of any reader of std.
//! - [`Pcap::next`], over a source that tells its bytes, gives the first of the packets that are left
//!   (`capture`), unless a read fails or memory runs out; each fault of the bytes has its cause (`err`), and
//!   `Read` comes only where the source's count of failures grew; after the end it is always the end
//!   (`ended`), and after a fault always `Failed` (`failed`). One packet is held at a time, beside a buffer
//!   of 64 KiB.
//! - [`read_all`] gives the whole of a source, or `TooLong` or `Read`, each with its cause, or `NoMemory`.
//!
//! [`FailsAt`] and [`Pieces`] are sources for tests, here and in the program: one that fails once, and one
//! that gives a few bytes at a time.

mod buffer;
mod capture;
mod fakes;
mod sources;
mod whole;

pub use capture::{Packet, Pcap, PcapFault};
pub use fakes::{FailsAt, Pieces};
pub use sources::{Bytes, Counted, Source, SourceFault};
pub use whole::{ReadAllFault, read_all};
