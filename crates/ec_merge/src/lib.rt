#![tactic(auto)]
//! Two copies of what a redundant EtherCAT master sent, joined into one answer.
//!
//! The master sends each frame both ways round the ring. A copy that comes back has gained what the slaves on
//! its way did: bits that they changed, counters that they raised. [`join_frames`] takes both gains, so that
//! a master looks at one frame whether or not a cable is broken. A copy that cannot have come of the sent
//! frame is a stranger, and is named. One use, which `merge/door.rt` of `ec_tests` tries:
//!
//! ```text
//! // An LRW of one byte at 0x00010000, and its copies: 12 read on the one way, counts of 3 and 2.
//! let sent = [13, 0x10, 0x0C, 0, 0, 0, 1, 0, 1, 0, 0, 0, 0x00, 0, 0];
//! let from_a = [13, 0x10, 0x0C, 0, 0, 0, 1, 0, 1, 0, 0, 0, 0x12, 3, 0];
//! let from_b = [13, 0x10, 0x0C, 0, 0, 0, 1, 0, 1, 0, 0, 0, 0x00, 2, 0];
//! let sent = FrameBuf::read(&sent, Form::Udp)?;
//! let a = FrameBuf::read(&from_a, Form::Udp)?;
//! let b = FrameBuf::read(&from_b, Form::Udp)?;
//! let joined = join_frames(&sent, Some(&a), Some(&b))?;
//! ```
//!
//! What is promised:
//!
//! - [`join_frames`]: a bit of data, of the event requests, and the circulating bit differ from the sent one
//!   exactly if they do in some copy; a counter, and the ADP where slaves count it up, has moved as far as in
//!   both copies together; else the first datagram at which a stranger differs is named ([`value_rule`] says
//!   the rule in plain words). [`join_into`] does so in the place of the first copy, and [`stranger_in`] asks
//!   alone whether a copy is a stranger;
//! - [`Merge`] is the join of one value, with its laws (`symmetric`, `grouped`, `unit`): of a [`Counter`], a
//!   [`Byte`], a [`Flag`] and an [`Irq`]; [`frame_laws`] says the first and the last of frames;
//! - [`join_bytes`] joins runs of data in place, 32 bytes at a time, and there is one such join
//!   ([`one_join`]). Nothing here takes memory.
//!
//! What the contracts speak of stands in specs/: the rule for one value (`Rule`) with its laws (`Laws`), for
//! data bytes (`Bytes`), and for frames and strangers (`Frames`).

mod bytes;
mod frames;
mod merge;

pub use bytes::{join_bytes, one_join};
pub use frames::{
    JoinFault, fixed_address, frame_laws, join_frames, join_into, one_stranger, stranger_in,
};
pub use merge::{Byte, Counter, Flag, Irq, Merge, value_rule};
