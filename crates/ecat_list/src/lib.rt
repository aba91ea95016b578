#![tactic(auto)]
//! The texts of `ecat list`: the datagrams of a capture, a line each, or what is wrong in it, or the sums of
//! its trips: of datagrams that are alike how many were sent, came back and were lost ([`tally`]).
//!
//! Whoever looks for the one wrong working counter among a million has grep, awk and a spreadsheet; they want
//! columns. One use, which `list/lines.rt` of `ecat_capture_tests` tries:
//!
//! ```text
//! let asked = Asked {
//!     form: Form::Lines,
//!     live: false,
//!     progress: false,
//! };
//! let listed = list(rt.alloc(), Bytes::new(&FILE), asked, &mut out, &mut err);
//! ```
//!
//! ```text
//! 1 0.000000 02:01:05:10:00:00 0 LRW 0x00010000 4 wkc 3 00112233
//! 2 0.001000 02:01:05:10:00:00 - fault Short at 12
//! ```
//!
//! Of a packet that was cut when it was captured the datagrams are listed that are there whole, and behind
//! the fault stands in which one it is cut.
//!
//! With [`OfTrips::json`] the sums are objects of JSON, one a line (`docs/JSON.md`).
//!
//! What is promised: what a listing puts of a frame's datagrams, and of a packet that has none to show, in
//! each form (`specs/Listing.antt`): the line of a datagram, column by column (`specs/Line.antt`), with times
//! in seconds by six digits behind the point, or nine (`specs/Seconds.antt`), and the address as the command
//! reads it (`specs/Address.antt`), and the line of such a packet (`specs/Note.antt`); where memory runs out,
//! a front of it; what `Stats` counts, of each group of datagrams apart those that were sent, came back, were
//! lost, came late and are stray, each with its working counters in the order in which they came first, how
//! often and where first, and how many datagrams are of further groups than are told apart
//! (`specs/Stats.antt`, `specs/Passed.antt`); of the times of a group how many fall in each bucket, and in
//! which one a share of them ends (`specs/Histogram.antt`, `specs/Spans.antt`); how many datagrams of a group
//! an object has (`specs/Members.antt`); of packets that were cut how
//! many they are, and behind how many bytes (`specs/Cut.antt`); and that no bytes, times or counters make any
//! of this crate fail but for memory and the output. Which packets these are, when a writer is handed what,
//! how a listing ends and the texts of sums are tried by tests alone.

mod address;
mod as_json;
mod counters;
mod cut;
mod cut_packets;
mod date;
mod group;
mod group_lines;
mod histogram;
mod line;
mod listing;
mod output;
mod passed;
mod row;
mod shown;
mod stats;
mod tallying;
mod text;
mod trip_rows;
mod walk;
mod ways;

pub use listing::{Asked, Form, Listed, list};
pub use shown::{Shown, show};
pub use tallying::{OfTrips, tally, tally_stream};
