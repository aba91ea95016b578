#![tactic(auto)]
//! How like a simulated line is to the one that a capture shows: what the master of the capture sent is sent
//! to the line once more, in its order, and what comes back is compared with what came back there.
//!
//! A scene that stands for a machine is of use as far as it answers as the machine does. One use; `served` is
//! the line of the scene, and `frames` are those of the capture:
//!
//! ```text
//! let mut replay = Replay::new(rt.alloc(), served)?;
//! while let Some(packet) = frames.next() {
//!     replay.take(frames.marks(), &packet, frames.frame())?;
//! }
//! replay.end()?;
//! replay.put_findings(&mut lines)?;
//! replay.put_sums(&mut lines)?;
//! ```
//!
//! ```text
//! packet 12: FPRD slave 3 (0x1004) 0x0134 2 bytes: byte 0 is 0x1b there and 0x00 here, 4 times
//! frames 120 answered 118 lost 2 late 0 stray 0
//! datagrams 360 alike 346 of clocks 10 not alike 4
//! ```
//!
//! - `part`: whom a datagram asks, and for what.
//! - `difference`: how the answer of the line differs from that of the capture.
//! - `findings`: the differences, each kind of them once; `tally`: how many there were.
//! - `player`: the line, to which one frame after the other is sent.
//! - `comparison`: a trip on the line, and what is found of its answers.
//! - `replay`: packet after packet; `text`: the lines that are told.
//!
//! Compared are how far working counters moved, how many slaves were passed where the address counts them,
//! and the data of registers and mailboxes that were read. Of process data the counters are compared alone:
//! what a process does is no part of a line. Registers of distributed clocks (IEC 61158-6-12, 0x0900 to
//! 0x09FF) are counted apart.
//!
//! What is promised:
//!
//! - [`Part::of`] and [`Part::is_clock`]: whom a datagram asks, and whether for a register of clocks;
//! - [`Answer::difference`] and [`unanswered`]: the first thing in which the line's answer differs from the
//!   one in the capture, with both values (`specs/Differences.antt`); it differs in nothing exactly where the
//!   two are alike ([`alike_answers`]);
//! - each kind of difference is found once, with the first one, its packet, and how often there was one; of
//!   kinds past the 512th it is counted how many differences there were (`specs/Findings.antt`);
//! - [`Player::play`]: each copy of a frame is answered as `ecat_serve` answers a packet at that end, and
//!   what leaves is joined (`specs/Playing.antt`);
//! - [`Replay::take`] and [`Replay::end`]: a trip goes to the line once it has ended, and each of its own
//!   datagrams is compared with the line's answer to it (`specs/Comparing.antt`, `specs/Replaying.antt`);
//! - [`Tally::count`] counts each answer once, and [`Tally::is_like`] says that some was compared, and that
//!   none differs by anything but clocks;
//! - behind any packets the sums add up ([`sums_add_up`]).
//!
//! Of the line nothing is promised here but what `ecat_serve` promises. Where memory is refused, a trip may
//! have been compared in part, and the replay ends.
//!
//! It takes what `ecat_trips` takes, and 40 KB for the differences.

mod comparison;
mod difference;
mod findings;
mod part;
mod player;
mod promises;
mod replay;
mod tally;
mod text;

pub use difference::{Answer, Difference, Kind, unanswered};
pub use part::{Part, Whom};
pub use player::Player;
pub use promises::{alike_answers, sums_add_up};
pub use replay::Replay;
pub use tally::{Outcome, Tally};
