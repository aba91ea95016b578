#![tactic(auto)]
//! The packets of a capture as trips: what was sent, what came back of it, and what was lost.
//!
//! A capture of a machine's bus shows each frame twice, as it was sent and as it came back. Whoever asks what
//! the slaves did with it needs the two side by side; nothing in all frames says which is which, and some are
//! lost. One use, which `trips/play.rt` of `ecat_capture_tests` tries:
//!
//! ```text
//! // The first reading: with which addresses the packets come.
//! let mut bases = Bases::new();
//! bases.take(Source::of(address));
//! let marks = Marks::of(bases, interfaces);
//! // The second one: what each packet is.
//! let mut trips = Trips::new(rt.alloc())?;
//! loop {
//!     let step = trips.take(&marks, &packet, &frame)?;
//!     let is_taken = match &step {
//!         Step::Ended(kept) => false, // a trip ended in front of the packet, which is still to be taken
//!         Step::Taken(told, fate) => true,
//!     };
//!     trips.reuse(step); // it need not be called, and saves memory and copies
//!     if is_taken {
//!         break;
//!     }
//! }
//! // At the end: what is on the way still.
//! for kept in trips.trips() {}
//! ```
//!
//! A [`Trip`] has one or two sent copies, and at most as many that came back. Its datagrams have [`moved`]
//! counters, [`grown`] ADPs and joined data, by the frame that was sent and the one that came.
//!
//! A master may put a number behind the datagrams of each copy (`ec_number`). Then the two sent copies bear
//! the two numbers of one trip, what comes back is of the trip whose number it bears, and a frame that asks
//! again under another number ends the trip that asked before. [`own_count`] datagrams of a frame are its
//! own: the one that carries the number asks nothing.
//!
//! What is promised:
//!
//! - [`Bases`] tells of up to 64 addresses whether they occur with the mark and without (`AreBasesOf`), and
//!   whether the master has two ports;
//! - [`Marks::told`]: the way of a packet is that of the first rule that fits, of five (`specs/Ways.antt`);
//! - [`Trips::take`] does what the definition of a step says (`specs/Steps.antt`): of which trip a packet is,
//!   or that it is late or stray, and which trips end by it. Where memory is refused, nothing has changed;
//! - over any run each packet that is taken is one copy of one trip, or late, or stray
//!   ([`each_packet_once`]), and as many trips were sent as returned, were lost and are on the way
//!   ([`each_trip_once`]);
//! - two copies of a datagram have moved and grown as far as both together ([`copies_add_up`]).
//!
//! It cannot tell: of frames without marks one that came back unserved from one that is sent again; and a
//! frame that the capture dropped from one that the line lost.
//!
//! It takes 200 KB of memory at first, and 4 KB for each trip that is on the way, of which there are 4,096 at
//! most, and for the one that ended last.

mod alike;
mod bases;
mod copies;
mod lost;
mod marks;
mod packet;
mod promises;
mod queue;
mod seen;
mod sums;
mod trip;
mod trips;
mod way;

pub use alike::{has_counted, is_still, kept_address, moves_adp, own_count, same_frame, same_key};
pub use bases::{Base, Bases, MAX_BASES};
pub use copies::{grown, moved};
pub use lost::MAX_LOST;
pub use marks::Marks;
pub use packet::{Outline, Ports, Source};
pub use promises::{copies_add_up, each_packet_once, each_trip_once};
pub use sums::Sums;
pub use trip::{CameFrame, Kept, SentFrame, Trip};
pub use trips::{Fate, MAX_ON_THE_WAY, Step, Trips};
pub use way::{By, Told, Way};
