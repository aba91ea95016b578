#![tactic(auto)]
//! The number that a frame bears on the wire: by what a master knows of which trip a copy is that comes back
//! (IEC 61158-4-12, the datagram structure and NOP).
//!
//! A copy may come late, twice, or at the other port. So each copy goes out with a number of its own, of 64
//! bits, which is not used twice, in a NOP of eight bytes behind the frame's datagrams. No slave serves a
//! NOP, so it comes back as it went; what comes with another number, or with none, is not taken. Indexes and
//! counters on the wire stay those of the frame. One use:
//!
//! ```text
//! let trip = Trip::of(first);
//! let mut sent = frame.copy();
//! number_frame(&mut sent, trip.a())?;
//! // .. `sent` goes out, and a packet comes ..
//! if let Some(mut copy) = copy_in(&sent, packet) {
//!     open_frame(&mut copy);
//! }
//! ```
//!
//! - [`Trip`]: the number of a trip, of 63 bits, and the two of its copies.
//! - [`number_frame`] puts a number behind a frame, which takes [`NUMBER_LENGTH`] bytes of it, and
//!   [`open_frame`] takes it off.
//! - [`number_of`]: the number that a frame bears, if it bears one.
//! - [`copy_in`]: the copy of a frame that went out under a number that a packet is, if it is one;
//!   [`came_of`] says so of a frame that was read already.
//!
//! What is promised: a number comes off again, and is the one that was put on ([`numbers_come_off`]); a copy
//! came of a frame under one number alone, and without it is no stranger to the frame
//! ([`numbers_are_apart`]). What the contracts speak of stands in specs/ (`Number`).

mod copies;
mod number;
mod promises;
mod trip;

pub use copies::{came_of, copy_in};
pub use number::{NUMBER_LENGTH, number_frame, number_of, open_frame};
pub use promises::{numbers_are_apart, numbers_come_off};
pub use trip::Trip;

#[cfg(test)]
mod tests;
