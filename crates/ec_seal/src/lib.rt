#![tactic(auto)]
//! A number of its own seals each copy of a trip: over any line and any network, what is taken on a trip is
//! its own (IEC 61158-4-12, the datagram structure and NOP).
//!
//! Laws alone; the number and how it is put on and taken off is `ec_number`'s. Each is the contract of a
//! function that does nothing:
//!
//! - a walk or a trip of numbered copies, their numbers taken off, is that of the frame, and leaves the same
//!   controllers ([`numbers_go_through`]), over a line that moves too ([`numbers_go_through_moving`]);
//! - what arrives bears the number that was sent, and every true copy is one that came of the frame under its
//!   number ([`true_copies_are_taken`]);
//! - where what bears a number of a trip is one of the trip's two copies, what is taken on it is its own,
//!   whatever else the network gives, late, doubled, of earlier runs or other masters ([`only_its_own`],
//!   [`only_its_own_moving`]). It is what a trip of the frame brings on which those copies are lost that were
//!   not taken.
//!
//! What the contracts speak of stands in specs/: `Trips` (numbered trips), `Taken` (what is taken), `Moving`
//! (the same over a line that moves).

mod promises;

pub use promises::{
    numbers_go_through, numbers_go_through_moving, only_its_own, only_its_own_moving,
    true_copies_are_taken,
};
