#![tactic(auto)]
//! A master that runs over a network, end to end: what is said of one cycle of its own copies
//! ([`ecat_remote`]) is said of each cycle of a run, and all trips of the run, of start-up, cycles, looks,
//! recoveries and leaving, are one history.
//!
//! There is nothing to run. A law is the contract of a function that does nothing:
//!
//! - [`trips_of_a_run`]: the trips of each part of a run follow each other, each under the next number, and
//!   are so many at the most; so no trip has the number of an earlier one;
//! - [`cycles_of_a_run`]: of each cycle of a run it is known which copies were taken, and what its end says
//!   of the ring.

mod promises;

pub use promises::{cycles_of_a_run, trips_of_a_run};
