#![tactic(auto)]
//! The beat of a master that runs: when its next cycle is due, and whether there is to be one.
//!
//! - `Beat`: an `ecat_master::Pace` over a real clock. Cycles begin so far apart, or back to back; they end
//!   after so many, or with an input, as the standard one.
//!
//! What is promised: after so many cycles there is none any more (`left`). Of the clock and of the input
//! nothing is stated: they are up to the system.

mod beat;
mod input;

pub use beat::Beat;
pub use input::Ending;
