#![tactic(auto)]
//! The worked rows: frames, copies, cycles, mails and states with what is to come of them, really run.
//!
//! One use:
//!
//! ```text
//! let status = vectors(alloc, &mut out)?;
//! ```
//!
//! What is promised: the words of each line, and that the status is 0 exactly where all rows are as they
//! should be (`specs/Rows.antt`). What a row sends and expects stands in its function.

mod cycle_rows;
mod frame_rows;
mod rows;
mod scene_rows;
mod slave_rows;

pub use rows::vectors;
