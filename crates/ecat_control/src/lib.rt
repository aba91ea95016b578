#![tactic(auto)]
//! Who speaks to a running master on its input: a command a line, done between two cycles and answered
//! behind the next one.
//!
//! - [`ControlTask`] is the `ecat_master::Task` of such an input: what it sets are the outputs of the cycles
//!   from the next one on, and what it asks for is written to the master's output behind that cycle.
//! - [`Stopping`] is the pace of a master that such an input may end.
//! - [`Request`] is what a line says; [`Outputs`] are the outputs that lines change. What a line asks of a
//!   slave, its object or its state, the master does beside its cycles, one at a time.
//! - Lines may name signals: a `set` of one changes its bits and no other.
//!
//! - [`read_answer`] is what a line comes to that reads or asks, for who may do no more than that; [`Answer`]
//!   and [`Asking`] are written to whom it is told.
//!
//! One use; `course` has a work whose first item writes three bytes, `input` is the standard one, and `pace`
//! has any number of cycles:
//!
//! ```text
//! let stops = Cell::new(false);
//! let outputs = Outputs::of(rt.alloc(), course.work(), course.items())?;
//! let mut task = ControlTask::new(input, outputs, signals, &stops);
//! let mut pace = Stopping::new(pace, &stops);
//! let status = act_master(course, ports, &plan, &mut pace, &mut task, writers);
//! ```
//!
//! With the lines `set 0 1 beef`, `get 0` and `quit` the output has, behind the first cycle
//!
//! ```text
//! ok
//! item 0 outputs 00beef
//! item 0 inputs 01beef
//! ok
//! ok
//! ```
//!
//! What is promised: a change of several places is whole (`Outputs::set`): each of them lies in an item that
//! writes and has its bytes behind it, or those bits of them that it names, and nothing else is another one;
//! or one does not, and all stays. Of the lines of an input 32 at the most are done between two cycles
//! (`listens` of [`ControlTask`]). What an item sent and took is told as it is ([`sent_by`], [`taken_by`]).
//! It takes memory when it is made, and none in a cycle.
//!
//! What an input brings is up to the system. What a line says is tested.

mod answer;
mod asking;
mod change;
mod held;
mod image;
mod input;
mod reading;
mod refusal;
mod request;
mod signal;
mod stopping;
mod task;
mod value;
mod words;

pub use answer::{Answer, put_answers};
pub use asking::Asking;
pub use change::{Change, MOST_BYTES, MOST_PLACES, Place, Run};
pub use held::Outputs;
pub use image::{sent_by, taken_by};
pub use input::Commands;
pub use reading::read_answer;
pub use refusal::{Fault, Refusal};
pub use request::{Part, Request};
pub use stopping::Stopping;
pub use task::{ControlTask, MOST_LINES};

#[cfg(test)]
mod tests;
