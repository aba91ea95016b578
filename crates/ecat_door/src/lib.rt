#![tactic(auto)]
//! The door of a running master: lines of text that come to its task as questions, answered beside the
//! cycles from the lines that `ecat_control` reads, of those that read or ask.
//!
//! - [`DoorTask`] is the `ecat_master::Task` of such a door, around a task at whose socket questions come
//!   (`ecat_task::Questioned`): a question is taken behind a cycle, answered with what the master knows then,
//!   and its answer goes out in replies behind that cycle and the next ones.
//! - [`Text`] is the room for an answer.
//!
//! One use; `task` is a `UdpTask`, and `course` the master's:
//!
//! ```text
//! let outputs = Outputs::of(rt.alloc(), course.work(), course.items())?;
//! let mut task = DoorTask::new(task, outputs, signals, Text::with_room(rt.alloc(), MOST_ANSWER)?);
//! let status = act_master(course, ports, &plan, &mut pace, &mut task, writers);
//! ```
//!
//! What is promised: how the task around which it is listens, and which outputs it has, is not changed by a
//! question (`listens` and `held` of [`DoorTask`] are those of that task). An answer is the text that was
//! written, whole, or where it has no room it says so (`Text::put`, [`Text::as_slice`]). It takes memory when
//! it is made, and none in a cycle.
//!
//! What a line says, and what it is answered by, is tested.

mod task;
mod text;

pub use task::{DoorTask, MOST_ANSWER};
pub use text::Text;

#[cfg(test)]
mod tests;
