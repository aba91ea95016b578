#![tactic(auto)]
//! What a master does on the line of a scene, and how it is done.
//!
//! - `Course`: what the slaves are told, what each cycle asks, and how far its counters are to move, once the
//!   line and the work are accepted.
//! - `act_master`: brings up the line and cycles on it (`ecat_master::master`).
//! - `refuse_long_mailbox`: whether copies of a mailbox have no room for their numbers.
//!
//! One use, as the program's `master` makes it; `out` is a writer, `ports` are a master's two, and `writers`
//! have who is told what:
//!
//! ```text
//! let Some(course) = Course::of(alloc, scene, &mut out)? else {
//!     return Ok(REFUSED);
//! };
//! let status = act_master(course, ports, &plan, &mut pace, &mut task, writers);
//! ```
//!
//! What is promised: a course is of slaves on which its work is accepted, expects of each counter what
//! `ec_map::expected` says of them, and tells each what stands in it (`specs/Stands.antt`); how it ends is
//! what `master` says of its line, its work and these counters. That these slaves are the scene's is tested.

mod act;
mod course;
mod room;

pub use act::act_master;
pub use course::Course;
pub use room::refuse_long_mailbox;
