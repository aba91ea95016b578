#![tactic(auto)]
//! What a running command tells as lines of JSON, for programs that follow it.
//!
//! - [`Objects`]: a writer that makes an object of each line of text that is written to it: whether it is the
//!   command's own or an answer, the cycle or packet that it tells of, and the text.
//! - [`Telling`]: a task over another one of a master that adds objects of what changed behind a cycle: the
//!   cable, a slave, and once a second the counts of cycles.
//! - [`Finds`]: a finder over another one that writes objects of what a scan finds of a line.
//!
//! One use; `task` is that of a master, `out` a writer, the cells say who writes:
//!
//! ```text
//! let voice = Voice { are_own: &are_own, are_objects: &are_objects, counts: Counted::Cycles };
//! let mut out = Objects::new(&mut out, room_if(alloc, true)?, voice, &utc);
//! let mut task = Telling::new(task, told_if(alloc, true)?, &are_objects);
//! ```
//!
//! ```text
//! {"kind":"line","cycle":300,"text":"cycle 300: not all in Op"}
//! {"kind":"slave","cycle":301,"place":1,"station":4098,"name":null,"state":"Safe-Op",..}
//! ```
//!
//! What is promised: each line that goes out is one object that the kit's `serde_json` reads as the members
//! that were put (`ecat_json`); names of states, of uses and of faults are exact (`specs/Members.antt`);
//! outputs are those of the task below (`Telling`). Which members an object has is tested. A text has 4,000
//! bytes at the most, and what is no printable ASCII of it is `?`, so that no cycle takes memory for it.

mod counted;
mod finds;
mod gathered;
mod members;
mod objects;
mod telling;

pub use counted::Counted;
pub use finds::Finds;
pub use gathered::{Gathered, room_if};
pub use objects::{Objects, Voice};
pub use telling::{Telling, Told, told_if};
