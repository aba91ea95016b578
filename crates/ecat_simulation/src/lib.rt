#![tactic(auto)]
//! The commands over a ring of simulated slaves: each takes a scene, prints what comes of it, and answers the
//! exit status.
//!
//! One use:
//!
//! ```text
//! let status = check(alloc, &scene, &mut out)?;
//! ```
//!
//! What is promised: the words of what is printed here alone (`specs/Covers`, `specs/Sweeps`), and which
//! members has what `json_cover` writes (`specs/Members`). What a command does is tested, here and by the
//! scenes and cases of the program.

mod as_json;
mod cables;
mod carry;
mod checks;
mod covers;
mod cycles;
mod judge;
mod lints;
mod objects;
mod runs;
mod sweeps;

pub use as_json::{json_check, json_cover, json_lint, json_where, json_where_far};
pub use cables::{where_broken, where_far};
pub use checks::check;
pub use covers::cover;
pub use cycles::cycle;
pub use judge::{judged_cycle, print_cable};
pub use lints::lint;
pub use objects::{Asked, sdo, sdo_far};
pub use runs::run;
pub use sweeps::sweep;
