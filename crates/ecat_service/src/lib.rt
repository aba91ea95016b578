#![tactic(auto)]
//! The line of a scene as a service for a master that somebody else wrote: it is served over any ends, under
//! commands if it is to be, and what came is told.
//!
//! One use:
//!
//! ```text
//! let served = line_to_serve(alloc, service, scene, Vec::new(alloc))?;
//! let status = serve(served, service, &mut ends, &mut out, &mut err)?;
//! ```
//!
//! What is promised: the words of each line (`specs/Services`, `specs/Controls`, `specs/Raw`), and that a
//! command changes the line as it says or not at all (`IsCommanded`).

mod commands;
mod raw;
mod service;
mod serving;
mod slave_lines;

pub use commands::control;
pub use service::Service;
pub use serving::{line_to_serve, serve, serve_cabled};
