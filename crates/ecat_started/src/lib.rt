#![tactic(auto)]
//! A line that was started meets the certificate of its work: the ring that a start leaves is one of which
//! the promises about cycles hold (IEC 61158-6-12, AL management; IEC 61158-4-12, sync manager and FMMU
//! entities).
//!
//! A master is told what stands in slaves that the mapping checker accepted with a work
//! ([`ec_run::Wanted`]). It starts a line by that ([`ecat_master::start`]), and then makes cycles on a ring
//! that nobody checked. The laws here join the two ends. There is nothing to run: a law is the contract of a
//! function with an empty body, which is cited where it is called.
//!
//! - [`certified_line`]: over a ring with at most one link down, of which nothing is lost, the ring behind a
//!   start that was answered with Ok is an accepted line of the work, and what is expected of the work's
//!   counters is what its slaves add; whatever stood in it before, and in whatever order its slaves stand.
//! - [`set_up_line`]: so is each ring of which that is known which a start gives: as many slaves as the line,
//!   one for each station address, and their records as they are wanted.
//! - [`mailboxes_stand`]: sync managers 0 and 1 of each slave stand as they were wanted behind such a start,
//!   as its other records do ([`ecat_master::started_line`]).
//! - [`certified_cycle`]: what a cycle over a network comes to is of such a ring.
//! - [`never_fails`]: a start over such a ring has no cause of a fault where its slaves fit what is wanted of
//!   them, and are those that are wanted. Its parts are laws of their own: [`counted_right`], [`cable_told`]
//!   and [`stations_given`].
//!
//! The definitions are in specs/: `Certified`, a line that is told what stands in accepted slaves, and what a
//! ring is then; `Startable`, a ring of whose slaves a line can be started.

mod cycle;
mod mailboxes;
mod set_up;
mod started;
mod succeeds;

pub use cycle::certified_cycle;
pub use mailboxes::mailboxes_stand;
pub use set_up::set_up_line;
pub use started::certified_line;
pub use succeeds::{cable_told, counted_right, never_fails, stations_given};
