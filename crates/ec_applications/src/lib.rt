#![tactic(auto)]
//! What the applications of slaves do with their process data, so that a line moves by itself under a master
//! (IEC 61158-4-12, sync manager, buffered mode).
//!
//! A simulated slave answers requests and mails, and its inputs lie still. Here an application puts the
//! outputs that it is shown into its inputs (a mirror), or counts in them. It acts behind each step of the
//! line's slaves (`ec_ring::Ring::step_all`), by the calls that an application has of its controller:
//! `outputs` and `put_inputs` of `ec_esc`. One use, which `process/door.rt` of `ec_tests` tries; `ring`
//! of `process/line.rt` is two slaves, the first of which was written outputs:
//!
//! ```text
//! let mut all = Vec::new(rt.alloc());
//! all.push(Application { place: 0, behaviour: Behaviour::Mirror { inputs: 3, outputs: 2 } })?;
//! all.push(Application { place: 1, behaviour: Behaviour::Count { inputs: 3 } })?;
//! let mut applications = Applications::new(all);
//! ring.step_all();
//! applications.act(&mut ring);
//! ```
//!
//! The first slave's inputs are its outputs now, and the second one's are 1.
//!
//! What is promised:
//!
//! - `Applications::act` leaves of a ring what `specs/Behind` says (`ring`), and has acted once more (`own`).
//!   Inputs that are refused, since an area is not active, is of the other kind or has another length, change
//!   nothing. Behind the applications the EEPROMs that were given to slaves (`set_eeproms`) answer what
//!   masters asked of them, and each such slave gives its master the last mail once more, where the master
//!   asks for it (`specs/Repeats`). It takes no memory.
//! - `tell_links` tells a slave, in DL status, at which of its two ports there is a link. Where there was one
//!   and is none now, the counter of lost links of that port has one more, up to 255 (`specs/Links`).
//! - [`promises`] says what stays: links, stations, states and mappings, what applications are shown, and
//!   slaves without an application (`acting_leaves`, `behind_leaves`); that all of it moves as an application
//!   may (`moves_between_passages`, `serving_moves_slaves`, `telling_moves_slaves`); that nobody changes
//!   nothing (`idle_acts`); which links get lost (`links_get_lost`); and that a mail comes once more one time
//!   for each time that it is asked for (`repeats_once`).

pub mod act;
pub mod application;
pub mod eeproms;
pub mod links;
pub mod promises;
pub mod repeats;

pub use application::{Application, Applications, Behaviour};
pub use eeproms::PlacedEeprom;
pub use links::{dl_status, tell_each, tell_links};
