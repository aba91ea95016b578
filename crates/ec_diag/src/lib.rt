#![tactic(auto)]
//! Where the cable of a ring is broken, by the copies of a frame that came back.
//!
//! With one link down a ring still answers every frame, so nobody sees that it is down until a second one
//! breaks and slaves are cut off. But a copy that comes back says more than its data: the port where it
//! arrived, how far its broadcast read was counted up, and whether its circulating bit came back set
//! (IEC 61158-4-12, the ports of a slave and the circulating bit). One use, which `diag/door.rt` of
//! `ec_tests` tries, on a ring of three simulated slaves:
//!
//! ```text
//! ring.set_link(1, false);
//! let located = locate_ring(&mut ring);
//! ```
//!
//! It is `Located::One(1)`: the link before slave 1 is down, and no other. With link 2 down too it is
//! `Located::Between(1, 2)`, and `located.cut_off()` says that slave 1 is reached by no copy.
//!
//! - [`Heard`]: what one copy tells, wherever it started. [`Told`]: what that says of the links.
//! - [`Located`]: what any number of copies say together; it begins at `Unknown`, and takes the copies in any
//!   order. [`CutOff`]: the slaves that no copy reaches.
//! - [`locate`] sends one frame over two ports that say where copies arrive (`ec_ring::HeardPorts`), and
//!   [`locate_ring`] over a simulated ring.
//!
//! What is promised:
//!
//! - `Heard::tells`, `Located::and`, `and_heard`, `and_arrivals` (`exact`): what is answered holds of exactly
//!   those sets of links under which the copies can have been heard so; `cut_off` (`tells`) follows from it.
//! - [`promises`]: over any line of controllers, fit or not, a broadcast read of registers is heard as the
//!   links have it (`walks_are_heard`, `trips_are_heard`).
//! - `locate` (`located`): one trip of the probe, and what its copies tell. `locate_ring` (`tells`, `whole`,
//!   `one`, `seen`): it is so; a whole cable is found whole, and one broken link if there are slaves.
//!
//! A lost copy tells nothing: with two slaves or more, one copy alone leaves open what lies behind the break,
//! unless that is its line's last link. Two copies that travelled while a link changed may say what no one
//! set of links gives (`Changed`), or what held for neither.
//!
//! What the contracts speak of stands in specs/: `Heard`, `Told`, `Located`, `Join` (one copy more),
//! `Arrivals` (the copies of a frame), `CutOff`.

pub mod cut_off;
pub mod diagnosis;
pub mod heard;
pub mod located;
pub mod promises;
pub mod told;

pub use cut_off::CutOff;
pub use diagnosis::{locate, locate_ring, probe, seen};
pub use heard::Heard;
pub use located::Located;
pub use told::Told;
