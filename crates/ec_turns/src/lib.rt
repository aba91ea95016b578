#![tactic(auto)]
//! Talks by turns: what a master asks of its slaves besides its cycles, for a master that waits nowhere.
//!
//! The calls of `ec_services` and `ec_run` send a frame over ports and wait for what comes back. A master
//! with a loop of its own has no such ports: it sends a frame, does other things, and has some packets later,
//! or none. So each turn of a talk is taken twice here, over ports that hold what was heard
//! ([`HeldPorts`]): once, with nothing, for the frame that goes out, and once with what came back of it.
//!
//! ```text
//! let mut start = Start::begun(plan);
//! loop {
//!     let sent = start.frame(plan, &wanted);
//!     // Here a copy goes out from each port, and what comes back is waited for, or other things are done.
//!     let mut held = HeldPorts::giving(came);
//!     match start.turn(&mut held, plan, &wanted) {
//!         StartTurn::Goes(next) => start = next,
//!         StartTurn::Ended(told) => break told,
//!     }
//! }
//! ```
//!
//! What is promised:
//!
//! - [`HeldPorts`]: a trip gives what was heard, once, and keeps the frame that it sends.
//! - [`Start::turn`]: over any ports one question of the stage is asked of the slave at the start's place,
//!   as a recovery asks it (`ec_run`, `Recovery::turn`); which slave, step and stage come next is exact.
//! - [`frame_of_service`] and [`Start::frame`]: the frame is that with which such a turn begins.
//! - [`frame_of_look`] and [`look_in`]: the frame of a look at the state of a slave, and what is seen by what
//!   came of it, as `ec_run` (`look_at`) sees it over ports.
//! - Laws (`proofs/Laws.antt`): a turn over held ports is the same turn over any ports that give for its
//!   frame what was held. So what is proved of talks over ports holds of talks by turns. Turns in a row that
//!   read an object read it as `upload_surely` of `ec_services` does.
//!
//! What the contracts speak of stands in specs/: `Held` (ports that hold what was heard), `Plan` (the stages
//! of a start), `Start` (how far it is), `Sent` (the frame of a turn), `Run` (turns in a row) and `Look`.

mod held;
mod look;
mod plan;
mod sent;
mod start;

pub use held::HeldPorts;
pub use look::{frame_of_look, look_in};
pub use plan::{Plan, Stage};
pub use sent::frame_of_service;
pub use start::{Start, StartFault, StartTurn};
