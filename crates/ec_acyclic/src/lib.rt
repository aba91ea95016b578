#![tactic(auto)]
//! What is asked of a slave beside the cycles of a running master: an object is read or written (IEC
//! 61158-6-12, SDO services), a state is asked for, an error is acknowledged (IEC 61158-6-12, AL management).
//!
//! The calls of `ec_services` wait: they make trip after trip until a slave has answered. A master that
//! cycles has room for one frame behind a cycle. So a service is a [`Talk`] here, of which one turn is taken
//! behind each cycle. One use, which `services/acyclic.rt` of `ec_tests` tries; `peer` of
//! `services/peer.rt` says where the two mailboxes of the slave are:
//!
//! ```text
//! let service = Service::Read { index: 0x1018, sub: 1 };
//! let mut talk = Talk::begun(service, 0x1001, Some(peer()), 64);
//! let mut answer = Err(MasterFault::NoAnswer);
//! for _cycle in 0..MOST_TURNS {
//!     // Here a cycle is made; behind it one frame of the service goes out.
//!     match talk.turn(&mut ports) {
//!         Turn::Goes(next) => talk = next,
//!         Turn::Ended(told) => {
//!             answer = told;
//!             break;
//!         }
//!     }
//! }
//! ```
//!
//! `answer` is then `Ok(Answer::Value(Value::Four(2)))`. What is promised:
//!
//! - [`Talk::begun`]: what goes out first is the first trip of the transfer, the write of AL control, or a
//!   read of AL status, by the service.
//! - [`Talk::turn`] (`turn`): over any two ports one question of the service is asked of the slave by its
//!   station address, as the call of `ec_services` with that name asks it; what its answer decides is exact,
//!   and so is what goes out in the next turn. A turn that ends for want of mailboxes or of trips makes no
//!   trip. That a turn makes one trip at the most is a law (`proofs/Laws.antt`).
//!
//! What the contracts speak of stands in specs/: `Next` (what goes out first), `Question` (one question and
//! its reply), `Talk` (when a service is given up) and `Turn`.

mod next;
mod service;
mod talk;
mod turn;

pub use next::Next;
pub use service::{Answer, Service};
pub use talk::Talk;
pub use turn::Turn;
