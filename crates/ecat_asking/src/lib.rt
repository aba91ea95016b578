#![tactic(auto)]
//! Who asks a running master by its door: a line of text in a packet, whose answer comes in some (`ec_io`).
//!
//! - [`ask`] asks until the whole answer is there, at most so often, and always by the same number: a master
//!   that has done it once answers again and does not do it twice.
//! - [`Row`] is what has come of an answer: the replies from the first one on, none left out.
//! - [`Master`] is a running master to be asked, [`UdpMaster`] one at a UDP socket.
//! - [`Told`] is what an answer says: that it is done, and what was asked for; that it failed; or that the
//!   line was refused.
//!
//! One use; `rt` is what `main` is given:
//!
//! ```text
//! let mut master = UdpMaster::at(&rt, "127.0.0.1:34990")?;
//! let mut row = Row::new(rt.alloc(), number);
//! ask(&mut master, b"sdo 0x1002 0x1018 1", &mut row)?;
//! match Told::of(row.text()) { .. }
//! ```
//!
//! What is promised: the text of a row is that of its replies in their order, from the first one on, each of
//! this question, and the row is whole exactly where the last one of these is the answer's last
//! (`Row::take`). Replies of another question, and ones that do not follow, leave it, but for a first one,
//! with which it begins once more.
//!
//! What a socket brings is up to the system.

mod master;
mod row;
mod told;

pub use master::{Master, TRIES, UdpMaster, Unanswered, ask};
pub use row::Row;
pub use told::Told;

#[cfg(test)]
mod tests;
