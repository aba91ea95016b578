#![tactic(auto)]
//! A control task at the other end of a UDP socket: a program that gives outputs to a running master and
//! gets inputs of it, one packet each way in a cycle (`ec_io`).
//!
//! - [`UdpTask`] is the `ecat_master::Task` of such a program: what it orders last before a cycle are the
//!   outputs of that cycle, and each cycle is reported to who ordered last.
//! - [`Held`] are the outputs that are held: what packets make of them, and what becomes of them where no
//!   packet comes any more.
//! - [`Questioned`] is a task at whose socket the running master is asked too: a line of text by a packet,
//!   answered by some, one question at a time and each once.
//! - [`Resting`] are the slaves that are asked for Safe-Op then, where that is wanted, and for Op once an
//!   order comes.
//!
//! One use; `rt` is what `main` is given, and `work` has outputs of three bytes:
//!
//! ```text
//! let terms = Terms { count: 3, stale_after: Some(100), rest: Rest::Zeros };
//! let mut task = UdpTask::open(&rt, rt.alloc(), "127.0.0.1:34990", terms, stations)?;
//! let status = master(ports, line, work, expected, &plan, &mut pace, &mut task, out, err, log);
//! ```
//!
//! What is promised: outputs that became others are, whole, those of one packet that is an order, or those
//! that the terms have for a task that says nothing any more; and outputs of another length than the line's
//! are refused (`Held::take`, `listens` of [`UdpTask`]). A question changes no outputs
//! ([`questions_leave`]), and one that is under way or whose answer is kept is not done once more
//! ([`taking_of`]). All slaves were asked for Safe-Op only once none is left that did not come to it
//! (`Resting::take`). What a report says is exact (`report_of`): the end of its cycle, and the inputs of the
//! last good one. Up to the first order and while nobody listens nothing is sent. It takes memory when it is
//! opened, and none in a cycle.
//!
//! What a socket gives is up to the system.

mod counts;
mod desk;
mod held;
mod resting;
mod told;
mod udp;

pub use desk::{MOST_ASKERS, MOST_REPLIES, Questioned, Taking, taking_of};
pub use held::{Held, Refused, questions_leave};
pub use resting::Resting;
pub use udp::{Rest, TaskFault, Terms, UdpTask};
