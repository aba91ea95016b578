#![tactic(auto)]
//! The packets that a running EtherCAT master and a program of the user's exchange over UDP, one each way in
//! a cycle: the master sends a *report* of the cycle, the program an *order* for the next one. Beside them
//! anybody sends a *question*, which is a line of text, and gets *replies*, which are runs of the answer.
//!
//! A program in any language reads and writes them by the tables below. A packet is a head of a fixed size
//! and the process data behind it; numbers have their lowest byte first. A number of a cycle with all bits
//! set stands for no cycle. One use, which `tests.rt` tries in `a_program_answers_a_report`:
//!
//! ```text
//! let size = report.write(&mut packet)?;
//! // .. the packet goes to the program ..
//! let report = Report::read(&packet[..size])?;
//! let order = Order {
//!     seen: cycle_of(report.cycle),
//!     outputs: &[0x01],
//! };
//! let size = order.write(&mut answer)?;
//! ```
//!
//! An order, 16 bytes and the outputs:
//!
//! | Byte | Size | What it is |
//! |---|---|---|
//! | 0 | 4 | the letters `EcIO`: 45 63 49 4F |
//! | 4 | 1 | the version: 1 |
//! | 5 | 1 | the kind: 1 |
//! | 6 | 2 | how many bytes of outputs follow the head |
//! | 8 | 8 | the number of the cycle of the last report that the program saw, if it saw one |
//! | 16 | | the outputs |
//!
//! A report, 40 bytes and the inputs:
//!
//! | Byte | Size | What it is |
//! |---|---|---|
//! | 0 | 4 | the letters `EcIO`: 45 63 49 4F |
//! | 4 | 1 | the version: 1 |
//! | 5 | 1 | the kind: 2 |
//! | 6 | 2 | how many bytes of inputs follow the head |
//! | 8 | 8 | the number of the cycle |
//! | 16 | 8 | when it was over, in microseconds since the master's pace began |
//! | 24 | 1 | how it ended: 0 good, 1 short, 2 over, 3 a port failed, 4 a copy that is none of the frame |
//! | 25 | 1 | flags: bit 0 not all slaves are in Op; bits 1 and 2 no copy came at port A, at port B; |
//! | | | bit 3 the outputs are stale; bits 4 to 7 are 0 |
//! | 26 | 2 | the item that was short or over, and 0 with other ends |
//! | 28 | 4 | how many microseconds the cycle began late |
//! | 32 | 8 | the number of the cycle that the inputs are of, the last good one, if there was one |
//! | 40 | | the inputs; none where they are of no cycle |
//!
//! A question, 16 bytes and the line:
//!
//! | Byte | Size | What it is |
//! |---|---|---|
//! | 0 | 4 | the letters `EcIO`: 45 63 49 4F |
//! | 4 | 1 | the version: 1 |
//! | 5 | 1 | the kind: 3 |
//! | 6 | 2 | how many bytes of the line follow the head, 1,024 at the most |
//! | 8 | 8 | the number of the question, as the asker chose it |
//! | 16 | | the line |
//!
//! A reply, 20 bytes and a run of the text:
//!
//! | Byte | Size | What it is |
//! |---|---|---|
//! | 0 | 4 | the letters `EcIO`: 45 63 49 4F |
//! | 4 | 1 | the version: 1 |
//! | 5 | 1 | the kind: 4 |
//! | 6 | 2 | how many bytes of text follow the head, 1,024 at the most |
//! | 8 | 8 | the number of the question |
//! | 16 | 2 | behind how many others of its answer it stands |
//! | 18 | 2 | 1 where it is the last one of its answer, 0 where others follow |
//! | 20 | | a run of the answer's text |
//!
//! What is promised:
//!
//! - [`Order::read`], [`Report::read`], [`Question::read`] and [`Reply::read`] take exactly the bytes that
//!   spell such a packet (`found`, `only_found`), and name the first fault of all others, in the order of the
//!   fields (`fault`, `only_fault`);
//! - the `write` of each puts that spelling in front and leaves what is behind it (`written`, `size`); it
//!   fails exactly where there is no room, or the process data are more than [`MAX_DATA`] bytes, the text
//!   more than [`MAX_TEXT`] (`room`), and then nothing is written (`kept`);
//! - no two orders have one spelling, nor two reports, questions or replies ([`one_spelling`]), and no packet
//!   is of two kinds ([`one_kind`]);
//! - what can be spelt can be written: `Some(u64::MAX)` has no spelling, nor have inputs of no cycle, so the
//!   conditions of `write` leave them out. [`Order::is_spellable`] and [`Report::is_spellable`] test that,
//!   and what [`cycle_of`] makes of a number is never such a cycle.
//!
//! What the contracts speak of stands in specs/: the spellings and the tables of faults (`Order`, `Report`,
//! `Question`, `Reply`), what they have in common (`Cycle`, `Fault`, `Text`), and two fields of reports
//! (`End`, `Flags`).

mod cycle;
mod end;
mod fault;
mod flags;
mod front;
mod layout;
mod numbers;
mod order;
mod promises;
mod question;
mod reply;
mod report;

pub use cycle::cycle_of;
pub use end::CycleEnded;
pub use fault::{NoRoom, PacketFault};
pub use layout::{MAX_DATA, MAX_TEXT, ORDER_HEAD, QUESTION_HEAD, REPLY_HEAD, REPORT_HEAD};
pub use order::Order;
pub use promises::{one_kind, one_spelling};
pub use question::Question;
pub use reply::Reply;
pub use report::Report;

#[cfg(test)]
mod tests;
