#![tactic(auto)]
//! One EtherCAT slave controller and what it does with a frame (IEC 61158-4-12). All that a master learns of
//! a slave, and all that it hands to it, goes through such a pass.
//!
//! A `Controller` is its memory, the bytes that its application is shown, and a mark that AL control was
//! written. It keeps the FMMUs and sync managers of the memory decoded (`planned`), so that no datagram
//! decodes them: a write decodes anew those of which it changes a byte (`renewal`). It keeps what the FMMUs
//! reach all together, found when a frame comes, so that a datagram that reaches none of them costs little
//! (`reached`); and its AL status always names a state. One use, which `esc/door.rt` of `ec_tests`
//! tries; `INPUTS` and `READ` of `esc.rt` are the records of an area of one byte and of an FMMU that maps it,
//! and `sent` is an LRD of that byte:
//!
//! ```text
//! let mut slave = Controller::new(rt.alloc(), 0x1001)?;
//! slave.set_syncman(3, &INPUTS);
//! slave.set_fmmu(0, &READ);
//! slave.load(0x1100, &[0x12]);
//! let mut frame = FrameBuf::read(&sent, Form::Udp)?;
//! slave.process(&mut frame);
//! ```
//!
//! The frame has 0x12 and the counter 1 now. What is promised:
//!
//! - `process` is one pass of a frame (`frame`, `state`): its datagrams from left to right, each on the
//!   memory that the one before left, and each by the table of its command (`specs/Pass.antt`).
//! - `Controller::new` makes one with a station address, in Init; `set_fmmu`, `set_syncman` and `load` set
//!   records and process memory from the application's side.
//! - `gain` is what the working counter of a datagram would gain, by the same table; [`gained`] is that by
//!   what of a command is served.
//! - `byte`, `bytes`, `shown`, `shown_bytes`, `station`, `syncman` and `fmmu` read the memory, the shown
//!   bytes and the records.
//! - `take_control`, `set_al` and `al` are the application's AL control and AL status; `outputs`,
//!   `put_inputs`, `take_mail` and `put_mail` are its process data and its mail.
//! - `set_information` says what the controller tells of itself; where that is a kind of chip, it has a slave
//!   information interface (`has_sii`), whose registers the master writes and the application reads and
//!   answers (`sii`, `set_sii`). `set_dl_status` tells of links, `set_alias` the station alias. A master
//!   writes none of the others.
//!
//! What the contracts speak of stands in specs/: what a controller holds (`State`), the pass of a datagram
//! and of a frame (`Pass`), what a write leaves beside the bytes that it wrote (`Writing`), and the
//! application's side (`Application`); and below, in `ec_areas`, what of a memory the master may reach.

mod addressing;
mod application;
mod controller;
mod counting;
mod logical;
mod mailbox;
mod physical;
mod planned;
mod process;
mod reached;
mod reading;
mod renewal;
mod showing;
mod writing;

pub use application::{AreaFault, LONGEST_MAIL, SII};
pub use controller::Controller;
pub use counting::{MOST_CONTROLLERS, gained};
pub use ec_regs::NoMemory;
