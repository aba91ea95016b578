#![tactic(auto)]
//! One EtherCAT slave: a controller and its application, which changes state when the master asks, or
//! refuses, and answers the master's mails (IEC 61158-6-12).
//!
//! A controller alone only moves bytes; a master that brings up a line needs somebody behind it who answers.
//! One use, which `app/door.rt` of `ec_tests` tries: frames pass the controller, `step` does what they
//! asked for, and the next frames read the answers.
//!
//! ```text
//! // A write of 8, Op, to AL control of the slave 0x1001.
//! let asked = [
//!     14, 0x10, 5, 0, 0x01, 0x10, 0x20, 0x01, 2, 0, 0, 0, 8, 0, 0, 0,
//! ];
//! let mut slave = Slave::new(rt.alloc(), 0x1001, Objects::new(), 0, 0)?;
//! let mut frame = FrameBuf::read(&asked, Form::Udp)?;
//! slave.controller_mut().process(&mut frame);
//! slave.step();
//! let (status, code) = slave.controller().al();
//! ```
//!
//! It is refused: `status` is Init with the error bit, and `code` is 0x0011. What is promised:
//!
//! - [`Slave::step`] answers one request for a state and then one mail: `al_step` and `mail_step`, each a
//!   table whose first fitting row decides. `roles` says what the first four sync managers are for.
//! - [`Objects`] is the object dictionary, at most 32 entries, no two of one index and subindex; [`Value`] is
//!   what an object holds, and [`Rights`] what a master may do with it.
//! - Every eight bytes are one [`Sdo`], by which a value is asked for, written and answered, and are written
//!   again as they were read.
//! - [`Mail::read`] answers the mail that the bytes begin with or their first fault (`found`, `good`,
//!   `fault`, `only`); no mail's bytes begin another's (`mail::one_mail`).
//! - A step leaves every register but AL status, its code and the status bytes of both mailboxes (the law
//!   [`promises::step_leaves`]).
//!
//! What its contracts speak of stands in specs/: a slave and its step (`State`, `Slave`), the two machines
//! (`AlStep`, `MailStep`) and what they leave (`Left`), the sync managers' parts (`Roles`), and the words of
//! mails, SDOs, objects and values.

pub mod abort_code;
mod al_step;
pub mod mail;
mod mail_step;
pub mod objects;
pub mod promises;
pub mod roles;
pub mod sdo;
pub mod slave;
pub mod value;

pub use abort_code::AbortCode;
pub use mail::{Mail, MailFault};
pub use objects::{Entry, ObjectFault, Objects};
pub use sdo::Sdo;
pub use slave::Slave;
pub use value::{Rights, Value};
