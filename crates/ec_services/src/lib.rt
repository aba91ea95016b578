#![tactic(auto)]
//! What a master does to bring up a line: it numbers the slaves, asks for their states, and reads and writes
//! their objects, over any two ports (IEC 61158-6-12, AL management and SDO services).
//!
//! Before a line cycles, its slaves have no addresses and stand in Init; these calls do what is done once,
//! with no memory taken. One use, which `services/door.rt` of `ec_tests` tries; `slave` and `alone` of
//! `services/line.rt` make a slave with two mailboxes, and a ring of it as ports, and `peer` of
//! `services/peer.rt` says where the mailboxes are:
//!
//! ```text
//! let mut objects = Objects::new();
//! objects.add(0x1018, 1, Rights::ReadOnly, Value::Four(2))?;
//! let slave = slave(&rt, rt.alloc(), AlState::Init, objects);
//! let mut ports = alone(&rt, rt.alloc(), slave);
//! let count = assign_stations(&mut ports, 0x1001)?;
//! request_state(&mut ports, 0x1001, AlState::PreOp, 10)?;
//! let mut peer = peer();
//! let vendor = sdo_upload(&mut ports, &mut peer, 0x1018, 1, 3)?;
//! ```
//!
//! What is promised, of each call in its clause `service`:
//!
//! - [`assign_stations`] writes to each place that a broadcast read counted its station address, and names
//!   the first write that not exactly one slave answered.
//! - [`request_state`] asks a slave for a state, and waits until it is there or refuses, with its code.
//! - [`acknowledge`] acknowledges an error of a slave, and waits until it is gone.
//! - [`write_control`] asks for a state, and [`read_status`], [`read_al`] and [`read_error`] read AL status,
//!   each by one trip: the parts of both, for a master that makes a trip behind each cycle.
//! - [`sdo_upload`] and [`sdo_download`] read and write an object of a [`Peer`] by one mail and its answer.
//! - [`upload_surely`] and [`download_surely`] do so whatever is lost on the way or was left behind before:
//!   they post where one answer shows both mailboxes empty, until a mail answers the last post.
//! - [`upload_on`] and [`download_on`] make one trip of such a reading or writing, and say how far it is
//!   ([`Progress`]), so that a master reads or writes an object beside its cycles.
//! - [`settle`] waits until one answer shows both mailboxes empty; [`Peer::skip`] moves the counter on.
//! - [`locate`] says where the cable is broken, by one broadcast read over ports that tell where copies
//!   arrive ([`ec_ring::HeardPorts`]), and [`CutOff`] who is cut off: the calls of `ec_diag`.
//! - [`ask`] sends one datagram, as [`request`] makes it, and answers what came [`Back`] of it: each trip of
//!   all these calls is one.
//! - [`RingPorts`] is a ring of simulated slaves as two ports, where every slave takes its step after each
//!   trip.
//!
//! Each service is a talk of questions: a datagram goes out alone in a frame, and a table says what its
//! answer decides (specs/: `Ask`, and one file for each service). Where what goes out next hangs on what was
//! learned, it is a course of trips (`Course`). So contracts name each frame that goes out, and each fault by
//! the answer that it comes of.

mod acknowledgement;
mod asking;
mod fault;
mod mailbox;
mod settling;
mod states;
mod stations;
mod surely;
mod transfer;

pub use acknowledgement::{acknowledge, read_al, read_error};
pub use asking::{Back, ask, request};
pub use ec_diag::{CutOff, Located, locate};
pub use fault::MasterFault;
pub use mailbox::{Area, Peer};
pub use settling::{Mailboxes, settle};
pub use states::{read_status, request_state, write_control};
pub use stations::assign_stations;
pub use surely::{Progress, download_on, download_surely, upload_on, upload_surely};
pub use transfer::{sdo_download, sdo_upload};
