#![tactic(auto)]
//! What a capture tells of a line of slaves, and the scene of it.
//!
//! A machine builder has a machine and a capture of its start, not a scene. The master wrote all that a scene
//! says, and the counters tell what the slaves took of it. One use, which `told/door.rt` of
//! `ecat_capture_tests` tries:
//!
//! ```text
//! let asked = Asked { at: None, asked: false, values: false };
//! match learn(rt.alloc(), first, again, &asked, &mut out, &mut err) {
//!     Learned::Whole => {}      // the scene was written
//!     Learned::Holes => {}      // it was, with lines that no command reads: not all is told
//!     ended => {}
//! }
//! ```
//!
//! The file is read twice, since the addresses of all packets tell which ways they went (`ecat_trips`); of a
//! stream ([`learn_stream`]) the first 4,096 frames are held, and decide (`ecat_frames`).
//!
//! What is promised:
//!
//! - [`Known::take`] makes of what is told, by a trip that ended, exactly what the definition says
//!   (`specs/Known.antt`): how many slaves there are, and of each of them, byte by byte, station address, AL
//!   status and the records of FMMUs and sync managers: told, guessed, lost or not told. A write that counted
//!   0 does nothing, one that was lost takes away what was told, and a sync manager that is on keeps its
//!   area;
//! - [`Known::line`] is the slaves as the last logical datagram that moved found them, so that a shut-down
//!   does not empty them;
//! - what is told is so ([`told_is_so`]): over a line of simulated controllers, behind any number of frames
//!   that are lost, wherever that is, or come back from the whole line, each byte that is told is that of the
//!   controller at its place. One port sends them, or both ports of a closed ring: then the copy that passed
//!   the line comes back beside one that no slave processed ([`rings_are_passed`],
//!   [`still_copies_add_nothing`]), or one of them alone. Of one datagram and one controller [`one_told_run`]
//!   says it. Left out are the status bytes of sync managers, which mailboxes and activation change, and AL
//!   status where applications take steps between the frames ([`steps_leave_it`]); but when a broadcast read
//!   tells one state, all are in it ([`one_state_heard`]);
//! - any bytes are taken, and all calls end.
//!
//! What is told is so of at most 256 controllers, where
//!
//! - AL status names a state;
//! - each enabled sync manager guards an area when a datagram comes that writes registers: of one that does
//!   not, a simulated controller lets the record be written;
//! - no two controllers have a station when a datagram comes that names it.
//!
//! What is only tested: which datagrams are items, objects by mail, the texts and their order. Not proved is
//! that what is told is so where two copies of a frame pass an open ring, and nothing is said of
//! [`Known::line`] but when it was found.
//!
//! - `byte`, `registers`, `slave`: what is told of a byte, where it is kept, what a datagram does with it.
//! - `whom`, `known`: which slaves a datagram means, and what trip after trip tells of all.
//! - `groups`, `mails`, `left_out`: how often datagrams came, objects by mail, and what a scene cannot say.
//! - `learner`, `reading`: packet after packet, and the whole capture.
//! - `page`, `slave_page`: the text; `found`: that of a line whose slaves were asked.
//! - `usual`: the items of a capture without a start-up, with the counters that came most often.
//! - `promises`: the laws of what is told.
//!
//! It cannot tell the places of slaves that are given their stations while the ring is open: a slave that
//! answers from the other end counts at the same place. So what a place reads or writes is then told of
//! nobody; that the ring was open is known since slaves processed both copies, and may be so where one copy
//! came alone that did not pass all slaves, or none.
//!
//! It takes 400 bytes of memory for each slave twice, 1 KB for each kind of datagram, and what `ecat_trips`
//! takes; of a stream 8 MB more.

mod byte;
mod found;
mod groups;
mod known;
mod learner;
mod left_out;
mod mails;
mod page;
mod promises;
mod reading;
mod registers;
mod slave;
mod slave_page;
mod usual;
mod whom;

pub use byte::{Byte, Gate, How};
pub use found::{ENTRIES, Found, scene_of};
pub use known::{Known, KnownFault, MAX_SLAVES};
pub use promises::{
    one_state_heard, one_told_run, rings_are_passed, steps_leave_it, still_copies_add_nothing,
    told_is_so,
};
pub use reading::{Asked, Learned, learn, learn_by, learn_stream};
pub use registers::{FMMU_PLACE, KEPT, STATION_PLACE, STATUS_PLACE, SYNC_MANAGER_PLACE};
pub use slave::Slave;
pub use usual::Usual;
pub use whom::Whom;
