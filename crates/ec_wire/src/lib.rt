#![tactic(auto)]
//! EtherCAT frames (IEC 61158-4-12, the frame and datagram structures): reading, editing and writing them in
//! place, with no allocation. A master, a slave and a tool that shows captures need the same bytes read in
//! the same way, so nothing but this crate knows where a field lies.
//!
//! A [`FrameBuf`] is at most 1,500 bytes that are always the spelling of a frame; contracts see it as the
//! list of its datagrams' records. One use, which `wire/door.rt` of `ec_tests` tries:
//!
//! ```text
//! let mut payload = ArrayVec::new();
//! payload.try_extend_from_slice(&[0x08, 0x00])?;
//! let mut frame = FrameBuf::of(&Datagram {
//!     command: Command::Brd,
//!     index: 1,
//!     address: 0x0130_0000,
//!     circulating: false,
//!     irq: 0,
//!     payload,
//!     counter: 0,
//! });
//! frame.set_counter(0, 1);
//! let again = FrameBuf::read(frame.bytes(), Form::Udp)?;
//! ```
//!
//! What is promised:
//!
//! - [`FrameBuf::read`] takes exactly the bytes that spell a frame, and names the first fault of all others
//!   (`found`, `only_found`, `fault`, `only_fault`); no two frames have one spelling ([`one_spelling`]);
//! - [`FrameBuf::refill`] reads the same into a frame that is kept, which a fault leaves as it is;
//! - [`FrameBuf::copy_from`] puts another frame in the place of one that is kept;
//! - each setter, and [`FrameBuf::data_mut`], replaces one field of one datagram and leaves all else;
//! - [`FrameBuf::push`] adds a datagram behind the others, or leaves the frame as it is where none fits.

mod address;
mod cells;
mod command;
mod datagram;
mod edit;
mod fault;
mod frame;
mod kind;
mod layout;
mod read;
mod write;

pub use address::{address_of, ado_of, adp_of};
pub use command::{Addressing, Command};
pub use datagram::{Datagram, MAX_DATA};
pub use fault::{FaultKind, Form, WireFault};
pub use frame::{FrameBuf, MAX_DATAGRAMS, MAX_FRAME, PACKET_ROOM};
pub use kind::Kind;
pub use layout::MAX_LENGTH;
pub use read::one_spelling;
pub use write::Full;
