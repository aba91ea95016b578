#![tactic(auto)]
//! The core of an EtherCAT master for masters that are written in another language: a static library over
//! plain data of the caller's, with `include/rummymaple.h` for C and `bindings/rust` for Rust. It takes no
//! memory, keeps nothing between calls, and every call ends and answers, whatever bytes and numbers it is
//! given.
//!
//! A master's cycle, split where a master splits it (`tests/door.rt` tries it):
//!
//! ```text
//! let made = rmp_frame(&items, &image, 0, &mut sent);
//! let out = rmp_seal(number, &sent[..made.bytes], &mut numbered);
//! // .. each copy goes out with its number, one each way round the ring, and a packet comes back ..
//! let a = rmp_open(UDP, number, &sent[..made.bytes], &packet, &mut opened);
//! let came = rmp_join(UDP, &sent[..made.bytes], &a, &b, &mut joined);
//! let verdict = rmp_judge(&mut items, 0, &joined[..came.bytes]);
//! let stored = rmp_store(&items, 0, &joined[..came.bytes], &mut image);
//! ```
//!
//! What is promised, each in the words of the crates that say what a cycle is:
//!
//! - [`rmp_frame`]: the bytes spell the frame of the cut of the items (`ec_master`, `frame_at`), each item
//!   with its data from the image;
//! - [`rmp_join`]: a packet is a copy exactly where it spells a frame (`ec_wire`, `IsSpelt`); the bytes spell
//!   the joined frame (`ec_merge`, `joined_frame`), or the stranger is named (`IsFault`);
//! - [`rmp_seal`], [`rmp_open`]: a copy goes out with a number behind it (`ec_number`, `numbered`), and a
//!   packet is opened exactly where it came of that numbered frame (`CameUnder`, `opened`), under one number
//!   alone ([`packets_open_under_one_number`]);
//! - [`rmp_judge`]: the verdict is that on the items' counters (`ec_master`, `verdict_from`), and only what
//!   came back is written into the items;
//! - [`rmp_store`]: the image gets the data of those items that read, and nothing else;
//! - [`rmp_single`]: the bytes spell the frame of that one datagram, of any command: what a start-up asks;
//! - [`rmp_read`]: the datagrams of the frame that the bytes spell and where their data lie, or the first
//!   fault with its place (`ec_wire`, `IsFirstFault`);
//! - [`rmp_where`]: what is known of the links is exactly that the packets can arrive so (`ec_diag`,
//!   `Tells`), and over a trip it is so ([`what_is_told_is_so`]);
//! - [`rmp_check`], [`rmp_check_item`], [`rmp_expected`], [`rmp_covered`] and [`rmp_shown`]: before the first
//!   cycle, by the slaves' records alone, whether the line is mapped as a cycle needs it (`ec_check`,
//!   `IsFit`), where an item may go, by how much its counter moves, whether all that is mapped is asked for,
//!   and whether each mapped area of outputs is shown whole to its application (`ec_map`); of records that
//!   were read back it is so of the line itself ([`records_are_the_line`]);
//! - [`rmp_cycle_next`] and [`rmp_cycle_came`]: the cycle as a state machine over a struct of the caller's;
//!   its image stays as it is until the last frame is good, and its turns are calls ([`turns_are_a_cycle`]);
//! - [`rmp_service_next`] and [`rmp_service_came`]: a service with one slave as a state machine, and
//!   [`rmp_start_next`] and [`rmp_start_came`]: so a start-up; each turn is that of `ec_acyclic` or
//!   `ec_turns` over ports that give what the packets spell. [`rmp_look_next`] and [`rmp_look_came`]: so a
//!   look at the state of a slave (`ec_run`);
//! - [`calls_are_a_cycle`]: where every verdict is good, the calls in their order are a good cycle of
//!   `ec_master::run_cycle` over ports that give what came, with all that this certifies.
//!
//! Each export answers by a struct of numbers, and its contract says of which end they are the numbers
//! (`Join`, `Numbered`, `Single`, `Frame`, `Judge`, `Read`, `Cable`, `Turn`, `Mapping`, `Asked`, `Shown`,
//! `Service`, `Starting` and `Look` of specs/). What an item is stands in `Items`, the controller of a
//! slave's records in `ec_check` (`Records`), what a joined frame gives an item in `Answers`, the calls in
//! their order in `Cycle`, and turns in `Turns`.
//! A call of a cycle needs less than 8 KB of stack: nothing that has the size of a frame is moved or made
//! twice where it can stay in its place.

mod answered;
mod asked;
mod cable;
mod covered;
mod cut;
mod cycle;
mod failure;
mod frame;
mod heard;
mod item;
mod join;
mod judge;
mod layout;
mod look;
mod mail;
mod mapping;
mod numbers;
mod open;
mod packet;
mod promises;
mod read;
mod room;
mod seal;
mod sent;
mod service;
mod shown;
mod single;
mod spell;
mod starting;
mod store;
mod values;
mod wanted;

pub use asked::{Expectation, PlaceEnd, rmp_check_item, rmp_expected};
pub use cable::{Cable, CableAnswer, CableEnd, CablePlace, rmp_where};
pub use covered::{GapAnswer, GapEnd, rmp_covered};
pub use cycle::{
    Cycle, DONE, ENDED, Turn, TurnAnswer, TurnEnd, UNDER_WAY, rmp_cycle_begin, rmp_cycle_came,
    rmp_cycle_next,
};
pub use ec_check::{FMMU_BYTES, Records, SYNC_MANAGER_BYTES};
pub use frame::{FrameAnswer, FrameEnd, rmp_frame};
pub use item::{Item, MAX_ITEMS};
pub use join::{Join, JoinAnswer, JoinEnd, rmp_join};
pub use judge::{ItemAnswer, JudgeEnd, rmp_judge};
pub use look::{Look, LookAnswer, LookEnd, rmp_look_came, rmp_look_next};
pub use mail::Mail;
pub use mapping::{MapAnswer, rmp_check};
pub use numbers::{Code, Copy};
pub use open::{OpenEnd, rmp_open};
pub use packet::WrittenAnswer;
pub use promises::{
    calls_are_a_cycle, packets_open_under_one_number, records_are_the_line, turns_are_a_cycle,
    what_is_told_is_so,
};
pub use read::{DatagramPlace, ReadAnswer, ReadEnd, rmp_read};
pub use seal::{SealEnd, rmp_seal};
pub use sent::SentEnd;
pub use service::{
    Service, ServiceAnswer, ServiceEnd, ServiceTurn, rmp_acknowledge_begin, rmp_read_begin,
    rmp_service_came, rmp_service_next, rmp_state_begin, rmp_write_begin,
};
pub use shown::{ShownAnswer, ShownEnd, rmp_shown};
pub use single::{SingleEnd, rmp_single};
pub use starting::{
    Start, StartAnswer, StartEnd, StartTurn, rmp_start_begin, rmp_start_came, rmp_start_next,
};
pub use store::{StoreEnd, rmp_store};
pub use wanted::{Object, Startup};

#[cfg(test)]
mod tests;
