#![tactic(auto)]
//! What a master asks of a line of slaves in its cycles, and whether the line is mapped for it (IEC
//! 61158-4-12).
//!
//! A working counter tells something only to who knows what it should be: this crate says which requests may
//! be made of a line and what each adds to its counter. One use, which `map/door.rt` of `ec_tests`
//! tries; `exchanging` of `map/line.rt` makes a slave that reads and writes one logical byte:
//!
//! ```text
//! let first = exchanging(rt.alloc(), 0x1001, BYTE)?;
//! let second = exchanging(rt.alloc(), 0x1002, BYTE + 1)?;
//! let line = [first, second];
//! check(&line)?;
//! let item = Item::new(Kind::Lrw, BYTE, &[0xFF, 0xFF])?;
//! check_item(&line, &item)?;
//! let count = expected(&line, &item);
//! ```
//!
//! Each slave counts 1 for the read and 2 for the write, and `count` is 6. What is promised:
//!
//! - [`Item`] is one thing that is asked in each cycle: a logical read, write or exchange, a broadcast read
//!   of registers, or a read or write that is addressed to a station ([`Kind`]). It becomes a datagram, and
//!   takes the answer.
//! - [`check`], of the crate below, tells whether a line is mapped as a cycle needs it, and [`check_item`]
//!   whether an addressed item reads or writes where it may (`accepted`, `refused`).
//! - [`expected`] is what a line adds to the working counter of an item, modulo 65,536.
//! - The laws [`placed_item`], [`accepted_items`], [`shares_by_kind`] and [`shares_by_pairs`] tie these to
//!   what a pass of each slave does: a slave's share is what the counter of the item's datagram gains there.
//!   [`shares_by_mapping`] says that it lasts as long as the mapping does.
//!
//! Nothing here takes memory. What the contracts speak of stands in specs/: an item and its datagram
//! (`Item`), where an addressed item may go (`Place`), and a slave's share in the counter (`Share`).

mod asking;
mod covered;
mod item;
mod kind;
mod lasting;
mod line;
mod not_shown;
mod place;
mod promises;
mod shares;
mod written;

pub use asking::Asking;
pub use covered::{Gap, Way, first_gap, first_uncovered};
pub use ec_check::{
    MapFault, Mapped, are_controllers, check, fit_by_mapping, fit_in_any_order, fit_line,
    mapping_lasts,
};
pub use ec_wire::Kind;
pub use item::Item;
pub use kind::ItemFault;
pub use lasting::{placed_in_any_order, shares_by_mapping};
pub use not_shown::{NotShown, WhyNotShown, first_area_not_shown, first_not_shown};
pub use place::{PlaceFault, check_item, placed_item};
pub use promises::{
    accepted_items, placed_by_mapping, same_shares, shares_by_kind, shares_by_pairs,
};
pub use shares::expected;
