#![tactic(auto)]
//! What of a slave controller's memory the master may reach (IEC 61158-4-12, sync manager and FMMU).
//!
//! FMMUs lay logical bits on physical ones, and the areas of active sync managers keep bytes from reads and
//! from writes; a mailbox is read and written whole. This crate decides that in one place, run of bits by run
//! of bits, for the pass of a frame as for the checker. One use, which `areas/examples.rt` of
//! `ec_tests` tries in `a_read_moves_ten_bits_up_by_three`; `READ` lays ten bits from bit 6 of
//! 0x1100 on at bit 3 of the logical byte 0x00010000, and `areas()` has two bytes of inputs at 0x1100:
//!
//! ```text
//! let mut memory = Memory::new(rt.alloc()).expect(&rt, "memory");
//! memory.load(0x1100, &[0xC0, 0x5A]);
//! let fmmus = [PlannedFmmu::new(READ)];
//! let mut data = [0x00, 0x00];
//! assert!(rt; read_mapped(&areas(), &fmmus, memory.bytes(), 0x0001_0000, &mut data));
//! assert_eq!(rt; data, [0x58, 0x0B]);
//! ```
//!
//! What is promised:
//!
//! - [`read_mapped`], [`write_mapped`]: a bit moves exactly where an FMMU has a readable or writable pair
//!   with it, from or to the place of such a pair; all else stays; the answer tells whether any bit moved
//!   (clauses `bits`, `served`; `pair`, `target`, `source`);
//! - [`reads_some`], [`writes_some`]: whether such a read or write would move a bit (`served`, `pair`);
//! - [`are_apart`]: whether FMMUs for reading and for writing share no bit of the memory;
//! - [`extent_of`]: what FMMUs reach all together: the hulls of the logical bits that the master reads and
//!   writes ([`read_hull_of`], [`write_hull_of`]), outside of which none is served (laws `reads_none`,
//!   `writes_none`); and how many there are up to the last that maps a bit, without the others of which reads
//!   and writes move the same bits (laws `read_map_mapped`, `write_map_mapped`);
//! - [`serves_physical_read`], [`serves_physical_write`]: which ranges a physical command may read and write;
//!   [`emptied_by`], [`filled_by`]: which mailbox that empties and fills;
//! - [`writes_outputs`]: does a logical write reach the last byte of outputs; [`told_of_each`]: what a test
//!   says of each area; [`copy_run`], [`merge_run`]: the bytes of a range, copied or or-ed into data.
//!
//! All of it works on memories and records; a controller, which has them, is in the crate above. Inside,
//! `areas` says what sync managers keep off, `records` reads the records out of a memory, `met` and `reach`
//! find the run that an FMMU and the data share. What the contracts speak of stands in specs/, under the same
//! names.

mod apart;
mod areas;
mod extent;
mod hull;
mod logical;
mod logical_write;
mod met;
mod named;
mod ranges;
mod reach;
mod records;
mod runs;
mod showing;

pub use apart::are_apart;
pub use areas::{is_readable, is_writable};
pub use extent::{Extent, extent_of};
pub use hull::{LogicalHull, read_hull_of, write_hull_of};
pub use logical::read_mapped;
pub use logical_write::write_mapped;
pub use named::{reads_some, writes_some};
pub use ranges::{
    emptied_by, filled_by, has_sii, serves_physical_read, serves_physical_write, takes_writes,
};
pub use records::{fmmu_at, fmmus_of, sync_manager_at, sync_managers_of};
pub use runs::{copy_run, merge_run};
pub use showing::{last_byte, told_of_each, writes_outputs};
