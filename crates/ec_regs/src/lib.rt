#![tactic(auto)]
//! The registers of an EtherCAT slave controller (IEC 61158-4-12).
//!
//! Master and slave speak of a slave's memory by these records and addresses, and nothing but this crate
//! knows how they are spelt. One use, which `regs/door.rt` of `ec_tests` tries:
//!
//! ```text
//! let fmmu = Fmmu {
//!     logical: 0x0001_0000,
//!     length: 2,
//!     start: 3,
//!     stop: 4,
//!     physical: 0x1100,
//!     bit: 6,
//!     kind: 1,
//!     activate: 1,
//!     reserved: [0; 3],
//! };
//! let record = fmmu.write();
//! let plan = fmmu.plan();
//! let place = fmmu.physical_of(fmmu.first_logical());
//! ```
//!
//! The record is 16 bytes, which `Fmmu::read` reads again. The plan is of two logical bytes, whose bits from
//! bit 3 of the first (F8) to bit 4 of the last (1F) lie 3 bits further on in memory; `place` is bit 6 of
//! byte 0x1100. What is promised: records equal their bytes both ways (`read`, `write`), a plan tells exactly
//! the mapped pairs of bits (`plan`, `pairs`), and each test of a record is the word that specs/ has for it.
//!
//! - `registers`: addresses and sizes, by the standard's names.
//! - `fmmu`: the FMMU record, its bytes both ways, and the pairs of logical and physical bits that it maps.
//! - `sync_man`: the sync manager record and its bytes both ways.
//! - `guard`: what a sync manager keeps off its area, worked out once for a record.
//! - `information`: what a controller tells of itself, and its bytes.
//! - `al`: the states of the application layer and the byte of AL status; `al_status_code`: why a slave
//!   refuses a state.
//! - `address_range`: neighbouring bytes of the memory.
//! - `plan`: what an FMMU maps, told by bytes and made once for a record.
//! - `bits`: runs of bits copied from one byte list into another.
//! - `memory`: the bytes of one controller.
//!
//! What its contracts speak of stands in specs/: bits of byte lists and lists with some bits replaced
//! (`Bits`), the layouts (`Fmmu`, `SyncMan`, `Information`), mapped pairs (`Pairs`, `Plan`), guarded areas
//! (`Guard`), and AL status (`Al`). The laws that crates above cite stand in proofs/Laws.

pub mod address_range;
pub mod al;
pub mod al_status_code;
pub mod bits;
pub mod fmmu;
pub mod guard;
pub mod information;
pub mod memory;
pub mod plan;
pub mod registers;
pub mod sync_man;

pub use address_range::AddressRange;
pub use al::{AlBits, AlState, AlStatus, acknowledges};
pub use al_status_code::AlStatusCode;
pub use fmmu::{Fmmu, FmmuType};
pub use guard::{Guard, PlannedSyncMan, SyncManagers};
pub use information::{INFORMATION, Information};
pub use memory::{Memory, NoMemory};
pub use plan::{Fmmus, Plan, PlannedFmmu};
pub use sync_man::{
    LONGEST_MAILBOX, MAILBOX_FULL, SHORTEST_MAILBOX, SyncMan, SyncManControl, pdi_address,
    status_address,
};
