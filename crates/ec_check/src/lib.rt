#![tactic(auto)]
//! The mapping checker: is a line of slaves mapped so that a master's cycle reads each bit of the process
//! image from one place, and writes it without reading it elsewhere (IEC 61158-4-12, FMMU and sync manager)?
//!
//! The promises about cycles hold of such lines, and whether a line is one can be told before the first
//! cycle. One use, which `check/door.rt` of `ec_tests` tries; `outputs` and `writer` of
//! `check/line.rt` fill in the records of an area that the master writes, by start and length, and of an
//! FMMU:
//!
//! ```text
//! let mut slave = Slave::new(rt.alloc(), 0x1001, Objects::new(), 2, 0)?;
//! slave.controller_mut().set_syncman(2, &outputs(0x1000, 2));
//! slave.controller_mut().set_fmmu(0, &writer(BYTE, 1, 0x1001));
//! slave.controller_mut().set_fmmu(1, &writer(BYTE, 1, 0x1002));
//! let verdict = check(&[slave]);
//! ```
//!
//! The second FMMU lies behind the area: `verdict` is `OutsideArea` of slave 0, FMMU 1, address 0x1002. What
//! is promised:
//!
//! - [`check`] is Ok exactly where none of seven rules is broken (`accepted`), and else names the first that
//!   is, in their order, with the smallest numbers and the lowest address or bit (`refused`). It works on
//!   runs of bits, never bit by bit, and takes no memory.
//! - [`fit_line`] is the law that says what an accepted line gives a cycle; [`fit_by_mapping`] and
//!   [`mapping_lasts`] say that it stays one while slaves take their steps and put inputs.
//!
//! - `fault`: why a line is refused.
//! - `stations`, `fmmus`, `areas`, `outside`, `twice_written`, `twice_read`, `crossed`: the rules, in this
//!   order.
//! - `hulls`: one pass over lines that are mapped in the order of their bits, in place of all pairs.
//! - `mapped`: what the rules must know of a slave, so that they judge records alone as well; [`Records`]: a
//!   slave by those alone, mapped as the controller that has them, in 194 bytes; `line`: the records that
//!   stand on the line; `runs`: the lowest number that two runs share.
//!
//! What the contracts speak of stands in specs/: the records of a line (`Line`), the rules as what breaks
//! them (`Rules`), a line's faults and their order (`Fit`, `Order`), what a part of the checker answers
//! (`Search`), what follows for a cycle (`Facts`), and the controller of a slave's records (`Records`).

mod areas;
mod checker;
mod crossed;
mod facts;
mod fault;
mod fmmus;
mod hulls;
mod line;
mod mapped;
mod outside;
mod records;
mod runs;
mod stations;
mod twice_read;
mod twice_written;

pub use checker::{are_controllers, check};
pub use facts::{fit_by_mapping, fit_in_any_order, fit_line, mapping_lasts};
pub use fault::MapFault;
pub use mapped::Mapped;
pub use records::{FMMU_BYTES, Records, SYNC_MANAGER_BYTES};
