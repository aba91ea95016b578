#![tactic(auto)]
//! What the EEPROM of a slave says, as a person reads it (ETG.1000.6, slave information interface; ETG.2010).
//!
//! The lines are those of a slave in a scene, as far as a scene has words for what stands there: identity,
//! alias, name, sync managers and PDOs. What it has none for stands behind `#`, where a scene passes it over:
//! texts, what CoE can do, FMMUs, and categories of other kinds. One use, which cases of the program try:
//!
//! ```text
//! let mut lines = Lines::new(&mut out);
//! match print_eeprom(bytes, &mut lines)? {
//!     None => GOOD,
//!     Some(misread) => refuse(misread),
//! }
//! ```
//!
//! How bytes are read is proved in `ec_sii`: each field, and whatever cuts them short. What is printed of
//! it is tried.

mod head;
mod numbers;
mod parts;
mod pdos;
mod print;

pub use print::{Misread, print_eeprom};
