#![tactic(auto)]
//! What helps a person with the text of a scene: what is wrong with a line that is refused, and which lines
//! are accepted and yet seldom meant.
//!
//! - [`explained`] is the column, the word, and what is wanted in its place, for a line with a fault of
//!   `ecat_scene`.
//! - [`odd_lines`] are the lines that set something twice, or something that is never used; process data that
//!   no FMMU maps, areas that lie in the buffers of others, and items that nobody serves.
//! - [`OddLine::members`] are those of an object of JSON: what is odd by its name, and its numbers.
//! - [`line_of`] is the line that says a slave, a record or an item, for a refusal that names them.
//!
//! What of a mapping is odd has exact contracts, by the words of specs/: `Mapping`, `Buffers` and `Items`.
//! The texts, and that each slave and item is asked about, are tried by tests (`lint` of `ecat_master_tests`)
//! and in `cases`.

mod as_json;
mod buffers;
mod explain;
mod forms;
mod items;
mod lint;
mod mapping;
mod oddity;
mod places;
mod records;

pub use explain::{Explanation, explained};
pub use lint::{OddLine, odd_lines};
pub use places::{Part, line_of};
