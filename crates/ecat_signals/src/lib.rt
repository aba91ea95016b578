#![tactic(auto)]
//! Signals: bits of an item's bytes that have a name, read and written as one value.
//!
//! - [`Field`] says which bits of which item they are, and what they are by a [`SignalKind`].
//! - [`Signal`] is a field with its name.
//! - [`Field::number_in`] and [`Field::row_in`] read it of an item's bytes, [`Field::put_number`] and
//!   [`Field::put_row`] write it among them.
//!
//! One use, as in the test `signed_bits_are_read_with_their_sign`:
//!
//! ```text
//! let field = Field { item: 0, bit: 4, count: 12, kind: SignalKind::I16 };
//! assert_eq!(rt; field.number_in(&[0x0f, 0xff]), Some(0xffff_fff0));
//! ```
//!
//! What is promised: the number that is read is that of the field's bits, the lowest of byte 0 first, and
//! where its kind has a sign, all higher bits are as the top one of the field (`specs/Signals.antt`). What is
//! written changes these bits alone, and is read as it was ([`fields_read_back`]).

mod field;
mod kind;
mod laws;

pub use field::{Field, FieldFault, Signal};
pub use kind::SignalKind;
pub use laws::fields_read_back;

#[cfg(test)]
mod tests;
