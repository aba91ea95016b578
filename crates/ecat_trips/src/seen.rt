//! Which numbers came, told by few marks.

ghost use Rattle.std.specs.Prelude.{◌≡◌, ◌<◌, IfOk, ℕ, true};
ghost use Rattle.ecat_trips.specs.Seen.{is_seen, slot};

use std::alloc::{AllocError, Global};
use std::marker::Model;

/// How many marks there are.
const SLOTS: usize = 8192;

/// An odd number whose products differ in their highest bits.
const FACTOR: u64 = 0x9E37_79B9_7F4A_7C15;

/// What 64 bits have above the 13 highest.
const BELOW: u64 = 0x0008_0000_0000_0000;

/// Which mark is that of a number.
fn slot(number: u64) -> usize
    ensures value { result ≡ slot number }
    ensures within { result < SLOTS }
{
    (number.wrapping_mul(FACTOR) / BELOW) as usize
}

/// Of each mark, whether a number came that has it: one that has none did not come, and of those that did
/// not come few have one.
#[derive(Drop)]
pub(crate) struct Seen {
    marks: Vec<bool>,
}

impl Model for Seen {
    ghost use Rattle.std.specs.Prelude.{Bool, List};

    ghost Value = { List Bool };

    ghost view = { λ s. s.marks.items };

    ghost use Rattle.std.specs.Prelude.{◌≡◌, length};
    ghost use Rattle.ecat_trips.specs.declared.seen.TheConstants.{SLOTS};

    ghost invariant = { λ s. length s.marks.items ≡ SLOTS };
}

impl Seen {
    /// No number came yet: 8 KB of memory.
    pub(crate) fn new(alloc: Global) -> Result<Seen, AllocError> {
        let marks = Vec::from_elem(alloc, false, SLOTS)?;
        Ok(Seen { marks })
    }

    /// Has a number its mark?
    pub(crate) fn has(&self, number: u64) -> bool
        ensures { result ≡ is_seen self.now number }
    {
        self.marks[slot(number)]
    }

    /// A number came.
    pub(crate) fn mark(&mut self, number: u64)
        ensures own { is_seen self.new number ≡ true }
        ensures others { (n : ℕ) → is_seen self.old n ≡ true → is_seen self.new n ≡ true }
    {
        self.marks[slot(number)] = true;
    }
}
