//! What is expected of the counters of a work.

ghost use Rattle.std.specs.Prelude.{◌≡◌, length, map, take};
ghost use Rattle.ec_check.specs.Line.{controllers};
ghost use Rattle.ec_map.specs.Share.{expected_of};

use ec_app::Slave;
use ec_master::{MAX_ITEMS, Work, all_expected};
use std::marker::Model;

/// What the counter of each item of a work is expected to gain on a line, in the order of the items.
/// Contracts see these numbers.
#[derive(Drop)]
pub struct Expected {
    all: [u16; MAX_ITEMS],
    count: usize,
}

impl Model for Expected {
    ghost use Rattle.std.specs.Prelude.{◌≡◌, ◌≤◌, ℕ, List, length, take};
    ghost use Rattle.ec_master.specs.declared.work.TheConstants.{MAX_ITEMS};

    ghost Value = { List ℕ };

    ghost view = { λ e. take e.count e.all };

    ghost invariant = { λ e. (e.count ≤ MAX_ITEMS) × (length e.all ≡ MAX_ITEMS) };
}

impl Expected {
    /// What is expected of a work on a line.
    pub fn of(line: &[Slave], work: &Work) -> Expected
        ensures each { result ≡ map (expected_of (controllers line.now)) work.now }
        ensures count { length result ≡ length work.now }
    {
        Expected {
            all: all_expected(line, work),
            count: work.len(),
        }
    }

    /// One number for each item.
    pub fn counters(&self) -> &[u16]
        ensures { result.now ≡ self.now }
    {
        &self.all[..self.count]
    }

    /// The numbers in a table of as many as a work may have; behind those of the items it has no meaning.
    pub fn table(&self) -> &[u16; MAX_ITEMS]
        ensures { take (length self.now) result.now ≡ self.now }
    {
        &self.all
    }
}
