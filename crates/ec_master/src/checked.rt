//! A ring and a work that were checked once, for any number of cycles.

ghost use Rattle.std.specs.Prelude.{◌≡◌, ◌≢◌, ◌≤◌, ℕ, IfOk, IfErr, length, map};
ghost use Rattle.ec_ring.specs.Links.{is_up};
ghost use Rattle.ec_master.specs.Acceptance.{IsRefusal};
ghost use Rattle.ec_master.specs.Certificate.{verdict_under};
ghost use Rattle.ec_master.specs.Ports.{taken_on};
ghost use Rattle.ec_master.specs.Travelled.{answers_under, ring_under};
ghost use Rattle.ec_master.specs.Work.{rewound};

use crate::acceptance::{Refusal, accept, all_expected};
use crate::between::checked_then_rewound;
use crate::verdict::Verdict;
use crate::weather::weather_cycle_in;
use crate::work::{MAX_ITEMS, Work};
use ec_ring::{Ring, Weather};
use std::marker::Model;

/// A ring and a work on it that were checked, and what is expected of each counter. Cycles, links that change
/// and a work that is rewound undo none of that, so it is neither checked nor reckoned again. Contracts see
/// the ring and the items of the work.
#[derive(Drop)]
pub struct CheckedRing {
    ring: Ring,
    work: Work,
    expected: [u16; MAX_ITEMS],
}

impl Model for CheckedRing {
    ghost use Rattle.ec_master.specs.Checked.{Checked, IsChecked};

    ghost Value = { Checked };

    ghost view = { λ c. record { ring = c.ring; work = c.work } };

    ghost invariant = { λ c. IsChecked c.ring c.work c.expected };
}

impl CheckedRing {
    /// Checks a ring's line and a work on it (`accept`).
    #[inline(never)]
    pub fn of(ring: Ring, work: Work) -> Result<CheckedRing, Refusal>
        ensures ring { IfOk result (λ checked. checked.ring ≡ ring) }
        ensures work { IfOk result (λ checked. checked.work ≡ work) }
        ensures refused { IfErr result (IsRefusal ring.slaves work) }
    {
        accept(ring.slaves(), &work)?;
        let expected = all_expected(ring.slaves(), &work);
        Ok(CheckedRing {
            ring,
            work,
            expected,
        })
    }

    /// The ring.
    pub fn ring(&self) -> &Ring
        ensures { result.now ≡ self.now.ring }
    {
        &self.ring
    }

    /// The work.
    pub fn work(&self) -> &Work
        ensures { result.now ≡ self.now.work }
    {
        &self.work
    }

    /// Makes one cycle in any weather (`weather_cycle`), with a second work as room for what was sent. What
    /// that one holds before and after does not matter.
    pub fn cycle(&mut self, weather: &[Weather], sent: &mut Work) -> Verdict
        ensures judged { result ≡ verdict_under weather.now self.old.ring self.old.work }
        ensures taken { self.new.work
            ≡ taken_on result self.old.work (answers_under weather.now self.old.ring self.old.work) }
        ensures frames { self.new.ring ≡ ring_under weather.now self.old.ring self.old.work }
    {
        let count = self.work.len();
        let verdict = weather_cycle_in(
            &mut self.ring,
            weather,
            &self.expected[..count],
            &mut self.work,
            sent,
        );
        self.work.are_items();
        verdict
    }

    /// Sets the counters of the work, and the ADP of its broadcast reads, to 0 (`Work::rewind`).
    pub fn rewind(&mut self)
        ensures ring { self.new.ring ≡ self.old.ring }
        ensures work { self.new.work ≡ map rewound self.old.work }
    {
        self.work.are_items();
        checked_then_rewound();
        self.work.rewind();
    }

    /// Puts the link at `k`, at most the number of slaves, up or down (`Ring::set_link`).
    pub fn set_link(&mut self, k: usize, up: bool)
        requires { k ≤ length self.old.ring.slaves }
        ensures work { self.new.work ≡ self.old.work }
        ensures slaves { self.new.ring.slaves ≡ self.old.ring.slaves }
        ensures at { is_up self.new.ring.links k ≡ up }
        ensures others { (j : ℕ) → j ≢ k → is_up self.new.ring.links j ≡ is_up self.old.ring.links j }
    {
        self.ring.set_link(k, up);
    }
}
