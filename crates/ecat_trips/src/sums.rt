//! How many trips and copies there were.

ghost use Rattle.std.specs.Prelude.{◌≡◌};
ghost use Rattle.ecat_trips.specs.Sums.{counted, counted_fate, counted_trip};

use crate::trip::Trip;
use crate::trips::{Fate, Step};

/// How many trips were sent, returned and were lost, and how many copies were late or stray, each up to
/// 2^64 - 1.
#[derive(Clone, Copy, Debug, Default, PartialEq, Eq)]
pub struct Sums {
    /// The trips that were sent.
    pub sent: u64,
    /// Those that ended after a copy had come back.
    pub returned: u64,
    /// Those that ended with none.
    pub lost: u64,
    /// The copies of trips that were lost.
    pub late: u64,
    /// The copies that nothing that was sent explains.
    pub stray: u64,
}

impl Sums {
    /// Counts what happened.
    pub fn count(&mut self, step: &Step)
        ensures { self.new ≡ counted step.now self.old }
    {
        match step {
            Step::Ended(kept) => self.count_trip(kept.trip()),
            Step::Taken(_, fate) => self.count_fate(fate),
        }
    }

    /// Counts a trip that ended.
    fn count_trip(&mut self, trip: &Trip)
        ensures { self.new ≡ counted_trip trip.now self.old }
    {
        if trip.back.is_some() {
            self.returned = self.returned.saturating_add(1);
        } else {
            self.lost = self.lost.saturating_add(1);
        }
    }

    /// Counts a packet that was taken.
    fn count_fate(&mut self, fate: &Fate)
        ensures { self.new ≡ counted_fate fate.now self.old }
    {
        match fate {
            Fate::Begins => self.sent = self.sent.saturating_add(1),
            Fate::Replaces(kept) => {
                self.sent = self.sent.saturating_add(1);
                self.count_trip(kept.trip());
            }
            Fate::Second(_) | Fate::Back(_) => {}
            Fate::Closes(kept) => self.count_trip(kept.trip()),
            Fate::Late => self.late = self.late.saturating_add(1),
            Fate::Stray => self.stray = self.stray.saturating_add(1),
        }
    }
}
