//! Copies of earlier cycles that came late, and for which cycles outputs are unsure by them; beside them the
//! frames of others that came.

use crate::strangers::Strangers;
use crate::telling::put_cycle;
use crate::words::put_seconds;
use ec_ring::LateCopies;
use ecat_text::Lines;
use std::io::{self, Write};

/// How many cycles are remembered by their trips.
const REMEMBERED: usize = 256;

/// The trips of a cycle that was made, as its ports count them, and its time.
#[derive(Clone, Copy)]
pub(crate) struct CycleTrips {
    /// How many trips were made before its first one.
    pub(crate) first: u64,
    /// How many were made once it was over.
    pub(crate) behind: u64,
    /// The microseconds at which it began.
    pub(crate) began: u64,
}

/// That a copy of an earlier cycle came in this one: slaves may have had its outputs until this one.
#[derive(Clone, Copy, PartialEq, Eq, Debug)]
pub(crate) struct Unsure {
    /// The cycle of which it is; where it is of one that is not remembered any more, the oldest that is.
    of: u64,
    /// Whether it is of a cycle before that one.
    is_before: bool,
    /// How many microseconds before the end of this cycle that cycle began.
    ago: u64,
}

impl Unsure {
    /// Puts for which cycles outputs are unsure, up to this one.
    pub(crate) fn put<W: Write>(self, cycle: u64, lines: &mut Lines<'_, W>) -> io::Result<()> {
        lines.text(" unsure ")?;
        if !self.is_before {
            let first = self.of.saturating_add(1);
            lines.text(format_args!("{first}"))?;
        }
        lines.text(format_args!("..{cycle}"))
    }

    /// Writes that the copy came.
    fn tell<W: Write>(self, cycle: u64, lines: &mut Lines<'_, W>) -> io::Result<()> {
        let of = self.of;
        put_cycle(cycle, lines)?;
        if self.is_before {
            lines.text(format_args!("a copy of a cycle before {of} came more than "))?;
        } else {
            lines.text(format_args!("a copy of cycle {of} came "))?;
        }
        put_seconds(self.ago, lines)?;
        lines.text(format_args!(" late: slaves may have had its outputs until cycle {cycle}"))?;
        lines.end()
    }
}

/// The trips of the last cycles, and how many copies came late.
#[derive(Clone, Copy)]
pub(crate) struct LateCycles {
    /// The trips of the last cycles, each at the place of its number modulo their count.
    cycles: [CycleTrips; REMEMBERED],
    /// How many trips were made before the first cycle.
    start: u64,
    /// How many cycles were made.
    made: u64,
    /// How many copies of earlier trips came late.
    copies: u64,
    /// For which of the last cycles outputs are unsure.
    unsure_at: [bool; REMEMBERED],
    /// For how many cycles they are, or were when these were still remembered.
    unsure: u64,
    /// Whether one was told.
    is_told: bool,
    /// The frames of others that came.
    strangers: Strangers,
}

impl LateCycles {
    /// Of no cycle.
    pub(crate) fn none() -> LateCycles {
        let none = CycleTrips {
            first: 0,
            behind: 0,
            began: 0,
        };
        LateCycles {
            cycles: [none; REMEMBERED],
            start: 0,
            made: 0,
            copies: 0,
            unsure_at: [false; REMEMBERED],
            unsure: 0,
            is_told: false,
            strangers: Strangers::none(),
        }
    }

    /// Takes a cycle that was made, and which copies came late up to its end; and says for which cycles
    /// outputs are unsure by them, if they are for any.
    pub(crate) fn take(&mut self, trips: CycleTrips, late: LateCopies, now: u64) -> Option<Unsure> {
        let unsure = match late.oldest {
            Some(trip) => self.unsure_by(trip, now),
            None => None,
        };
        if self.made == 0 {
            self.start = trips.first;
        }
        let place = (self.made % REMEMBERED as u64) as usize;
        self.cycles[place] = trips;
        self.unsure_at[place] = false;
        self.made = self.made.saturating_add(1);
        self.copies = self.copies.saturating_add(late.count);
        self.strangers.take(late.strangers);
        if let Some(unsure) = unsure {
            self.count(unsure);
        }
        unsure
    }

    /// For which cycles outputs are unsure by a copy of an earlier trip: for none if it is none of a cycle's.
    fn unsure_by(&self, trip: u64, now: u64) -> Option<Unsure> {
        let remembered = self.made.min(REMEMBERED as u64);
        let mut of = self.made;
        for _back in 0..remembered {
            of = of.saturating_sub(1);
            let trips = self.cycles[(of % REMEMBERED as u64) as usize];
            if trips.behind <= trip {
                return None;
            }
            if trips.first <= trip {
                let ago = now.saturating_sub(trips.began);
                return Some(Unsure {
                    of,
                    is_before: false,
                    ago,
                });
            }
        }
        if of == 0 || trip < self.start {
            return None;
        }
        let trips = self.cycles[(of % REMEMBERED as u64) as usize];
        Some(Unsure {
            of,
            is_before: true,
            ago: now.saturating_sub(trips.began),
        })
    }

    /// Counts the cycles for which outputs are unsure, each once, as far as they are remembered.
    fn count(&mut self, unsure: Unsure) {
        for cycle in unsure.of.saturating_add(1)..self.made {
            let place = (cycle % REMEMBERED as u64) as usize;
            if !self.unsure_at[place] {
                self.unsure_at[place] = true;
                self.unsure = self.unsure.saturating_add(1);
            }
        }
    }

    /// Tells the first copy of an earlier cycle that came late, and that another master speaks.
    pub(crate) fn tell<W: Write>(
        &mut self,
        cycle: u64,
        unsure: Option<Unsure>,
        lines: &mut Lines<'_, W>,
    ) -> io::Result<()> {
        self.strangers.tell(cycle, lines)?;
        match unsure {
            Some(unsure) if !self.is_told => {
                self.is_told = true;
                unsure.tell(cycle, lines)
            }
            _ => Ok(()),
        }
    }

    /// Writes how many frames of others came, where another master was told, how many copies came late, and
    /// for how many cycles outputs are unsure; nothing where none came.
    pub(crate) fn put<W: Write>(&self, lines: &mut Lines<'_, W>) -> io::Result<()> {
        self.strangers.put(lines)?;
        if self.copies == 0 {
            return Ok(());
        }
        let (copies, unsure) = (self.copies, self.unsure);
        lines.text(format_args!("late copies {copies}, unsure cycles {unsure}"))?;
        lines.end()
    }
}
