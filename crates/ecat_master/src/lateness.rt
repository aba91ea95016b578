//! By how much cycles begin late, and how many are left out.

use crate::spread::Spread;
use crate::telling::put_cycle;
use crate::words::put_seconds;
use ecat_text::Lines;
use std::io::{self, Write};

/// How many microseconds lie at least between two lines on cycles that were left out.
const SECOND: u64 = 1_000_000;

/// The cycles that were left out and are not told yet.
#[derive(Clone, Copy)]
struct Untold {
    /// How many there are.
    missed: u64,
    /// Before how many of the cycles that were made.
    times: u64,
    /// The first of these.
    first: u64,
    /// By how many microseconds one of these began late at the most.
    greatest: u64,
}

impl Untold {
    /// None.
    fn none() -> Untold {
        Untold {
            missed: 0,
            times: 0,
            first: 0,
            greatest: 0,
        }
    }

    /// With so many left out before a cycle that began so late.
    fn with(self, cycle: u64, late: u64, missed: u64) -> Untold {
        if missed == 0 {
            return self;
        }
        Untold {
            missed: self.missed.saturating_add(missed),
            times: self.times.saturating_add(1),
            first: if self.times == 0 { cycle } else { self.first },
            greatest: self.greatest.max(late),
        }
    }

    /// Puts how many there are, behind the number of the cycle before which the last ones were left out or
    /// that is told of them later.
    fn put<W: Write>(self, cycle: u64, lines: &mut Lines<'_, W>) -> io::Result<()> {
        let missed = self.missed;
        let is_one = self.times == 1 && self.first == cycle;
        lines.text(if is_one { "began " } else { "began up to " })?;
        put_seconds(self.greatest, lines)?;
        lines.text(" late")?;
        if !is_one {
            let first = self.first;
            lines.text(format_args!(" since cycle {first}"))?;
        }
        let cycles = if missed == 1 { "cycle" } else { "cycles" };
        lines.text(format_args!(", {missed} {cycles} left out"))
    }
}

/// By how much cycles began late that are to begin at a time, and how many were left out since their time had
/// passed.
#[derive(Drop)]
pub(crate) struct Lateness {
    spread: Spread,
    /// How many were left out.
    missed: u64,
    untold: Untold,
    /// When that was last told, if it was.
    told: Option<u64>,
}

impl Lateness {
    /// Of no cycle.
    pub(crate) fn none() -> Lateness {
        Lateness {
            spread: Spread::none(),
            missed: 0,
            untold: Untold::none(),
            told: None,
        }
    }

    /// Takes by how many microseconds a cycle began late, where it was to begin at a time, and how many were
    /// left out before it.
    pub(crate) fn take(&mut self, cycle: u64, late: Option<u64>, missed: u64) {
        if let Some(late) = late {
            self.spread.take(late);
            self.missed = self.missed.saturating_add(missed);
            self.untold = self.untold.with(cycle, late, missed);
        }
    }

    /// How many were left out, where cycles are to begin at a time.
    pub(crate) fn missed(&self) -> Option<u64> {
        if self.spread.is_empty() {
            None
        } else {
            Some(self.missed)
        }
    }

    /// Tells that cycles were left out before this one: at once, and then once a second at the most.
    pub(crate) fn tell<W: Write>(
        &mut self,
        cycle: u64,
        now: u64,
        lines: &mut Lines<'_, W>,
    ) -> io::Result<()> {
        let is_due = match self.told {
            Some(told) => now.saturating_sub(told) >= SECOND,
            None => true,
        };
        if self.untold.times == 0 || !is_due {
            return Ok(());
        }
        let untold = self.untold;
        self.untold = Untold::none();
        self.told = Some(now);
        put_cycle(cycle, lines)?;
        untold.put(cycle, lines)?;
        lines.end()
    }

    /// Writes a line of by how much cycles began late, and how many were left out; nothing where none was to
    /// begin at a time.
    pub(crate) fn put<W: Write>(&self, lines: &mut Lines<'_, W>) -> io::Result<()> {
        if !self.spread.put("lateness", lines)? {
            return Ok(());
        }
        let missed = self.missed;
        lines.text(format_args!(", missed {missed}"))?;
        lines.end()
    }
}
