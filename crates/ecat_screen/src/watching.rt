//! A task that draws the page behind the cycles of a master.

ghost use Rattle.std.specs.Prelude.{◌≡◌};

use crate::page::{Pace, put_page};
use crate::recent::Shared;
use ec_regs::AlState;
use ec_services::MasterFault;
use ecat_master::{Answer, Asked, Known, Report, Task};
use ecat_text::Lines;
use std::io::{self, Write};

/// How many microseconds lie between two pages at the least.
const EVERY: u64 = 250_000;

/// What was shown by the page that was drawn last.
#[derive(Clone, Copy)]
struct Drawn {
    /// When its cycle was over, in microseconds.
    at: u64,
    /// How many cycles there had been.
    cycles: u64,
}

/// A task over another one, which draws a page of what the master knows, where a cell has the last lines for
/// it.
#[derive(Drop)]
pub struct Watching<'c, D> {
    /// The task that it is over.
    pub task: D,
    recent: &'c Shared,
    /// When the last cycle was over, in microseconds.
    now: u64,
    drawn: Option<Drawn>,
}

impl<'c, D: Task> Watching<'c, D> {
    /// This task, with a page where the cell has lines.
    pub fn new(task: D, recent: &'c Shared) -> Watching<'c, D> {
        Watching {
            task,
            recent,
            now: 0,
            drawn: None,
        }
    }

    /// How fast cycles were made since the last page, where another one is due.
    fn due(&self, cycles: u64) -> Option<Pace> {
        let Some(drawn) = self.drawn else {
            return Some(Pace {
                at: self.now,
                rate: 0,
            });
        };
        let passed = self.now.saturating_sub(drawn.at);
        if passed < EVERY {
            return None;
        }
        let made = cycles.saturating_sub(drawn.cycles);
        Some(Pace {
            at: self.now,
            rate: made.saturating_mul(1_000_000) / passed.max(1),
        })
    }
}

impl<D: Task> Task for Watching<'_, D> {
    ghost listens = { λ before are_others later. D.listens before.task are_others later.task };

    ghost held = { λ watching. D.held watching.task };

    fn listen(&mut self) -> bool {
        self.task.listen()
    }

    fn outputs(&self) -> &[u8] {
        self.task.outputs()
    }

    fn report(&mut self, report: &Report<'_>) {
        self.now = report.at;
        self.task.report(report);
    }

    fn ask(&mut self) -> Option<Asked> {
        self.task.ask()
    }

    fn told(&mut self, answer: Result<Answer, MasterFault>) {
        self.task.told(answer);
    }

    fn leave(&self) -> Option<AlState> {
        self.task.leave()
    }

    fn answer<W: Write>(
        &mut self,
        known: &Known<'_, '_, '_>,
        lines: &mut Lines<'_, W>,
    ) -> io::Result<()> {
        self.task.answer(known, lines)
    }

    fn show<V: Write>(
        &mut self,
        known: &Known<'_, '_, '_>,
        errors: &mut Lines<'_, V>,
    ) -> io::Result<()> {
        let cycles = known.counts().cycles;
        let Some(pace) = self.due(cycles) else {
            return Ok(());
        };
        let is_first = self.drawn.is_none();
        self.drawn = Some(Drawn {
            at: self.now,
            cycles,
        });
        let Some(recent) = self.recent.take() else {
            return Ok(());
        };
        let drawn = put_page(known, pace, is_first, &recent, errors);
        self.recent.set(Some(recent));
        drawn
    }
}
