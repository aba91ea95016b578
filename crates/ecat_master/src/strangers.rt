//! Frames of another master that come while this one cycles.

ghost use Rattle.std.specs.Prelude.{◌≡◌, ◌<◌, ◌+◌, ◌-◌, ◌^◌, min, false, true};

use crate::telling::put_cycle;
use ecat_text::Lines;
use std::io::{self, Write};

/// In how many cycles such frames come before it is told: copies of a master that has ended, or what comes of
/// a greeting, come in fewer.
const SPEAKS: u64 = 3;

/// Behind how many cycles without such a frame another master is told anew.
const QUIET: u64 = 1_000;

/// How many frames of others came, and whether another master speaks.
#[derive(Clone, Copy)]
pub(crate) struct Strangers {
    /// How many came.
    frames: u64,
    /// In how many cycles one came, since it was quiet for long.
    cycles: u64,
    /// For how many cycles none came.
    quiet: u64,
    /// Whether another master is to be told.
    is_due: bool,
    /// Whether one was told.
    is_told: bool,
}

impl Strangers {
    /// None.
    pub(crate) fn none() -> Strangers {
        Strangers {
            frames: 0,
            cycles: 0,
            quiet: 0,
            is_due: false,
            is_told: false,
        }
    }

    /// Takes how many frames of others came up to the end of a cycle.
    pub(crate) fn take(&mut self, count: u64)
        ensures frames { self.new.frames ≡ min (self.old.frames + count) (2 ^ 64 - 1) }
        ensures none { count ≡ 0 → self.new.is_due ≡ self.old.is_due }
        ensures told { self.new.is_told ≡ self.old.is_told }
    {
        self.frames = self.frames.saturating_add(count);
        if count == 0 {
            self.quiet = self.quiet.saturating_add(1);
            if self.quiet >= QUIET {
                self.cycles = 0;
            }
            return;
        }
        self.quiet = 0;
        self.cycles = self.cycles.saturating_add(1);
        if self.cycles == SPEAKS {
            self.is_due = true;
        }
    }

    /// Tells that another master speaks on the line, where that is due.
    pub(crate) fn tell<W: Write>(
        &mut self,
        cycle: u64,
        lines: &mut Lines<'_, W>,
    ) -> io::Result<()> {
        if !self.is_due {
            return Ok(());
        }
        self.is_due = false;
        self.is_told = true;
        put_cycle(cycle, lines)?;
        lines.text("strangers: another master speaks here")?;
        lines.end()
    }

    /// Writes how many frames of others came, where another master was told.
    pub(crate) fn put<W: Write>(&self, lines: &mut Lines<'_, W>) -> io::Result<()> {
        if !self.is_told {
            return Ok(());
        }
        let frames = self.frames;
        lines.text(format_args!("strangers {frames}"))?;
        lines.end()
    }
}
