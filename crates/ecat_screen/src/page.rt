//! What stands on the page.

ghost use Rattle.std.specs.Prelude.{◌≡◌, ◌<◌};

use crate::drawing::{bar_of, letter_of, mark_of};
use crate::recent::Recent;
use ec_regs::AlState;
use ec_run::Seen;
use ecat_master::Known;
use ecat_text::Lines;
use std::fmt::Display;
use std::io::{self, Write};

/// How many rows the page has at the most.
const MOST_ROWS: u32 = 23;

/// How many slaves are drawn in a row.
const IN_A_ROW: usize = 32;

/// How many slaves that are not in Op have a row of their own.
const MOST_NAMED: usize = 4;

/// How many rows tell how long cycles took.
const MOST_BARS: u64 = 6;

/// How wide the widest bar is, in columns.
const BAR: u64 = 40;

/// How fast cycles were made since the page was drawn before.
#[derive(Clone, Copy)]
pub(crate) struct Pace {
    /// When the last cycle was over, in microseconds.
    pub(crate) at: u64,
    /// How many cycles were made a second.
    pub(crate) rate: u64,
}

/// The rows of a page that goes out.
#[derive(Drop)]
struct Page<'p, 'a, V> {
    lines: &'p mut Lines<'a, V>,
    rows: u32,
}

/// Draws the page of a master that knows this, as fast as that, with the last lines that were written.
pub(crate) fn put_page<V: Write>(
    known: &Known<'_, '_, '_>,
    pace: Pace,
    is_first: bool,
    recent: &Recent,
    lines: &mut Lines<'_, V>,
) -> io::Result<()> {
    let mut page = Page { lines, rows: 0 };
    page.begin(is_first)?;
    page.put_counts(known, pace)?;
    page.put_line(known)?;
    page.put_slaves(known)?;
    page.put_recent(recent)?;
    page.put_times(known)?;
    page.end()
}

impl<V: Write> Page<'_, '_, V> {
    /// Has lines not wrap while the page is drawn; where it is the first one, the terminal is cleared.
    fn begin(&mut self, is_first: bool) -> io::Result<()> {
        self.lines.text(if is_first {
            "\x1b[?7l\x1b[2J"
        } else {
            "\x1b[?7l"
        })
    }

    /// Clears what is below the page, and leaves the cursor there; lines wrap again.
    fn end(&mut self) -> io::Result<()> {
        let below = self.rows.saturating_add(1);
        self.lines
            .text(format_args!("\x1b[{below};1H\x1b[J\x1b[?7h"))?;
        self.lines.flush()
    }

    /// Begins a row, where there is room for one more.
    fn begin_row(&mut self) -> io::Result<bool> {
        if self.rows >= MOST_ROWS {
            return Ok(false);
        }
        self.rows = self.rows.saturating_add(1);
        let row = self.rows;
        self.lines.text(format_args!("\x1b[{row};1H"))?;
        Ok(true)
    }

    /// Ends a row: nothing of an earlier page stays behind it.
    fn end_row(&mut self) -> io::Result<()> {
        self.lines.bytes(b"\x1b[K")
    }

    /// Puts a row with this text.
    fn put_row(&mut self, text: impl Display + Drop) -> io::Result<()> {
        if self.begin_row()? {
            self.lines.text(text)?;
            self.end_row()?;
        }
        Ok(())
    }

    /// Puts how many cycles there were, how fast they are made, and where the cable is broken.
    fn put_counts(&mut self, known: &Known<'_, '_, '_>, pace: Pace) -> io::Result<()> {
        if self.begin_row()? {
            known.put_cycles(self.lines)?;
            self.end_row()?;
        }
        let seconds = pace.at / 1_000_000;
        let rate = pace.rate;
        match known.missed() {
            Some(missed) => {
                self.put_row(format_args!("{seconds} s, {rate} a second, missed {missed}"))?;
            }
            None => self.put_row(format_args!("{seconds} s, {rate} a second"))?,
        }
        if self.begin_row()? {
            known.put_break(self.lines)?;
            self.end_row()?;
        }
        Ok(())
    }

    /// Draws the line: a letter for each slave, a mark for each link, and the master's ports at its ends.
    fn put_line(&mut self, known: &Known<'_, '_, '_>) -> io::Result<()> {
        let slaves = known.line().len();
        for from in (0..slaves).step_by(IN_A_ROW) {
            if self.begin_row()? {
                self.put_part(known, from, slaves)?;
                self.end_row()?;
            }
        }
        self.put_row("O Op  S Safe-Op  P Pre-Op  I Init  E error  . no answer  x link down")
    }

    /// Draws the slaves from one on, as many as a row has, each with the link before it.
    fn put_part(
        &mut self,
        known: &Known<'_, '_, '_>,
        from: usize,
        slaves: usize,
    ) -> io::Result<()> {
        self.lines.text(if from == 0 { "A" } else { " " })?;
        let to = slaves.min(from.saturating_add(IN_A_ROW));
        for place in from..to {
            let mark = mark_of(known.link_is_up(place));
            self.lines.bytes(&[mark, letter_of(known.seen_of(place))])?;
        }
        if to == slaves {
            self.lines
                .bytes(&[mark_of(known.link_is_up(slaves)), b'B'])?;
        }
        Ok(())
    }

    /// Puts a row for each slave that is known not to be in Op, for the first ones of them.
    fn put_slaves(&mut self, known: &Known<'_, '_, '_>) -> io::Result<()> {
        let mut named = 0usize;
        for place in 0..known.line().len() {
            if is_in_op(known.seen_of(place)) {
                continue;
            }
            if named == MOST_NAMED {
                return Ok(());
            }
            named = named.saturating_add(1);
            if self.begin_row()? {
                known.put_seen(place, self.lines)?;
                self.end_row()?;
            }
        }
        Ok(())
    }

    /// Puts the last lines that were written.
    fn put_recent(&mut self, recent: &Recent) -> io::Result<()> {
        for line in recent.lines() {
            if self.begin_row()? {
                self.lines.bytes(line.as_slice())?;
                self.end_row()?;
            }
        }
        Ok(())
    }

    /// Puts how long cycles took: how many of them below each time, each of which is twice the one before.
    fn put_times(&mut self, known: &Known<'_, '_, '_>) -> io::Result<()> {
        let Some((least, greatest)) = known.cycle_times() else {
            return Ok(());
        };
        self.put_row(format_args!("cycle time {least} to {greatest} microseconds"))?;
        let all = known.counts().cycles.max(1);
        let (mut bound, mut before) = (first_bound(least), 0u64);
        for _bar in 1..MOST_BARS {
            let below = known.cycles_below(bound);
            self.put_bar(
                format_args!("below {bound:>7}"),
                below.saturating_sub(before),
                all,
            )?;
            if greatest < bound {
                return Ok(());
            }
            before = below;
            bound = bound.saturating_mul(2);
        }
        let from = bound / 2;
        self.put_bar(
            format_args!("from {from:>8}"),
            all.saturating_sub(before),
            all,
        )
    }

    /// Puts a row with a bar: so many of all cycles took as long as that.
    fn put_bar(&mut self, times: impl Display + Drop, count: u64, all: u64) -> io::Result<()>
        requires some { 0 < all }
    {
        if !self.begin_row()? {
            return Ok(());
        }
        self.lines.text(times)?;
        self.lines.text(format_args!(" us {count:>12} "))?;
        for _column in 0..bar_of(count, all, BAR) {
            self.lines.bytes(b"#")?;
        }
        self.end_row()
    }
}

/// Is a slave in Op, or nothing known of it?
fn is_in_op(seen: Option<Seen>) -> bool {
    matches!(seen, None | Some(Seen::In(AlState::Op)))
}

/// The first bound of the times of cycles of which the shortest took so long: 16 microseconds, or 16 doubled
/// some times, above it.
fn first_bound(least: u64) -> u64 {
    let mut bound = 16u64;
    for _doubling in 0..59 {
        if least < bound {
            break;
        }
        bound = bound.saturating_mul(2);
    }
    bound
}
