//! When the next cycle of a master is due.

ghost use Rattle.std.specs.Prelude.{◌≡◌, ◌-◌, ◌⊎◌, Some, true, false};
ghost use Rattle.ecat_pace.specs.declared.input.Ending.{Ending};
ghost use Rattle.ecat_pace.specs.Beat.{due_behind, missed_by, spared};

use crate::input::Ending;
use ecat_master::Pace;
use std::io::{self, Read};
use std::os::fd::AsRawFd;
use std::rt::Clock;
use std::thread;
use std::time::{Duration, Instant};

/// How often a clock is looked at in a microsecond, at the most: a look takes some 25 nanoseconds.
const LOOKS: u64 = 100;

/// Which part of the time between two cycles a sparing beat leaves.
const SPARED: u64 = 5;

/// The beat of a master's cycles, over a clock: the first one begins at once, and each other one is due so
/// long after the one before was, or at once. A cycle whose time has passed when the next one is due is left
/// out and never made up for. A clock that fails stands still.
#[derive(Drop)]
pub struct Beat<'a, R: Clock, I: Read + AsRawFd + Drop> {
    clock: &'a R,
    began: Instant,
    /// How many microseconds lie between two cycles; none where they go back to back.
    every: Option<u64>,
    /// When the next cycle is due, in microseconds; none before the first one.
    due: Option<u64>,
    late: Option<u64>,
    missed: u64,
    left: Option<u32>,
    input: Option<Ending<I>>,
    /// How long before the next cycle is due a cycle ends, in microseconds.
    spare: u64,
    /// Whether it never sleeps.
    busy: bool,
}

impl<'a, R: Clock, I: Read + AsRawFd + Drop> Beat<'a, R, I> {
    /// A beat that begins now: cycles so far apart, or back to back; so many of them, or until the input has
    /// ended, if there is one.
    pub fn new(
        clock: &'a R,
        every: Option<Duration>,
        cycles: Option<u32>,
        input: Option<Ending<I>>,
    ) -> io::Result<Beat<'a, R, I>> {
        Ok(Beat {
            clock,
            began: Instant::now(clock)?,
            every: match every {
                Some(every) => Some(micros_of(every)),
                None => None,
            },
            due: None,
            late: None,
            missed: 0,
            left: cycles,
            input,
            spare: 0,
            busy: false,
        })
    }

    /// A beat that looks at the clock without sleeping until a cycle is due: a processor does nothing else.
    pub fn busily(self) -> Beat<'a, R, I>
        ensures left { result.left ≡ self.entry.left }
    {
        let mut beat = self;
        beat.busy = true;
        beat
    }

    /// A beat whose cycles end a fifth of the time before the next one is due.
    pub fn sparing(self) -> Beat<'a, R, I>
        ensures left { result.left ≡ self.entry.left }
        ensures spare { result.spare ≡ spared self.entry.every }
    {
        let mut beat = self;
        beat.spare = match beat.every {
            Some(every) => every / SPARED,
            None => 0,
        };
        beat
    }

    /// Lets the time pass until a cycle is due.
    fn rest_until(&mut self, due: u64) {
        let Some(rest) = due.checked_sub(self.passed()) else {
            return;
        };
        if !self.busy {
            thread::sleep(self.clock, Duration::from_micros(rest));
            return;
        }
        for _look in 0..rest.saturating_mul(LOOKS) {
            if self.passed() >= due {
                break;
            }
        }
    }

    /// How long it has gone on, in microseconds.
    fn passed(&self) -> u64 {
        match self.began.elapsed(self.clock) {
            Ok(passed) => micros_of(passed),
            Err(_) => self.due.unwrap_or(0),
        }
    }

    /// Counts a cycle, if there is to be one more.
    fn count(&mut self) -> bool
        ensures none { self.old.left ≡ Some 0 → result ≡ false }
        ensures last { result ≡ false → self.new.left ≡ Some 0 }
    {
        match self.left {
            Some(0) => false,
            Some(left) => {
                self.left = Some(left - 1);
                true
            }
            None => true,
        }
    }

    /// Waits until the next cycle is due; the first one is at once.
    fn wait(&mut self) {
        let Some(every) = self.every else {
            return;
        };
        let Some(due) = self.due else {
            self.due = Some(self.passed().saturating_add(every));
            return;
        };
        self.rest_until(due);
        let late = self.passed().saturating_sub(due);
        self.late = Some(late);
        self.missed = missed_by(late, every);
        self.due = Some(due_behind(due, every, self.missed));
    }
}

/// How many cycles are left out where one begins so late that are so far apart.
fn missed_by(late: u64, every: u64) -> u64
    ensures { result ≡ missed_by late every }
{
    if every == 0 { 0 } else { late / every }
}

/// When the next cycle is due behind one that was due there, where so many were left out before it.
fn due_behind(due: u64, every: u64, missed: u64) -> u64
    ensures { result ≡ due_behind due every missed }
{
    due.saturating_add(every.saturating_mul(missed.saturating_add(1)))
}

impl<'a, R: Clock, I: Read + AsRawFd + Drop> Pace for Beat<'a, R, I> {
    ghost over = { λ beat. (beat.left ≡ Some 0)
        ⊎ ((input : Ending I) × (beat.input ≡ Some input) × (input.ended ≡ true)) };

    fn next(&mut self) -> bool {
        if !self.count() {
            return false;
        }
        self.wait();
        match &mut self.input {
            Some(input) => !input.has_ended(),
            None => true,
        }
    }

    fn late(&mut self) -> Option<u64> {
        self.late
    }

    fn missed(&mut self) -> u64 {
        self.missed
    }

    fn left(&mut self) -> Option<u64> {
        match (self.every, self.due) {
            (Some(_), Some(due)) => Some(due.saturating_sub(self.passed())),
            _ => None,
        }
    }

    fn spare(&mut self) -> u64 {
        self.spare
    }

    fn now(&mut self) -> u64 {
        self.passed()
    }
}

/// A time in whole microseconds.
fn micros_of(time: Duration) -> u64 {
    u64::try_from(time.as_micros()).unwrap_or(u64::MAX)
}
