//! The time up to which copies are waited for.

ghost use Rattle.std.specs.Prelude.{◌≡◌, ◌≤◌, ℕ};

use std::io;
use std::rt::Clock;
use std::time::Instant;

/// What a master's ports tell the time by: it does not go back. No promise of ports rests on it.
pub trait Timer {
    /// The microseconds since it began, as far as it was asked.
    ghost told: { Self → ℕ };

    /// The microseconds since it began.
    fn now(&mut self) -> u64
        ensures told { result ≡ told self.new }
        ensures on { told self.old ≤ told self.new };
}

/// How often a timer is looked at while a short time passes, at the most.
const MOST_LOOKS: u64 = 2000;

/// Lets a short time pass, up to this one, as far as the timer goes on: to ask the system for it would take
/// longer.
pub(crate) fn pass_until<T: Timer>(timer: &mut T, time: u64) {
    for _look in 0..MOST_LOOKS {
        if time <= timer.now() {
            break;
        }
    }
}

/// The system's clock, from when it is made on. One that fails stands still.
#[derive(Drop)]
pub struct ClockTimer<'a, R: Clock> {
    clock: &'a R,
    began: Instant,
    last: u64,
}

impl<'a, R: Clock> ClockTimer<'a, R> {
    /// A timer that begins now.
    pub fn new(clock: &'a R) -> io::Result<ClockTimer<'a, R>> {
        Ok(ClockTimer {
            clock,
            began: Instant::now(clock)?,
            last: 0,
        })
    }
}

impl<'a, R: Clock> Timer for ClockTimer<'a, R> {
    ghost told = { λ timer. timer.last };

    fn now(&mut self) -> u64 {
        if let Ok(passed) = self.began.elapsed(self.clock) {
            let micros = u64::try_from(passed.as_micros()).unwrap_or(u64::MAX);
            self.last = self.last.max(micros);
        }
        self.last
    }
}
