//! When copies went by.

ghost use Rattle.std.specs.Prelude.{◌≡◌, ◌-◌, ◌/◌, ◌^◌, min};
ghost use Rattle.std.specs.Duration.{as_nanos};

use std::rt::Clock;
use std::time::{Duration, SystemTime, UNIX_EPOCH};

/// What tells the moment of each copy, in microseconds.
pub trait Moments {
    /// The moment of the next copy.
    fn next(&mut self) -> u64;
}

/// A count, one more for each copy.
#[derive(Drop, Debug)]
pub struct Counter {
    next: u64,
}

impl Counter {
    /// The first copy comes at 0.
    pub fn new() -> Counter {
        Counter { next: 0 }
    }
}

impl Moments for Counter {
    fn next(&mut self) -> u64 {
        let now = self.next;
        self.next = now.saturating_add(1);
        now
    }
}

/// The clock of the system, in microseconds since the epoch; where it cannot be had, a count.
#[derive(Drop)]
pub struct WallClock<'a, R> {
    clock: &'a R,
    last: u64,
}

impl<'a, R: Clock> WallClock<'a, R> {
    /// The moments by this clock.
    pub fn new(clock: &'a R) -> WallClock<'a, R> {
        WallClock { clock, last: 0 }
    }
}

impl<R: Clock> Moments for WallClock<'_, R> {
    fn next(&mut self) -> u64 {
        self.last = match now(self.clock) {
            Some(now) => now,
            None => self.last.saturating_add(1),
        };
        self.last
    }
}

/// The microseconds since the epoch, if the clock tells them.
fn now<R: Clock>(clock: &R) -> Option<u64> {
    let Ok(now) = SystemTime::now(clock) else {
        return None;
    };
    match now.duration_since(UNIX_EPOCH) {
        Ok(since) => Some(micros_of(since)),
        Err(_) => None,
    }
}

/// A time in microseconds, at most the greatest number.
fn micros_of(time: Duration) -> u64
    ensures { result ≡ min (as_nanos time / 1000) (2 ^ 64 - 1) }
{
    u64::try_from(time.as_micros()).unwrap_or(u64::MAX)
}
