//! What time it is.

ghost use Rattle.std.specs.Prelude.{◌≡◌, ◌^◌, ◌-◌, min};
ghost use Rattle.std.specs.Duration.{as_nanos};

use std::io;
use std::rt::Clock;
use std::time::{Duration, Instant, SystemTime, UNIX_EPOCH};

/// The time in UTC, by a clock that is asked for it once. From there on as much is added as has passed: it
/// goes on evenly though the clock may be set meanwhile.
#[derive(Drop)]
pub struct Utc<'a, R: Clock> {
    clock: &'a R,
    began: Instant,
    /// What time it was then, in nanoseconds since 1970.
    since: u64,
}

impl<'a, R: Clock> Utc<'a, R> {
    /// The time that this clock says now, and what passes from now on.
    pub fn begin(clock: &'a R) -> io::Result<Utc<'a, R>> {
        let since = nanoseconds_of(SystemTime::now(clock)?);
        Ok(Utc {
            clock,
            began: Instant::now(clock)?,
            since,
        })
    }

    /// What time it is, in nanoseconds since 1970; where the clock fails, what time it was at first.
    pub fn now(&self) -> u64 {
        match self.began.elapsed(self.clock) {
            Ok(passed) => self.since.saturating_add(nanos_of(passed)),
            Err(_) => self.since,
        }
    }
}

/// A time in nanoseconds since 1970; 0 where it lies before.
fn nanoseconds_of(time: SystemTime) -> u64 {
    match time.duration_since(UNIX_EPOCH) {
        Ok(since) => nanos_of(since),
        Err(_) => 0,
    }
}

/// A duration in nanoseconds, at most the greatest number.
fn nanos_of(time: Duration) -> u64
    ensures { result ≡ min (as_nanos time) (2 ^ 64 - 1) }
{
    u64::try_from(time.as_nanos()).unwrap_or(u64::MAX)
}
