//! The pace of a master that somebody may end.

ghost use Rattle.std.specs.Prelude.{◌≡◌, ◌⊎◌, true};

use ecat_master::Pace;
use std::cell::Cell;

/// A pace that has no other cycle once a cell says so, whatever the pace below has.
#[derive(Drop)]
pub struct Stopping<'a, T> {
    pace: T,
    stops: &'a Cell<bool>,
    has_stopped: bool,
}

impl<'a, T: Pace> Stopping<'a, T> {
    /// This pace, until the cell says that it stops.
    pub fn new(pace: T, stops: &'a Cell<bool>) -> Stopping<'a, T> {
        Stopping {
            pace,
            stops,
            has_stopped: false,
        }
    }
}

impl<T: Pace> Pace for Stopping<'_, T> {
    ghost over = { λ stopping. T.over stopping.pace ⊎ (stopping.has_stopped ≡ true) };

    fn next(&mut self) -> bool {
        self.has_stopped = self.stops.get();
        !self.has_stopped && self.pace.next()
    }

    fn late(&mut self) -> Option<u64> {
        self.pace.late()
    }

    fn missed(&mut self) -> u64 {
        self.pace.missed()
    }

    fn left(&mut self) -> Option<u64> {
        self.pace.left()
    }

    fn spare(&mut self) -> u64 {
        self.pace.spare()
    }

    fn end(&mut self) {
        self.pace.end();
    }

    fn now(&mut self) -> u64 {
        self.pace.now()
    }
}
