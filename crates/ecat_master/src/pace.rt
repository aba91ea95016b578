//! What goes on between two cycles.

ghost use Rattle.std.specs.Prelude.{◌≡◌, false};

/// What goes on between two cycles: the time, and whether there is to be another one.
pub trait Pace {
    /// That no other cycle is to come: so many were made, say, or the input has ended.
    ghost over: { Self → Type 0 };

    /// Waits until the next cycle is due; `false` where none is to come.
    fn next(&mut self) -> bool
        ensures { result ≡ false → over self.new };

    /// By how many microseconds the last cycle that it had was let begin behind its time; `None` where cycles
    /// begin back to back.
    fn late(&mut self) -> Option<u64>;

    /// How many cycles were left out before the last one that it let begin, since their time had passed.
    fn missed(&mut self) -> u64 {
        0
    }

    /// In how many microseconds from now the next cycle is due; `None` where cycles begin back to back.
    fn left(&mut self) -> Option<u64> {
        None
    }

    /// How many microseconds before the next cycle is due a cycle ends at the latest, as long as cycles take
    /// less than lies between them. What a good one took at the least is left in any case.
    fn spare(&mut self) -> u64 {
        0
    }

    /// Behind the last cycle: no cycle waits any more.
    fn end(&mut self)
        ensures { over self.old → over self.new }
    {}

    /// Microseconds since the pace began, never falling.
    fn now(&mut self) -> u64;
}
