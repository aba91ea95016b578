//! For how long the trips of a cycle may wait.

ghost use Rattle.std.specs.Prelude.{◌≡◌, None};
ghost use Rattle.ecat_master.specs.Allowance.{allowance_behind, time_left};

/// Before the first good cycle this part of the time until the next one is due is left at the least.
const SPARED: u64 = 5;

/// How long cycles took, in microseconds: so much is left of the time until the next one is due.
#[derive(Clone, Copy)]
pub(crate) struct Allowance {
    /// What a good cycle took at the least, if there was one.
    pub(crate) least_good: Option<u64>,
    /// What the last cycle took before there was a good one.
    pub(crate) tried: u64,
}

impl Allowance {
    /// No cycle was made yet.
    pub(crate) fn new() -> Allowance
        ensures { result ≡ record { least_good = None; tried = 0 } }
    {
        Allowance {
            least_good: None,
            tried: 0,
        }
    }

    /// Behind a cycle that took so long, good or not.
    pub(crate) fn behind(self, took: u64, is_good: bool) -> Allowance
        ensures { result ≡ allowance_behind took is_good self }
    {
        match self.least_good {
            Some(least) if is_good => Allowance {
                least_good: Some(least.min(took)),
                tried: self.tried,
            },
            Some(_) => self,
            None if is_good => Allowance {
                least_good: Some(took),
                tried: self.tried,
            },
            None => Allowance {
                least_good: None,
                tried: took,
            },
        }
    }

    /// For how long the trips of a cycle may wait that begins so long before the next one is due: what a good
    /// cycle took at the least is left for that, a fifth before there was one, and `spare` in any case. It is
    /// no less than twice what such a cycle took, or the last one before there was a good one, so that cycles
    /// that take longer than lies between them are late and not cut off.
    pub(crate) fn time_left(self, left: u64, spare: u64) -> u64
        ensures { result ≡ time_left self left spare }
    {
        let (taken, kept) = match self.least_good {
            Some(least) => (least, least),
            None => (self.tried, left / SPARED),
        };
        left.saturating_sub(kept.max(spare))
            .max(taken.saturating_mul(2))
    }
}
