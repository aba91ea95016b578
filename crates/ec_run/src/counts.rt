//! How many cycles there were, by their ends.

ghost use Rattle.std.specs.Prelude.{◌≡◌, ◌<◌, ◌^◌, ◌-◌};
ghost use Rattle.ec_run.specs.Cycles.{AddUp, counted, no_cycles};

use ec_master::{CycleFault, Verdict};

/// How many cycles there were, by their ends. Each ended in one of the four ways.
#[derive(Clone, Copy, PartialEq, Eq, Debug)]
pub struct Counts {
    /// All cycles.
    pub cycles: u64,
    /// Those whose counters moved as the slaves' shares say.
    pub good: u64,
    /// Those of which an item was counted too seldom.
    pub short: u64,
    /// Those of which an item was counted too often.
    pub over: u64,
    /// Those without a verdict.
    pub fault: u64,
}

impl Counts {
    /// No cycle.
    pub fn none() -> Counts
        ensures value { result ≡ no_cycles }
        ensures adds_up { AddUp result }
    {
        Counts {
            cycles: 0,
            good: 0,
            short: 0,
            over: 0,
            fault: 0,
        }
    }

    /// One cycle more, which ended so.
    pub fn with(self, ended: Result<Verdict, CycleFault>) -> Counts
        requires room { self.cycles < 2 ^ 64 - 1 }
        requires sum { AddUp self }
        ensures value { result ≡ counted ended self }
        ensures adds_up { AddUp result }
    {
        let cycles = self.cycles + 1;
        match ended {
            Ok(Verdict::Good) => Counts {
                cycles,
                good: self.good + 1,
                short: self.short,
                over: self.over,
                fault: self.fault,
            },
            Ok(Verdict::Short(_)) => Counts {
                cycles,
                good: self.good,
                short: self.short + 1,
                over: self.over,
                fault: self.fault,
            },
            Ok(Verdict::Over(_)) => Counts {
                cycles,
                good: self.good,
                short: self.short,
                over: self.over + 1,
                fault: self.fault,
            },
            Err(_) => Counts {
                cycles,
                good: self.good,
                short: self.short,
                over: self.over,
                fault: self.fault + 1,
            },
        }
    }
}
