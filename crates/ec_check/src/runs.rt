//! Runs of numbers: those from one on, as many as there are.

ghost use Rattle.std.specs.Prelude.{◌≡◌, ◌<◌, ◌^◌};
ghost use Rattle.ec_regs.specs.Pairs.{pair_count};
ghost use Rattle.ec_check.specs.Order.{IsLowest};
ghost use Rattle.ec_check.specs.Rules.{MapsLogical, MapsPhysical};
ghost use Rattle.ec_check.specs.Runs.{IsInRun};

use crate::line::Standing;
use ec_regs::Fmmu;

/// The lowest number that is in both of two runs. They begin below 2^62.
pub(crate) fn lowest_shared(from: u64, count: u32, other_from: u64, other_count: u32) -> Option<u64>
    requires first { from < 2 ^ 62 }
    requires second { other_from < 2 ^ 62 }
    ensures { IsLowest (λ n. IsInRun from count n × IsInRun other_from other_count n) result }
{
    let lowest = from.max(other_from);
    let shared = lowest < from + u64::from(count) && lowest < other_from + u64::from(other_count);
    shared.then_some(lowest)
}

/// The lowest logical bit that both FMMUs map.
pub(crate) fn lowest_shared_logical(first: &Standing, second: &Fmmu) -> Option<u64>
    requires { first.now.bits ≡ pair_count first.now.record }
    ensures { IsLowest (λ l. MapsLogical first.now.record l × MapsLogical second.now l) result }
{
    let from = first.record.first_logical();
    let other_from = second.first_logical();
    // Most runs of a line lie apart, which this tells with no look at the second one's length.
    if other_from >= from + u64::from(first.bits) {
        return None;
    }
    lowest_shared(from, first.bits, other_from, second.mapped_bits())
}

/// The lowest physical bit that both FMMUs map.
pub(crate) fn lowest_shared_physical(first: &Fmmu, second: &Fmmu) -> Option<u64>
    ensures { IsLowest (λ p. MapsPhysical first.now p × MapsPhysical second.now p) result }
{
    lowest_shared(
        u64::from(first.first_physical()),
        first.mapped_bits(),
        u64::from(second.first_physical()),
        second.mapped_bits(),
    )
}
