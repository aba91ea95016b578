//! What a control task is told of a cycle.

ghost use Rattle.std.specs.Prelude.{◌≡◌, [], IfNone, IfSome, min, not};
ghost use Rattle.ec_io.specs.Cycle.{IsSpellable};
ghost use Rattle.ecat_task.specs.Told.{end_of};

use ec_io::CycleEnded;
use ec_master::{CycleFault, Verdict};
use ecat_master::Report;

/// How a cycle ended, as a packet says it.
fn end_of(ended: Result<Verdict, CycleFault>) -> CycleEnded
    ensures { result ≡ end_of ended }
{
    match ended {
        Ok(Verdict::Good) => CycleEnded::Good,
        Ok(Verdict::Short(item)) => CycleEnded::Short(item_of(item)),
        Ok(Verdict::Over(item)) => CycleEnded::Over(item_of(item)),
        Err(CycleFault::Port) => CycleEnded::PortFailed,
        Err(CycleFault::Stranger) => CycleEnded::Stranger,
    }
}

/// An item as a packet names it: a cycle has 32 at the most.
fn item_of(item: usize) -> u16
    ensures { result ≡ min item 65535 }
{
    item.min(usize::from(u16::MAX)) as u16
}

/// The packet that reports a cycle: with these inputs, which are of a cycle, or with none.
pub(crate) fn report_of<'a>(
    report: &Report<'_>,
    inputs_of: Option<u64>,
    inputs: &'a [u8],
    stale: bool,
) -> ec_io::Report<'a>
    requires { IsSpellable inputs_of }
    ensures cycle { result.cycle ≡ report.now.cycle }
    ensures at { result.at ≡ report.now.at }
    ensures ended { result.end ≡ end_of report.now.ended }
    ensures in_op { result.in_op ≡ report.now.in_op }
    ensures missing_a { result.missing_a ≡ not report.now.came_at_a }
    ensures missing_b { result.missing_b ≡ not report.now.came_at_b }
    ensures stale { result.stale ≡ stale }
    ensures inputs_of { result.inputs_of ≡ inputs_of }
    ensures inputs { IfSome inputs_of (λ _. result.inputs.now ≡ inputs.now) }
    ensures none { IfNone result.inputs_of (result.inputs.now ≡ []) }
{
    ec_io::Report {
        cycle: report.cycle,
        at: report.at,
        end: end_of(report.ended),
        in_op: report.in_op,
        missing_a: !report.came_at_a,
        missing_b: !report.came_at_b,
        stale,
        late: u32::try_from(report.late).unwrap_or(u32::MAX),
        inputs_of,
        inputs: if inputs_of.is_some() { inputs } else { &[] },
    }
}
