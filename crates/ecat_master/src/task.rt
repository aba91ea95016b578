//! The task that the cycles of a running master serve.

ghost use Rattle.std.specs.Prelude.{◌≡◌, ◌-◌, ℕ, Bool, List, false, []};
ghost use Rattle.std.specs.Option.{option_map, unwrap_or};
ghost use Rattle.ec_run.specs.Tally.{came_at};
ghost use Rattle.ecat_master.specs.Task.{TakesOutputs};

use crate::acyclic::Asked;
use crate::known::Known;
use crate::telling::CycleEnd;
use ec_acyclic::Answer;
use ec_master::{CycleFault, Verdict, Work};
use ec_regs::AlState;
use ec_ring::{HeardPorts, Port};
use ec_run::{Cycles, Watched};
use ec_services::MasterFault;
use ecat_text::Lines;
use std::io::{self, Write};

/// A control task: it gives outputs between two cycles, and is told what each cycle came to. An
/// implementation says what it may give; nothing else is known of it.
pub trait Task {
    /// How it is listened to: the task before, whether it has other outputs than before, and the task behind.
    ghost listens: { Self → Bool → Self → Type 0 };

    /// The outputs that it has.
    ghost held: { Self → List ℕ };

    /// Takes what was said since it was last asked, without waiting, and answers whether the outputs are
    /// others now.
    fn listen(&mut self) -> bool
        ensures { listens self.old result self.new };

    /// The outputs: the bytes of the items that write, one item behind the other.
    fn outputs(&self) -> &[u8]
        ensures { result.now ≡ held self.now };

    /// Is told of a cycle that is over. It does not wait.
    fn report(&mut self, report: &Report<'_>);

    /// What is to be asked of a slave beside the cycles next, if anything is. That is asked behind each cycle
    /// while nothing is under way that it said before; it does not wait. One frame of a service goes out
    /// behind a cycle at the most, by turns with looks at the cable and with what is done with slaves that
    /// have left Op, and none behind a cycle of which no copy came. Where slaves are brought to Op again that
    /// have left it (`Plan::recover`), a slave does not stay in another state for which it is asked.
    fn ask(&mut self) -> Option<Asked> {
        None
    }

    /// Is told what came of what it asked for: the slave's answer, or why there is none. It does not wait.
    /// `NoSlave`: no slave of the line has that station address, the slave has no mailboxes where an object
    /// was asked for, or it has not answered ten times in a row; `NoAnswer`: as many frames as may go out for
    /// a service brought no end of it, or the last cycle was over before that. The others are those of
    /// [`ec_acyclic::Talk::turn`].
    fn told(&mut self, _answer: Result<Answer, MasterFault>) {}

    /// The state in which the slaves are to be left at the end, where it says one and the plan lets it.
    fn leave(&self) -> Option<AlState> {
        None
    }

    /// Writes to the master's output what it was asked for, behind a cycle, of what the master knows then. An
    /// error is one of the output.
    fn answer<W: Write>(
        &mut self,
        _known: &Known<'_, '_, '_>,
        _lines: &mut Lines<'_, W>,
    ) -> io::Result<()> {
        Ok(())
    }

    /// Shows who follows the master, where its progress is told, what the master knows behind a cycle. It
    /// does not wait, and an error is passed over.
    fn show<V: Write>(
        &mut self,
        _known: &Known<'_, '_, '_>,
        _errors: &mut Lines<'_, V>,
    ) -> io::Result<()> {
        Ok(())
    }
}

/// No task: the outputs stay those of the plan.
#[derive(Clone, Copy)]
pub struct NoTask;

impl Task for NoTask {
    ghost listens = { λ before are_others later. are_others ≡ false };

    ghost held = { λ task. [] };

    fn listen(&mut self) -> bool {
        false
    }

    fn outputs(&self) -> &[u8] {
        &[]
    }

    fn report(&mut self, _report: &Report<'_>) {}
}

/// What a cycle came to.
#[derive(Clone, Copy)]
pub struct Report<'a> {
    /// Its number, the first one's being 0.
    pub cycle: u64,
    /// When it was over, in microseconds of the pace.
    pub at: u64,
    /// By how many microseconds it began late; 0 where cycles go back to back.
    pub late: u64,
    /// Its verdict, or why it has none.
    pub ended: Result<Verdict, CycleFault>,
    /// Whether the last good cycle told that all slaves are in Op; true where cycles tell no states.
    pub in_op: bool,
    /// Whether a copy of its frames came at port A.
    pub came_at_a: bool,
    /// Whether a copy of its frames came at port B.
    pub came_at_b: bool,
    /// What the items brought back in the last good cycle, if there was one.
    pub image: Option<&'a Work>,
    /// How many of the items are the scene's; the read of the slaves' states is none of them.
    pub items: usize,
}

/// Takes the outputs that a task has, if they are others now: they are what the items are asked with.
pub(crate) fn take_outputs<D: Task>(task: &mut D, cycles: &mut Cycles)
    ensures { TakesOutputs D.listens D.held cycles.old cycles.new }
{
    if task.listen() {
        cycles.put_outputs(task.outputs());
    }
}

/// What a cycle came to that ended so and began so late: the image is that of the last good cycle.
pub(crate) fn report_of<'a, P: HeardPorts>(
    cycles: &'a Cycles,
    end: CycleEnd,
    late: Option<u64>,
    items: usize,
    ports: &Watched<P>,
) -> Report<'a>
    ensures cycle { result.cycle ≡ cycles.now.counts.cycles - 1 }
    ensures at { result.at ≡ end.at }
    ensures late { result.late ≡ unwrap_or late 0 }
    ensures came_at_a { result.came_at_a ≡ came_at Port.A ports.now.tally }
    ensures came_at_b { result.came_at_b ≡ came_at Port.B ports.now.tally }
    ensures ended { result.ended ≡ end.ended }
    ensures in_op { result.in_op ≡ end.in_op }
    ensures image { option_map (λ work. work.now) result.image ≡ cycles.now.image }
    ensures items { result.items ≡ items }
{
    Report {
        cycle: cycles.counts.cycles.saturating_sub(1),
        at: end.at,
        late: late.unwrap_or(0),
        ended: end.ended,
        in_op: end.in_op,
        came_at_a: ports.has_heard_at(Port::A),
        came_at_b: ports.has_heard_at(Port::B),
        image: cycles.image.as_ref(),
        items,
    }
}
