//! A line that is brought up by turns.

ghost use Rattle.std.specs.Prelude.{◌≡◌, ◌≤◌, IfSome};
ghost use Rattle.ec_services.specs.Mailbox.{IsPeer};
ghost use Rattle.ec_services.specs.declared.surely.Progress.{Progress as ProgressState};
ghost use Rattle.ec_turns.specs.Start.{IsCountTurn, IsStartTurn, HasPeer, StillPeer, at_stage, behind, behind_slave};
ghost use Rattle.ec_turns.specs.Start.{behind_stage, counted, counted_as, named, recovery_of, with_slave};

use crate::plan::{Plan, Stage, stage_after};
use ec_master::Ports;
use ec_run::{
    MOST_READS, Outcome, Recovery, Seen, StepFault, StepProgress, Turn, Wanted, count_slaves,
};
use ec_services::MasterFault;

/// How often the slaves are counted again, where they were not as many as they are to be.
const MORE_COUNTS: u32 = 9;

/// How far a start is, turn by turn. In a turn one frame goes out.
#[derive(Clone, Copy)]
pub struct Start {
    /// The stage that is under way.
    pub stage: Stage,
    /// The place of the slave with which it is, the first one's being 0.
    pub place: u16,
    /// How many steps of the stage are left with that slave.
    pub left: usize,
    /// How far the first of them is; of a count how often it was made.
    pub first: StepProgress,
}

/// Why a line could not be brought up.
#[derive(Clone, Copy, PartialEq, Eq, Debug)]
pub enum StartFault {
    /// The slaves could not be counted.
    Ask(MasterFault),
    /// So many slaves were counted, each of ten times, and not as many as there are to be.
    Count(u16),
    /// A step with a slave failed.
    Step(StepFault),
}

/// How far a start is behind a turn.
#[derive(Clone, Copy)]
pub enum StartTurn {
    /// There is another turn.
    Goes(Start),
    /// It was the last one: the last stage is done with every slave, or why it could not be.
    Ended(Result<(), StartFault>),
}

/// Nothing of a step is done.
const NONE_DONE: StepProgress = StepProgress {
    asked: 0,
    unanswered: 0,
    written: None,
};

impl Start {
    /// A start that has made no trip: the slaves are counted first.
    pub fn begun(plan: Plan) -> Start
        ensures is { result ≡ at_stage plan Stage.Count }
        ensures peer { HasPeer result }
    {
        Start::at(plan, Stage::Count)
    }

    /// A start that begins with a stage, say where all slaves are in Pre-Op.
    pub fn at(plan: Plan, stage: Stage) -> Start
        ensures is { result ≡ at_stage plan stage }
        ensures peer { HasPeer result }
    {
        Start::with_slave(plan, stage, plan.first(stage))
    }

    /// A stage that begins with the slave at a place.
    fn with_slave(plan: Plan, stage: Stage, place: u16) -> Start
        ensures is { result ≡ with_slave plan stage place }
        ensures peer { HasPeer result }
    {
        Start {
            stage,
            place,
            left: plan.steps(stage).len(),
            first: NONE_DONE,
        }
    }

    /// Takes the next turn, with the slave at the start's place, which is to be told this: one frame goes
    /// out, a question of the first step that is due, or the count of all slaves. It takes no memory.
    ///
    /// A question that came back with the working counter 0 is asked again, twenty times at the most, and AL
    /// status is read a thousand times until a slave is in a state that it was asked for; then, or where an
    /// answer is none to what was asked, the start has ended, and names the slave and the step.
    pub fn turn<P: Ports>(self, ports: &mut P, plan: Plan, wanted: &Wanted) -> StartTurn
        requires { HasPeer self }
        ensures turn { IsStartTurn P.trips ports.old plan wanted.now self result ports.new }
        ensures still_peer { StillPeer result }
        ensures never_lower { P.failed ports.old ≤ P.failed ports.new }
    {
        match self.stage {
            Stage::Count => self.count(ports, plan),
            _ => {
                let turn = self.recovery(plan).turn(ports, wanted);
                self.behind(plan, turn)
            }
        }
    }

    /// What is done with the slave at the start's place.
    fn recovery(self, plan: Plan) -> Recovery
        requires { HasPeer self }
        ensures { result ≡ recovery_of plan self }
    {
        let steps = plan.steps(self.stage);
        let from = steps.len().saturating_sub(self.left);
        let place = self.place.saturating_sub(plan.first(self.stage));
        Recovery::resumed(place, Seen::Unheard, &steps[from..], self.first, MOST_READS)
    }

    /// Counts the slaves once.
    fn count<P: Ports>(self, ports: &mut P, plan: Plan) -> StartTurn
        requires { HasPeer self }
        ensures turn { IsCountTurn P.trips ports.old plan self result ports.new }
        ensures still_peer { StillPeer result }
        ensures never_lower { P.failed ports.old ≤ P.failed ports.new }
    {
        match count_slaves(ports) {
            Ok(found) => self.counted(plan, found),
            Err(fault) => StartTurn::Ended(Err(StartFault::Ask(fault))),
        }
    }

    /// How far it is where so many slaves were counted.
    fn counted(self, plan: Plan, found: u16) -> StartTurn
        requires { HasPeer self }
        ensures is { result ≡ counted_as plan self found }
        ensures still_peer { StillPeer result }
    {
        if found == plan.slaves {
            return self.behind_stage(plan);
        }
        if self.first.asked >= MORE_COUNTS {
            return StartTurn::Ended(Err(StartFault::Count(found)));
        }
        let first = StepProgress {
            asked: self.first.asked + 1,
            ..self.first
        };
        StartTurn::Goes(Start { first, ..self })
    }

    /// How far it is behind a turn with its slave.
    fn behind(self, plan: Plan, turn: Turn) -> StartTurn
        ensures is { result ≡ behind plan self turn }
        ensures still_peer { StillPeer result }
    {
        match turn {
            Turn::Goes(recovery) => StartTurn::Goes(Start {
                left: recovery.left(),
                first: recovery.progress(),
                ..self
            }),
            Turn::Ended(Outcome::Failed(fault)) => {
                StartTurn::Ended(Err(StartFault::Step(self.named(fault))))
            }
            Turn::Ended(_) => self.behind_slave(plan),
        }
    }

    /// A fault of a step, by the place of its slave on the line.
    fn named(self, fault: StepFault) -> StepFault
        ensures { result ≡ named self fault }
    {
        StepFault {
            place: self.place,
            ..fault
        }
    }

    /// How far it is where its stage is done with its slave: the next slave follows.
    fn behind_slave(self, plan: Plan) -> StartTurn
        ensures is { result ≡ behind_slave plan self }
        ensures still_peer { StillPeer result }
    {
        let end = plan.end(self.stage);
        if self.place < end && self.place + 1 < end {
            return StartTurn::Goes(Start::with_slave(plan, self.stage, self.place + 1));
        }
        self.behind_stage(plan)
    }

    /// How far it is where its stage is done with all of them: the next stage follows, if it was not the
    /// last.
    fn behind_stage(self, plan: Plan) -> StartTurn
        ensures is { result ≡ behind_stage plan self }
        ensures still_peer { StillPeer result }
    {
        if self.stage.number() >= plan.last.number() {
            return StartTurn::Ended(Ok(()));
        }
        let next = stage_after(self.stage, plan.gap().is_some());
        StartTurn::Goes(Start::at(plan, next))
    }
}
