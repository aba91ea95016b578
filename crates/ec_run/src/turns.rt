//! A slave that is brought to Op again beside cycles: one frame to it behind each cycle.

ghost use Rattle.std.specs.Prelude.{◌≡◌, ◌≤◌, ◌<◌, ◌≢◌, IfSome, List, [], ◌∷◌, None, Some};
ghost use Rattle.ec_run.specs.Recovery.{remedy_of, steps_for};
ghost use Rattle.ec_run.specs.Turns.{IsStateTurn, IsTaken, IsTurn, begun, due, failed_in, is_idle};
ghost use Rattle.ec_run.specs.Turns.{more_turns, turn_of};

use crate::objects::{STARTUP_TRIPS, write_startup_on};
use crate::phase::StepFault;
use crate::recovering::Recovery;
use crate::recovery::{Outcome, Seen, steps_for};
use crate::step::{
    MORE_QUESTIONS, MORE_TRIES, Step, set_fmmu_on, set_manager_on, startup_number, take,
};
use crate::wanted::Wanted;
use ec_master::Ports;
use ec_regs::AlState;
use ec_services::{MasterFault, read_status, write_control};

/// How far a turn has come.
#[derive(Drop)]
pub enum Turn {
    /// There is another turn.
    Goes(Recovery),
    /// It was the last one: the slave was brought to Op, or a step failed.
    Ended(Outcome),
}

/// Has a step nothing to do with a slave that is to be told this? It writes a startup object that it has not.
fn is_idle(step: Step, wanted: &Wanted) -> bool
    ensures { result ≡ is_idle wanted.now step }
{
    match step {
        Step::Startup(number) => wanted.startup_object(startup_number(number)).is_none(),
        _ => false,
    }
}

/// The steps from the first one on that has something to do.
#[tactic(auto, unfolding(crate::specs::Turns::due))]
fn due<'a>(steps: &'a [Step], wanted: &Wanted) -> &'a [Step]
    ensures { result.now ≡ due wanted.now steps.now }
{
    let mut left = steps;
    while let Some((step, rest)) = left.split_first() {
        if !is_idle(*step, wanted) {
            break;
        }
        left = rest;
    }
    left
}

/// Asks for a state in the first turn of that step, and reads AL status in each one behind it. `None` where
/// the slave has not come to it yet.
fn ask_or_read<P: Ports>(
    ports: &mut P,
    station: u16,
    state: AlState,
    asked: u32,
) -> Result<Option<()>, MasterFault>
    ensures asks { IsStateTurn P.trips ports.old station state asked result ports.new }
    ensures never_lower { P.failed ports.old ≤ P.failed ports.new }
{
    if asked == 0 {
        write_control(ports, station, state)?;
        return Ok(None);
    }
    read_status(ports, station, state)
}

/// How many turns a step may take behind its first one, while the slave has not come to it yet.
fn more_turns(reads: u32, step: Step) -> u32
    ensures { result ≡ more_turns reads step }
{
    match step {
        Step::State(_) => reads,
        Step::Startup(_) => STARTUP_TRIPS - 1,
        _ => MORE_QUESTIONS,
    }
}

impl Recovery {
    /// A recovery of the slave at a place of which this was seen, where its place tells it from the others or
    /// does not; `None` where nothing is done with it ([`Seen::remedy`]). For a state that it is asked for AL
    /// status is read so often at the most, once in each turn, and it counts as not reached then.
    pub fn of(place: u16, seen: Seen, tells_places: bool, reads: u32) -> Option<Recovery>
        ensures { result ≡ begun place seen reads (steps_for tells_places (remedy_of seen)) }
    {
        let steps = steps_for(seen.remedy(), tells_places);
        if steps.is_empty() {
            return None;
        }
        Some(Recovery {
            place,
            seen,
            steps,
            asked: 0,
            unanswered: 0,
            written: None,
            reads,
        })
    }

    /// Takes the next turn with the slave, which is to be told this: one frame goes out, a question of the
    /// first step that is due.
    pub fn turn<P: Ports>(self, ports: &mut P, wanted: &Wanted) -> Turn
        ensures turn { IsTurn P.trips ports.old wanted.now self result ports.new }
        ensures never_lower { P.failed ports.old ≤ P.failed ports.new }
    {
        let Some((step, rest)) = due(self.steps, wanted).split_first() else {
            return Turn::Ended(Outcome::Left);
        };
        let mut now = self;
        let told = now.take(ports, wanted, *step);
        now.behind(wanted.station, *step, rest, told)
    }

    /// Asks the next question of a step: a state is asked for, or, once it was, read; a record is written or
    /// read back; a startup object takes one trip more. `None` where the step is not done yet.
    fn take<P: Ports>(
        &mut self,
        ports: &mut P,
        wanted: &Wanted,
        step: Step,
    ) -> Result<Option<()>, MasterFault>
        ensures taken { IsTaken P.trips ports.old wanted.now self.old step result self.new ports.new }
        ensures never_lower { P.failed ports.old ≤ P.failed ports.new }
    {
        match step {
            Step::State(state) => ask_or_read(ports, wanted.station, state, self.asked),
            Step::Startup(number) => {
                write_startup_on(ports, wanted, startup_number(number), &mut self.written)
            }
            Step::SyncManager(number) => set_manager_on(ports, wanted, number, self.asked),
            Step::Fmmu(number) => set_fmmu_on(ports, wanted, number, self.asked),
            _ => match take(ports, self.place, wanted, step) {
                Ok(()) => Ok(Some(())),
                Err(fault) => Err(fault),
            },
        }
    }

    /// How far it is behind a turn that told this.
    fn behind(
        self,
        station: u16,
        step: Step,
        rest: &'static [Step],
        told: Result<Option<()>, MasterFault>,
    ) -> Turn
        ensures { result ≡ turn_of self station step rest.now told }
    {
        match told {
            Ok(Some(())) if rest.is_empty() => Turn::Ended(Outcome::Brought(self.seen)),
            Ok(Some(())) => Turn::Goes(Recovery {
                steps: rest,
                asked: 0,
                unanswered: 0,
                written: None,
                ..self
            }),
            Ok(None) if self.asked < more_turns(self.reads, step) => Turn::Goes(Recovery {
                asked: self.asked + 1,
                ..self
            }),
            Ok(None) => self.failed(station, step, MasterFault::NoAnswer),
            Err(MasterFault::NoSlave) if self.unanswered < MORE_TRIES => Turn::Goes(Recovery {
                unanswered: self.unanswered + 1,
                ..self
            }),
            Err(fault) => self.failed(station, step, fault),
        }
    }

    /// That a step has failed.
    fn failed(self, station: u16, step: Step, fault: MasterFault) -> Turn
        ensures { result ≡ failed_in self station step fault }
    {
        Turn::Ended(Outcome::Failed(StepFault {
            place: self.place,
            station,
            step,
            fault,
        }))
    }
}
