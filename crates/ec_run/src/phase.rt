//! The phases in which a line is brought up, and the steps of each.

ghost use Rattle.std.specs.Prelude.{◌≡◌, ◌≤◌, ◌<◌, ◌+◌, IfErr, length};
ghost use Rattle.ec_run.specs.Phase.{state_after, steps_from, steps_of, AreDone, Brings};

use crate::step::{Step, try_step};
use crate::wanted::Wanted;
use ec_master::Ports;
use ec_regs::AlState;
use ec_ring::MAX_SLAVES;
use ec_services::MasterFault;

/// A phase in which the slaves of a line are brought up, all of them before the next one begins.
#[derive(Clone, Copy, PartialEq, Eq, Debug)]
pub enum Phase {
    /// Init: errors that stand are acknowledged.
    Init,
    /// The mailboxes, and Pre-Op.
    PreOp,
    /// The startup objects, in Pre-Op.
    Startup,
    /// The areas of process data and the FMMUs, and Safe-Op.
    SafeOp,
    /// Op.
    Op,
}

/// The phases in their order.
pub const PHASES: [Phase; 5] = [
    Phase::Init,
    Phase::PreOp,
    Phase::Startup,
    Phase::SafeOp,
    Phase::Op,
];

/// All steps by which a slave is given its station address by its place and brought up from Init on: the
/// station, and the steps of the phases in their order.
pub const ALL_STEPS: [Step; 37] = [
    Step::Station,
    Step::State(AlState::Init),
    Step::SyncManager(0),
    Step::SyncManager(1),
    Step::State(AlState::PreOp),
    Step::Startup(0),
    Step::Startup(1),
    Step::Startup(2),
    Step::Startup(3),
    Step::Startup(4),
    Step::Startup(5),
    Step::Startup(6),
    Step::Startup(7),
    Step::Startup(8),
    Step::Startup(9),
    Step::Startup(10),
    Step::Startup(11),
    Step::Startup(12),
    Step::Startup(13),
    Step::Startup(14),
    Step::Startup(15),
    Step::SyncManager(2),
    Step::SyncManager(3),
    Step::SyncManager(4),
    Step::SyncManager(5),
    Step::SyncManager(6),
    Step::SyncManager(7),
    Step::Fmmu(0),
    Step::Fmmu(1),
    Step::Fmmu(2),
    Step::Fmmu(3),
    Step::Fmmu(4),
    Step::Fmmu(5),
    Step::Fmmu(6),
    Step::Fmmu(7),
    Step::State(AlState::SafeOp),
    Step::State(AlState::Op),
];

impl Phase {
    /// The steps of the phase, in their order (IEC 61158-6-12, AL state machine: the mailboxes stand before
    /// Pre-Op, the process data before Safe-Op; ETG.2000, InitCmd: objects are written between them).
    pub fn steps(self) -> &'static [Step]
        ensures { result.now ≡ steps_of self }
    {
        match self {
            Phase::Init => &ALL_STEPS[1..2],
            Phase::PreOp => &ALL_STEPS[2..5],
            Phase::Startup => &ALL_STEPS[5..21],
            Phase::SafeOp => &ALL_STEPS[21..36],
            Phase::Op => &ALL_STEPS[36..],
        }
    }

    /// The state in which a slave is after the phase.
    pub fn state(self) -> AlState
        ensures { result ≡ state_after self }
    {
        match self {
            Phase::Init => AlState::Init,
            Phase::PreOp | Phase::Startup => AlState::PreOp,
            Phase::SafeOp => AlState::SafeOp,
            Phase::Op => AlState::Op,
        }
    }
}

/// The steps of a phase and of all that follow it.
pub(crate) fn steps_from(first: Phase) -> &'static [Step]
    ensures { result.now ≡ steps_from first }
{
    match first {
        Phase::Init => &ALL_STEPS[1..],
        Phase::PreOp => &ALL_STEPS[2..],
        Phase::Startup => &ALL_STEPS[5..],
        Phase::SafeOp => &ALL_STEPS[21..],
        Phase::Op => &ALL_STEPS[36..],
    }
}

/// Why a slave could not be brought up.
#[derive(Clone, Copy, PartialEq, Eq, Debug)]
pub struct StepFault {
    /// Its place on the line, the first one's being 0.
    pub place: u16,
    /// Its station address.
    pub station: u16,
    /// The step that failed.
    pub step: Step,
    /// Why.
    pub fault: MasterFault,
}

/// Does steps with one slave, one after the other until one fails.
pub(crate) fn bring_slave<P: Ports>(
    ports: &mut P,
    place: u16,
    wanted: &Wanted,
    steps: &[Step],
) -> Result<(), StepFault>
    ensures done { AreDone P.trips ports.old place wanted.now steps.now result ports.new }
    ensures never_lower { P.failed ports.old ≤ P.failed ports.new }
{
    for step in steps {
        match try_step(ports, place, wanted, *step) {
            Ok(()) => {}
            Err(fault) => {
                return Err(StepFault {
                    place,
                    station: wanted.station,
                    step: *step,
                    fault,
                });
            }
        }
    }
    Ok(())
}

/// Does steps with each of these slaves, one slave after the other until a step fails. The first of them
/// stands at this place of the line.
pub fn bring<P: Ports>(
    ports: &mut P,
    first: u16,
    line: &[Wanted],
    steps: &[Step],
) -> Result<(), StepFault>
    requires { first + length line.now ≤ 65535 }
    ensures brings { Brings P.trips ports.old first line.now steps.now result ports.new }
    ensures never_lower { P.failed ports.old ≤ P.failed ports.new }
{
    let mut place = first;
    for wanted in line {
        bring_slave(ports, place, wanted, steps)?;
        place += 1;
    }
    Ok(())
}

/// Brings the slaves of a line through a phase, at most 256 of them: each of its steps (`Phase::steps`) with
/// each slave, slave after slave until a step fails. A step that no slave answers is done again, 19 times at
/// most.
pub fn bring_line<P: Ports>(ports: &mut P, line: &[Wanted], phase: Phase) -> Result<(), StepFault>
    requires { length line.now ≤ MAX_SLAVES }
    ensures brings { Brings P.trips ports.old 0 line.now (steps_of phase) result ports.new }
    ensures never_lower { P.failed ports.old ≤ P.failed ports.new }
{
    bring(ports, 0, line, phase.steps())
}
