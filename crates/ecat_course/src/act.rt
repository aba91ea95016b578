//! How a master goes through its course.

ghost use Rattle.std.specs.Prelude.{◌≡◌};
ghost use Rattle.ecat_course.specs.Gone.{IsEndedCourse, IsGoodCourse};
ghost use Rattle.ecat_master.specs.Course.{sides_of};
ghost use Rattle.ecat_text.specs.declared.status.TheConstants.{GOOD};

use crate::course::Course;
use ec_ring::HeardPorts;
use ecat_master::{LinePlan, Pace, Plan, Task, Writers, master};
use std::io::Write;

/// Brings up a line over two ports and cycles on it for a task, and answers the exit status. It takes no
/// memory.
pub fn act_master<P, T, D, W, V, L>(
    course: Course,
    ports: P,
    plan: &Plan<'_>,
    pace: &mut T,
    task: &mut D,
    writers: Writers<'_, W, V, L>,
) -> u8
where
    P: HeardPorts + Drop,
    T: Pace,
    D: Task,
    W: Write,
    V: Write,
    L: Write,
    ensures good { result ≡ GOOD
        → IsGoodCourse (sides_of P.trips D.listens D.held T.over) ports course plan.now }
    ensures ended { IsEndedCourse (sides_of P.trips D.listens D.held T.over) ports course plan.now result }
{
    let Course {
        line,
        identities,
        names,
        signals: _,
        work,
        expected,
        states,
    } = course;
    let plan = Plan {
        identities: identities.as_slice(),
        names: names.as_slice(),
        states,
        ..*plan
    };
    let line_plan = LinePlan {
        line: line.as_slice(),
        expected: expected.counters(),
        plan: &plan,
    };
    master(ports, work, &line_plan, pace, task, writers)
}
