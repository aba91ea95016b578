//! The end of a run: the state in which the slaves are left.

ghost use Rattle.std.specs.Prelude.{◌≡◌, false, true};
ghost use Rattle.ec_run.specs.Travels.{IsWithin};
ghost use Rattle.ec_run.specs.Watched.{PortsTrip};
ghost use Rattle.ecat_master.specs.Ended.{is_well};
ghost use Rattle.ecat_master.specs.Leaving.{IsBrought, IsLeavingRound, IsLeft, IsNotBrought, answers_of};
ghost use Rattle.ecat_master.specs.Leaving.{MayBeLeft, leaving_trips};

use crate::run::Plan;
use crate::task::Task;
use crate::words::state_name;
use ec_regs::AlState;
use ec_ring::HeardPorts;
use ec_run::{Watched, leave};
use ecat_text::Lines;
use std::io::{self, Write};

/// How many rounds of asking all slaves there are, each of which may fail, as long as copies come.
const ROUNDS: usize = 40;

/// What became of the slaves at the end.
#[derive(Clone, Copy, PartialEq, Eq, Debug)]
pub(crate) enum Left {
    /// They were left as they are.
    AsTheyAre,
    /// All of them are in this state.
    All(AlState),
    /// Not all of them came to this state.
    NotAll(AlState),
}

impl Left {
    /// Are the slaves as they were to be left?
    pub(crate) fn is_well(self) -> bool
        ensures { result ≡ is_well self }
    {
        !matches!(self, Left::NotAll(_))
    }
}

/// The state in which the slaves are to be left, if there is one: that of the plan, or another one, where the
/// plan lets the task say it and it does.
pub(crate) fn leave_of<D: Task>(plan: &Plan<'_>, task: &D) -> Option<AlState>
    ensures { MayBeLeft plan.now.leave_by_task plan.now.leave result }
{
    if !plan.leave_by_task {
        return plan.leave;
    }
    match task.leave() {
        Some(state) => Some(state),
        None => plan.leave,
    }
}

/// Brings the slaves of a line to the state in which they are to be left, if there is one.
pub(crate) fn leave_line<P: HeardPorts>(
    ports: &mut Watched<P>,
    state: Option<AlState>,
    slaves: usize,
) -> Left
    ensures left { IsLeft P.trips state slaves ports.old result ports.new }
    ensures trips { IsWithin (PortsTrip P.trips) leaving_trips ports.old.ports ports.new.ports }
{
    match state {
        None => Left::AsTheyAre,
        Some(state) => {
            if bring_all(ports, state, answers_of(slaves)) {
                Left::All(state)
            } else {
                Left::NotAll(state)
            }
        }
    }
}

/// How many answers are waited for: one of each slave, and never more than a working counter can count.
fn answers_of(slaves: usize) -> u16
    ensures { result ≡ answers_of slaves }
{
    if slaves < 65_535 {
        slaves as u16
    } else {
        65_535
    }
}

/// Brings all slaves of a line to a state, and answers whether they are in it.
fn bring_all<P: HeardPorts>(ports: &mut Watched<P>, state: AlState, slaves: u16) -> bool
    ensures brought { result ≡ true → IsBrought P.trips state slaves ports.old ports.new }
    ensures not_brought { result ≡ false → IsNotBrought P.trips state slaves ports.old ports.new }
{
    for round in 0..ROUNDS {
        if bring_once(ports, state, slaves) {
            return true;
        }
        if !ports.has_heard() {
            return false;
        }
    }
    false
}

/// Asks all slaves for a state, until so many answer that they are in it, as often as one round does; and
/// answers whether they did.
fn bring_once<P: HeardPorts>(ports: &mut Watched<P>, state: AlState, slaves: u16) -> bool
    ensures { IsLeavingRound P.trips state slaves ports.old result ports.new }
{
    ports.clear();
    leave(ports, state, slaves).is_ok()
}

/// Writes in which state the slaves were left.
pub(crate) fn put_left<W: Write>(left: Left, lines: &mut Lines<'_, W>) -> io::Result<()> {
    match left {
        Left::AsTheyAre => Ok(()),
        Left::All(state) => {
            let state = state_name(state);
            lines.text(format_args!("left in {state}"))?;
            lines.end()
        }
        Left::NotAll(state) => {
            let state = state_name(state);
            lines.text(format_args!("not all left in {state}"))?;
            lines.end()
        }
    }
}
