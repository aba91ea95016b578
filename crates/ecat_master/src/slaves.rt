//! Which slaves are in Op while cycles run, and what is told of it.

use crate::telling::put_cycle;
use crate::words::{put_code, put_cycles, state_name};
use ec_regs::AlState;
use ec_ring::MAX_SLAVES;
use ec_run::Seen;
use ecat_text::Lines;
use std::io::{self, Write};

/// What good cycles told of the states of all slaves, and what was told of each.
#[derive(Drop)]
pub(crate) struct SlaveStates {
    /// Whether the last good cycle told that all are in Op.
    in_op: bool,
    /// The first cycle that told what the last one did.
    since: u64,
    /// How many good cycles told that not all are in Op.
    cycles: u64,
    /// What was last told of each slave, by its place.
    told: [Seen; MAX_SLAVES],
    /// Of which slaves it was told since then that they cannot be brought up again, by their places.
    failed: [bool; MAX_SLAVES],
}

impl SlaveStates {
    /// All slaves are in Op.
    pub(crate) fn new() -> SlaveStates {
        SlaveStates {
            in_op: true,
            since: 0,
            cycles: 0,
            told: [Seen::In(AlState::Op); MAX_SLAVES],
            failed: [false; MAX_SLAVES],
        }
    }

    /// Did the last good cycle tell that all are in Op?
    pub(crate) fn are_in_op(&self) -> bool {
        self.in_op
    }

    /// What was last seen of the slave at a place: that it is in Op where the last good cycle told that of
    /// all, else what was told of it since then, if anything was.
    pub(crate) fn seen(&self, place: usize) -> Option<Seen> {
        if self.in_op {
            return Some(Seen::In(AlState::Op));
        }
        match self.told.get(place) {
            Some(Seen::In(AlState::Op)) | None => None,
            Some(seen) => Some(*seen),
        }
    }

    /// How many good cycles told that not all are in Op, where cycles tell it.
    pub(crate) fn cycles_if(&self, states: bool) -> Option<u64> {
        if states { Some(self.cycles) } else { None }
    }

    /// Takes whether a good cycle told that all are in Op, and tells where that has changed.
    pub(crate) fn take<W: Write>(
        &mut self,
        cycle: u64,
        in_op: bool,
        lines: &mut Lines<'_, W>,
    ) -> io::Result<()> {
        if !in_op {
            self.cycles = self.cycles.saturating_add(1);
        }
        if in_op == self.in_op {
            return Ok(());
        }
        let lasted = cycle.saturating_sub(self.since);
        self.in_op = in_op;
        self.since = cycle;
        put_cycle(cycle, lines)?;
        if in_op {
            self.told = [Seen::In(AlState::Op); MAX_SLAVES];
            self.failed = [false; MAX_SLAVES];
            lines.text("all in Op again after ")?;
            put_cycles(lasted, lines)?;
        } else {
            lines.text("not all in Op")?;
        }
        lines.end()
    }

    /// Tells what was seen of a slave, unless that was told of it last.
    pub(crate) fn tell<W: Write>(
        &mut self,
        cycle: u64,
        place: u16,
        station: u16,
        seen: Seen,
        lines: &mut Lines<'_, W>,
    ) -> io::Result<()> {
        let at = usize::from(place);
        if at >= MAX_SLAVES || self.told[at] == seen || seen == Seen::Unheard {
            return Ok(());
        }
        self.told[at] = seen;
        self.failed[at] = false;
        put_cycle(cycle, lines)?;
        lines.slave(at, station)?;
        put_seen(seen, lines)?;
        lines.end()
    }
}

impl SlaveStates {
    /// A slave cannot be brought up again: is that to be told? Once, until something else is told of it.
    pub(crate) fn fails(&mut self, place: u16) -> bool {
        let at = usize::from(place);
        if at >= MAX_SLAVES || self.failed[at] {
            return false;
        }
        self.failed[at] = true;
        true
    }

    /// All is well with a slave, or it was brought up again.
    pub(crate) fn is_well(&mut self, place: u16) {
        let at = usize::from(place);
        if at < MAX_SLAVES {
            self.failed[at] = false;
        }
    }
}

/// Puts what was seen of a slave.
pub(crate) fn put_seen<W: Write>(seen: Seen, lines: &mut Lines<'_, W>) -> io::Result<()> {
    match seen {
        Seen::Unheard => Ok(()),
        Seen::Nobody => lines.text(" does not answer"),
        Seen::Several => lines.text(" is not alone: another slave has its station"),
        Seen::In(state) => {
            let state = state_name(state);
            lines.text(format_args!(" is in {state}"))
        }
        Seen::Error(state, code) => {
            let state = state_name(state);
            lines.text(format_args!(" is in {state} with error "))?;
            put_code(code, lines)
        }
    }
}
