//! What a master that runs knows of its line and of its cycles.

use crate::late::LateCycles;
use crate::lateness::Lateness;
use crate::ports::put_failed_times;
use crate::slaves::{SlaveStates, put_seen};
use crate::spread::Spread;
use crate::telling::{Images, put_counts};
use crate::words::put_cable;
use ec_diag::Located;
use ec_master::Work;
use ec_regs::AlState;
use ec_ring::{HeardPorts, Port};
use ec_run::{Counts, Seen, Wanted, Watched};
use ecat_text::{Lines, name_at};
use std::io::{self, Write};

/// What a master that runs knows behind a cycle, without a trip for it: what a task may tell of who asks.
#[derive(Clone, Copy)]
pub struct Known<'i, 'l, 't> {
    /// How many of the items are the scene's; the read of the slaves' states is none of them.
    pub(crate) items: usize,
    /// The items as they went out in that cycle, and as the last good one left them.
    pub(crate) images: Images<'i>,
    pub(crate) counts: Counts,
    pub(crate) line: &'l [Wanted],
    pub(crate) cable: Located,
    pub(crate) told: ToldOf<'t>,
    /// How many sends and receives failed, at port A and at port B.
    pub(crate) failures: [u64; 2],
}

/// What was told of the slaves and of the times of cycles.
#[derive(Clone, Copy)]
pub(crate) struct ToldOf<'t> {
    /// Whether cycles tell the slaves' states.
    pub(crate) tells_states: bool,
    pub(crate) states: &'t SlaveStates,
    pub(crate) took: &'t Spread,
    pub(crate) lateness: &'t Lateness,
    pub(crate) late_copies: &'t LateCycles,
}

/// How many sends and receives failed, at port A and at port B.
pub(crate) fn failures_of<P: HeardPorts>(ports: &Watched<P>) -> [u64; 2] {
    [
        ports.health(Port::A).failures,
        ports.health(Port::B).failures,
    ]
}

impl Known<'_, '_, '_> {
    /// How many of the items are the scene's; the read of the slaves' states is none of them.
    pub fn items(&self) -> usize {
        self.items
    }

    /// The items as they went out in that cycle.
    pub fn sent(&self) -> &Work {
        self.images.sent
    }

    /// The items as the last good cycle left them, if there was one.
    pub fn image(&self) -> Option<&Work> {
        self.images.image
    }

    /// The slaves, from the one at port A on: by which station each is known, and what it was told.
    pub fn line(&self) -> &[Wanted] {
        self.line
    }

    /// How many cycles there were, by their ends.
    pub fn counts(&self) -> Counts {
        self.counts
    }

    /// How many good cycles found not all slaves in Op, where cycles tell that.
    pub fn not_in_op(&self) -> Option<u64> {
        self.told.states.cycles_if(self.told.tells_states)
    }

    /// How many cycles were left out, since those before them were not over; none where no time is set.
    pub fn missed(&self) -> Option<u64> {
        self.told.lateness.missed()
    }

    /// The least and the greatest of the times that cycles took, in microseconds, where there was one.
    pub fn cycle_times(&self) -> Option<(u64, u64)> {
        self.told.took.range()
    }

    /// How many cycles took less than so many microseconds, which are 16 or 16 doubled some times.
    pub fn cycles_below(&self, micros: u64) -> u64 {
        self.told.took.below(micros)
    }

    /// Where the cable was broken when it was last looked at.
    pub fn cable(&self) -> Located {
        self.cable
    }

    /// Is a link up, as far as the last look at the cable tells it? They are numbered from 0, the one at
    /// port A.
    pub fn link_is_up(&self, link: usize) -> Option<bool> {
        link_is_up(self.cable, link)
    }

    /// Puts how many cycles there were, by their ends, without the end of the line.
    pub fn put_cycles<W: Write>(&self, lines: &mut Lines<'_, W>) -> io::Result<()> {
        put_counts(self.counts, self.not_in_op(), lines)
    }

    /// Puts where the cable was broken when it was last looked at, without the end of the line.
    pub fn put_break<W: Write>(&self, lines: &mut Lines<'_, W>) -> io::Result<()> {
        put_cable(self.cable, self.line, lines)
    }

    /// Puts what was last seen of the slave at a place, without the end of the line; nothing where nothing is
    /// known of it.
    pub fn put_seen<W: Write>(&self, place: usize, lines: &mut Lines<'_, W>) -> io::Result<()> {
        match (self.line.get(place), self.seen_of(place)) {
            (Some(wanted), Some(seen)) => {
                lines.slave(place, wanted.station)?;
                put_seen(seen, lines)
            }
            _ => Ok(()),
        }
    }

    /// Writes how many cycles there were, by their ends, which copies came late, and how often a port failed,
    /// as at the end of a run.
    pub fn put_counts<W: Write>(&self, lines: &mut Lines<'_, W>) -> io::Result<()> {
        self.put_cycles(lines)?;
        lines.end()?;
        self.told.late_copies.put(lines)?;
        let [at_a, at_b] = self.failures;
        put_failed_times(at_a, at_b, lines)
    }

    /// Writes how long cycles took, and by how much they began late, as at the end of a run.
    pub fn put_times<W: Write>(&self, lines: &mut Lines<'_, W>) -> io::Result<()> {
        if self.told.took.put("cycle time", lines)? {
            lines.end()?;
        }
        self.told.lateness.put(lines)
    }

    /// Writes where the cable was broken when it was last looked at, as where that is told at first.
    pub fn put_cable<W: Write>(&self, lines: &mut Lines<'_, W>) -> io::Result<()> {
        self.put_break(lines)?;
        lines.end()
    }

    /// Writes a line for each slave: its place and its station, its AL status (IEC 61158-6-12, AL status) as
    /// far as cycles and looks told it, and the links before and behind it as far as a look at the cable did.
    /// What is not known is `unknown`. Behind them stands the name of a slave that has one.
    pub fn put_slaves<W: Write>(&self, lines: &mut Lines<'_, W>) -> io::Result<()> {
        for (place, wanted) in self.line.iter().enumerate() {
            self.put_slave(place, wanted.station, lines)?;
        }
        Ok(())
    }

    /// Writes the line of the slave at a place.
    fn put_slave<W: Write>(
        &self,
        place: usize,
        station: u16,
        lines: &mut Lines<'_, W>,
    ) -> io::Result<()> {
        lines.text(format_args!("slave {place} station 0x{station:04x}"))?;
        put_state(self.seen_of(place), lines)?;
        let before = link_name(link_is_up(self.cable, place));
        let behind = link_name(link_is_up(self.cable, place.saturating_add(1)));
        lines.text(format_args!(" links {before} {behind}"))?;
        put_name(name_at(lines.names(), place), lines)?;
        lines.end()
    }

    /// What was last seen of the slave at a place, unless that is not known.
    pub fn seen_of(&self, place: usize) -> Option<Seen> {
        if self.images.image.is_some() && self.told.tells_states {
            self.told.states.seen(place)
        } else {
            None
        }
    }
}

/// Puts the name of a slave, if it has one.
fn put_name<W: Write>(name: &str, lines: &mut Lines<'_, W>) -> io::Result<()> {
    if name.is_empty() {
        return Ok(());
    }
    lines.text(" name ")?;
    lines.text(name)
}

/// Puts what was seen of a slave: its state and its error, as AL status and its code have them.
fn put_state<W: Write>(seen: Option<Seen>, lines: &mut Lines<'_, W>) -> io::Result<()> {
    match seen {
        Some(Seen::In(state)) => {
            let state = state_code(state);
            lines.text(format_args!(" state {state} error 0x0000"))
        }
        Some(Seen::Error(state, code)) => {
            let state = state_code(state);
            lines.text(format_args!(" state {state} error 0x{code:04x}"))
        }
        Some(Seen::Nobody) => lines.text(" state none error none"),
        Some(Seen::Several) | Some(Seen::Unheard) | None => {
            lines.text(" state unknown error unknown")
        }
    }
}

/// The code of a state (IEC 61158-6-12, AL status).
fn state_code(state: AlState) -> u8 {
    match state {
        AlState::Init => 1,
        AlState::PreOp => 2,
        AlState::SafeOp => 4,
        AlState::Op => 8,
    }
}

/// Is a link up, as far as it is known where the cable is broken? Links are numbered from 0, before the first
/// slave.
fn link_is_up(cable: Located, link: usize) -> Option<bool> {
    match cable {
        Located::Unknown | Located::Changed => None,
        Located::Whole => Some(true),
        Located::One(down) => Some(link != down),
        Located::First(down) if link > down => None,
        Located::First(down) => Some(link != down),
        Located::Last(down) if link < down => None,
        Located::Last(down) => Some(link != down),
        Located::Between(first, last) if first < link && link < last => None,
        Located::Between(first, last) => Some(link != first && link != last),
    }
}

/// A link as it is told.
fn link_name(is_up: Option<bool>) -> &'static str {
    match is_up {
        Some(true) => "up",
        Some(false) => "down",
        None => "unknown",
    }
}
