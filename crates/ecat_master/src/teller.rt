//! Who is told of the cycles of a master while they run, and when slaves are looked at.

ghost use Rattle.std.specs.Prelude.{◌≡◌, Ok, false, true};
ghost use Rattle.std.specs.Option.{option_map};
ghost use Rattle.ecat_master.specs.Allowance.{time_left};
ghost use Rattle.ecat_master.specs.Course.{IsFollowed, IsCaredFor, MayBeLookedAt};
ghost use Rattle.ecat_master.specs.Over.{ends_well, stops_behind};

use crate::acyclic::Acyclic;
use crate::allowance::Allowance;
use crate::care::{Care, Next, most_asked, wanted_at};
use crate::late::{CycleTrips, LateCycles, Unsure};
use crate::lateness::Lateness;
use crate::ports::PortsNews;
use crate::run::{LinePlan, Plan};
use crate::slaves::SlaveStates;
use crate::spread::Spread;
use crate::telling::{CycleEnd, Images, Setting, Told, log_cycle, put_counts, put_cycle};
use crate::words::{put_code, put_step_fault, state_name};
use ec_diag::Located;
use ec_master::{CycleFault, Verdict};
use ec_ring::{HeardPorts, LateCopies};
use ec_run::{
    Counts, Outcome, Recovery, Seen, StepFault, Turn, Wanted, Watched, look_along, look_at,
    tells_places,
};
use ec_services::MasterFault;
use ecat_text::{Lines, SystemError};
use std::io::{self, Write};
use std::mem;

/// Every so many cycles a slave is looked at though all is well.
const LOOK_EVERY: u64 = 16;

/// How often a slave is looked at again that did not answer: a copy may have been lost that passed it.
const MORE_LOOKS: u32 = 9;

/// How many microseconds lie between two lines of progress.
const SECOND: u64 = 1_000_000;

/// How long cycles took, in microseconds.
#[derive(Clone, Copy)]
struct Times {
    least: u64,
    greatest: u64,
    sum: u64,
    count: u64,
}

impl Times {
    /// Of no cycle.
    fn none() -> Times {
        Times {
            least: u64::MAX,
            greatest: 0,
            sum: 0,
            count: 0,
        }
    }

    /// With one cycle more.
    fn with(self, took: u64) -> Times {
        Times {
            least: self.least.min(took),
            greatest: self.greatest.max(took),
            sum: self.sum.saturating_add(took),
            count: self.count.saturating_add(1),
        }
    }

    /// The mean, where there was a cycle.
    fn mean(self) -> u64 {
        if self.count == 0 {
            0
        } else {
            self.sum / self.count
        }
    }

    /// Puts how long these cycles took, and how many of them there were a second in so many microseconds.
    fn put<W: Write>(self, passed: u64, lines: &mut Lines<'_, W>) -> io::Result<()> {
        let least = self.least.min(self.greatest);
        let mean = self.mean();
        let greatest = self.greatest;
        let rate = self.count.saturating_mul(SECOND) / passed.max(1);
        lines.text(format_args!(
            ", cycle time least {least} mean {mean} greatest {greatest} microseconds, {rate} a second"
        ))
    }
}

/// Where a line could not be written.
#[derive(Clone, Copy, PartialEq, Eq, Debug)]
pub enum Unwritten {
    /// To the output.
    Output,
    /// To the log.
    Log,
}

/// Who is told of the cycles, and what was told so far.
#[derive(Drop)]
pub struct Teller<'a, W, V, L> {
    pub(crate) out: Lines<'a, W>,
    pub(crate) err: Lines<'a, V>,
    log: Lines<'a, L>,
    pub(crate) told: Told,
    pub(crate) states: SlaveStates,
    /// How long cycles took, all of them.
    pub(crate) took: Spread,
    /// How long they took, as far as that says for how long the next one may wait.
    pub(crate) allowance: Allowance,
    /// By how much they began late, where they are to begin at a time.
    pub(crate) lateness: Lateness,
    /// Which copies of earlier cycles came late.
    pub(crate) late_copies: LateCycles,
    /// What is told of the ports.
    ports: PortsNews,
    /// Whether the log could not be written: nothing more goes there then.
    log_has_failed: bool,
    times: Times,
    due: u64,
    /// Who is seen to behind the next cycle.
    care: Care,
    next: Next,
    /// Whether the frame behind the last cycle, of those without one of a service, was a look at the cable.
    has_looked: bool,
    /// What a task asks of slaves.
    pub(crate) acyclic: Acyclic,
}

impl<'a, W: Write, V: Write, L: Write> Teller<'a, W, V, L> {
    /// One who tells these writers of cycles over a cable that is broken there: `err` of the progress, `log`
    /// of every cycle.
    pub fn new(
        out: Lines<'a, W>,
        err: Lines<'a, V>,
        log: Lines<'a, L>,
        cable: Located,
    ) -> Teller<'a, W, V, L> {
        Teller {
            out,
            err,
            log,
            told: Told::new(cable),
            states: SlaveStates::new(),
            took: Spread::none(),
            allowance: Allowance::new(),
            lateness: Lateness::none(),
            late_copies: LateCycles::none(),
            ports: PortsNews::new(),
            log_has_failed: false,
            times: Times::none(),
            due: SECOND,
            care: Care::Nobody,
            next: Next::first(),
            has_looked: false,
            acyclic: Acyclic::none(),
        }
    }

    /// For how many microseconds the trips of a cycle may wait that begins so long before the next one is
    /// due, where so much is spared; `None` where cycles go back to back.
    pub(crate) fn time_left(&self, left: Option<u64>, spare: u64) -> Option<u64>
        ensures { result ≡ option_map (λ left. time_left self.now.allowance left spare) left }
    {
        match left {
            Some(left) => Some(self.allowance.time_left(left, spare)),
            None => None,
        }
    }

    /// Takes the trips of a cycle that was made, which copies came late up to its end, and how long it took;
    /// and says for which cycles outputs are unsure, if they are for any.
    pub(crate) fn take_cycle(
        &mut self,
        counts: Counts,
        trips: CycleTrips,
        late: LateCopies,
        now: u64,
        ended: Result<Verdict, CycleFault>,
        plan: &Plan<'_>,
    ) -> Option<Unsure> {
        let took = now.saturating_sub(trips.began);
        self.allowance = self.allowance.behind(took, ended == Ok(Verdict::Good));
        self.take_time(counts, took, now, plan);
        self.late_copies.take(trips, late, now)
    }

    /// Takes how long a cycle took, and writes a line of progress where a second has passed. A fault of that
    /// line is passed over.
    fn take_time(&mut self, counts: Counts, took: u64, now: u64, plan: &Plan<'_>) {
        self.took.take(took);
        self.times = self.times.with(took);
        if plan.progress && now >= self.due {
            let not_in_op = self.states.cycles_if(plan.states);
            let _ = self.put_progress(counts, now, not_in_op);
            self.times = Times::none();
            self.due = now.saturating_add(SECOND);
        }
    }

    /// Writes a line of progress.
    fn put_progress(&mut self, counts: Counts, now: u64, not_in_op: Option<u64>) -> io::Result<()> {
        let lines = &mut self.err;
        put_counts(counts, not_in_op, lines)?;
        self.times
            .put(now.saturating_sub(self.due.saturating_sub(SECOND)), lines)?;
        if let Some(missed) = self.lateness.missed() {
            lines.text(format_args!(", missed {missed}"))?;
        }
        self.ports.put_dead(lines)?;
        lines.end()
    }

    /// Tells of a cycle that was made, sees to a slave, and answers whether it is to be the last cycle.
    pub(crate) fn follow<P: HeardPorts>(
        &mut self,
        counts: Counts,
        end: CycleEnd,
        ports: &mut Watched<P>,
        line_plan: &LinePlan<'_>,
        images: Images<'_>,
    ) -> Result<bool, Unwritten>
        ensures followed { IsFollowed P.trips line_plan.now.line.now
            (stops_behind line_plan.now.plan.now end.ended end.in_op) ports.old ports.new }
        ensures stops { result ≡ Ok true → (line_plan.now.plan.now.stop ≡ true)
            × (ends_well end.ended end.in_op ≡ false) }
    {
        let plan = line_plan.plan;
        let cycle = counts.cycles.saturating_sub(1);
        let images = if plan.log_images { Some(images) } else { None };
        if self
            .log_one(cycle, end, ports.counts(), line_plan.items(), images, plan)
            .is_err()
        {
            return Err(Unwritten::Log);
        }
        match self.tell(cycle, end, ports, line_plan) {
            Ok(()) => Ok(stops_behind(end, plan)),
            Err(_) => Err(Unwritten::Output),
        }
    }

    /// Writes the line of a cycle into the log, where there is one. An error is one that ends the run.
    fn log_one(
        &mut self,
        cycle: u64,
        end: CycleEnd,
        counts: &[u16],
        items: usize,
        images: Option<Images<'_>>,
        plan: &Plan<'_>,
    ) -> io::Result<()> {
        if !plan.log || self.log_has_failed {
            return Ok(());
        }
        match log_cycle(cycle, end, counts, items, images, &mut self.log) {
            Err(error) if !plan.log_or_stop => {
                self.log_fails(cycle, &error);
                Ok(())
            }
            logged => logged,
        }
    }

    /// Tells, once, that the log cannot be written, and writes nothing more there. A fault of that line is
    /// passed over.
    fn log_fails(&mut self, cycle: u64, error: &io::Error) {
        self.log_has_failed = true;
        let _ = put_log_fault(cycle, error, &mut self.err);
    }

    /// Could the log be written as far as it was to be?
    pub(crate) fn is_logged(&self) -> bool {
        !self.log_has_failed
    }

    /// Tells the output of a cycle that was made, and looks at the cable, sees to a slave or goes on with a
    /// service, by turns where more than one is due; behind the last cycle it looks and sees to a slave.
    fn tell<P: HeardPorts>(
        &mut self,
        cycle: u64,
        end: CycleEnd,
        ports: &mut Watched<P>,
        line_plan: &LinePlan<'_>,
    ) -> io::Result<()>
        ensures followed { IsFollowed P.trips line_plan.now.line.now
            (stops_behind line_plan.now.plan.now end.ended end.in_op) ports.old ports.new }
    {
        self.tell_times(cycle, end, ports)?;
        self.next = self.next.behind_cycle(end.is_well());
        let plan = line_plan.plan;
        let is_last = stops_behind(end, plan);
        let serves = self.acyclic.goes_first(ports.has_heard());
        let may_look = is_last
            || !serves && (!self.has_looked || !self.is_care_due(cycle, end, plan));
        let setting = self.setting(line_plan, may_look);
        let has_looked = self
            .told
            .tell(cycle, end.ended, ports, setting, &mut self.out)?;
        self.has_looked = has_looked || serves && self.has_looked;
        if end.ended == Ok(Verdict::Good) {
            self.states.take(cycle, end.in_op, &mut self.out)?;
        }
        if is_last {
            self.care = mem::replace(&mut self.care, Care::Nobody).at_the_end();
            self.see_to(cycle, end, ports, line_plan.line, plan)?;
            return self.look_at_found(cycle, ports, line_plan.line, plan);
        }
        if has_looked {
            return Ok(());
        }
        self.go_beside(cycle, end, ports, line_plan, serves)
    }

    /// Goes on with a service, where it goes first or nobody is to be seen to, or else sees to a slave.
    fn go_beside<P: HeardPorts>(
        &mut self,
        cycle: u64,
        end: CycleEnd,
        ports: &mut Watched<P>,
        line_plan: &LinePlan<'_>,
        serves: bool,
    ) -> io::Result<()>
        ensures seen_to { IsCaredFor P.trips line_plan.now.line.now ports.old ports.new }
    {
        let plan = line_plan.plan;
        if serves || !self.is_care_due(cycle, end, plan) {
            self.acyclic.serve(ports, line_plan.line);
            return Ok(());
        }
        self.see_to(cycle, end, ports, line_plan.line, plan)
    }

    /// What cycles are told by, and whether the cable may be looked at.
    fn setting<'s>(&self, line_plan: &LinePlan<'s>, may_look: bool) -> Setting<'s>
        ensures { result.line.now ≡ line_plan.now.line.now }
    {
        Setting {
            line: line_plan.line,
            expected: line_plan.expected,
            states: line_plan.plan.states,
            port_fails: self.ports.some_fails(),
            may_look,
        }
    }

    /// Tells, behind the last cycle, what is not told yet.
    pub(crate) fn close(&mut self, line_plan: &LinePlan<'_>) -> Result<(), Unwritten> {
        let setting = self.setting(line_plan, false);
        match self.told.close(setting, &mut self.out) {
            Ok(()) => Ok(()),
            Err(_) => Err(Unwritten::Output),
        }
    }

    /// Tells which cycles were left out, which copies came late, and at which port none come.
    fn tell_times<P: HeardPorts>(
        &mut self,
        cycle: u64,
        end: CycleEnd,
        ports: &Watched<P>,
    ) -> io::Result<()> {
        self.lateness.tell(cycle, end.at, &mut self.out)?;
        self.late_copies.tell(cycle, end.unsure, &mut self.out)?;
        let is_good = end.ended == Ok(Verdict::Good);
        self.ports.tell(cycle, is_good, ports, &mut self.out)
    }

    /// Sees to a slave behind a cycle, by one frame: one that is being brought to Op goes on, one that may
    /// have left it is looked at, and else, where that is due, the line is looked along.
    /// Behind a cycle of which no copy came nobody is seen to: it has waited for all its time, and who it was
    /// to be goes on behind the next one.
    fn see_to<P: HeardPorts>(
        &mut self,
        cycle: u64,
        end: CycleEnd,
        ports: &mut Watched<P>,
        line: &[Wanted],
        plan: &Plan<'_>,
    ) -> io::Result<()>
        ensures seen_to { IsCaredFor P.trips line.now ports.old ports.new }
    {
        if !ports.has_heard() {
            return Ok(());
        }
        match mem::replace(&mut self.care, Care::Nobody) {
            Care::Brings(recovery) => self.go_on(cycle, recovery, ports, line),
            Care::LooksAt(place, nobody) => {
                self.look_at_one(cycle, place, nobody, ports, line, plan)
            }
            Care::Nobody if self.is_look_due(cycle, end, plan) => {
                self.look_along(end, ports, line);
                Ok(())
            }
            Care::Nobody => Ok(()),
        }
    }

    /// Is a slave to be seen to behind a cycle that ended so, or the line to be looked along?
    fn is_care_due(&self, cycle: u64, end: CycleEnd, plan: &Plan<'_>) -> bool {
        !matches!(self.care, Care::Nobody) || self.is_look_due(cycle, end, plan)
    }

    /// Is the line to be looked along behind a cycle that ended so? Where slaves are brought up again also
    /// behind some of those with which all is well: a slave that has lost its station may still say that it
    /// is in Op.
    fn is_look_due(&self, cycle: u64, end: CycleEnd, plan: &Plan<'_>) -> bool {
        if plan.recover {
            !end.is_well() || cycle % LOOK_EVERY == LOOK_EVERY - 1
        } else {
            !self.states.are_in_op()
        }
    }

    /// Looks along the line for a slave that may have left Op; it is looked at behind the next cycle.
    fn look_along<P: HeardPorts>(&mut self, end: CycleEnd, ports: &mut Watched<P>, line: &[Wanted])
        ensures seen_to { IsCaredFor P.trips line.now ports.old ports.new }
    {
        let Some(first) = self.next.on(line.len()) else {
            return;
        };
        let Ok(along) = look_along(ports, line, first, most_asked(end.is_well())) else {
            return;
        };
        let Some(out) = along.out else {
            self.next = self.next.behind(first, along.asked);
            return;
        };
        let place = first.saturating_add(out);
        self.next = self.next.behind(place, 1);
        self.care = Care::LooksAt(u16::try_from(place).unwrap_or(u16::MAX), 0);
    }

    /// Behind the last cycle, looks at the slave that may have left Op, if there is one.
    fn look_at_found<P: HeardPorts>(
        &mut self,
        cycle: u64,
        ports: &mut Watched<P>,
        line: &[Wanted],
        plan: &Plan<'_>,
    ) -> io::Result<()>
        ensures looked_at { MayBeLookedAt P.trips line.now ports.old ports.new }
    {
        match mem::replace(&mut self.care, Care::Nobody) {
            Care::LooksAt(place, nobody) => {
                self.look_at_one(cycle, place, nobody, ports, line, plan)
            }
            _ => Ok(()),
        }
    }

    /// Looks at a slave that may have left Op, once; what is done with it begins behind the next cycle.
    fn look_at_one<P: HeardPorts>(
        &mut self,
        cycle: u64,
        place: u16,
        nobody: u32,
        ports: &mut Watched<P>,
        line: &[Wanted],
        plan: &Plan<'_>,
    ) -> io::Result<()>
        ensures looked_at { MayBeLookedAt P.trips line.now ports.old ports.new }
    {
        let Some(wanted) = wanted_at(line, place) else {
            return Ok(());
        };
        let seen = look_at(ports, wanted.station);
        match seen {
            Ok(Seen::Nobody) if nobody < MORE_LOOKS => {
                self.care = Care::LooksAt(place, nobody + 1);
            }
            Ok(seen) if plan.recover => self.care_for(place, seen, line.len(), plan.tries),
            _ => {}
        }
        self.tell_seen(cycle, place, wanted.station, seen, plan)
    }

    /// Tells what was seen of a slave, where nobody is brought up again, or no cycle follows.
    fn tell_seen(
        &mut self,
        cycle: u64,
        place: u16,
        station: u16,
        seen: Result<Seen, MasterFault>,
        plan: &Plan<'_>,
    ) -> io::Result<()> {
        let is_asked_again = matches!(self.care, Care::LooksAt(_, _));
        match seen {
            Ok(seen) if (!plan.recover || plan.stop) && !is_asked_again => {
                self.states.tell(cycle, place, station, seen, &mut self.out)
            }
            _ => Ok(()),
        }
    }

    /// Begins to bring a slave to Op again of which this was seen, where something is to be done, by so many
    /// reads of a state at the most.
    fn care_for(&mut self, place: u16, seen: Seen, slaves: usize, tries: u32) {
        let tells_places = tells_places(self.told.cable(), slaves);
        match Recovery::of(place, seen, tells_places, tries) {
            Some(recovery) => self.care = Care::Brings(recovery),
            None => self.states.is_well(place),
        }
    }

    /// Takes the next turn with a slave that is being brought to Op, and tells it where it was the last one.
    fn go_on<P: HeardPorts>(
        &mut self,
        cycle: u64,
        recovery: Recovery,
        ports: &mut Watched<P>,
        line: &[Wanted],
    ) -> io::Result<()>
        ensures seen_to { IsCaredFor P.trips line.now ports.old ports.new }
    {
        let place = recovery.place();
        let Some(wanted) = wanted_at(line, place) else {
            return Ok(());
        };
        let turn = recovery.turn(ports, wanted);
        self.take_turn(cycle, place, wanted, turn)
    }

    /// Takes how far a turn has come with the slave at a place, and tells it where it was the last one.
    fn take_turn(&mut self, cycle: u64, place: u16, wanted: &Wanted, turn: Turn) -> io::Result<()> {
        match turn {
            Turn::Goes(recovery) => {
                self.care = Care::Brings(recovery);
                Ok(())
            }
            Turn::Ended(outcome) => self.tell_recovery(cycle, place, wanted, outcome),
        }
    }

    /// Tells what became of a slave that was looked at; of each slave a failure is told once.
    fn tell_recovery(
        &mut self,
        cycle: u64,
        place: u16,
        wanted: &Wanted,
        outcome: Outcome,
    ) -> io::Result<()> {
        match outcome {
            Outcome::Left => {
                self.states.is_well(place);
                Ok(())
            }
            Outcome::Brought(seen) => {
                self.states.is_well(place);
                put_recovered(cycle, place, wanted.station, seen, &mut self.out)
            }
            Outcome::Failed(fault) => {
                if self.states.fails(place) {
                    put_unrecovered(cycle, &fault, wanted, &mut self.out)
                } else {
                    Ok(())
                }
            }
        }
    }
}

/// Is a cycle the last one that ended so, since that is not well and the plan wants it?
fn stops_behind(end: CycleEnd, plan: &Plan<'_>) -> bool
    ensures { result ≡ stops_behind plan.now end.ended end.in_op }
{
    plan.stop && !end.is_well()
}

/// Writes why the log cannot be written.
fn put_log_fault<W: Write>(
    cycle: u64,
    error: &io::Error,
    lines: &mut Lines<'_, W>,
) -> io::Result<()> {
    put_cycle(cycle, lines)?;
    lines.text("log: Write (")?;
    match error.raw_os_error() {
        Some(error) => lines.text(SystemError(error))?,
        None => lines.text(error)?,
    }
    lines.text("), no more of it is written")?;
    lines.end()
}

/// Writes that a slave was brought to Op again.
fn put_recovered<W: Write>(
    cycle: u64,
    place: u16,
    station: u16,
    seen: Seen,
    lines: &mut Lines<'_, W>,
) -> io::Result<()> {
    put_cycle(cycle, lines)?;
    lines.slave(usize::from(place), station)?;
    match seen {
        Seen::Nobody => lines.text(" had lost its station")?,
        Seen::In(state) => {
            let state = state_name(state);
            lines.text(format_args!(" was in {state}"))?;
        }
        Seen::Error(state, code) => {
            let state = state_name(state);
            lines.text(format_args!(" had an error in {state}: "))?;
            put_code(code, lines)?;
        }
        Seen::Several | Seen::Unheard => {}
    }
    lines.text(", brought to Op")?;
    lines.end()
}

/// Writes that a slave could not be brought to Op.
fn put_unrecovered<W: Write>(
    cycle: u64,
    fault: &StepFault,
    wanted: &Wanted,
    lines: &mut Lines<'_, W>,
) -> io::Result<()> {
    put_cycle(cycle, lines)?;
    put_step_fault(fault, wanted, lines)?;
    lines.end()
}
