//! The start-up of a line.

ghost use Rattle.std.specs.Prelude.{◌≡◌, ◌≤◌, ◌<◌, List, ◌∷◌, [], IfOk, IfSome, Err, Ok, Some, length};
ghost use Rattle.ec_run.specs.Phase.{Brings, steps_of};
ghost use Rattle.ec_run.specs.Travels.{IsWithin};
ghost use Rattle.ec_run.specs.Watched.{PortsTrip, WatchedTrips};
ghost use Rattle.ec_run.specs.declared.phase.Phase.TheVariants.{Init, PreOp, Startup, SafeOp, Op};
ghost use Rattle.ec_services.specs.declared.fault.MasterFault.{MasterFault};
ghost use Rattle.ecat_master.specs.Course.{IsLook, IsLookedOver, is_known, is_last_look};
ghost use Rattle.ecat_master.specs.Identities.{WantedIdentity};
ghost use Rattle.ecat_master.specs.Start.{AreCounted, BringsThrough, GivesStations, IsCable, IsCaused};
ghost use Rattle.ecat_master.specs.Start.{IsFound, IsStarted, LookEnds, PartEnds, gap_of, start_trips};
ghost use Rattle.ecat_master.specs.declared.startup.StartEnd.TheVariants.{Fault, Output};
ghost use Rattle.ecat_master.specs.declared.startup.StartFault.{StartFault};
ghost use Rattle.ecat_master.specs.declared.startup.StartFault.TheVariants.{Ask};
ghost use Rattle.ecat_master.specs.declared.startup.StartFault.TheVariants.{Identity as IsOther};
ghost use Rattle.ecat_master.specs.declared.startup.StartFault.TheVariants.{Step as StepFailed};

use crate::identity::{Identity, OtherSlave, compare_identities, put_other_slave};
use crate::ports::are_swapped;
use crate::words::{put_cable, put_fault, put_look, put_step_fault, state_name};
use arrayvec::ArrayVec;
use ec_diag::{CutOff, Located};
use ec_master::Ports;
use ec_ring::{HeardPorts, MAX_SLAVES};
use ec_run::{Phase, Step, StepFault, Wanted, Watched, bring, bring_line, count_slaves};
use ec_services::MasterFault;
use ecat_text::Lines;
use std::io::{self, Write};

/// How often the cable is looked at again, where that did not come out as it should.
pub(crate) const MORE_CABLE_LOOKS: usize = 9;

/// How often the slaves are counted again, where they were not as many as they are to be.
const MORE_COUNTS: usize = 9;

/// Why a line could not be started.
#[derive(Clone, Copy, PartialEq, Eq, Debug)]
pub enum StartFault {
    /// The slaves could not be counted.
    Ask(MasterFault),
    /// So many slaves were counted, and the configuration has another number, or none.
    Count(u16),
    /// All slaves were counted, and the cable is not whole up to one link.
    Cable(Located),
    /// A step with a slave failed.
    Step(StepFault),
    /// A slave is another one than it is to be.
    Identity(OtherSlave),
}

/// Why a start-up has ended early.
#[derive(Drop)]
pub enum StartEnd {
    /// A line could not be written.
    Output,
    /// The line could not be started.
    Fault(StartFault),
}

impl From<io::Error> for StartEnd {
    ghost from_gives = { λ _ end. end ≡ Output };

    fn from(_error: io::Error) -> StartEnd {
        StartEnd::Output
    }
}

impl From<StepFault> for StartEnd {
    ghost from_gives = { λ failed end. end ≡ Fault (StepFailed failed) };

    fn from(fault: StepFault) -> StartEnd {
        StartEnd::Fault(StartFault::Step(fault))
    }
}

impl From<OtherSlave> for StartEnd {
    ghost from_gives = { λ other end. end ≡ Fault (IsOther other) };

    fn from(other: OtherSlave) -> StartEnd {
        StartEnd::Fault(StartFault::Identity(other))
    }
}

/// Brings up a line, at most 256 slaves, and writes a line of text for each part of it that is done: the
/// slaves are counted and the cable is looked at; each slave is given its station address; then phase by
/// phase all slaves are brought to Op, and their startup objects are written; in Pre-Op each slave has to be
/// the one that its place in `identities` wants. It answers where the cable is broken: nowhere, or at one
/// link.
pub fn start<P: HeardPorts, W: Write>(
    ports: &mut Watched<P>,
    line: &[Wanted],
    identities: &[Identity],
    lines: &mut Lines<'_, W>,
) -> Result<Located, StartEnd>
    ensures started { IfOk result (λ cable. IsStarted P.trips ports.old line.now identities.now cable
        ports.new) }
    ensures failed { (fault : StartFault) → result ≡ Err (Fault fault)
        → IsCaused P.trips ports.old line.now identities.now fault }
    ensures trips { IfOk result (λ cable. IsWithin (PortsTrip P.trips)
        (start_trips (length line.now) identities.now) ports.old.ports ports.new.ports) }
{
    let located = find(ports, line, lines)?;
    give_stations(ports, line, located, lines)?;
    bring_to_pre_op(ports, line, lines)?;
    compare_identities(ports, line, identities)?;
    bring_to_op(ports, line, lines)?;
    Ok(located)
}

/// Counts the slaves of a line and looks at its cable, which is to be whole or broken at one link.
fn find<P: HeardPorts, W: Write>(
    ports: &mut Watched<P>,
    line: &[Wanted],
    lines: &mut Lines<'_, W>,
) -> Result<Located, StartEnd>
    ensures found { IfOk result (λ cable. IsFound P.trips ports.old line.now cable ports.new) }
    ensures cable { IfOk result IsCable }
    ensures limit { IfOk result (λ cable. length line.now ≤ MAX_SLAVES) }
    ensures failed { (identities : List WantedIdentity) (fault : StartFault) → result ≡ Err (Fault fault)
        → IsCaused P.trips ports.old line.now identities fault }
{
    if line.len() > MAX_SLAVES {
        return Err(StartEnd::Fault(StartFault::Count(0)));
    }
    let found = count(ports, line.len(), lines)?;
    if usize::from(found) != line.len() || found == 0 {
        tell_cut_off(ports, line, lines)?;
        return Err(StartEnd::Fault(StartFault::Count(found)));
    }
    look(ports, line, lines)
}

/// Brings all slaves to Pre-Op.
fn bring_to_pre_op<P: HeardPorts, W: Write>(
    ports: &mut Watched<P>,
    line: &[Wanted],
    lines: &mut Lines<'_, W>,
) -> Result<(), StartEnd>
    requires { length line.now ≤ MAX_SLAVES }
    ensures { PartEnds (λ did. BringsThrough (WatchedTrips P.trips) ports.old line.now (Init ∷ PreOp ∷ []) did
        ports.new) result }
{
    bring_up(ports, line, Phase::Init, lines)?;
    bring_up(ports, line, Phase::PreOp, lines)
}

/// Brings all slaves from Pre-Op to Op.
fn bring_to_op<P: HeardPorts, W: Write>(
    ports: &mut Watched<P>,
    line: &[Wanted],
    lines: &mut Lines<'_, W>,
) -> Result<(), StartEnd>
    requires { length line.now ≤ MAX_SLAVES }
    ensures { PartEnds (λ did. BringsThrough (WatchedTrips P.trips) ports.old line.now
        (Startup ∷ SafeOp ∷ Op ∷ []) did ports.new) result }
{
    bring_up(ports, line, Phase::Startup, lines)?;
    bring_up(ports, line, Phase::SafeOp, lines)?;
    bring_up(ports, line, Phase::Op, lines)
}

/// Brings all slaves through a phase, and tells of it.
fn bring_up<P: HeardPorts, W: Write>(
    ports: &mut Watched<P>,
    line: &[Wanted],
    phase: Phase,
    lines: &mut Lines<'_, W>,
) -> Result<(), StartEnd>
    requires { length line.now ≤ MAX_SLAVES }
    ensures { PartEnds (λ did. Brings (WatchedTrips P.trips) ports.old 0 line.now (steps_of phase) did
        ports.new) result }
{
    bring_line(ports, line, phase)?;
    tell_phase(phase, line, lines)?;
    Ok(())
}

/// Tells of a phase through which all slaves were brought; nothing of startup objects where there is none.
fn tell_phase<W: Write>(phase: Phase, line: &[Wanted], lines: &mut Lines<'_, W>) -> io::Result<()> {
    if phase != Phase::Startup {
        lines.text("all in ")?;
        lines.text(state_name(phase.state()))?;
        return lines.end();
    }
    if line.iter().any(|wanted| wanted.has_startup()) {
        lines.text("startup objects written")?;
        lines.end()?;
    }
    Ok(())
}

/// Counts the slaves, which are to be so many, and tells of it.
fn count<P: HeardPorts, W: Write>(
    ports: &mut Watched<P>,
    wanted: usize,
    lines: &mut Lines<'_, W>,
) -> Result<u16, StartEnd>
    ensures counted { IfOk result (λ found. AreCounted (WatchedTrips P.trips) ports.old (Ok found)
        ports.new) }
    ensures failed { (fault : StartFault) → result ≡ Err (Fault fault) → (asked : MasterFault)
        × AreCounted (WatchedTrips P.trips) ports.old (Err asked) ports.new × (fault ≡ Ask asked) }
{
    let mut counted = Counted::none();
    let found = match count_until(ports, wanted, &mut counted) {
        Ok(found) => found,
        Err(fault) => return Err(StartEnd::Fault(StartFault::Ask(fault))),
    };
    lines.text(format_args!("slaves {found}"))?;
    if usize::from(found) != wanted {
        lines.text(format_args!(", wanted {wanted}"))?;
    }
    lines.end()?;
    if usize::from(found) != wanted {
        counted.put(lines)?;
    }
    Ok(found)
}

/// Counts the slaves until they are so many, `MORE_COUNTS` times more at the most.
fn count_until<P: Ports>(
    ports: &mut P,
    wanted: usize,
    counted: &mut Counted,
) -> Result<u16, MasterFault>
    ensures { AreCounted P.trips ports.old result ports.new }
{
    for _count in 0..MORE_COUNTS {
        let found = match count_slaves(ports) {
            Ok(found) => found,
            Err(fault) => return Err(fault),
        };
        if usize::from(found) == wanted {
            return Ok(found);
        }
        counted.keep(found);
    }
    count_slaves(ports)
}

/// How many slaves were counted each time, where they were not as many as they are to be.
#[derive(Drop)]
struct Counted {
    counts: ArrayVec<u16, MORE_COUNTS>,
}

impl Counted {
    /// Nothing was counted.
    fn none() -> Counted {
        Counted {
            counts: ArrayVec::new(),
        }
    }

    /// Keeps a count, as far as there is room.
    fn keep(&mut self, found: u16) {
        let _ = self.counts.try_push(found);
    }

    /// Was another number counted than the first one?
    fn differ(&self) -> bool {
        match self.counts.first() {
            Some(first) => self.counts.iter().any(|count| *count != *first),
            None => false,
        }
    }

    /// Asks a person whether another master runs on the line, where the counts differ: its frames are in the
    /// way of those that count.
    fn put<W: Write>(&self, lines: &mut Lines<'_, W>) -> io::Result<()> {
        if !self.differ() {
            return Ok(());
        }
        lines.text("does another master run here? counts differ:")?;
        for count in self.counts.as_slice() {
            lines.text(format_args!(" {count}"))?;
        }
        lines.end()
    }
}

/// Tells where the cable is broken, where slaves are cut off by it.
fn tell_cut_off<P: HeardPorts, W: Write>(
    ports: &mut Watched<P>,
    line: &[Wanted],
    lines: &mut Lines<'_, W>,
) -> io::Result<()> {
    match look_surely(ports, line.len()) {
        Some(located) if located.cut_off() != CutOff::Nobody && located != Located::Changed => {
            put_cable(located, line, lines)?;
            lines.end()
        }
        _ => Ok(()),
    }
}

/// Looks where the cable is broken, which is to be nowhere or at one link.
fn look<P: HeardPorts, W: Write>(
    ports: &mut Watched<P>,
    line: &[Wanted],
    lines: &mut Lines<'_, W>,
) -> Result<Located, StartEnd>
    ensures { LookEnds P.trips ports.old (length line.now) result ports.new }
{
    let located = match look_surely(ports, line.len()) {
        Some(located) => located,
        None => return Err(StartEnd::Fault(StartFault::Ask(MasterFault::Port))),
    };
    put_look(located, are_swapped(ports), line, lines)?;
    lines.end()?;
    match located {
        Located::Whole | Located::One(_) => Ok(located),
        _ => Err(StartEnd::Fault(StartFault::Cable(located))),
    }
}

/// Is it known of each link whether it is down, but for those between two that are?
pub(crate) fn is_known(located: Located) -> bool
    ensures { result ≡ is_known located }
{
    matches!(
        located,
        Located::Whole | Located::One(_) | Located::Between(_, _)
    )
}

/// Is no other look at the cable needed, or of no use?
fn is_last_look(found: Option<Located>) -> bool
    ensures { result ≡ is_last_look found }
{
    match found {
        Some(located) => is_known(located),
        None => true,
    }
}

/// Looks at the cable of a line of so many slaves, and says where it is broken; nothing where a port failed.
pub(crate) fn look_once<P: HeardPorts>(ports: &mut Watched<P>, slaves: usize) -> Option<Located>
    ensures look { IsLook P.trips ports.old.ports slaves result ports.new.ports }
    ensures still_told { ports.new.tally ≡ ports.old.tally }
{
    match ports.locate(slaves) {
        Ok(located) => Some(located),
        Err(_) => None,
    }
}

/// Where the cable of a line of so many slaves is broken, by a few frames if copies were lost; nothing where
/// the ports failed.
pub(crate) fn look_surely<P: HeardPorts>(ports: &mut Watched<P>, slaves: usize) -> Option<Located>
    ensures { IsLookedOver P.trips ports.old slaves result ports.new }
{
    for _look in 0..MORE_CABLE_LOOKS {
        let found = look_once(ports, slaves);
        if is_last_look(found) {
            return found;
        }
    }
    look_once(ports, slaves)
}

/// The link between two slaves at which the cable is broken, where it is broken there and nowhere else.
fn gap_of(located: Located, slaves: usize) -> Option<usize>
    ensures value { result ≡ gap_of located slaves }
    ensures inside { IfSome result (λ link. link < slaves) }
{
    match located {
        Located::One(link) => {
            if 0 < link && link < slaves {
                Some(link)
            } else {
                None
            }
        }
        _ => None,
    }
}

/// Gives each slave its station address over a cable that is whole or broken at one link, and tells of it.
fn give_stations<P: HeardPorts, W: Write>(
    ports: &mut Watched<P>,
    line: &[Wanted],
    located: Located,
    lines: &mut Lines<'_, W>,
) -> Result<(), StartEnd>
    requires { length line.now ≤ MAX_SLAVES }
    ensures { PartEnds (λ did. GivesStations (WatchedTrips P.trips) ports.old line.now
        (gap_of located (length line.now)) did ports.new) result }
{
    give_by_place(ports, line, located)?;
    lines.text("stations given")?;
    lines.end()?;
    Ok(())
}

/// Gives each slave its station address, by its place, over a cable that is whole or broken at one link.
fn give_by_place<P: HeardPorts>(
    ports: &mut Watched<P>,
    line: &[Wanted],
    located: Located,
) -> Result<(), StepFault>
    requires { length line.now ≤ MAX_SLAVES }
    ensures gives { GivesStations (WatchedTrips P.trips) ports.old line.now (gap_of located (length line.now))
        result ports.new }
{
    match gap_of(located, line.len()) {
        Some(link) => give_around(ports, line, link),
        None => bring(ports, 0, line, &[Step::Station]),
    }
}

/// Gives each slave its station address over a cable that is broken at a link between two of them: those
/// behind it first.
fn give_around<P: HeardPorts>(
    ports: &mut Watched<P>,
    line: &[Wanted],
    link: usize,
) -> Result<(), StepFault>
    requires limit { length line.now ≤ MAX_SLAVES }
    requires inside { link < length line.now }
    ensures gives { GivesStations (WatchedTrips P.trips) ports.old line.now (Some link) result ports.new }
{
    let first = link as u16;
    match bring(ports, first, &line[link..], &[Step::StationBehind(first)]) {
        Ok(()) => bring(ports, 0, &line[..link], &[Step::StationBefore]),
        Err(failed) => Err(failed),
    }
}

/// Puts why a line could not be started over these ports.
pub fn put_start_fault<P: HeardPorts, W: Write>(
    ports: &Watched<P>,
    fault: &StartFault,
    line: &[Wanted],
    lines: &mut Lines<'_, W>,
) -> io::Result<()> {
    lines.text("fault: ")?;
    match fault {
        StartFault::Ask(fault) => put_fault(*fault, lines)?,
        StartFault::Count(_) => lines.text("another number of slaves")?,
        StartFault::Cable(located) => {
            put_cable_fault(*located, are_swapped(ports), line, lines)?;
        }
        StartFault::Identity(other) => put_other_slave(other, lines)?,
        StartFault::Step(fault) => match line.get(usize::from(fault.place)) {
            Some(wanted) => put_step_fault(fault, wanted, lines)?,
            None => {}
        },
    }
    lines.end()
}

/// Puts that the cable keeps a line from being started; where that is for swapped ports, what is to be done.
fn put_cable_fault<W: Write>(
    located: Located,
    swapped: bool,
    line: &[Wanted],
    lines: &mut Lines<'_, W>,
) -> io::Result<()> {
    put_look(located, swapped, line, lines)?;
    match located {
        Located::Changed if swapped => lines.text(": name them in the other order"),
        _ => Ok(()),
    }
}
