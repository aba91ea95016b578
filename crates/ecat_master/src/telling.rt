//! What is told of cycles while they run.

ghost use Rattle.std.specs.Prelude.{◌≡◌, ◌≤◌, Ok, false, length};
ghost use Rattle.ecat_master.specs.Course.{MayBeLooked};
ghost use Rattle.ecat_master.specs.Over.{ends_well};

use crate::late::Unsure;
use crate::ports::{PortErrors, Silent, are_swapped, errors_of, put_failed, silent_of};
use crate::startup::{MORE_CABLE_LOOKS, is_known, look_once};
use crate::words::{put_cycles, put_look};
use ec_diag::Located;
use ec_master::{CycleFault, Verdict, Work};
use ec_ring::HeardPorts;
use ec_run::{Counts, Signs, Wanted, Watched, Ways};
use ecat_text::{CountText, Lines, VerdictText, print_item};
use std::io::{self, Write};

/// How a cycle ended, what it told of the slaves' states, and whether a copy of an earlier one came in it.
#[derive(Clone, Copy, PartialEq, Eq, Debug)]
pub(crate) struct CycleEnd {
    /// Its verdict, or why it has none.
    pub(crate) ended: Result<Verdict, CycleFault>,
    /// Whether a good cycle told that all slaves are in Op; true of one that tells no states.
    pub(crate) in_op: bool,
    /// When it was over, in microseconds of the pace.
    pub(crate) at: u64,
    /// Since when outputs are unsure by a copy of an earlier cycle that came late in this one.
    pub(crate) unsure: Option<Unsure>,
}

impl CycleEnd {
    /// Was the cycle good, with all slaves in Op?
    pub(crate) fn is_well(self) -> bool
        ensures { result ≡ ends_well self.ended self.in_op }
    {
        match self.ended {
            Ok(Verdict::Good) => self.in_op,
            Ok(Verdict::Short(_)) | Ok(Verdict::Over(_)) | Err(_) => false,
        }
    }
}

/// What a cycle showed. Of two cycles that showed the same only the first is told.
#[derive(Clone, Copy, PartialEq, Eq)]
struct Showing {
    /// How it ended.
    ended: Result<Verdict, CycleFault>,
    /// How far the counter moved of the item that its verdict names.
    came: u16,
    /// What its copies told.
    signs: Signs,
    /// Whether they are those of a ring whose ports are swapped.
    swapped: bool,
    /// At which ports none of them came.
    silent: Silent,
    /// With which errors the ports failed, where it ended by that.
    errors: PortErrors,
}

impl Showing {
    /// What cycles show with which all is well.
    fn well() -> Showing {
        Showing {
            ended: Ok(Verdict::Good),
            came: 0,
            signs: Signs {
                ways: Ways::Crossed,
                by_a: 0,
            },
            swapped: false,
            silent: Silent::Neither,
            errors: PortErrors::none(),
        }
    }

    /// What a cycle showed that ended so, and whose copies are those that these ports tell of.
    fn of<P: HeardPorts>(ended: Result<Verdict, CycleFault>, ports: &Watched<P>) -> Showing {
        Showing {
            ended,
            came: came_of(ended, ports.counts()),
            signs: ports.signs(),
            swapped: are_swapped(ports),
            silent: silent_of(ports),
            errors: match ended {
                Err(CycleFault::Port) => errors_of(ports),
                _ => PortErrors::none(),
            },
        }
    }

    /// Was the cycle good?
    fn is_good(&self) -> bool {
        self.ended == Ok(Verdict::Good)
    }

    /// Did its copies, and those of a look that found the cable so, show that the ports are swapped?
    fn is_swapped(&self, cable: Located) -> bool {
        self.swapped && cable == Located::Changed
    }

    /// At which ports nothing came, as far as it is told: of a cycle with an item that was not counted as it
    /// was to be, where the ring is whole.
    fn told_silent(&self, cable: Located) -> Silent {
        match self.ended {
            Ok(Verdict::Short(_)) | Ok(Verdict::Over(_)) if cable == Located::Whole => self.silent,
            _ => Silent::Neither,
        }
    }
}

/// What a look at the cable found.
#[derive(Clone, Copy)]
struct Look {
    /// Where the cable is broken, as far as that is known.
    cable: Located,
    /// Whether no other look is needed, or of use.
    is_last: bool,
    /// Whether a frame went out for it.
    is_made: bool,
}

/// What a cycle showed of which nothing is told yet: the looks at the cable behind it brought too little.
#[derive(Clone, Copy)]
struct Open {
    /// The number of the cycle.
    cycle: u64,
    /// What it showed.
    showing: Showing,
    /// What is known of the cable.
    cable: Located,
    /// How often the cable was looked at.
    looks: usize,
}

/// What cycles are told by.
#[derive(Clone, Copy)]
pub(crate) struct Setting<'a> {
    /// What the slaves are to be told, by their places.
    pub(crate) line: &'a [Wanted],
    /// What the counters of the items are to gain.
    pub(crate) expected: &'a [u16],
    /// Whether the last item reads the states of all slaves.
    pub(crate) states: bool,
    /// Whether a port fails, of which it is told already that redundancy is lost by it.
    pub(crate) port_fails: bool,
    /// Whether the cable may be looked at now; else that is for a later cycle.
    pub(crate) may_look: bool,
}

/// What was told of the cycles so far.
#[derive(Clone, Copy)]
pub struct Told {
    /// What the last cycle showed of those that are told.
    last: Showing,
    /// Where the cable was broken when that was last told.
    cable: Located,
    /// Whether the last look at the cable found what the look before had found. One that found something new
    /// may have come behind a change that its cycle had not seen.
    settled: bool,
    /// Whether the ring was whole, at the start or since: redundancy that never was is not lost.
    was_whole: bool,
    /// The first cycle of those that are not good, where the last one that is told was not.
    since: u64,
    /// What is told once it is known where the cable is broken, if there is something.
    open: Option<Open>,
}

impl Told {
    /// Nothing is told but where the cable is broken.
    pub fn new(cable: Located) -> Told {
        Told {
            last: Showing::well(),
            cable,
            settled: true,
            was_whole: cable == Located::Whole,
            since: 0,
            open: None,
        }
    }

    /// Where the cable was broken when that was last looked at.
    pub fn cable(&self) -> Located {
        self.cable
    }

    /// Tells what a cycle showed that the last one did not: that it was not good, that it is good again, that
    /// a link is down though it was good, or that none is any more. Only then another frame goes out, which
    /// looks where the cable is broken; one more behind the next cycle where that found something new, and
    /// some more, one behind each cycle, until enough copies of one have come. It answers whether one went
    /// out.
    pub(crate) fn tell<P: HeardPorts, W: Write>(
        &mut self,
        cycle: u64,
        ended: Result<Verdict, CycleFault>,
        ports: &mut Watched<P>,
        setting: Setting<'_>,
        lines: &mut Lines<'_, W>,
    ) -> io::Result<bool>
        ensures looks { MayBeLooked P.trips ports.old (length setting.entry.line.now) ports.new }
        ensures kept { result ≡ Ok false → ports.new ≡ ports.old }
    {
        let now = Showing::of(ended, ports);
        if now == self.last && self.settled && self.open.is_none() {
            return Ok(false);
        }
        let look = if setting.may_look {
            self.look(ended, ports, setting.line.len())
        } else {
            self.no_look()
        };
        self.take_look(cycle, now, look, setting, lines)?;
        Ok(look.is_made)
    }

    /// Looks once where the cable is broken now. Nothing new is known where the ports have failed.
    fn look<P: HeardPorts>(
        &self,
        ended: Result<Verdict, CycleFault>,
        ports: &mut Watched<P>,
        slaves: usize,
    ) -> Look
        ensures looks { MayBeLooked P.trips ports.old slaves ports.new }
        ensures kept { result.is_made ≡ false → ports.new ≡ ports.old }
    {
        let known = Look {
            cable: self.known_cable(),
            is_last: true,
            is_made: false,
        };
        if ended == Err(CycleFault::Port) {
            return known;
        }
        match look_once(ports, slaves) {
            Some(cable) => Look {
                cable,
                is_last: is_known(cable),
                is_made: true,
            },
            None => Look {
                is_made: true,
                ..known
            },
        }
    }

    /// No look: what is not told yet stays as well known as it is.
    fn no_look(&self) -> Look
        ensures { result.is_made ≡ false }
    {
        Look {
            cable: match self.open {
                Some(open) => open.cable,
                None => Located::Unknown,
            },
            is_last: false,
            is_made: false,
        }
    }

    /// Where the cable was broken by the last look, if there was one behind what is not told yet.
    fn known_cable(&self) -> Located {
        match self.open {
            Some(open) if open.looks != 0 => open.cable,
            _ => self.cable,
        }
    }

    /// Takes what a look found behind a cycle that showed this. What another cycle showed before it is told
    /// now, whatever is known.
    fn take_look<W: Write>(
        &mut self,
        cycle: u64,
        showing: Showing,
        look: Look,
        setting: Setting<'_>,
        lines: &mut Lines<'_, W>,
    ) -> io::Result<()> {
        let mut looks = 0;
        let mut began = cycle;
        if let Some(open) = self.open {
            if open.showing == showing {
                looks = open.looks;
                began = open.cycle;
            } else {
                let cable = known_then(open.cable, look.cable);
                self.settle(open.cycle, &open.showing, cable, setting, lines)?;
            }
        }
        let is_enough = look.is_made && looks == MORE_CABLE_LOOKS;
        if look.is_last || showing.is_swapped(look.cable) || is_enough {
            return self.settle(began, &showing, look.cable, setting, lines);
        }
        self.open = Some(Open {
            cycle: began,
            showing,
            cable: look.cable,
            looks: looks.saturating_add(usize::from(look.is_made)),
        });
        Ok(())
    }

    /// Tells what is not told yet, by what is known of the cable.
    pub(crate) fn close<W: Write>(
        &mut self,
        setting: Setting<'_>,
        lines: &mut Lines<'_, W>,
    ) -> io::Result<()> {
        match self.open {
            Some(open) => self.settle(open.cycle, &open.showing, open.cable, setting, lines),
            None => Ok(()),
        }
    }

    /// Tells what a cycle showed while the cable was broken there, as far as it was not told before.
    fn settle<W: Write>(
        &mut self,
        cycle: u64,
        now: &Showing,
        cable: Located,
        setting: Setting<'_>,
        lines: &mut Lines<'_, W>,
    ) -> io::Result<()> {
        let before = *self;
        self.open = None;
        self.last = *now;
        self.cable = cable;
        self.settled = cable == before.cable;
        self.was_whole = before.was_whole || cable == Located::Whole;
        if before.is_as(now, cable) {
            return Ok(());
        }
        if before.last.is_good() {
            self.since = cycle;
        }
        if !now.is_good() {
            return before.tell_bad(cycle, now, cable, setting, lines);
        }
        if !before.last.is_good() {
            tell_end(cycle, cycle.saturating_sub(before.since), lines)?;
        }
        if cable == before.cable || setting.port_fails && cable != Located::Whole {
            return Ok(());
        }
        before.tell_cable(cycle, now, cable, setting.line, lines)
    }

    /// Is what a cycle showed what was told already?
    fn is_as(&self, now: &Showing, cable: Located) -> bool {
        self.last.ended == now.ended
            && self.last.came == now.came
            && self.cable == cable
            && self.last.told_silent(cable) == now.told_silent(cable)
    }

    /// Tells of a cycle that was not good what it showed, where the cable is broken, and since when none was
    /// good, where the one that was told before it was not good either.
    fn tell_bad<W: Write>(
        &self,
        cycle: u64,
        now: &Showing,
        cable: Located,
        setting: Setting<'_>,
        lines: &mut Lines<'_, W>,
    ) -> io::Result<()> {
        put_cycle(cycle, lines)?;
        put_bad(now, cable, setting, lines)?;
        if !self.last.is_good() {
            let since = self.since;
            lines.text(format_args!("; not good since cycle {since}"))?;
        }
        lines.end()
    }

    /// Tells of a good cycle where the cable is broken now, or that it is whole again. A ring that was never
    /// whole has lost no redundancy: at one port of a master alone there is none.
    fn tell_cable<W: Write>(
        &self,
        cycle: u64,
        now: &Showing,
        cable: Located,
        line: &[Wanted],
        lines: &mut Lines<'_, W>,
    ) -> io::Result<()> {
        put_cycle(cycle, lines)?;
        if cable == Located::Whole {
            lines.text("ring whole again")?;
            return lines.end();
        }
        if self.was_whole && !now.is_swapped(cable) {
            lines.text("redundancy lost: ")?;
        }
        put_look(cable, now.swapped, line, lines)?;
        lines.end()
    }
}

/// Where the cable is told to be broken behind a cycle, of which the looks behind it knew this, and a later
/// one that: what was known then, unless it was nothing.
fn known_then(then: Located, later: Located) -> Located {
    match then {
        Located::Unknown | Located::Changed => later,
        _ => then,
    }
}

/// How far the counter moved of the item that a verdict names.
fn came_of(ended: Result<Verdict, CycleFault>, counts: &[u16]) -> u16 {
    match ended {
        Ok(Verdict::Short(item)) | Ok(Verdict::Over(item)) => match counts.get(item) {
            Some(count) => *count,
            None => 0,
        },
        _ => 0,
    }
}

/// Puts the number of a cycle.
pub fn put_cycle<W: Write>(cycle: u64, lines: &mut Lines<'_, W>) -> io::Result<()> {
    lines.text(format_args!("cycle {cycle}: "))
}

/// Tells that cycles are good again, after so many that were not.
fn tell_end<W: Write>(cycle: u64, lasted: u64, lines: &mut Lines<'_, W>) -> io::Result<()> {
    put_cycle(cycle, lines)?;
    lines.text("good again after ")?;
    put_cycles(lasted, lines)?;
    lines.end()
}

/// Puts what a cycle showed that was not good, and where the cable is broken; where it is not, at which ports
/// nothing came.
fn put_bad<W: Write>(
    now: &Showing,
    cable: Located,
    setting: Setting<'_>,
    lines: &mut Lines<'_, W>,
) -> io::Result<()> {
    match now.ended {
        Ok(Verdict::Short(item)) | Ok(Verdict::Over(item)) => {
            put_count(item, now.came, setting.expected, setting.states, lines)?;
        }
        Err(CycleFault::Port) => return put_failed(now.errors, lines),
        Err(CycleFault::Stranger) => lines.text("a copy came that is none of the frame")?,
        Ok(Verdict::Good) => {}
    }
    lines.text("; ")?;
    put_look(cable, now.swapped, setting.line, lines)?;
    now.told_silent(cable).put(lines)
}

/// Puts how often an item was counted, and how often it was to be; of the read of the states, which is behind
/// those of the scene, how many slaves it passed.
fn put_count<W: Write>(
    item: usize,
    came: u16,
    expected: &[u16],
    states: bool,
    lines: &mut Lines<'_, W>,
) -> io::Result<()> {
    let wanted = wanted_of(expected, item);
    if states && item.saturating_add(1) == expected.len() {
        return lines.text(format_args!("slaves: {came} of {wanted} answered"));
    }
    lines.text(CountText { item, came, wanted })
}

/// What the counter of an item is to gain.
fn wanted_of(expected: &[u16], item: usize) -> u16 {
    match expected.get(item) {
        Some(wanted) => *wanted,
        None => 0,
    }
}

/// Puts how many cycles there were, by their ends; and how many of the good ones found not all slaves in Op,
/// where that is known.
pub fn put_counts<W: Write>(
    counts: Counts,
    not_in_op: Option<u64>,
    lines: &mut Lines<'_, W>,
) -> io::Result<()> {
    let Counts {
        cycles,
        good,
        short,
        over,
        fault,
    } = counts;
    lines.text(format_args!(
        "cycles {cycles} good {good} short {short} over {over} fault {fault}"
    ))?;
    match not_in_op {
        Some(not_in_op) => lines.text(format_args!(" not-in-op {not_in_op}")),
        None => Ok(()),
    }
}

/// What a log has of a cycle beside its end: the items as they went out, and as the last good one left them,
/// if there was one.
#[derive(Clone, Copy)]
pub(crate) struct Images<'a> {
    pub(crate) sent: &'a Work,
    pub(crate) image: Option<&'a Work>,
}

/// Writes a line for a cycle that was made: its number, its end, and how far the counter of each of so many
/// items moved; behind a good one where not all slaves were in Op; since when outputs are unsure, where they
/// are; and what went out and what the items hold behind it, where that is asked for.
pub(crate) fn log_cycle<W: Write>(
    cycle: u64,
    end: CycleEnd,
    counts: &[u16],
    items: usize,
    images: Option<Images<'_>>,
    lines: &mut Lines<'_, W>,
) -> io::Result<()> {
    lines.text(format_args!("cycle {cycle} "))?;
    put_end(end.ended, lines)?;
    lines.text(" counts")?;
    for count in counts.iter().take(items) {
        lines.text(format_args!(" {count}"))?;
    }
    if end.ended == Ok(Verdict::Good) && !end.in_op {
        lines.text(" not-in-op")?;
    }
    if let Some(unsure) = end.unsure {
        unsure.put(cycle, lines)?;
    }
    if let Some(images) = images {
        put_images(images, items, lines)?;
    }
    lines.end()
}

/// Puts the data of so many items as they went out, and as they are held; `-` where there was no good cycle.
fn put_images<W: Write>(
    images: Images<'_>,
    items: usize,
    lines: &mut Lines<'_, W>,
) -> io::Result<()> {
    lines.text(" sent ")?;
    put_data(images.sent, items, lines)?;
    lines.text(" image ")?;
    match images.image {
        Some(image) => put_data(image, items, lines),
        None => lines.text("-"),
    }
}

/// Puts the data of so many items of a work, with a comma between two.
fn put_data<W: Write>(work: &Work, items: usize, lines: &mut Lines<'_, W>) -> io::Result<()> {
    for k in 0..work.len().min(items) {
        if k != 0 {
            lines.text(",")?;
        }
        lines.hex(work.item(k).data())?;
    }
    Ok(())
}

/// Puts how a cycle ended.
fn put_end<W: Write>(
    ended: Result<Verdict, CycleFault>,
    lines: &mut Lines<'_, W>,
) -> io::Result<()> {
    match ended {
        Ok(verdict) => lines.text(VerdictText(verdict)),
        Err(CycleFault::Port) => lines.text("fault Port"),
        Err(CycleFault::Stranger) => lines.text("fault Stranger"),
    }
}

/// Writes a line for each item of an image that is the scene's: its data, and how often it was counted.
pub fn tell_image<W: Write>(
    image: &Work,
    expected: &[u16],
    states: bool,
    lines: &mut Lines<'_, W>,
) -> io::Result<()> {
    let count = image.len().saturating_sub(usize::from(states));
    for k in 0..count {
        let item = image.item(k);
        print_item(k, item, item.counter(), wanted_of(expected, k), lines)?;
    }
    Ok(())
}
