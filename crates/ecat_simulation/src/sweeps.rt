//! `ecat sweep`: the cycle of a scene whole, with each link broken, with each two, and with each copy lost.

ghost use Rattle.std.specs.Prelude.{Some};
ghost use Rattle.ecat_simulation.specs.Sweeps.{case_words, sums_words, swept_words};

use crate::carry::carry;
use ec_diag::seen;
use ec_map::Item;
use ec_master::{CheckedRing, MAX_ITEMS, Verdict, Work, frame_from};
use ec_ring::{Links, Port, Ring, Travel, Weather};
use ecat_scene::{Action, Scene};
use ecat_setup::{LineFailure, push_items, ring_of, set_link};
use ecat_text::{GOOD, Lines, Missing, PortText, REFUSED, VerdictText, missing_of, refuse};
use std::alloc::Global;
use std::fmt;
use std::io::{self, Write};

/// What befalls the ring in one cycle of a sweep.
#[derive(Clone, Copy)]
enum Case {
    /// Nothing.
    Whole,
    /// This link is down.
    Link(usize),
    /// Both links are down.
    Links(usize, usize),
    /// The ring is whole, and of this frame the copy from this port is lost after its slaves.
    Lost(usize, Port),
}

impl fmt::Display for Case {
    ghost output = { λ case. Some (case_words case) };

    fn fmt<W: fmt::Write>(&self, f: &mut fmt::Formatter<W>) -> fmt::Result {
        match self {
            Case::Whole => write!(f, "whole"),
            Case::Link(link) => write!(f, "link {link}"),
            Case::Links(first, second) => write!(f, "links {first},{second}"),
            Case::Lost(frame, port) => {
                let port = PortText(*port);
                write!(f, "frame {frame} copy {port} lost")
            }
        }
    }
}

/// A cycle of a sweep as it is printed.
#[derive(Drop)]
struct SweptText {
    case: Case,
    verdict: Verdict,
    missing: Missing,
}

impl fmt::Display for SweptText {
    ghost output = { λ swept. Some (swept_words swept) };

    fn fmt<W: fmt::Write>(&self, f: &mut fmt::Formatter<W>) -> fmt::Result {
        let case = self.case;
        let verdict = VerdictText(self.verdict);
        let missing = self.missing;
        write!(f, "{case}: {verdict}{missing}")
    }
}

/// How many cycles of a sweep had which verdict.
#[derive(Clone, Copy)]
struct Sums {
    cycles: usize,
    good: usize,
    short: usize,
    over: usize,
}

impl fmt::Display for Sums {
    ghost output = { λ sums. Some (sums_words sums) };

    fn fmt<W: fmt::Write>(&self, f: &mut fmt::Formatter<W>) -> fmt::Result {
        let Sums {
            cycles,
            good,
            short,
            over,
        } = *self;
        write!(f, "cycles {cycles} good {good} short {short} over {over}")
    }
}

impl Sums {
    /// No cycle so far.
    fn new() -> Sums {
        Sums {
            cycles: 0,
            good: 0,
            short: 0,
            over: 0,
        }
    }

    /// Counts a cycle with this verdict.
    fn count(&mut self, verdict: Verdict) {
        self.cycles = self.cycles.saturating_add(1);
        match verdict {
            Verdict::Good => self.good = self.good.saturating_add(1),
            Verdict::Short(_) => self.short = self.short.saturating_add(1),
            Verdict::Over(_) => self.over = self.over.saturating_add(1),
        }
    }
}

/// Checks the line and the items of the scene, and does its cycle once for each case: the whole ring, each
/// link down, each two links down, each copy of each frame lost. Prints a line for each, and then how many
/// were good, short and over. The status is 0 where the whole ring and each single break are good. The
/// actions of the scene are done before, its links are mended, its weathers passed over.
pub fn sweep<W: Write>(alloc: Global, scene: Scene, out: &mut W) -> Result<u8, LineFailure> {
    let mut lines = Lines::new(out);
    if scene.items.is_empty() {
        lines.text("no items: nothing to sweep")?;
        lines.end()?;
        return Ok(REFUSED);
    }
    let Scene {
        slaves,
        links_down,
        actions,
        items,
        ..
    } = scene;
    let mut ring = ring_of(alloc, slaves, links_down.as_slice())?;
    for action in &actions {
        do_action(&mut ring, action)?;
    }
    if refuse(ring.slaves(), items.as_slice(), &mut lines)? {
        return Ok(REFUSED);
    }
    for link in &links_down {
        set_link(&mut ring, *link as usize, true);
    }
    swept(ring, items, out)
}

/// Does all cycles of a sweep of these items over the ring, whose links are all up, and answers the status.
/// Its works are large: they have a frame of their own, which no other command pays for, and stay where they
/// are made.
#[inline(never)]
fn swept<W: Write>(ring: Ring, items: Vec<Item>, out: &mut W) -> Result<u8, LineFailure> {
    if items.len() > MAX_ITEMS {
        return Err(LineFailure::TooMany);
    }
    match &mut CheckedRing::of(ring, counted_work(items)) {
        Ok(cycles) => Ok(Sweeper {
            cycles,
            lines: Lines::new(out),
            sums: Sums::new(),
        }
        .all()?),
        Err(_) => Ok(REFUSED),
    }
}

/// The work of items, of which there are not too many. A result that has a work in it would take its place
/// on the stack once more.
#[inline(never)]
fn counted_work(items: Vec<Item>) -> Work {
    let mut work = Work::new();
    let _ = push_items(&mut work, items);
    work
}

/// Does one action of a scene.
fn do_action(ring: &mut Ring, action: &Action) -> Result<(), LineFailure> {
    match action {
        Action::Step => ring.step_all(),
        Action::Frame(sent) => {
            if carry(ring, sent).is_err() {
                return Err(LineFailure::Stranger);
            }
        }
    }
    Ok(())
}

/// A sweep on its way: its ring, whose links are all up between its cycles, and its work.
#[derive(Drop)]
struct Sweeper<'a, 'o, W> {
    cycles: &'a mut CheckedRing,
    lines: Lines<'o, W>,
    sums: Sums,
}

impl<W: Write> Sweeper<'_, '_, W> {
    /// Does all cycles, with one room for what is sent, and answers the status.
    #[inline(never)]
    fn all(&mut self) -> io::Result<u8> {
        let mut sent = Work::new();
        let whole = self.cycle(Case::Whole, &[], &mut sent)?;
        let singles = self.single_breaks(&mut sent)?;
        for first in 0..=self.last_link() {
            self.breaks_with(first, &mut sent)?;
        }
        for frame in 0..frames_of(self.cycles.work()) {
            self.losses(frame, &mut sent)?;
        }
        self.lines.text(self.sums)?;
        self.lines.end()?;
        if whole == Verdict::Good && singles {
            Ok(GOOD)
        } else {
            Ok(REFUSED)
        }
    }

    /// Each link down in turn. Are all cycles good?
    fn single_breaks(&mut self, sent: &mut Work) -> io::Result<bool> {
        let mut good = true;
        for link in 0..=self.last_link() {
            self.set_link(link, false);
            let verdict = self.cycle(Case::Link(link), &[], sent)?;
            self.set_link(link, true);
            good = good && verdict == Verdict::Good;
        }
        Ok(good)
    }

    /// This link down, and each behind it in turn.
    fn breaks_with(&mut self, first: usize, sent: &mut Work) -> io::Result<()> {
        self.set_link(first, false);
        for second in first.saturating_add(1)..=self.last_link() {
            self.set_link(second, false);
            self.cycle(Case::Links(first, second), &[], sent)?;
            self.set_link(second, true);
        }
        self.set_link(first, true);
        Ok(())
    }

    /// Each copy of this frame lost in turn, on the whole ring.
    fn losses(&mut self, frame: usize, sent: &mut Work) -> io::Result<()> {
        if frame < MAX_ITEMS {
            let mut weathers = [Weather::calm(Links::new()); MAX_ITEMS];
            weathers[frame].lost_a = true;
            self.cycle(Case::Lost(frame, Port::A), &weathers, sent)?;
            weathers[frame].lost_a = false;
            weathers[frame].lost_b = true;
            self.cycle(Case::Lost(frame, Port::B), &weathers, sent)?;
        }
        Ok(())
    }

    /// The number of the last link.
    fn last_link(&self) -> usize {
        self.cycles.ring().slaves().len()
    }

    /// Puts a link up or down, if the ring has it.
    fn set_link(&mut self, link: usize, up: bool) {
        let last = self.cycles.ring().slaves().len();
        if link <= last {
            self.cycles.set_link(link, up);
        }
    }

    /// Does the cycle once, prints its line and counts it. Where the cable is broken is what a frame would
    /// tell that is sent under these links (`seen`).
    fn cycle(&mut self, case: Case, weathers: &[Weather], sent: &mut Work) -> io::Result<Verdict> {
        let verdict = self.cycles.cycle(weathers, sent);
        self.cycles.rewind();
        let ring = self.cycles.ring();
        let slaves = ring.slaves().len();
        let missing = missing_of(slaves, seen(&ring.links(), slaves).cut_off());
        self.sums.count(verdict);
        self.lines.text(SweptText {
            case,
            verdict,
            missing,
        })?;
        self.lines.line()?;
        Ok(verdict)
    }
}

/// How many frames a work goes out in: at most as many as it has items.
fn frames_of(work: &Work) -> usize {
    let mut frames = 0usize;
    let mut first = 0usize;
    for _ in 0..work.len() {
        if first < work.len() {
            first = first.saturating_add(frame_from(work, first).count());
            frames = frames.saturating_add(1);
        }
    }
    frames
}
