//! What is told of a cycle whatever its verdict: how far the counters moved, and which copies came back.

ghost use Rattle.std.specs.Prelude.{◌≡◌, ◌<◌, ◌≤◌, ℕ, List, length, slice_index, Ok, Err};
ghost use Rattle.std.specs.Prelude.{[], ◌∷◌, ◌++◌, take};
ghost use Rattle.ec_master.specs.Ports.{came_or};
ghost use Rattle.ec_master.specs.Report.{counts_of, moved_in, no_report, with_trip};
ghost use Rattle.ec_master.specs.Report.{ReportedTrips, CycleIsTold};
ghost use Rattle.ec_master.specs.declared.cycle.CycleFault.TheVariants.{Port};
ghost use Rattle.ec_master.specs.declared.work.TheConstants.{MAX_ITEMS};

use crate::cycle::{CycleFault, run_cycle};
use crate::ports::Ports;
use crate::verdict::Verdict;
use crate::work::{MAX_ITEMS, Work};
use arrayvec::ArrayVec;
use ec_ring::{Came, PortFault};
use ec_wire::FrameBuf;
use std::marker::Model;

/// Which copies of a frame came back, wherever they arrived.
#[derive(Clone, Copy, PartialEq, Eq, Default, Debug)]
pub struct CopiesBack {
    /// That from port A.
    pub a: bool,
    /// That from port B.
    pub b: bool,
}

/// What came back of the frames of a cycle, whatever its verdict: how far the working counter of each item
/// moved, and which copies of each frame came back. It has none of the data, which only a good verdict
/// certifies. Of either no more is kept than a work has items.
#[derive(Drop)]
pub struct Report {
    counts: ArrayVec<u16, MAX_ITEMS>,
    copies: ArrayVec<CopiesBack, MAX_ITEMS>,
}

impl Model for Report {
    ghost use Rattle.ec_master.specs.Report.{ReportRecord};

    ghost Value = { ReportRecord };

    ghost view = { λ r. record { counts = r.counts.items; copies = r.copies.items } };
}

impl Report {
    /// The report before any frame has gone out.
    pub fn new() -> Report
        ensures { result ≡ no_report }
    {
        Report {
            counts: ArrayVec::new(),
            copies: ArrayVec::new(),
        }
    }

    /// How far the working counter of each item moved, in both copies of its frame together, modulo 65,536;
    /// in the order of the items, as far as their frames have gone out.
    pub fn counts(&self) -> &[u16]
        ensures { result.now ≡ self.now.counts }
    {
        self.counts.as_slice()
    }

    /// Which copies of each frame came back, in the order in which the frames went out.
    pub fn copies(&self) -> &[CopiesBack]
        ensures { result.now ≡ self.now.copies }
    {
        self.copies.as_slice()
    }

    /// Takes one frame more, of which these copies came back.
    fn take(&mut self, sent: &FrameBuf, came: &Came)
        ensures { self.new ≡ with_trip self.old sent.now (Ok came.now) }
    {
        self.take_counts(sent, came);
        self.keep_copies(CopiesBack {
            a: came.a.is_some(),
            b: came.b.is_some(),
        });
    }

    /// Takes how far the counters of one frame more moved.
    fn take_counts(&mut self, sent: &FrameBuf, came: &Came)
        ensures counts { self.new.counts ≡ take MAX_ITEMS (self.old.counts ++ counts_of sent.now came.now) }
        ensures copies { self.new.copies ≡ self.old.copies }
    {
        // For the prover: no more counts are kept than there is room for.
        let _kept = self.counts.len();
        for k in 0..sent.count() {
            self.keep(moved(sent, &came.a, k).wrapping_add(moved(sent, &came.b, k)));
        }
    }

    /// Keeps one count more, while there is room.
    fn keep(&mut self, count: u16)
        ensures counts { (all : List ℕ) → self.old.counts ≡ take MAX_ITEMS all
            → self.new.counts ≡ take MAX_ITEMS (all ++ count ∷ []) }
        ensures copies { self.new.copies ≡ self.old.copies }
    {
        if self.counts.len() < MAX_ITEMS {
            self.counts.push(count);
        }
    }

    /// Keeps which copies of one frame more came back, while there is room.
    fn keep_copies(&mut self, copies: CopiesBack)
        ensures counts { self.new.counts ≡ self.old.counts }
        ensures copies { self.new.copies ≡ take MAX_ITEMS (self.old.copies ++ copies ∷ []) }
    {
        if self.copies.len() < MAX_ITEMS {
            self.copies.push(copies);
        }
    }
}

/// How far the counter of the datagram at `k` moved in a copy; not at all where the copy was lost, or has no
/// such datagram.
fn moved(sent: &FrameBuf, copy: &Option<FrameBuf>, k: usize) -> u16
    requires { k < length sent.now }
    ensures { result ≡ slice_index (moved_in sent.now (came_or copy.now sent.now)) k }
{
    let counter = sent.counter(k);
    match copy {
        Some(frame) if k < frame.count() => frame.counter(k).wrapping_sub(counter),
        _ => 0,
    }
}

/// A master's ports that keep a report of what came back. A cycle over them is a cycle over the ports
/// (`run_cycle`); what is told of it is read afterwards, or before the next one begins.
#[derive(Drop)]
pub struct Reporting<P: Ports> {
    ports: P,
    report: Report,
}

impl<P: Ports> Model for Reporting<P> {
    ghost use Rattle.ec_master.specs.Report.{Reported};

    ghost Value = { Reported P };

    ghost view = { λ r. record { ports = r.ports; report = r.report } };
}

impl<P: Ports> Reporting<P> {
    /// These ports, with nothing reported.
    pub fn new(ports: P) -> Reporting<P>
        ensures ports { result.ports ≡ ports }
        ensures report { result.report ≡ no_report }
    {
        Reporting {
            ports,
            report: Report::new(),
        }
    }

    /// A cycle over the ports (`run_cycle`), and what is told of it. Whatever its verdict, the report has how
    /// far each working counter moved, and which copies of each frame came back: where what came back is what
    /// an accepted ring would give, each count is the sum of the shares of the slaves that were passed, as
    /// often as a copy that came back has passed them (`told`, field `passes`). At a fault it has what came
    /// until then.
    pub fn cycle(&mut self, work: &mut Work, expected: &[u16]) -> Result<Verdict, CycleFault>
        requires { length expected.now ≡ length work.old }
        ensures told { CycleIsTold P.trips self.old.ports work.old expected.now result work.new
            self.new.report self.new.ports }
        ensures counted { result ≡ Err Port → P.failed self.old.ports < P.failed self.new.ports }
        ensures never_lower { P.failed self.old.ports ≤ P.failed self.new.ports }
    {
        self.begin();
        work.are_items();
        run_cycle(self, work, expected)
    }

    /// Begins a report.
    fn begin(&mut self)
        ensures ports { self.new.ports ≡ self.old.ports }
        ensures report { self.new.report ≡ no_report }
    {
        self.report = Report::new();
    }

    /// What is told of the frames that have gone out.
    pub fn report(&self) -> &Report
        ensures { result.now ≡ self.now.report }
    {
        &self.report
    }

    /// The ports.
    pub fn ports(&self) -> &P
        ensures { result.now ≡ self.now.ports }
    {
        &self.ports
    }

    /// The ports, and what is told of the frames that have gone out.
    pub fn into_parts(self) -> (P, Report)
        ensures ports { result.0 ≡ self.ports }
        ensures report { result.1 ≡ self.report }
    {
        (self.ports, self.report)
    }
}

impl<P: Ports> Ports for Reporting<P> {
    ghost trips = { ReportedTrips P.trips };

    ghost failed = { λ r. P.failed r.ports };

    fn trip(&mut self, sent: &FrameBuf) -> Result<Came, PortFault> {
        let came = self.ports.trip(sent)?;
        self.report.take(sent, &came);
        Ok(came)
    }

    fn failures(&self) -> u64 {
        self.ports.failures()
    }
}
