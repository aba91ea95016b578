//! What the copies of frames tell whatever the verdict on them.

ghost use Rattle.std.specs.Prelude.{◌≡◌, ◌||◌, ◌++◌, ◌∷◌, ◌<◌, ℕ, List, [], length, take};
ghost use Rattle.ec_master.specs.declared.work.TheConstants.{MAX_ITEMS};
ghost use Rattle.ec_run.specs.Tally.{arrived, has_come, way_between, ways_of, worse, moved, moved_to};
ghost use Rattle.ec_run.specs.Tally.{moved_in_both, first_of, total_of, nothing_told, with_frame};
ghost use Rattle.ec_run.specs.Tally.{without_counts, came_at, signs_of};

use arrayvec::ArrayVec;
use ec_master::MAX_ITEMS;
use ec_ring::{Arrival, Arrivals, Port};
use ec_wire::FrameBuf;
use std::marker::Model;

/// How the copies of the frames of a cycle came back.
#[derive(Clone, Copy, PartialEq, Eq, Debug)]
pub enum Ways {
    /// Each copy arrived at the port where it did not start: the cable is whole.
    Crossed,
    /// All copies came back, and one of them at the port where it started: it met a link that is down.
    Turned,
    /// A copy did not come back.
    Lost,
}

/// What the copies of the frames of a cycle told.
#[derive(Clone, Copy, PartialEq, Eq, Debug)]
pub struct Signs {
    /// How they came back.
    pub ways: Ways,
    /// How far the counters moved in the copies from port A alone, all together modulo 65,536.
    pub by_a: u16,
}

/// What the copies of frames told, of the frames that were taken (IEC 61158-4-12, working counter): how they
/// came back, at which ports, and how far each working counter moved. Of counters no more is kept than a work
/// has items.
#[derive(Drop)]
pub struct Tally {
    ways: Ways,
    by_a: u16,
    counts: ArrayVec<u16, MAX_ITEMS>,
    at_a: bool,
    at_b: bool,
}

impl Model for Tally {
    ghost use Rattle.ec_run.specs.Tally.{TallyRecord};

    ghost Value = { TallyRecord };

    ghost view = { λ h. record {
      ways = h.ways;
      by_a = h.by_a;
      counts = h.counts.items;
      at_a = h.at_a;
      at_b = h.at_b;
    } };
}

impl Tally {
    /// What is told before any frame has gone out.
    pub fn new() -> Tally
        ensures { result ≡ nothing_told }
    {
        Tally {
            ways: Ways::Crossed,
            by_a: 0,
            counts: ArrayVec::new(),
            at_a: false,
            at_b: false,
        }
    }

    /// How the copies came back, and how far the counters moved in those from port A.
    pub fn signs(&self) -> Signs
        ensures { result ≡ signs_of self.now }
    {
        Signs {
            ways: self.ways,
            by_a: self.by_a,
        }
    }

    /// How far the working counter of each datagram moved, in both copies of its frame together, modulo
    /// 65,536; in the order in which they went out.
    pub fn counts(&self) -> &[u16]
        ensures { result.now ≡ self.now.counts }
    {
        self.counts.as_slice()
    }

    /// Did any copy come at this port?
    pub fn is_at(&self, port: Port) -> bool
        ensures { result ≡ came_at port self.now }
    {
        match port {
            Port::A => self.at_a,
            Port::B => self.at_b,
        }
    }

    /// Takes what the copies of one frame more told.
    pub fn take(&mut self, sent: &FrameBuf, came: &Arrivals)
        ensures { self.new ≡ with_frame self.old sent.now came.now }
    {
        self.at_a = has_come(self.at_a, came, Port::A);
        self.at_b = has_come(self.at_b, came, Port::B);
        self.ways = worse(self.ways, ways_of(came));
        self.by_a = self.by_a.wrapping_add(total_of(sent, &came.a));
        self.take_counts(sent, came);
    }

    /// Takes how far the counters of one frame more moved.
    fn take_counts(&mut self, sent: &FrameBuf, came: &Arrivals)
        ensures counts { self.new.counts ≡ take MAX_ITEMS (self.old.counts
            ++ first_of (moved_in_both sent.now came.now) (length sent.now)) }
        ensures rest { without_counts self.new ≡ without_counts self.old }
    {
        // For the prover: no more counts are kept than there is room for.
        let _kept = self.counts.len();
        for k in 0..sent.count() {
            self.keep(moved(sent, &came.a, k).wrapping_add(moved(sent, &came.b, k)));
        }
    }

    /// Keeps one count more, while there is room.
    fn keep(&mut self, count: u16)
        ensures counts { (all : List ℕ) → self.old.counts ≡ take MAX_ITEMS all
            → self.new.counts ≡ take MAX_ITEMS (all ++ count ∷ []) }
        ensures rest { without_counts self.new ≡ without_counts self.old }
    {
        if self.counts.len() < MAX_ITEMS {
            self.counts.push(count);
        }
    }
}

/// Did the copy arrive at this port?
fn arrived(copy: &Option<Arrival>, port: Port) -> bool
    ensures { result ≡ arrived copy.now port }
{
    match copy {
        Some(arrival) => arrival.at == port,
        None => false,
    }
}

/// Did a copy come at this port, before or of this frame?
fn has_come(before: bool, came: &Arrivals, port: Port) -> bool
    ensures { result ≡ has_come before came.now port }
{
    before || arrived(&came.a, port) || arrived(&came.b, port)
}

/// How copies came back that arrived at these ports.
fn way_between(a: Port, b: Port) -> Ways
    ensures { result ≡ way_between a b }
{
    match (a, b) {
        (Port::B, Port::A) => Ways::Crossed,
        (Port::A, Port::A) | (Port::A, Port::B) | (Port::B, Port::B) => Ways::Turned,
    }
}

/// How the copies of one frame came back.
fn ways_of(came: &Arrivals) -> Ways
    ensures { result ≡ ways_of came.now.a came.now.b }
{
    match &came.a {
        None => Ways::Lost,
        Some(a) => match &came.b {
            None => Ways::Lost,
            Some(b) => way_between(a.at, b.at),
        },
    }
}

/// The worse of two ways.
fn worse(one: Ways, other: Ways) -> Ways
    ensures { result ≡ worse one other }
{
    match (one, other) {
        (Ways::Crossed, other) => other,
        (Ways::Turned, Ways::Lost) => Ways::Lost,
        (Ways::Turned, _) => Ways::Turned,
        (Ways::Lost, _) => Ways::Lost,
    }
}

/// How far the counter of the datagram at `k` moved in a copy; not at all where the copy was lost, or has no
/// such datagram.
fn moved(sent: &FrameBuf, copy: &Option<Arrival>, k: usize) -> u16
    requires { k < length sent.now }
    ensures { result ≡ moved sent.now copy.now k }
{
    match copy {
        Some(arrival) => moved_to(sent, &arrival.frame, k),
        None => 0,
    }
}

/// How far the counter of the datagram at `k` moved in a frame; not at all where it has no such datagram.
fn moved_to(sent: &FrameBuf, copy: &FrameBuf, k: usize) -> u16
    requires { k < length sent.now }
    ensures { result ≡ moved_to sent.now copy.now k }
{
    if k < copy.count() {
        copy.counter(k).wrapping_sub(sent.counter(k))
    } else {
        0
    }
}

/// How far the counters moved in a copy, all together modulo 65,536.
fn total_of(sent: &FrameBuf, copy: &Option<Arrival>) -> u16
    ensures { result ≡ total_of (moved sent.now copy.now) (length sent.now) }
{
    let mut total = 0u16;
    for k in 0..sent.count() {
        total = total.wrapping_add(moved(sent, copy, k));
    }
    total
}
