//! What is told of one group of datagrams.

ghost use Rattle.std.specs.Prelude.{◌≡◌, ◌<◌, [], ◌∷◌, ◌++◌, List, Bool, ℕ};
ghost use Rattle.ecat_list.specs.declared.passed.What.{What};
ghost use Rattle.ecat_list.specs.declared.counters.Came.{Came};
ghost use Rattle.ecat_list.specs.Spans.{AreSpans, bound_of, within};
ghost use Rattle.ecat_list.specs.Stats.{IsGroup, on_the_way, with_passed};

use crate::counters::{Came, Tally};
use crate::histogram::{BUCKETS, Histogram, last_of, upper_of};
use crate::passed::{Passed, Seen, What};
use ec_wire::Command;

/// The longest span.
const LONGEST: u64 = 18_446_744_073_709_551_615;

/// Spans of time, in nanoseconds.
#[derive(Drop)]
pub(crate) struct Spans {
    /// How many, up to 2^64 - 1.
    pub count: u64,
    /// The least one.
    pub least: u64,
    /// The greatest one.
    pub greatest: u64,
    /// All together.
    sum: u64,
    /// How many fall in each bucket.
    histogram: Histogram,
}

impl Spans {
    /// None yet.
    fn new() -> Spans
        ensures { AreSpans [] result }
    {
        Spans {
            count: 0,
            least: LONGEST,
            greatest: 0,
            sum: 0,
            histogram: Histogram::new(),
        }
    }

    /// Takes the time from one moment to another, if both are known.
    fn take(&mut self, from: Option<u64>, to: Option<u64>) {
        let (Some(from), Some(to)) = (from, to) else {
            return;
        };
        self.take_span(to.max(from) - to.min(from));
    }

    /// Takes one.
    fn take_span(&mut self, span: u64)
        ensures { (all : List ℕ) → AreSpans all self.old → AreSpans (all ++ span ∷ []) self.new }
    {
        self.count = self.count.saturating_add(1);
        self.least = self.least.min(span);
        self.greatest = self.greatest.max(span);
        self.sum = self.sum.saturating_add(span);
        self.histogram.take(span);
    }

    /// The upper bound of the bucket in which all end but one in so many, and at most the greatest one.
    pub(crate) fn all_but_one_in(&self, many: u64) -> u64
        requires { 0 < many }
        ensures { result ≡ bound_of self.now.count self.now.greatest many self.now.histogram.counts }
    {
        self.within(last_of(self.count / many, self.count, self.histogram.counts()))
    }

    /// The upper bound of a bucket, and at most the greatest one.
    pub(crate) fn within(&self, bucket: usize) -> u64
        ensures { result ≡ within self.now.greatest bucket }
    {
        if bucket < BUCKETS - 1 {
            upper_of(bucket).min(self.greatest)
        } else {
            self.greatest
        }
    }

    /// How many fall in each bucket.
    pub(crate) fn counts(&self) -> &[u64]
        ensures { result.now ≡ self.now.histogram.counts }
    {
        self.histogram.counts()
    }

    /// The mean of them, 0 of none.
    pub(crate) fn mean(&self) -> u64 {
        if self.count == 0 {
            0
        } else {
            self.sum / self.count
        }
    }
}

/// When the datagrams of a group were sent, and how soon they came back.
#[derive(Drop)]
pub(crate) struct Times {
    /// From one that was sent to the next.
    pub every: Spans,
    /// From one that was sent to its return.
    pub back: Spans,
    last: Option<u64>,
}

impl Times {
    /// Of no datagram.
    fn new() -> Times {
        Times {
            every: Spans::new(),
            back: Spans::new(),
            last: None,
        }
    }

    /// Takes a datagram.
    fn take(&mut self, seen: &Seen) {
        match seen.what {
            What::Sent => {
                self.every.take(self.last, seen.at.time);
                self.last = seen.at.time;
            }
            What::Returned => self.back.take(seen.began, seen.at.time),
            What::Lost | What::CameLate | What::CameAstray => {}
        }
    }
}

/// Datagrams that have their key in common.
#[derive(Drop)]
pub(crate) struct Group {
    /// Their command.
    pub command: Command,
    /// Those that were sent.
    pub sent: Tally,
    /// Those that came back, with how far their counters moved.
    pub back: Tally,
    /// Those that were sent and lost.
    pub lost: Tally,
    /// Those that came back of trips that were lost.
    pub late: Tally,
    /// Those that came of nothing that was sent.
    pub astray: Tally,
    /// Their times.
    pub times: Times,
}

impl Group {
    /// A group of which nothing went by yet.
    pub(crate) fn new(command: Command) -> Group
        ensures { IsGroup (λ (is : What → Bool). []) result }
    {
        Group {
            command,
            sent: Tally::new(),
            back: Tally::new(),
            lost: Tally::new(),
            late: Tally::new(),
            astray: Tally::new(),
            times: Times::new(),
        }
    }

    /// Takes a datagram of this group.
    pub(crate) fn take(&mut self, passed: &Passed)
        ensures { (all : (What → Bool) → List Came) → IsGroup all self.old
            → IsGroup (with_passed passed.now all) self.new }
    {
        let came = Came {
            counter: passed.counter,
            at: passed.seen.at,
        };
        self.times.take(&passed.seen);
        match passed.seen.what {
            What::Sent => self.sent.count(came),
            What::Returned => self.back.count(came),
            What::Lost => self.lost.count(came),
            What::CameLate => self.late.count(came),
            What::CameAstray => self.astray.count(came),
        }
    }

    /// How many were sent, and neither came back nor were lost.
    pub(crate) fn on_the_way(&self) -> u64
        ensures { result ≡ on_the_way self.now }
    {
        self.sent
            .times()
            .saturating_sub(self.back.times())
            .saturating_sub(self.lost.times())
    }
}
