//! With which working counters some datagrams came, and how often.

ghost use Rattle.std.specs.Prelude.{◌≡◌, [], ◌∷◌, ◌++◌, List, map};
ghost use Rattle.std.specs.List.{list_any};
ghost use Rattle.ecat_list.specs.declared.counters.Came.{Came};
ghost use Rattle.ecat_list.specs.Tally.{IsTally, counts_again, has_counter};

use arrayvec::ArrayVec;
use std::marker::Model;

/// How many working counters of a group are told apart.
const MAX_COUNTERS: usize = 8;

/// Where something is in a capture.
#[derive(Clone, Copy, Default)]
pub(crate) struct Place {
    /// The number of the packet.
    pub packet: u64,
    /// When it was captured, in nanoseconds since the epoch, where the capture tells it.
    pub time: Option<u64>,
}

/// How a datagram of a group came.
#[derive(Clone, Copy)]
pub(crate) struct Came {
    /// Its working counter.
    pub counter: u16,
    /// Where it came.
    pub at: Place,
}

/// A working counter that datagrams of a group came with.
#[derive(Clone, Copy, Default)]
pub(crate) struct Count {
    /// The counter.
    pub counter: u16,
    /// How often it came, up to 2^64 - 1.
    pub times: u64,
    /// Where it came first.
    pub first: Place,
}

impl Count {
    /// Counts one datagram more where it came with this counter.
    fn count(&mut self, counter: u16)
        ensures { self.new ≡ counts_again counter self.old }
    {
        if self.counter == counter {
            self.times = self.times.saturating_add(1);
        }
    }
}

/// The working counters of some datagrams: eight apart, in the order in which they came first, of how many
/// datagrams the counter is another one, and how many datagrams there are.
#[derive(Drop)]
pub(crate) struct Tally {
    told: ArrayVec<Count, MAX_COUNTERS>,
    others: u64,
    times: u64,
}

impl Model for Tally {
    ghost use Rattle.ecat_list.specs.Counts.{TallyRecord};

    ghost Value = { TallyRecord };

    ghost view = { λ t. record { told = t.told.items; others = t.others; times = t.times } };
}

impl Tally {
    /// The counters of no datagrams.
    pub(crate) fn new() -> Tally
        ensures { IsTally [] result }
    {
        Tally {
            told: ArrayVec::new(),
            others: 0,
            times: 0,
        }
    }

    /// Counts one datagram more.
    pub(crate) fn count(&mut self, came: Came)
        ensures { (all : List Came) → IsTally all self.old → IsTally (all ++ came ∷ []) self.new }
    {
        self.times = self.times.saturating_add(1);
        if self.tells(came.counter) {
            count_again(self.told.as_mut_slice(), came.counter);
        } else if self.told.is_full() {
            self.others = self.others.saturating_add(1);
        } else {
            self.told.push(Count {
                counter: came.counter,
                times: 1,
                first: came.at,
            });
        }
    }

    /// Is the counter one of those that are told apart?
    fn tells(&self, counter: u16) -> bool
        ensures { result ≡ list_any (has_counter counter) self.now.told }
    {
        self.told.iter().any(|count| count.counter == counter)
    }

    /// The counters that are told apart.
    pub(crate) fn told(&self) -> &[Count]
        ensures { result.now ≡ self.now.told }
    {
        self.told.as_slice()
    }

    /// How many datagrams there are, up to 2^64 - 1.
    pub(crate) fn times(&self) -> u64
        ensures { result ≡ self.now.times }
    {
        self.times
    }

    /// How many datagrams had another counter than those, up to 2^64 - 1.
    pub(crate) fn others(&self) -> u64
        ensures { result ≡ self.now.others }
    {
        self.others
    }
}

/// Counts a counter once more where it stands.
fn count_again(told: &mut [Count], counter: u16)
    ensures { told.new ≡ map (counts_again counter) told.old }
{
    for count in told.iter_mut() {
        count.count(counter);
    }
}
