//! Trips, one after the other, in which each item has one counter.

use crate::times::At;
use crate::verdict::Counted;
use std::alloc::{AllocError, Global};

/// What is told of the bad trips of a run.
#[derive(Clone, Copy, PartialEq, Eq, Debug)]
pub(crate) enum Kind {
    /// What was missing.
    Missing,
    /// That one of two copies did not come back.
    Alone,
    /// That more counted than the slaves of the scene.
    More,
}

/// A run of trips.
#[derive(Drop)]
pub(crate) struct Run {
    /// How far the counter of each item moved in it; `None` of an item that no trip had.
    counters: Vec<Option<u16>>,
    /// What is told of its bad trips.
    pub kind: Kind,
    /// Does anything fit that has a name?
    pub is_explained: bool,
    /// How many slaves its bad trips passed, where an ADP tells.
    pub grown: Option<u16>,
    /// The packet in which the first bad trip was sent.
    pub first: At,
    /// The packet in which the last one came back.
    pub last: At,
    /// How many were bad.
    pub times: u64,
}

/// No packet.
const NOWHERE: At = At {
    packet: 0,
    time: None,
};

impl Run {
    /// A run of so many items that has no trip yet.
    pub(crate) fn new(alloc: Global, items: usize) -> Result<Run, AllocError> {
        let mut counters = Vec::new(alloc);
        for _ in 0..items {
            counters.push(None)?;
        }
        Ok(Run {
            counters,
            kind: Kind::Missing,
            is_explained: false,
            grown: None,
            first: NOWHERE,
            last: NOWHERE,
            times: 0,
        })
    }

    /// Begins anew.
    pub(crate) fn clear(&mut self) {
        for counter in self.counters.iter_mut() {
            *counter = None;
        }
        self.kind = Kind::Missing;
        self.is_explained = false;
        self.grown = None;
        self.times = 0;
    }

    /// How far the counter of an item moved, if a trip had it.
    pub(crate) fn counter_of(&self, item: usize) -> Option<u16> {
        match self.counters.get(item) {
            Some(counter) => *counter,
            None => None,
        }
    }

    /// Has it several items, and did the counter of none of them move?
    pub(crate) fn counted_none(&self) -> bool {
        let mut items = 0u64;
        for counter in self.counters.as_slice() {
            if let Some(moved) = counter {
                if *moved != 0 {
                    return false;
                }
                items = items.saturating_add(1);
            }
        }
        1 < items
    }

    /// Has a trip the counters of the run?
    pub(crate) fn agrees(&self, found: &[Counted]) -> bool {
        for counted in found {
            if let Some(counter) = self.counter_of(counted.item)
                && counter != counted.moved
            {
                return false;
            }
        }
        true
    }

    /// May a bad trip of which this is told be one of the run?
    pub(crate) fn is_of(&self, kind: Kind, grown: Option<u16>) -> bool {
        if self.times == 0 {
            return true;
        }
        if self.kind != kind {
            return false;
        }
        match self.grown {
            None => true,
            Some(before) => match grown {
                None => true,
                Some(now) => before == now,
            },
        }
    }

    /// Takes the counters of a trip.
    pub(crate) fn take(&mut self, found: &[Counted]) {
        for counted in found {
            if let Some(counter) = self.counters.get_mut(counted.item) {
                *counter = Some(counted.moved);
            }
        }
    }

    /// Takes a bad trip, which was sent and came back in these packets.
    pub(crate) fn take_bad(&mut self, sent: At, back: At, kind: Kind, grown: Option<u16>) {
        if self.times == 0 {
            self.first = sent;
            self.kind = kind;
        }
        if grown.is_some() {
            self.grown = grown;
        }
        self.last = back;
        self.times = self.times.saturating_add(1);
    }
}
