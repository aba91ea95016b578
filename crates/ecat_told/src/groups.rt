//! How often each datagram of a cycle came back, with which counters, and how far apart.

use ec_wire::Command;
use std::alloc::{AllocError, Global};

/// How many counters of a group are told apart.
pub(crate) const COUNTERS: usize = 8;

/// How many groups are told apart; further ones are counted together.
const MAX_GROUPS: usize = 1024;

/// A counter, and how often it came.
#[derive(Clone, Copy)]
pub(crate) struct Counted {
    /// How far the counter had moved.
    pub counter: u16,
    /// How often it had; 0 where the place is free.
    pub times: u64,
}

/// A datagram that came back, but for its data.
#[derive(Clone, Copy)]
pub(crate) struct Came {
    /// The packet in which it was sent.
    pub packet: u64,
    /// Its place in the frame.
    pub place: usize,
    /// When it was sent, in nanoseconds.
    pub time: Option<u64>,
    /// How far its counter had moved.
    pub moved: u16,
}

/// How often a datagram came back.
#[derive(Clone, Copy)]
pub(crate) struct Count {
    /// How often.
    pub times: u64,
    /// The packet in which it was sent first.
    pub packet: u64,
    /// Its place in that frame.
    pub place: usize,
    /// When it was sent first and last, in nanoseconds.
    pub first: Option<u64>,
    pub last: Option<u64>,
    /// The counters in the order in which they came first, eight at most.
    pub counters: [Counted; COUNTERS],
    /// How often others came.
    pub others: u64,
}

impl Count {
    /// It has not come.
    fn new() -> Count {
        Count {
            times: 0,
            packet: 0,
            place: 0,
            first: None,
            last: None,
            counters: [Counted {
                counter: 0,
                times: 0,
            }; COUNTERS],
            others: 0,
        }
    }

    /// It came once more.
    fn take(&mut self, came: &Came) {
        if self.times == 0 {
            self.packet = came.packet;
            self.place = came.place;
            self.first = came.time;
        }
        self.times = self.times.saturating_add(1);
        self.last = came.time;
        if !count_counter(&mut self.counters, came.moved) {
            self.others = self.others.saturating_add(1);
        }
    }

    /// The mean time between two, in nanoseconds.
    pub(crate) fn period(&self) -> Option<u64> {
        let first = self.first?;
        let last = self.last?;
        let gaps = self.times.saturating_sub(1);
        if gaps == 0 {
            None
        } else {
            Some(last.saturating_sub(first) / gaps)
        }
    }

    /// Did it come first in front of another one?
    pub(crate) fn is_before(&self, other: &Count) -> bool {
        self.packet < other.packet || self.packet == other.packet && self.place < other.place
    }
}

/// Counts a counter, if it has a place or one is free.
fn count_counter(counters: &mut [Counted], counter: u16) -> bool {
    for entry in counters.iter_mut() {
        if entry.times == 0 || entry.counter == counter {
            entry.counter = counter;
            entry.times = entry.times.saturating_add(1);
            return true;
        }
    }
    false
}

/// What datagrams of one group have in common.
#[derive(Clone, Copy, PartialEq, Eq)]
pub(crate) struct Key {
    /// The command's code.
    pub code: u8,
    /// The address, of a broadcast without the ADP.
    pub address: u32,
    /// The number of data bytes.
    pub length: usize,
}

/// Datagrams of one command, address and length.
#[derive(Drop)]
pub(crate) struct Group {
    /// What they have in common.
    pub key: Key,
    /// Their command.
    pub command: Command,
    /// All in the capture.
    pub all: Count,
    /// Those behind the last AL request.
    pub now: Count,
    /// Those between the last AL request in front of the line and the next one.
    pub line: Count,
    /// The data of the last one, where they are kept.
    pub last: Vec<u8>,
    /// The group that came after it last time.
    next: usize,
}

/// The groups of a capture, in the order in which they came first.
#[derive(Drop)]
pub(crate) struct Groups {
    alloc: Global,
    groups: Vec<Group>,
    /// The group that came last.
    last: usize,
    /// How many datagrams are of further groups.
    pub further: u64,
    /// How many AL requests there were, and how many in front of the line.
    epoch: u64,
    line: u64,
    /// Are the last data kept?
    keeps: bool,
}

impl Groups {
    /// No datagram came yet; `keeps` tells whether the last data are kept.
    pub(crate) fn new(alloc: Global, keeps: bool) -> Groups {
        Groups {
            alloc,
            groups: Vec::new(alloc),
            last: 0,
            further: 0,
            epoch: 0,
            line: 0,
            keeps,
        }
    }

    /// The place of a group: often the one that came after the last one before.
    fn place_of(&self, key: Key) -> Option<usize> {
        if let Some(last) = self.groups.get(self.last)
            && let Some(next) = self.groups.get(last.next)
            && next.key == key
        {
            return Some(last.next);
        }
        self.groups.iter().position(|group| group.key == key)
    }

    /// The place of a group, which is added where it is new; `None` where there are too many.
    fn place_for(&mut self, key: Key, command: Command) -> Result<Option<usize>, AllocError> {
        if let Some(place) = self.place_of(key) {
            return Ok(Some(place));
        }
        let place = self.groups.len();
        if MAX_GROUPS <= place {
            return Ok(None);
        }
        self.groups.push(Group {
            key,
            command,
            all: Count::new(),
            now: Count::new(),
            line: Count::new(),
            last: Vec::new(self.alloc),
            next: 0,
        })?;
        Ok(Some(place))
    }

    /// Takes a datagram that came back.
    pub(crate) fn take(
        &mut self,
        key: Key,
        command: Command,
        came: &Came,
        bytes: &[u8],
    ) -> Result<(), AllocError> {
        let Some(place) = self.place_for(key, command)? else {
            self.further = self.further.saturating_add(1);
            return Ok(());
        };
        if let Some(last) = self.groups.get_mut(self.last) {
            last.next = place;
        }
        self.last = place;
        let keeps = self.keeps;
        if let Some(group) = self.groups.get_mut(place) {
            group.all.take(came);
            group.now.take(came);
            if keeps {
                group.last.clear();
                group.last.extend_from_slice(bytes)?;
            }
        }
        Ok(())
    }

    /// An AL request: what comes behind it is counted anew.
    pub(crate) fn request(&mut self) {
        let keeps_line = self.epoch == self.line;
        for group in self.groups.iter_mut() {
            if keeps_line {
                group.line = group.now;
            }
            group.now = Count::new();
        }
        self.epoch = self.epoch.saturating_add(1);
    }

    /// The line is as it is now.
    pub(crate) fn find(&mut self) {
        self.line = self.epoch;
    }

    /// Ends the count of the line.
    pub(crate) fn end(&mut self) {
        if self.epoch == self.line {
            for group in self.groups.iter_mut() {
                group.line = group.now;
            }
        }
    }

    /// The groups, in the order in which they came first.
    pub(crate) fn groups(&self) -> &[Group] {
        self.groups.as_slice()
    }
}
