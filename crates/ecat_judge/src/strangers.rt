//! The datagrams that no item of the scene asks for.

use crate::table::Key;
use std::alloc::{AllocError, Global};

/// How many groups of them are told apart.
pub(crate) const MAX_GROUPS: usize = 1024;

/// A group of datagrams.
#[derive(Clone, Copy)]
struct Group {
    key: Key,
    /// The group that came after it last time.
    next: usize,
}

/// The datagrams that no item of the scene asks for, by command, address and length.
#[derive(Drop)]
pub(crate) struct Strangers {
    groups: Vec<Group>,
    /// The group that came last.
    last: usize,
    /// How many datagrams there were.
    pub datagrams: u64,
    /// Were there more groups than are told apart?
    pub more: bool,
}

impl Strangers {
    /// None was seen.
    pub(crate) fn new(alloc: Global) -> Strangers {
        Strangers {
            groups: Vec::new(alloc),
            last: 0,
            datagrams: 0,
            more: false,
        }
    }

    /// How many groups there were.
    pub(crate) fn groups(&self) -> usize {
        self.groups.len()
    }

    /// The place of a group, where it has one: often the one that came after the last one before.
    fn place_of(&self, key: Key) -> Option<usize> {
        if let Some(last) = self.groups.get(self.last)
            && let Some(next) = self.groups.get(last.next)
            && next.key == key
        {
            return Some(last.next);
        }
        self.groups.iter().position(|group| group.key == key)
    }

    /// The place of a group, which is added where it is new; `None` where there are too many.
    fn place_for(&mut self, key: Key) -> Result<Option<usize>, AllocError> {
        if let Some(place) = self.place_of(key) {
            return Ok(Some(place));
        }
        let place = self.groups.len();
        if MAX_GROUPS <= place {
            return Ok(None);
        }
        self.groups.push(Group { key, next: 0 })?;
        Ok(Some(place))
    }

    /// Takes a datagram.
    pub(crate) fn take(&mut self, key: Key) -> Result<(), AllocError> {
        self.datagrams = self.datagrams.saturating_add(1);
        let Some(place) = self.place_for(key)? else {
            self.more = true;
            return Ok(());
        };
        if let Some(last) = self.groups.get_mut(self.last) {
            last.next = place;
        }
        self.last = place;
        Ok(())
    }
}
