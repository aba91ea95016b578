//! What the cycle of a capture asks that has no start-up, and what usually came back.

use crate::groups::{Count, Counted, Group};
use crate::learner::Learner;
use crate::page::{MOST_DATA, count_of, item_address, kind_of, most, next_item};
use ec_map::Item;
use ecat_scene::MAX_ITEMS;
use std::alloc::{AllocError, Global};

/// The items of a cycle, and the counters with which they came back most often.
#[derive(Drop)]
pub struct Usual {
    /// The items, in the order in which they came first.
    pub items: Vec<Item>,
    /// The most frequent counter of each.
    pub counters: Vec<u16>,
}

impl Usual {
    /// No item is known.
    pub fn new(alloc: Global) -> Usual {
        Usual {
            items: Vec::new(alloc),
            counters: Vec::new(alloc),
        }
    }

    /// Is no item known?
    pub fn is_empty(&self) -> bool {
        self.items.is_empty()
    }

    /// Takes the item of a group, if it may be one, with its most frequent counter.
    fn take(&mut self, group: &Group, count: &Count) -> Result<(), AllocError> {
        let Some(kind) = kind_of(group.command) else {
            return Ok(());
        };
        let zeros = [0u8; MOST_DATA];
        let length = group.key.length.min(MOST_DATA);
        let address = item_address(kind, group.key.address);
        match Item::new(kind, address, &zeros[..length]) {
            Ok(item) => {
                self.items.push(item)?;
                self.counters.push(most_frequent(&count.counters))?;
            }
            Err(_) => {}
        }
        Ok(())
    }

    /// Takes the items that were learned, 32 at most.
    pub(crate) fn take_all(&mut self, learner: &Learner) -> Result<(), AllocError> {
        let groups = learner.groups.groups();
        let all = most(groups, false) < 3;
        let most = most(groups, all);
        let mut behind: Option<&Count> = None;
        for _ in 0..MAX_ITEMS {
            let Some(group) = next_item(groups, all, most, behind) else {
                return Ok(());
            };
            self.take(group, count_of(group, all))?;
            behind = Some(count_of(group, all));
        }
        Ok(())
    }
}

/// The counter that came most often, the greatest one where several did.
fn most_frequent(counters: &[Counted]) -> u16 {
    let mut found = 0;
    let mut times = 0;
    for entry in counters {
        if times < entry.times || times == entry.times && found < entry.counter {
            found = entry.counter;
            times = entry.times;
        }
    }
    found
}
