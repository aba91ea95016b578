//! Verbs on a line of slaves that are mapped, and on what is asked of it: `ec_check` and `ec_map`.

use crate::answer::Answer;
use crate::items::{act_on_item, item_of, put_item_fault, run_of, tell_of_item, zeros_of};
use crate::records::u32_of;
use crate::slave::{set_fmmu, set_manager};
use crate::words::{Fault, Words};
use ec_app::{Objects, Slave};
use ec_check::check;
use ec_map::{
    Gap, Item, NotShown, PlaceFault, WhyNotShown, check_item, expected, first_not_shown,
    first_uncovered,
};
use ec_regs::Fmmu;
use ec_regs::registers::{FMMU_COUNT, MEMORY_SIZE, PROCESS_MEMORY, SYNC_MANAGER_COUNT};
use std::alloc::Global;
use std::mem::replace;

/// The slaves that stand on a line, and the items that are asked of it.
#[derive(Drop)]
pub struct Stands {
    slaves: Vec<Slave>,
    items: Vec<Item>,
}

/// An FMMU that maps what another maps, so many bytes further in the image; one that is switched off stays.
fn moved(fmmu: Fmmu, bytes: u32) -> Fmmu {
    if fmmu.is_switched_on() {
        let logical = fmmu.logical.wrapping_add(bytes);
        return Fmmu { logical, ..fmmu };
    }
    fmmu
}

/// A slave of the next station with the records and the process memory of another, whose FMMUs map so many
/// bytes further in the image.
fn next_to(alloc: Global, slave: &Slave, bytes: u32) -> Option<Slave> {
    let held = slave.controller();
    let station = held.station().wrapping_add(1);
    let mut next = Slave::new(alloc, station, Objects::new(), 0, 0).ok()?;
    for number in 0..SYNC_MANAGER_COUNT {
        set_manager(&mut next, number, &held.syncman(number));
    }
    for number in 0..FMMU_COUNT {
        set_fmmu(&mut next, number, &moved(held.fmmu(number), bytes));
    }
    fill_memory(
        &mut next,
        held.bytes(PROCESS_MEMORY, MEMORY_SIZE - PROCESS_MEMORY),
    );
    Some(next)
}

/// Gives a slave these bytes as its process memory.
fn fill_memory(slave: &mut Slave, bytes: &[u8]) {
    if bytes.len() == usize::from(MEMORY_SIZE - PROCESS_MEMORY) {
        slave.controller_mut().load(PROCESS_MEMORY, bytes);
    }
}

/// Answers `ok`, or why an item may not go there.
pub fn put_place(answer: &mut Answer, placed: Result<(), PlaceFault>) {
    match placed {
        Ok(()) => answer.put("ok"),
        Err(PlaceFault::OutsideRead { slave, address }) => {
            put_outside(answer, "OutsideRead", slave, address);
        }
        Err(PlaceFault::OutsideWrite { slave, address }) => {
            put_outside(answer, "OutsideWrite", slave, address);
        }
    }
}

/// Answers where an item goes that may not.
fn put_outside(answer: &mut Answer, fault: &'static str, slave: usize, address: u16) {
    answer.put(fault);
    answer.put("slave");
    answer.put(slave);
    answer.put("address");
    answer.hex(u64::from(address));
}

/// Answers a slave and the number of one of its records.
fn put_record(answer: &mut Answer, slave: usize, kind: &'static str, number: usize) {
    answer.put("slave");
    answer.put(slave);
    answer.put(kind);
    answer.put(number);
}

/// Answers the first bit that no item asks for, `none` where there is none.
fn put_gap(answer: &mut Answer, gap: Option<Gap>) {
    match gap {
        Some(gap) => {
            put_record(answer, gap.slave, "fmmu", gap.fmmu);
            answer.name(gap.way);
            answer.put(gap.bit);
        }
        None => answer.put("none"),
    }
}

/// Answers the first area of outputs that is not shown, `none` where there is none.
fn put_not_shown(answer: &mut Answer, not_shown: Option<NotShown>) {
    match not_shown {
        Some(not_shown) => {
            put_record(answer, not_shown.slave, "sm", not_shown.sync_manager);
            put_why(answer, not_shown.why);
        }
        None => answer.put("none"),
    }
}

/// Answers why an area of outputs is not shown.
fn put_why(answer: &mut Answer, why: WhyNotShown) {
    match why {
        WhyNotShown::LeftBy { item } => {
            answer.put("LeftBy");
            answer.put(item);
        }
        WhyNotShown::NeverCompleted => answer.put("NeverCompleted"),
    }
}

impl Stands {
    /// No slaves and no items.
    pub fn new(alloc: Global) -> Stands {
        Stands {
            slaves: Vec::new(alloc),
            items: Vec::new(alloc),
        }
    }

    /// Puts a slave at the end of the line, where there is one.
    pub fn push(&mut self, slave: Option<Slave>, words: &mut Words<'_>) {
        match slave {
            Some(slave) => {
                if self.slaves.push(slave).is_err() {
                    words.refuse(Fault::NoMemory);
                }
            }
            None => words.refuse(Fault::OutOfRange),
        }
    }

    /// The slaves, of which none stands on the line then.
    pub fn take_slaves(&mut self, alloc: Global) -> Vec<Slave> {
        replace(&mut self.slaves, Vec::new(alloc))
    }

    /// The items.
    pub fn items(&self) -> &[Item] {
        self.items.as_slice()
    }

    /// Verbs that change nothing: `check`, `uncovered` and `not_shown` of the line and all items; `place
    /// ITEM` and `counts ITEM` of the line and an item of zeros; and those of the last item.
    pub fn tell(&self, verb: &str, words: &mut Words<'_>, answer: &mut Answer) -> bool {
        match verb {
            "check" => match check(self.slaves.as_slice()) {
                Ok(()) => answer.put("ok"),
                Err(fault) => answer.put(fault),
            },
            "uncovered" => {
                put_gap(
                    answer,
                    first_uncovered(self.slaves.as_slice(), self.items()),
                );
            }
            "not_shown" => {
                put_not_shown(
                    answer,
                    first_not_shown(self.slaves.as_slice(), self.items()),
                );
            }
            "place" => {
                if let Some(item) = zeros_of(words) {
                    put_place(answer, check_item(self.slaves.as_slice(), &item));
                }
            }
            "counts" => {
                if let Some(item) = zeros_of(words) {
                    answer.put(expected(self.slaves.as_slice(), &item));
                }
            }
            "item_fault" => put_item_fault(words, answer),
            _ => return self.tell_of_last(verb, words, answer),
        }
        true
    }

    /// Verbs on the last item.
    fn tell_of_last(&self, verb: &str, words: &mut Words<'_>, answer: &mut Answer) -> bool {
        match self.items.last() {
            Some(item) => tell_of_item(verb, item, words, answer),
            None => false,
        }
    }

    /// Verbs that change the line and the items: `more COUNT BYTES`, so many slaves like the last one, each
    /// of the next station and mapped so many bytes further; `item KIND ADDRESS BYTES` and `item_of KIND
    /// ADDRESS COUNT BYTE`, one more item; and those that set the last one.
    pub fn set(&mut self, verb: &str, words: &mut Words<'_>) -> bool {
        match verb {
            "more" => self.repeat(words),
            "item" => {
                let bytes = item_of(words);
                self.push_item(bytes, words);
            }
            "item_of" => {
                let item = run_of(words);
                self.push_item(item, words);
            }
            _ => return self.set_last(verb, words),
        }
        true
    }

    /// Puts slaves on the line that are like the last one.
    fn repeat(&mut self, words: &mut Words<'_>) {
        let count = words.number(256);
        let bytes = u32_of(words);
        for _ in 0..count {
            let next = match self.slaves.last() {
                Some(slave) => next_to(words.alloc(), slave, bytes),
                None => None,
            };
            self.push(next, words);
        }
    }

    /// Puts an item behind the others, where there is one.
    fn push_item(&mut self, item: Option<Item>, words: &mut Words<'_>) {
        match item {
            Some(item) => {
                if self.items.push(item).is_err() {
                    words.refuse(Fault::NoMemory);
                }
            }
            None => words.refuse(Fault::OutOfRange),
        }
    }

    /// Verbs that set the last item.
    fn set_last(&mut self, verb: &str, words: &mut Words<'_>) -> bool {
        match self.items.pop() {
            Some(item) => {
                let mut item = item;
                let is_known = act_on_item(verb, &mut item, words);
                self.push_item(Some(item), words);
                is_known
            }
            None => false,
        }
    }
}
