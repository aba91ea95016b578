//! In which line a scene says something.

use ecat_scene::{number, text_of};
use std::fmt;

/// Something that a scene says in a line of its own. Slaves, their records and items are numbered from 0.
#[derive(Clone, Copy, PartialEq, Eq, Debug)]
pub enum Part {
    /// A slave.
    Slave(usize),
    /// A sync manager of a slave: the slave, and its own number.
    SyncManager(usize, usize),
    /// An FMMU of a slave: the slave, and its own number.
    Fmmu(usize, usize),
    /// An item of the cycle.
    Item(usize),
}

impl fmt::Display for Part {
    fn fmt<W: fmt::Write>(&self, f: &mut fmt::Formatter<W>) -> fmt::Result {
        match *self {
            Part::Slave(slave) => write!(f, "slave {slave}"),
            Part::SyncManager(slave, manager) => write!(f, "slave {slave} sm {manager}"),
            Part::Fmmu(slave, fmmu) => write!(f, "slave {slave} fmmu {fmmu}"),
            Part::Item(item) => write!(f, "item {item}"),
        }
    }
}

/// How many slaves and items the lines of a scene had up to one of them, that one included.
#[derive(Clone, Copy)]
struct Before {
    slaves: usize,
    items: usize,
}

impl Before {
    /// With one line more, which begins with this word.
    fn with(self, first: &str) -> Before {
        match first {
            "slave" => Before {
                slaves: self.slaves.saturating_add(1),
                ..self
            },
            "lrd" | "lwr" | "lrw" | "brd" | "fprd" | "fpwr" => Before {
                items: self.items.saturating_add(1),
                ..self
            },
            _ => self,
        }
    }

    /// Does a line of these words, which is the last one of them, say this?
    fn says(self, first: &str, second: &[u8], part: Part) -> bool {
        match part {
            Part::Slave(slave) => first == "slave" && self.slaves == slave.saturating_add(1),
            Part::SyncManager(slave, manager) => {
                first == "sm" && self.slaves == slave.saturating_add(1) && writes(second, manager)
            }
            Part::Fmmu(slave, fmmu) => {
                first == "fmmu" && self.slaves == slave.saturating_add(1) && writes(second, fmmu)
            }
            Part::Item(item) => {
                let is_item = matches!(first, "lrd" | "lwr" | "lrw" | "brd" | "fprd" | "fpwr");
                is_item && self.items == item.saturating_add(1)
            }
        }
    }
}

/// Does a word write this number?
fn writes(word: &[u8], wanted: usize) -> bool {
    number(word).is_ok_and(|found| found == wanted as u64)
}

/// The number of the line that says something, the first line's being 1; of a record that is set twice that
/// of the last one, which holds.
pub fn line_of(text: &[u8], part: Part) -> Option<usize> {
    let mut found = None;
    let mut line_number = 0usize;
    let mut before = Before {
        slaves: 0,
        items: 0,
    };
    for line in text.split(|byte| *byte == b'\n') {
        line_number = line_number.saturating_add(1);
        let (first, second) = first_words(line);
        let first = text_of(first);
        before = before.with(first);
        if before.says(first, second, part) {
            found = Some(line_number);
        }
    }
    found
}

/// The first two words of a line; none of a comment.
fn first_words(line: &[u8]) -> (&[u8], &[u8]) {
    if line.starts_with(b"#") {
        return (b"", b"");
    }
    let mut words = line
        .split(|byte| *byte == b' ')
        .filter(|word| !word.is_empty());
    let first = words.next().unwrap_or(b"");
    (first, words.next().unwrap_or(b""))
}
