//! What is printed of a cycle: its verdict, and the line of each item.

ghost use Rattle.std.specs.Prelude.{◌≡◌, Some};
ghost use Rattle.ecat_text.specs.Cycles.{item_head_words, item_tail_words, verdict_status, verdict_words};

use crate::lines::Lines;
use crate::status::{GOOD, REFUSED};
use ec_map::{Item, Kind};
use ec_master::{MAX_ITEMS, Verdict, Work};
use ec_wire::Command;
use std::fmt;
use std::io::{self, Write};

/// A verdict as it is printed.
#[derive(Drop)]
pub struct VerdictText(pub Verdict);

impl fmt::Display for VerdictText {
    ghost output = { λ text. Some (verdict_words text.0) };

    fn fmt<W: fmt::Write>(&self, f: &mut fmt::Formatter<W>) -> fmt::Result {
        match self.0 {
            Verdict::Good => write!(f, "good"),
            Verdict::Short(item) => write!(f, "short {item}"),
            Verdict::Over(item) => write!(f, "over {item}"),
        }
    }
}

/// The line of an item, as far as its data.
#[derive(Drop)]
struct ItemHead {
    number: usize,
    command: Command,
}

impl fmt::Display for ItemHead {
    ghost output = { λ head. Some (item_head_words head) };

    fn fmt<W: fmt::Write>(&self, f: &mut fmt::Formatter<W>) -> fmt::Result {
        let number = self.number;
        let name = self.command.name();
        write!(f, "item {number} {name} data ")
    }
}

/// The line of an item, behind its data.
#[derive(Drop)]
struct ItemTail {
    counter: u16,
    expected: u16,
    adp: Option<u16>,
}

impl fmt::Display for ItemTail {
    ghost output = { λ tail. Some (item_tail_words tail) };

    fn fmt<W: fmt::Write>(&self, f: &mut fmt::Formatter<W>) -> fmt::Result {
        let counter = self.counter;
        let expected = self.expected;
        match self.adp {
            None => write!(f, " wkc {counter} of {expected}"),
            Some(adp) => write!(f, " wkc {counter} of {expected} adp {adp}"),
        }
    }
}

/// Prints a verdict, and answers the status.
pub fn print_verdict<W: Write>(verdict: Verdict, lines: &mut Lines<'_, W>) -> io::Result<u8> {
    lines.text(VerdictText(verdict))?;
    lines.end()?;
    Ok(status_of(verdict))
}

/// The exit status that a verdict gives.
pub fn status_of(verdict: Verdict) -> u8
    ensures { result ≡ verdict_status verdict }
{
    match verdict {
        Verdict::Good => GOOD,
        Verdict::Short(_) | Verdict::Over(_) => REFUSED,
    }
}

/// Prints a line for each item of the work, with what was expected of its working counter.
pub fn print_items<W: Write>(
    work: &Work,
    expected: &[u16; MAX_ITEMS],
    lines: &mut Lines<'_, W>,
) -> io::Result<()> {
    for k in 0..work.len() {
        let item = work.item(k);
        print_item(k, item, item.counter(), expected[k], lines)?;
    }
    Ok(())
}

/// Prints the line of one item, which was counted so often.
pub fn print_item<W: Write>(
    number: usize,
    item: &Item,
    counter: u16,
    expected: u16,
    lines: &mut Lines<'_, W>,
) -> io::Result<()> {
    let kind = item.kind();
    lines.text(ItemHead {
        number,
        command: kind.command(),
    })?;
    lines.hex(item.data())?;
    lines.text(ItemTail {
        counter,
        expected,
        adp: if kind == Kind::Brd {
            Some(item.adp())
        } else {
            None
        },
    })?;
    lines.end()
}
