//! What is printed of a judged cycle: which items are short, and whose copies are lost.

ghost use Rattle.std.specs.Prelude.{Some};
ghost use Rattle.ecat_text.specs.Judgements.{count_words, copies_words};

use crate::lines::Lines;
use ec_master::{CopiesBack, Report};
use std::fmt;
use std::io::{self, Write};

/// How often an item was counted, as it is printed.
#[derive(Drop)]
pub struct CountText {
    /// The number of the item.
    pub item: usize,
    /// How often it was counted.
    pub came: u16,
    /// How often it was to be counted.
    pub wanted: u16,
}

impl fmt::Display for CountText {
    ghost output = { λ count. Some (count_words count) };

    fn fmt<W: fmt::Write>(&self, f: &mut fmt::Formatter<W>) -> fmt::Result {
        let CountText { item, came, wanted } = *self;
        write!(f, "item {item}: came {came} of {wanted}")
    }
}

/// Which copies of a frame came back, as it is printed.
#[derive(Drop)]
struct CopiesText {
    frame: usize,
    copies: CopiesBack,
}

impl fmt::Display for CopiesText {
    ghost output = { λ text. Some (copies_words text) };

    fn fmt<W: fmt::Write>(&self, f: &mut fmt::Formatter<W>) -> fmt::Result {
        let frame = self.frame;
        match (self.copies.a, self.copies.b) {
            (true, true) => write!(f, "frame {frame}: both back"),
            (true, false) => write!(f, "frame {frame}: A back, B lost"),
            (false, true) => write!(f, "frame {frame}: A lost, B back"),
            (false, false) => write!(f, "frame {frame}: both lost"),
        }
    }
}

/// Prints a line for each item that did not count as wanted.
pub fn print_counts<W: Write>(
    report: &Report,
    expected: &[u16],
    lines: &mut Lines<'_, W>,
) -> io::Result<()> {
    for (item, (came, wanted)) in report.counts().iter().zip(expected).enumerate() {
        if came != wanted {
            lines.text(CountText {
                item,
                came: *came,
                wanted: *wanted,
            })?;
            lines.end()?;
        }
    }
    Ok(())
}

/// Prints a line for each frame whose copies did not both come back.
pub fn print_losses<W: Write>(report: &Report, lines: &mut Lines<'_, W>) -> io::Result<()> {
    for (frame, copies) in report.copies().iter().enumerate() {
        if !copies.a || !copies.b {
            lines.text(CopiesText {
                frame,
                copies: *copies,
            })?;
            lines.end()?;
        }
    }
    Ok(())
}
