//! What a line is answered by.

ghost use Rattle.std.specs.Prelude.{◌≡◌};
ghost use Rattle.ecat_control.specs.Set.{is_set};

use crate::image::{sent_by, taken_by};
use crate::refusal::Refusal;
use crate::request::Part;
use crate::signal::{put_signal, put_signals};
use ecat_master::Known;
use ecat_signals::Signal;
use ecat_text::Lines;
use std::io::{self, Write};

/// What a line came to that was taken, and what it is to be answered by behind the next cycle.
#[derive(Clone, Copy, Default)]
pub enum Answer {
    /// It is done.
    #[default]
    Done,
    /// It is done, and has set outputs.
    Set,
    /// It is refused, and nothing was changed.
    Refused(Refusal),
    /// What an item sent and took is told.
    Get(Part),
    /// What a signal sent and took is told, by its place among those of the scene.
    GetSignal(usize),
    /// The signals are told.
    Signals,
    /// The slaves are told.
    Slaves,
    /// The cable is told.
    Cable,
    /// How many cycles there were is told.
    Counts,
    /// How long they took is told.
    Times,
    /// A slave is asked, and it is answered once that came to an end.
    Later,
}

impl Answer {
    /// Has the line set outputs?
    pub fn has_set(self) -> bool
        ensures { result ≡ is_set self }
    {
        matches!(self, Answer::Set)
    }

    /// Writes what was asked for, of a scene with these signals, and `ok`, or why the line is refused.
    pub fn put<W: Write>(
        self,
        signals: &[Signal],
        known: &Known<'_, '_, '_>,
        lines: &mut Lines<'_, W>,
    ) -> io::Result<()> {
        match self {
            Answer::Later => return Ok(()),
            Answer::Done | Answer::Set => {}
            Answer::Refused(refusal) => {
                lines.text(refusal)?;
                return lines.end();
            }
            Answer::Get(part) => put_part(part, known, lines)?,
            Answer::GetSignal(place) => {
                if let Some(signal) = signals.get(place) {
                    put_signal(signal, known, lines)?;
                }
            }
            Answer::Signals => put_signals(signals, known, lines)?,
            Answer::Slaves => known.put_slaves(lines)?,
            Answer::Cable => known.put_cable(lines)?,
            Answer::Counts => known.put_counts(lines)?,
            Answer::Times => known.put_times(lines)?,
        }
        lines.text("ok")?;
        lines.end()
    }
}

/// Writes each answer, in their order, of a scene with these signals.
pub fn put_answers<W: Write>(
    answers: &[Answer],
    signals: &[Signal],
    known: &Known<'_, '_, '_>,
    lines: &mut Lines<'_, W>,
) -> io::Result<()> {
    for answer in answers {
        answer.put(signals, known, lines)?;
    }
    Ok(())
}

/// Writes what an item sent in the last cycle, where it writes, and what it took in the last good one, where
/// it reads.
fn put_part<W: Write>(
    part: Part,
    known: &Known<'_, '_, '_>,
    lines: &mut Lines<'_, W>,
) -> io::Result<()> {
    if let Some(bytes) = sent_by(known.sent(), part.item) {
        put_bytes("outputs", part, Some(bytes), lines)?;
    }
    if taken_by(known.sent(), part.item).is_some() {
        let bytes = match known.image() {
            Some(image) => taken_by(image, part.item),
            None => None,
        };
        put_bytes("inputs", part, bytes, lines)?;
    }
    Ok(())
}

/// Writes the bytes of a part, or that there are none.
fn put_bytes<W: Write>(
    what: &str,
    part: Part,
    bytes: Option<&[u8]>,
    lines: &mut Lines<'_, W>,
) -> io::Result<()> {
    let item = part.item;
    lines.text(format_args!("item {item} {what} "))?;
    match bytes {
        Some(bytes) => lines.hex(run_of(part, bytes))?,
        None => lines.text("none")?,
    }
    lines.end()
}

/// The bytes of a part, among those of its item.
fn run_of(part: Part, bytes: &[u8]) -> &[u8] {
    match part.run {
        None => bytes,
        Some((offset, count)) => bytes
            .get(offset..offset.saturating_add(count))
            .unwrap_or(&[]),
    }
}
