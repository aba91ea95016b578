//! The line of a signal, and whether the signals of a scene lie in their items.

ghost use Rattle.std.specs.Prelude.{◌≡◌, map};
ghost use Rattle.std.specs.List.{list_all, list_any};
ghost use Rattle.ecat_scene.specs.Deeds.{Does};
ghost use Rattle.ecat_scene.specs.Fields.{fitting};
ghost use Rattle.ecat_scene.specs.Scene.{scene_record, signal_record};
ghost use Rattle.ecat_scene.specs.Signals.{field_of, has_item, has_name, is_name_byte, kind_of, name_form};
ghost use Rattle.ecat_scene.specs.Signals.{name_size, signal_line, signal_of, with_signal};
ghost use Rattle.ecat_scene.specs.Words.{Gives};

use crate::fault::{LineFault, Stop};
use crate::numbers::{number, word};
use crate::reader::Reader;
use crate::scene::{MAX_ITEMS, MAX_SIGNAL_NAME, MAX_SIGNALS};
use crate::words::text_of;
use ec_map::Item;
use ecat_signals::{Field, Signal, SignalKind};
use std::alloc::Global;

impl Reader {
    /// `signal NAME ITEM BIT COUNT KIND`
    #[tactic(auto, unfolding(crate::specs::Signals::signal_line))]
    pub(crate) fn signal(&mut self, words: &[&[u8]]) -> Result<(), Stop>
        ensures links { self.new.links.items ≡ self.old.links.items }
        ensures done { Does result (scene_record self.new.scene)
            (signal_line (map (λ word. word.now) words.now) (scene_record self.old.scene)) }
    {
        let [name, item, bit, count, kind] = words else {
            return Err(Stop::Fault(LineFault::WrongCount));
        };
        let signal = signal_of(self.alloc, name, item, bit, count, kind)?;
        self.add_signal(signal)
    }

    /// Adds a signal, and keeps the number of its line.
    #[tactic(auto, using(crate::proofs::SignalLemmas::signals))]
    fn add_signal(&mut self, signal: Signal) -> Result<(), Stop>
        ensures links { self.new.links.items ≡ self.old.links.items }
        ensures done { Does result (scene_record self.new.scene)
            (with_signal (signal_record signal) (scene_record self.old.scene)) }
    {
        if self.scene.signals.len() >= MAX_SIGNALS {
            return Err(Stop::Fault(LineFault::TooMany));
        }
        if has_signal(self.scene.signals.as_slice(), signal.name.as_slice()) {
            return Err(Stop::Fault(LineFault::Twin));
        }
        self.signal_lines.push(self.line)?;
        self.scene.signals.push(signal)?;
        Ok(())
    }

    /// The first line of a signal whose bits do not lie in its item.
    pub(crate) fn line_of_a_wrong_signal(&self) -> usize {
        let items = self.scene.items.as_slice();
        for (k, signal) in self.scene.signals.iter().enumerate() {
            if !has_item(items, signal) {
                return self
                    .signal_lines
                    .as_slice()
                    .get(k)
                    .copied()
                    .unwrap_or(self.line);
            }
        }
        self.line
    }
}

/// Do the bits of each signal lie in its item?
pub(crate) fn have_items(items: &[Item], signals: &[Signal]) -> bool
    ensures { result ≡ list_all (λ signal. has_item items.now (signal_record signal)) signals.now }
{
    signals.iter().all(|signal| has_item(items, signal))
}

/// Do the bits of a signal lie in its item?
fn has_item(items: &[Item], signal: &Signal) -> bool
    ensures { result ≡ has_item items.now (signal_record signal.now) }
{
    match items.get(signal.field.item) {
        Some(item) => signal.field.lies_in(item.len()),
        None => false,
    }
}

/// Has one of the signals this name?
fn has_signal(signals: &[Signal], name: &[u8]) -> bool
    ensures { result ≡ list_any (λ signal. has_name name.now (signal_record signal)) signals.now }
{
    signals.iter().any(|signal| signal.name.as_slice() == name)
}

/// The signal of the words of its line.
#[tactic(auto, unfolding(crate::specs::Signals::signal_of))]
fn signal_of(
    alloc: Global,
    name: &[u8],
    item: &[u8],
    bit: &[u8],
    count: &[u8],
    kind: &[u8],
) -> Result<Signal, Stop>
    ensures { Gives signal_record result (signal_of name.now item.now bit.now count.now kind.now) }
{
    test_signal_name(name)?;
    let item = number(item)?;
    let bit = number(bit)?;
    let count = number(count)?;
    let kind = kind_of(kind)?;
    test_size(name)?;
    let field = field_of(item, bit, count, kind)?;
    let mut text = Vec::new(alloc);
    text.extend_from_slice(name)?;
    Ok(Signal { name: text, field })
}

/// Bits of an item, of which a kind takes so many.
#[tactic(auto, unfolding(crate::specs::Signals::field_of))]
fn field_of(item: u64, bit: u64, count: u64, kind: SignalKind) -> Result<Field, LineFault>
    ensures { result ≡ field_of item bit count kind }
{
    let item = item_of(item)?;
    let bit = usize::from(word(bit)?);
    let count = usize::from(word(count)?);
    if kind.takes(bit, count) {
        Ok(Field {
            item,
            bit,
            count,
            kind,
        })
    } else {
        Err(LineFault::OutOfRange)
    }
}

/// The number as that of an item.
fn item_of(number: u64) -> Result<usize, LineFault>
    ensures { result ≡ fitting MAX_ITEMS number }
{
    if number < MAX_ITEMS as u64 {
        Ok(number as usize)
    } else {
        Err(LineFault::OutOfRange)
    }
}

/// Tests that a word has the form of a signal's name: letters, digits, `_`, `.` and `-`, and no number.
pub fn test_signal_name(word: &[u8]) -> Result<(), LineFault>
    ensures { result ≡ name_form word.now }
{
    if number(word).is_ok() {
        return Err(LineFault::BadNumber);
    }
    if are_name_bytes(word) {
        Ok(())
    } else {
        Err(LineFault::BadNumber)
    }
}

/// Is each byte of a word one of a signal's name?
fn are_name_bytes(word: &[u8]) -> bool
    ensures { result ≡ list_all is_name_byte word.now }
{
    word.iter().all(|byte| is_name_byte(*byte))
}

/// Tests that a signal's name is not too long.
fn test_size(name: &[u8]) -> Result<(), LineFault>
    ensures { result ≡ name_size name.now }
{
    if name.len() <= MAX_SIGNAL_NAME {
        Ok(())
    } else {
        Err(LineFault::OutOfRange)
    }
}

/// Is the byte one of a signal's name?
fn is_name_byte(byte: u8) -> bool
    ensures { result ≡ is_name_byte byte }
{
    matches!(byte, b'a'..=b'z' | b'A'..=b'Z' | b'0'..=b'9' | b'_' | b'.' | b'-')
}

/// The kind of a word.
fn kind_of(kind: &[u8]) -> Result<SignalKind, LineFault>
    ensures { result ≡ kind_of kind.now }
{
    match text_of(kind) {
        "bool" => Ok(SignalKind::Bool),
        "u8" => Ok(SignalKind::U8),
        "i8" => Ok(SignalKind::I8),
        "u16" => Ok(SignalKind::U16),
        "i16" => Ok(SignalKind::I16),
        "u32" => Ok(SignalKind::U32),
        "i32" => Ok(SignalKind::I32),
        "f32" => Ok(SignalKind::F32),
        "raw" => Ok(SignalKind::Raw),
        _ => Err(LineFault::BadNumber),
    }
}
