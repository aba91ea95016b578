//! What is wrong with a faulty line of a scene, for a person: the column, the word, and what is wanted there.

use crate::forms::{Form, forms_of};
use ecat_scene::{LineFault, is_text, text_of};
use std::fmt;

/// A word of a line, and the column of its first byte, from 1.
#[derive(Clone, Copy)]
struct Word<'a> {
    column: usize,
    text: &'a [u8],
}

impl fmt::Display for Word<'_> {
    fn fmt<W: fmt::Write>(&self, f: &mut fmt::Formatter<W>) -> fmt::Result {
        match str::from_utf8(self.text) {
            Ok(text) => write!(f, "{text}"),
            Err(_) => write!(f, "this"),
        }
    }
}

/// What is wrong with a word, or with the whole line.
#[derive(Clone, Copy)]
enum Reason {
    /// A byte that no text of a scene has.
    Byte(u8),
    /// A comment that does not begin in column 1.
    Comment,
    /// The first word is none of a scene.
    Unknown,
    /// The line has another number of words: how it is written.
    Count(&'static str),
    /// The line belongs to a slave, and there is none above it.
    NoSlave,
    /// The word has another form.
    Form(Form),
    /// The word has the form, and another range.
    Range(Form),
    /// What is wrong, where the words alone do not tell it.
    Told(&'static str),
}

/// What is wrong with a line of a scene; it is printed as `LINE:COLUMN: ` and a sentence.
#[derive(Clone, Copy)]
pub struct Explanation<'a> {
    line: usize,
    first: Word<'a>,
    word: Word<'a>,
    reason: Reason,
}

impl fmt::Display for Explanation<'_> {
    fn fmt<W: fmt::Write>(&self, f: &mut fmt::Formatter<W>) -> fmt::Result {
        let line = self.line;
        let column = self.word.column;
        write!(f, "{line}:{column}: ")?;
        let word = self.word;
        let first = self.first;
        match self.reason {
            Reason::Byte(byte) => write_byte(byte, f),
            Reason::Comment => write!(
                f,
                "a comment begins with # in column 1, on a line of its own{UNLESS}"
            ),
            Reason::Unknown => write!(f, "\"{word}\" is no word of a scene"),
            Reason::Count(usage) => write!(f, "the line wants to be {usage}"),
            Reason::NoSlave => write!(f, "{first} belongs to a slave; slave STATION begins one"),
            Reason::Form(form) => write_wanted(word, form.noun(), first, form, f),
            Reason::Range(form) => write_wanted(word, "out of range", first, form, f),
            Reason::Told(what) => write!(f, "{what}"),
        }
    }
}

/// Writes of a byte that it is no text.
fn write_byte<W: fmt::Write>(byte: u8, f: &mut fmt::Formatter<W>) -> fmt::Result {
    let name = name_of(byte);
    let unless = if matches!(byte, b'\t' | b'\r') {
        UNLESS
    } else {
        ""
    };
    write!(
        f,
        "byte 0x{byte:02x}{name}; a scene is ASCII text, its lines end with LF{unless}"
    )
}

/// Where a person may write so.
const UNLESS: &str = ", unless its first line is: scene 2";

/// Writes what a word is, and what the first word of its line wants in its place.
fn write_wanted<W: fmt::Write>(
    word: Word<'_>,
    noun: &str,
    first: Word<'_>,
    form: Form,
    f: &mut fmt::Formatter<W>,
) -> fmt::Result {
    let wanted = form.wanted();
    write!(f, "\"{word}\" is {noun}; {first} wants {wanted}")
}

/// What a byte is that is no text, if it has a name.
fn name_of(byte: u8) -> &'static str {
    match byte {
        b'\t' => ", a tab",
        b'\r' => ", a carriage return, as of a file with CRLF",
        0xef => ", a byte order mark or a letter outside ASCII",
        0x80..=0xff => ", a letter outside ASCII",
        _ => ", a control character",
    }
}

/// What is wrong with the line of a scene that has this number, from 1, and this fault. `None` where the text
/// has no such line.
pub fn explained<'a>(text: &'a [u8], line: usize, fault: LineFault) -> Option<Explanation<'a>> {
    let content = line_at(text, line)?;
    let first = word_at(content, 0).unwrap_or(Word {
        column: 1,
        text: content,
    });
    let (word, reason) = match fault {
        LineFault::NotText => stray_byte(content),
        LineFault::UnknownWord if first.text.starts_with(b"#") => (first, Reason::Comment),
        LineFault::UnknownWord => (first, Reason::Unknown),
        LineFault::WrongCount => miscounted(content, first),
        LineFault::NoSlave => (first, Reason::NoSlave),
        LineFault::BadNumber => misformed(content, first),
        LineFault::OutOfRange => outside(content, first),
        LineFault::TooMany => (first, Reason::Told(most_of(first.text))),
        LineFault::Twin => (first, Reason::Told(twin_of(first.text))),
        LineFault::BadFrame => (
            first,
            Reason::Told("the bytes are no EtherCAT frame, from its header to its last counter"),
        ),
    };
    Some(Explanation {
        line,
        first,
        word,
        reason,
    })
}

/// The line with this number, from 1.
fn line_at(text: &[u8], number: usize) -> Option<&[u8]> {
    let mut at = 0usize;
    for line in text.split(|byte| *byte == b'\n') {
        at = at.saturating_add(1);
        if at == number {
            return Some(line);
        }
    }
    None
}

/// The word of a line with this number, from 0.
fn word_at(line: &[u8], number: usize) -> Option<Word<'_>> {
    let mut column = 1usize;
    let mut seen = 0usize;
    for text in line.split(|byte| *byte == b' ') {
        if !text.is_empty() {
            if seen == number {
                return Some(Word { column, text });
            }
            seen = seen.saturating_add(1);
        }
        column = column.saturating_add(text.len()).saturating_add(1);
    }
    None
}

/// The first byte of a line that is no text.
fn stray_byte(line: &[u8]) -> (Word<'_>, Reason) {
    for (k, byte) in line.iter().enumerate() {
        if !is_text(*byte) {
            let word = Word {
                column: k.saturating_add(1),
                text: line,
            };
            return (word, Reason::Byte(*byte));
        }
    }
    (
        Word {
            column: 1,
            text: line,
        },
        Reason::Byte(0),
    )
}

/// A line with too few words or too many: perhaps a comment follows them.
fn miscounted<'a>(line: &'a [u8], first: Word<'a>) -> (Word<'a>, Reason) {
    let Some((usage, forms)) = forms_of(first.text) else {
        return (first, Reason::Unknown);
    };
    match word_at(line, forms.len().saturating_add(1)) {
        Some(word) if word.text.starts_with(b"#") => (word, Reason::Comment),
        Some(word) => (word, Reason::Count(usage)),
        None => (first, Reason::Count(usage)),
    }
}

/// The first word of a line whose form is another one.
fn misformed<'a>(line: &'a [u8], first: Word<'a>) -> (Word<'a>, Reason) {
    let Some((_, forms)) = forms_of(first.text) else {
        return (first, Reason::Unknown);
    };
    for (k, form) in forms.iter().enumerate() {
        if let Some(word) = word_at(line, k.saturating_add(1))
            && !form.has(word.text)
        {
            return (word, Reason::Form(*form));
        }
    }
    (first, Reason::Told("a number has another form"))
}

/// The first word of a line that is out of its range, or what else is.
fn outside<'a>(line: &'a [u8], first: Word<'a>) -> (Word<'a>, Reason) {
    let Some((_, forms)) = forms_of(first.text) else {
        return (first, Reason::Unknown);
    };
    for (k, form) in forms.iter().enumerate() {
        if let Some(word) = word_at(line, k.saturating_add(1))
            && !form.is_in_range(word.text)
        {
            return (word, Reason::Range(*form));
        }
    }
    (first, Reason::Told(outside_of(first.text)))
}

/// What is out of range in a line with this first word, where each of its words is in its own.
fn outside_of(first: &[u8]) -> &'static str {
    match text_of(first) {
        "mem" => "the bytes go past the process memory, which ends at 0x2FFF",
        "object" => "the value does not fit its size in bytes",
        "startup" => "an object is written with 1, 2 or 4 bytes",
        "name" => "a name has 64 characters at most, spaces included",
        "pdo" => "what a PDO maps has an index up to 65535, and a subindex and bits up to 255",
        "sii" => "the bytes go past the end of an EEPROM, which has 131072 at the most",
        "signal" => {
            "the item has all bits of a signal, and its kind takes so many: bool 1, u8 and i8 1 to 8, u16 \
             and i16 1 to 16, u32 and i32 1 to 32, f32 32, raw whole bytes"
        }
        "link" | "weather" => {
            "the line has no such link; link 0 is before the first slave, and one is behind each"
        }
        "lrd" | "lwr" | "lrw" => "a logical item has 1 to 1486 bytes, and ends below 0x100000000",
        "brd" => "a broadcast read has 1 to 1486 bytes, and ends below 0x1000",
        "fprd" | "fpwr" => "an addressed item has 1 to 1486 bytes, and ends at 0x2FFF",
        _ => "a number is out of its range",
    }
}

/// What a slave or the scene has already that a line says once more.
fn twin_of(first: &[u8]) -> &'static str {
    match text_of(first) {
        "mirror" | "count" => "a line above puts inputs into this sync manager already",
        "signal" => "a signal above has this name already",
        _ => "the slave has an object with this index and subindex already",
    }
}

/// How many lines of this first word a scene may have.
fn most_of(first: &[u8]) -> &'static str {
    match text_of(first) {
        "slave" => "a scene has 256 slaves at most",
        "object" => "a slave has 32 objects at most",
        "startup" => "a slave has 16 startup objects at most",
        "frame" | "step" => "a scene has 32 actions at most",
        "weather" => "a scene has 32 weathers at most",
        "signal" => "a scene has 256 signals at most",
        "pdo" => "a PDO maps 255 objects at most",
        _ => "a scene has 32 items at most",
    }
}
