//! Which word of a command line is no number in its range: a help for a person, beside the fault.

use crate::args::{GREATEST_PORT, LEAST_COUNT, LEAST_PORT, address_of};
use crate::number::{number, value_of};
use std::fmt;

/// What a word of the command line has to be.
#[derive(Clone, Copy, Debug)]
enum Form {
    /// A number from one to another one.
    Number(u32, u32),
    /// A value of one, two or four bytes.
    Value,
    /// An IPv4 address.
    Address,
}

impl Form {
    /// Does a text have this form?
    fn has(self, text: &str) -> bool {
        match self {
            Form::Number(least, most) => number(text, least, most).is_some(),
            Form::Value => value_of(text).is_some(),
            Form::Address => address_of(text).is_some(),
        }
    }
}

impl fmt::Display for Form {
    fn fmt<W: fmt::Write>(&self, f: &mut fmt::Formatter<W>) -> fmt::Result {
        match *self {
            Form::Number(least, most) => {
                write!(
                    f,
                    "{least} to {most}, as decimal digits or as 0x and hexadecimal ones"
                )
            }
            Form::Value => write!(f, "0x and 2, 4 or 8 hexadecimal digits"),
            Form::Address => write!(f, "an IPv4 address, as 127.0.0.1"),
        }
    }
}

/// A word of the command line that is bad, and what it has to be; it is printed as a sentence.
#[derive(Clone, Copy, Debug)]
pub struct BadWord<'a> {
    name: &'static str,
    text: &'a str,
    form: Form,
}

impl fmt::Display for BadWord<'_> {
    fn fmt<W: fmt::Write>(&self, f: &mut fmt::Formatter<W>) -> fmt::Result {
        let name = self.name;
        let text = self.text;
        let form = self.form;
        write!(f, "{name} is \"{text}\"; it wants {form}")
    }
}

/// The options whose values have a form, with their names as they are printed.
const OPTIONS: [(&str, Form); 9] = [
    ("--port", Form::Number(LEAST_PORT, GREATEST_PORT)),
    ("--packets", Form::Number(LEAST_COUNT, u32::MAX)),
    ("--bind", Form::Address),
    ("--cycles", Form::Number(LEAST_COUNT, u32::MAX)),
    ("--every", Form::Number(LEAST_COUNT, u32::MAX)),
    ("--limit", Form::Number(LEAST_COUNT, u32::MAX)),
    ("--late", Form::Number(LEAST_COUNT, u32::MAX)),
    ("--io-stale", Form::Number(LEAST_COUNT, u32::MAX)),
    ("--tries", Form::Number(LEAST_COUNT, u32::MAX)),
];

/// The words of `sdo` behind its scene, in their order.
const OF_SDO: [(&str, Form); 4] = [
    ("STATION", Form::Number(0, u16::MAX as u32)),
    ("INDEX", Form::Number(0, u16::MAX as u32)),
    ("SUB", Form::Number(0, u8::MAX as u32)),
    ("VALUE", Form::Value),
];

/// The first word of a command line that is no number, value or address as its place wants it, if there is
/// one; `words` begins with the program's name.
pub fn bad_word<'a>(words: &'a [&'a str]) -> Option<BadWord<'a>> {
    let is_sdo = words.get(1).is_some_and(|word| *word == "sdo");
    if is_sdo && let Some(bad) = bad_word_of_sdo(words) {
        return Some(bad);
    }
    let is_learn = words.get(1).is_some_and(|word| *word == "learn");
    if is_learn {
        return bad_value(words, "--at", Form::Number(LEAST_COUNT, u32::MAX));
    }
    let is_sii = words.get(1).is_some_and(|word| *word == "sii");
    if is_sii {
        return bad_place(words);
    }
    for (name, form) in OPTIONS {
        if let Some(bad) = bad_value(words, name, form) {
            return Some(bad);
        }
    }
    None
}

/// The value that an option of this name is given, where it has not the form that it has to have.
fn bad_value<'a>(words: &'a [&'a str], name: &'static str, form: Form) -> Option<BadWord<'a>> {
    let text = value_behind(words, name)?;
    if form.has(text) {
        return None;
    }
    Some(BadWord { name, text, form })
}

/// The first bad one of the words of `sdo` behind its scene.
fn bad_word_of_sdo<'a>(words: &'a [&'a str]) -> Option<BadWord<'a>> {
    for (k, (name, form)) in OF_SDO.into_iter().enumerate() {
        // The scene is the first of them.
        if let Some(text) = plain_word(words, k + 1)
            && !form.has(text)
        {
            return Some(BadWord { name, text, form });
        }
    }
    None
}

/// The place of `sii`, behind its file, where it is bad.
fn bad_place<'a>(words: &'a [&'a str]) -> Option<BadWord<'a>> {
    let text = plain_word(words, 1)?;
    let form = Form::Number(0, u32::MAX);
    if form.has(text) {
        return None;
    }
    let name = "PLACE";
    Some(BadWord { name, text, form })
}

/// The plain word with this number, from 0, behind the command: none of those that begin with a hyphen, and
/// not the value of `--at`, `--raw` or `--write`.
fn plain_word<'a>(words: &'a [&'a str], number: usize) -> Option<&'a str> {
    let mut seen = 0usize;
    let mut is_value = false;
    for word in words.iter().skip(2) {
        let is_plain = !is_value && !word.starts_with('-');
        is_value = *word == "--at" || *word == "--raw" || *word == "--write";
        if is_plain {
            if seen == number {
                return Some(*word);
            }
            seen = seen.saturating_add(1);
        }
    }
    None
}

/// The value that an option of this name is given, as its next word or behind `=`.
fn value_behind<'a>(words: &'a [&'a str], name: &str) -> Option<&'a str> {
    let mut is_next = false;
    for word in words {
        if is_next {
            return Some(*word);
        }
        is_next = *word == name;
        if let Some(rest) = word.strip_prefix(name)
            && let Some(value) = rest.strip_prefix("=")
        {
            return Some(value);
        }
    }
    None
}
