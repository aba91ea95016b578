//! The rows of a file, line by line.

use crate::answer::Answer;
use crate::bench::Bench;
use crate::words::{Fault, Words};
use std::alloc::{AllocError, Global};
use std::io;

/// How many rows there were, how many answers were wanted, and how many lines were not as they should be.
#[derive(Clone, Copy, Default)]
pub struct Counts {
    /// Rows.
    pub rows: u64,
    /// Answers that were wanted.
    pub answers: u64,
    /// Answers that were others, and lines that were refused.
    pub failed: u64,
}

/// A file that is read: its rows are done as their lines come.
#[derive(Drop)]
pub struct Reader<'a> {
    path: &'a str,
    alloc: Global,
    bench: Bench,
    /// The lines that each row begins with.
    each: String,
    /// Are the lines that come those that each row begins with?
    gathers: bool,
    /// The name of the row, and its line.
    row: String,
    row_at: u64,
    /// Has the row asked something?
    asked: bool,
    counts: Counts,
}

impl<'a> Reader<'a> {
    /// A reader of the file that is called so in what is printed, where there is memory.
    pub fn new(alloc: Global, path: &'a str) -> Option<Reader<'a>> {
        Some(Reader {
            path,
            alloc,
            bench: Bench::new(alloc)?,
            each: String::new(alloc),
            gathers: false,
            row: String::new(alloc),
            row_at: 0,
            asked: true,
            counts: Counts::default(),
        })
    }

    /// Does all rows of a text. A line that begins with `->` or `..` goes on with the line above.
    pub fn read<W: io::Write>(&mut self, text: &str, out: &mut W) -> io::Result<Counts> {
        let mut whole = String::new(self.alloc);
        let mut first = 0u64;
        let mut number = 0u64;
        for line in text.lines() {
            number = number.saturating_add(1);
            let line = line.trim();
            if !line.starts_with("->") && !line.starts_with("..") {
                self.line(first, whole.as_str(), out)?;
                whole = String::new(self.alloc);
                first = number;
            }
            add(&mut whole, line.strip_prefix("..").unwrap_or(line), " ")?;
        }
        self.line(first, whole.as_str(), out)?;
        self.end_row(out)?;
        Ok(self.counts)
    }

    /// Takes one line, with those that go on with it.
    fn line<W: io::Write>(&mut self, number: u64, line: &str, out: &mut W) -> io::Result<()> {
        let line = line.trim();
        if line.is_empty() || line.starts_with('#') {
            return Ok(());
        }
        if line == "each" {
            self.end_row(out)?;
            self.each = String::new(self.alloc);
            self.gathers = true;
            return Ok(());
        }
        if let Some(name) = line.strip_prefix("row ") {
            self.end_row(out)?;
            self.row = String::from_str(self.alloc, name)?;
            self.row_at = number;
            self.asked = false;
            self.gathers = false;
            self.counts.rows = self.counts.rows.saturating_add(1);
            return self.begin(number, out);
        }
        if line == "anew" {
            return self.begin(number, out);
        }
        if self.gathers {
            return Ok(add(&mut self.each, line, "\n")?);
        }
        self.act(number, line, out)
    }

    /// Begins with a new bench, and does the lines that each row begins with.
    fn begin<W: io::Write>(&mut self, number: u64, out: &mut W) -> io::Result<()> {
        match Bench::new(self.alloc) {
            Some(bench) => self.bench = bench,
            None => return Err(AllocError.into()),
        }
        let each = String::from_str(self.alloc, self.each.as_str())?;
        for line in each.as_str().lines() {
            self.act(number, line, out)?;
        }
        Ok(())
    }

    /// Does what a line says, and compares the answer with what is wanted, where something is.
    fn act<W: io::Write>(&mut self, number: u64, line: &str, out: &mut W) -> io::Result<()> {
        let (asking, wanted) = match line.split_once("->") {
            Some((asking, wanted)) => (asking, Some(wanted)),
            None => (line, None),
        };
        let mut words = Words::new(self.alloc, asking);
        let mut answer = Answer::new(self.alloc);
        if self.row.as_str().is_empty() {
            words.refuse(Fault::NoRow);
        }
        self.bench.act(&mut words, &mut answer);
        match (words.end(), wanted) {
            (Some(fault), _) => self.refuse(number, fault, line, out),
            (None, Some(wanted)) => {
                self.compare(number, wanted.trim(), answer.text().trim(), out)
            }
            (None, None) => Ok(()),
        }
    }

    /// Ends a row, which must have asked something.
    fn end_row<W: io::Write>(&mut self, out: &mut W) -> io::Result<()> {
        if self.asked {
            return Ok(());
        }
        self.asked = true;
        self.refuse(self.row_at, Fault::NothingAsked, "row", out)
    }

    /// Compares an answer with what is wanted.
    fn compare<W: io::Write>(
        &mut self,
        number: u64,
        wanted: &str,
        answer: &str,
        out: &mut W,
    ) -> io::Result<()> {
        self.asked = true;
        self.counts.answers = self.counts.answers.saturating_add(1);
        if are_same(wanted, answer) {
            return Ok(());
        }
        self.counts.failed = self.counts.failed.saturating_add(1);
        let (path, row) = (self.path, self.row.as_str());
        writeln!(out, "{path}:{number}: {row}: not met")?;
        writeln!(out, "  wanted {wanted}")?;
        writeln!(out, "  got    {answer}")
    }

    /// Tells that a line is refused.
    fn refuse<W: io::Write>(
        &mut self,
        number: u64,
        fault: Fault,
        line: &str,
        out: &mut W,
    ) -> io::Result<()> {
        self.counts.failed = self.counts.failed.saturating_add(1);
        let (path, row) = (self.path, self.row.as_str());
        writeln!(out, "{path}:{number}: {row}: {fault:?}: {line}")
    }
}

/// Adds a line and what ends it to those before.
fn add(whole: &mut String, line: &str, end: &str) -> Result<(), AllocError> {
    whole.push_str(line)?;
    whole.push_str(end)
}

/// Are the words of two texts the same?
fn are_same(wanted: &str, answer: &str) -> bool {
    let mut found = answer.split_whitespace();
    for word in wanted.split_whitespace() {
        if found.next() != Some(word) {
            return false;
        }
    }
    found.next().is_none()
}
