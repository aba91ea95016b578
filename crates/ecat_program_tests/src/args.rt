//! Rows of command lines, and what they give.
mod door;
mod lines;
mod memory;

use clap::error::ErrorKind;
use ecat_args::{Args, ArgsFault};
use std::alloc::{AllocError, Global};
use std::process::Abort;

/// A fault, with the kind alone of clap's error.
#[derive(Clone, Copy, Debug, PartialEq, Eq)]
enum Refusal {
    Line(ErrorKind),
    BadNumber,
    NoMemory,
}

/// What the words give.
fn read<'a>(alloc: Global, words: &'a [&'a str]) -> Result<Args<'a>, Refusal> {
    match Args::read(alloc, words) {
        Ok(args) => Ok(args),
        Err(ArgsFault::Line(error)) => Err(Refusal::Line(error.kind())),
        Err(ArgsFault::BadNumber) => Err(Refusal::BadNumber),
        Err(ArgsFault::NoMemory) => Err(Refusal::NoMemory),
    }
}

/// The words of a line behind the program's name.
fn words_of(alloc: Global, line: &str) -> Result<Vec<&str>, AllocError> {
    let mut words = vec![in alloc; "ecat"]?;
    for word in line.split(' ') {
        if !word.is_empty() {
            words.push(word)?;
        }
    }
    Ok(words)
}

/// What such words give, as `Debug` writes it.
fn told(alloc: Global, line: &str) -> Result<String, AllocError> {
    let words = words_of(alloc, line)?;
    let answer = read(alloc, words.as_slice());
    format!(in alloc; "{answer:?}")
}

/// Asserts of each row, a line of a table, that its words give the answer that stands behind its bar.
fn assert_rows(rt: &impl Abort, alloc: Global, rows: &str) {
    for row in rows.split('\n') {
        let (line, wanted) = row.split_once('|').expect(rt, "a bar");
        let found = told(alloc, line).expect(rt, "memory");
        assert!(rt; found.as_str() == wanted.trim(), "{row}: {found}");
    }
}
