//! The words of a line, taken one after the other.

ghost use Rattle.std.specs.Prelude.{◌≤◌, IfSome};

use ec_regs::AlState;
use ec_wire::Command;
use std::alloc::Global;
use std::str::SplitWhitespace;

/// Why a line is refused.
#[derive(Clone, Copy, Debug)]
pub enum Fault {
    /// No verb has this name.
    UnknownVerb,
    /// The line stands before the first row.
    NoRow,
    /// The row before asks nothing.
    NothingAsked,
    /// A word is missing.
    TooFewWords,
    /// There are words behind those of the verb.
    TooManyWords,
    /// A word is no number: decimal digits, or `0x` and hexadecimal digits.
    BadNumber,
    /// A number is greater than its place takes, or names bytes outside of the memory.
    OutOfRange,
    /// A word is not the two hexadecimal digits of a byte.
    BadByte,
    /// A word is no name of those that stand in its place.
    BadName,
    /// The bytes are no frame, or no frame has passed yet.
    NoFrame,
    /// Memory ran out.
    NoMemory,
}

/// The words of a line that are not taken yet. The first fault is kept; what is taken of a word at fault is
/// 0, or the first of all names, and the line is refused behind its verb.
#[derive(Drop)]
pub struct Words<'a> {
    rest: SplitWhitespace<'a>,
    alloc: Global,
    fault: Option<Fault>,
}

impl<'a> Words<'a> {
    /// The words of a line.
    pub fn new(alloc: Global, line: &'a str) -> Words<'a> {
        Words {
            rest: line.split_whitespace(),
            alloc,
            fault: None,
        }
    }

    /// Refuses the line, unless it is refused already.
    pub fn refuse(&mut self, fault: Fault) {
        if self.fault.is_none() {
            self.fault = Some(fault);
        }
    }

    /// The first fault, once all words should be taken.
    pub fn end(&mut self) -> Option<Fault> {
        if self.rest.next().is_some() {
            self.refuse(Fault::TooManyWords);
        }
        self.fault
    }

    /// The allocator.
    pub fn alloc(&self) -> Global {
        self.alloc
    }

    /// The next word.
    pub fn word(&mut self) -> &'a str {
        match self.rest.next() {
            Some(word) => word,
            None => {
                self.refuse(Fault::TooFewWords);
                ""
            }
        }
    }

    /// A number up to the greatest that is taken here.
    pub fn number(&mut self, most: u64) -> u64
        ensures { result ≤ most }
    {
        let word = self.word();
        self.within(word, most)
    }

    /// The value of a word that is a number up to the greatest.
    pub fn within(&mut self, word: &str, most: u64) -> u64
        ensures { result ≤ most }
    {
        match value(word) {
            Some(number) => {
                if number <= most {
                    return number;
                }
                self.refuse(Fault::OutOfRange);
                0
            }
            None => {
                self.refuse(Fault::BadNumber);
                0
            }
        }
    }

    /// A number up to the greatest, where the words have not ended.
    pub fn next_number(&mut self, most: u64) -> Option<u64>
        ensures { IfSome result (λ number. number ≤ most) }
    {
        match self.rest.next() {
            Some(word) => Some(self.within(word, most)),
            None => None,
        }
    }

    /// The bytes of the words up to the one that ends them, which is taken too; of all words where it is
    /// empty.
    pub fn bytes_to(&mut self, end: &str) -> Vec<u8> {
        let mut bytes = Vec::new(self.alloc);
        for _ in 0..usize::MAX {
            match self.rest.next() {
                None => break,
                Some(word) => {
                    if word == end {
                        return bytes;
                    }
                    self.push(&mut bytes, word);
                }
            }
        }
        if !end.is_empty() {
            self.refuse(Fault::TooFewWords);
        }
        bytes
    }

    /// Puts the byte of a word behind others.
    fn push(&mut self, bytes: &mut Vec<u8>, word: &str) {
        match byte(word) {
            Some(byte) => {
                if bytes.push(byte).is_err() {
                    self.refuse(Fault::NoMemory);
                }
            }
            None => self.refuse(Fault::BadByte),
        }
    }

    /// A state by its name.
    pub fn state(&mut self) -> AlState {
        match self.word() {
            "Init" => AlState::Init,
            "PreOp" => AlState::PreOp,
            "SafeOp" => AlState::SafeOp,
            "Op" => AlState::Op,
            _ => {
                self.refuse(Fault::BadName);
                AlState::Init
            }
        }
    }

    /// `true` or `false`.
    pub fn yes(&mut self) -> bool {
        match self.word() {
            "true" => true,
            "false" => false,
            _ => {
                self.refuse(Fault::BadName);
                false
            }
        }
    }

    /// A command by the name that the standard has for it.
    pub fn command(&mut self) -> Command {
        let word = self.word();
        for code in 0..15u8 {
            if let Some(command) = Command::from_code(code) {
                if command.name() == word {
                    return command;
                }
            }
        }
        self.refuse(Fault::BadName);
        Command::Nop
    }
}

/// The value of a number that fits 64 bits.
fn value(word: &str) -> Option<u64> {
    let (digits, radix) = match word.strip_prefix("0x") {
        Some(digits) => (digits, 16),
        None => (word, 10),
    };
    // The library would read a plus before the digits.
    if digits.starts_with('+') {
        return None;
    }
    u64::from_str_radix(digits, radix).ok()
}

/// The byte of two hexadecimal digits.
fn byte(word: &str) -> Option<u8> {
    if word.len() != 2 || word.starts_with('+') {
        return None;
    }
    u8::from_str_radix(word, 16).ok()
}
