//! What a verb answers, as words.

use std::alloc::Global;
use std::fmt::{Debug, Display};

/// The words of an answer. Where memory runs out they end, and the row is not met.
#[derive(Drop)]
pub struct Answer {
    text: String,
}

impl Answer {
    /// An answer without words.
    pub fn new(alloc: Global) -> Answer {
        Answer {
            text: String::new(alloc),
        }
    }

    /// The words, with a space behind each.
    pub fn text(&self) -> &str {
        self.text.as_str()
    }

    /// Puts a word or a number.
    pub fn put<T: Display + Drop>(&mut self, word: T) {
        let _ = write!(self.text, "{word} ");
    }

    /// Puts a name of the source.
    pub fn name<T: Debug + Drop>(&mut self, name: T) {
        let _ = write!(self.text, "{name:?} ");
    }

    /// Puts a number of four hexadecimal digits or more.
    pub fn hex(&mut self, number: u64) {
        let _ = write!(self.text, "0x{number:04X} ");
    }

    /// Puts a byte as a number of two hexadecimal digits.
    pub fn hex_byte(&mut self, byte: u8) {
        let _ = write!(self.text, "0x{byte:02X} ");
    }

    /// Puts the two digits of a byte.
    pub fn byte(&mut self, byte: u8) {
        let _ = write!(self.text, "{byte:02X} ");
    }

    /// Puts the two digits of each byte.
    pub fn bytes(&mut self, bytes: &[u8]) {
        for byte in bytes {
            self.byte(*byte);
        }
    }

    /// Puts a number where there is one, and else `none`.
    pub fn number<T: Display + Drop>(&mut self, number: Option<T>) {
        match number {
            Some(number) => self.put(number),
            None => self.put("none"),
        }
    }
}
