//! The words of the system for its errors.

use std::{fmt, str};

/// The most bytes of such words.
const MOST_WORDS: usize = 80;

/// An error by the system's number (`errno`), as it is printed: by the system's words.
#[derive(Drop)]
pub struct SystemError(pub i32);

impl fmt::Display for SystemError {
    fn fmt<W: fmt::Write>(&self, f: &mut fmt::Formatter<W>) -> fmt::Result {
        let mut room = [0; MOST_WORDS];
        let count = os::error_text(self.0, &mut room);
        match str::from_utf8(&room[..count]) {
            Ok(words) => f.write_str(words),
            Err(_) => write!(f, "error {}", self.0),
        }
    }
}
