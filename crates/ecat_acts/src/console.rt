//! What somebody at a terminal has.

ghost use Rattle.std.specs.Prelude.{◌≡◌, ◌||◌, not};

use std::os::fd::RawFd;
use std::rt::Stdin;

/// What somebody at a terminal has.
#[derive(Drop)]
pub struct Console {
    /// Standard input.
    pub input: Stdin,
    /// The descriptor of standard output.
    pub output: RawFd,
    /// The descriptor of standard error.
    pub errors: RawFd,
    /// Whether standard error is a terminal.
    pub is_watched: bool,
    /// Whether standard output is a terminal.
    pub is_read: bool,
}

impl Console {
    /// The descriptor of standard output where that is a terminal.
    pub fn output_terminal(&self) -> Option<RawFd> {
        if self.is_read {
            Some(self.output)
        } else {
            None
        }
    }

    /// The descriptor of standard error where that is a terminal.
    pub fn errors_terminal(&self) -> Option<RawFd> {
        if self.is_watched {
            Some(self.errors)
        } else {
            None
        }
    }

    /// Does somebody follow what a command writes of a file? He does where he reads it at a terminal, and
    /// where the file may still grow since it is no plain one.
    pub fn follows(&self, is_plain: bool) -> bool
        ensures { result ≡ (self.now.is_read || not is_plain) }
    {
        self.is_read || !is_plain
    }
}
