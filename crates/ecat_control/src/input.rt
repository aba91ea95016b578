//! The lines of an input, which are read without waiting.

use ecat_serve::lines::{InputLine, InputLines};
use ecat_serve::{LINE_ROOM, may_try_again};
use libc::net::POLLIN;
use libc::types::pollfd;
use std::io::Read;
use std::os::fd::AsRawFd;

/// How many bytes are read at a time.
const PIECE_ROOM: usize = 512;

/// How many pieces are read for one line at the most: what is longer comes behind the next cycle.
const MOST_PIECES: usize = 4;

/// An input that brings commands, a line each. No read of it waits; one that fails ends it.
#[derive(Drop)]
pub struct Commands<I> {
    input: I,
    lines: InputLines,
}

impl<I: Read + AsRawFd> Commands<I> {
    /// Of this input.
    pub fn of(input: I) -> Commands<I> {
        Commands {
            input,
            lines: InputLines::new(),
        }
    }

    /// Takes the next line that came, into the front of the room; `None` where none has come.
    pub fn take(&mut self, into: &mut [u8; LINE_ROOM]) -> Option<InputLine> {
        for _piece in 0..MOST_PIECES {
            if self.lines.holds_line() || !self.read() {
                break;
            }
        }
        self.lines.take(into)
    }

    /// Has the input ended, and is each of its lines taken?
    pub fn is_over(&self) -> bool {
        self.lines.has_ended() && !self.lines.holds_line()
    }

    /// Reads a piece of what waits, and answers whether something did.
    fn read(&mut self) -> bool {
        let mut room = [0; PIECE_ROOM];
        let most = self.lines.room().min(PIECE_ROOM);
        if self.lines.has_ended() || most == 0 || !self.waits() {
            return false;
        }
        match self.input.read(&mut room[..most]) {
            Ok(0) => {
                self.lines.end();
                true
            }
            Ok(count) => {
                self.lines.put(&room[..count]);
                true
            }
            Err(fault) if may_try_again(&fault) => false,
            Err(_) => {
                self.lines.end();
                true
            }
        }
    }

    /// Does a read of the input answer at once: with bytes, with its end, or with a fault?
    fn waits(&self) -> bool {
        let mut asked = [pollfd {
            fd: self.input.as_raw_fd(),
            events: POLLIN,
            revents: 0,
        }];
        libc::net::poll(&mut asked, 0) != 0
    }
}
