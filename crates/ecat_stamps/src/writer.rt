//! A writer of lines that begin with the time.

use crate::line::Place;
use crate::utc::Utc;
use std::cell::Cell;
use std::io::{self, Write};
use std::rt::Clock;

/// A writer over another one that puts the time before each line that begins while a cell says so. Without a
/// clock it puts none, and what is written goes on as it is.
///
/// A line goes out with its time by one write, where both have 4,096 bytes at the most.
#[derive(Drop)]
pub struct Stamped<'a, 's, W, R: Clock> {
    out: &'a mut W,
    utc: &'s Option<Utc<'s, R>>,
    are_put: &'s Cell<bool>,
    place: Place,
}

impl<'a, 's, W: Write, R: Clock> Stamped<'a, 's, W, R> {
    /// A writer of lines that begin with the time of this clock, if there is one, while the cell says so.
    pub fn new(
        out: &'a mut W,
        utc: &'s Option<Utc<'s, R>>,
        are_put: &'s Cell<bool>,
    ) -> Stamped<'a, 's, W, R> {
        Stamped {
            out,
            utc,
            are_put,
            place: Place::first(),
        }
    }
}

impl<W: Write, R: Clock> Write for Stamped<'_, '_, W, R> {
    fn write(&mut self, bytes: &[u8]) -> io::Result<usize> {
        let Some(utc) = self.utc else {
            return self.out.write(bytes);
        };
        if bytes.is_empty() {
            return Ok(0);
        }
        let now = if self.are_put.get() {
            Some(utc.now())
        } else {
            None
        };
        let mut place = self.place;
        let written = place.put_line(now, bytes, self.out);
        self.place = place;
        written
    }

    fn flush(&mut self) -> io::Result<()> {
        self.out.flush()
    }
}
