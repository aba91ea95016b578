//! Which ways the frames of a capture went, and what told it.

use crate::text::{put_byte, put_decimal};
use ecat_trips::{By, Told, Way};
use std::alloc::AllocError;

/// How many frames went each way, and of how many it was told by what.
#[derive(Clone, Copy)]
pub(crate) struct Ways {
    pub(crate) sent: u64,
    pub(crate) returned: u64,
    pub(crate) port: u64,
    pub(crate) place: u64,
    pub(crate) mark: u64,
    pub(crate) counters: u64,
}

impl Ways {
    /// Of no frame.
    pub(crate) fn new() -> Ways {
        Ways {
            sent: 0,
            returned: 0,
            port: 0,
            place: 0,
            mark: 0,
            counters: 0,
        }
    }

    /// Counts one frame more.
    pub(crate) fn take(&mut self, told: Told) {
        match told.way {
            Way::Sent => self.sent = self.sent.saturating_add(1),
            Way::Returned => self.returned = self.returned.saturating_add(1),
        }
        match told.by {
            By::Port => self.port = self.port.saturating_add(1),
            By::Place => self.place = self.place.saturating_add(1),
            By::Mark => self.mark = self.mark.saturating_add(1),
            By::Counters => self.counters = self.counters.saturating_add(1),
        }
    }

    /// Did frames go one way alone?
    pub(crate) fn are_one(&self) -> bool {
        (self.sent == 0) != (self.returned == 0)
    }

    /// Puts the line of the ways.
    pub(crate) fn put(&self, text: &mut Vec<u8>) -> Result<(), AllocError> {
        text.extend_from_slice(b"sent ")?;
        put_decimal(text, self.sent)?;
        text.extend_from_slice(b", returned ")?;
        put_decimal(text, self.returned)?;
        let told = [
            ("port", self.port),
            ("place", self.place),
            ("mark", self.mark),
            ("counters", self.counters),
        ];
        let mut before: &[u8] = b"; told by ";
        for (by, count) in told {
            if count > 0 {
                text.extend_from_slice(before)?;
                text.extend_from_slice(by.as_bytes())?;
                put_byte(text, b' ')?;
                put_decimal(text, count)?;
                before = b", ";
            }
        }
        put_byte(text, b'\n')
    }
}
