//! Who reads what is written, and for how long he is waited for.

use libc::net::POLLOUT;
use libc::types::pollfd;
use std::cell::Cell;
use std::os::fd::RawFd;

/// For how many milliseconds a patient writer waits for its reader.
const PATIENCE: i32 = 1_000;

/// Who reads what is written.
pub trait Reader {
    /// Is a write of as many bytes as go out at once taken without waiting? So many milliseconds may pass
    /// until it is.
    fn takes(&mut self, milliseconds: i32) -> bool;
}

/// Who reads at the other end of a descriptor, as the system knows it. A plain file takes whatever is
/// written; so does what is closed or has failed, in order that the write says so.
#[derive(Clone, Copy)]
pub struct Behind(pub RawFd);

impl Reader for Behind {
    fn takes(&mut self, milliseconds: i32) -> bool {
        let mut asked = [pollfd {
            fd: self.0,
            events: POLLOUT,
            revents: 0,
        }];
        libc::net::poll(&mut asked, milliseconds) != 0
    }
}

/// A reader who is waited for, a second at most, as long as a cell says so, and no more once a second has
/// passed in which he took nothing.
#[derive(Drop)]
pub(crate) struct Awaited<'p, R> {
    reader: R,
    is_patient: &'p Cell<bool>,
    /// Whether the reader took nothing when he was waited for last.
    has_stopped: bool,
}

impl<'p, R: Reader> Awaited<'p, R> {
    /// This reader, who is waited for as long as the cell says so.
    pub(crate) fn new(reader: R, is_patient: &'p Cell<bool>) -> Awaited<'p, R> {
        Awaited {
            reader,
            is_patient,
            has_stopped: false,
        }
    }

    /// Does the reader take what goes out at once?
    pub(crate) fn takes(&mut self) -> bool {
        let waits = self.is_patient.get() && !self.has_stopped;
        let is_taken = self.reader.takes(if waits { PATIENCE } else { 0 });
        self.has_stopped = !is_taken && (waits || self.has_stopped);
        is_taken
    }
}
