//! An input with whose end something ends.

ghost use Rattle.std.specs.Prelude.{◌≡◌};

use mio::unix::SourceFd;
use mio::{Events, Interest, Poll, Token};
use std::alloc::Global;
use std::io::{self, ErrorKind, Read};
use std::net::Net;
use std::os::fd::AsRawFd;
use std::time::Duration;

/// The events of the input.
const INPUT: Token = Token(0);

/// How many bytes of the input are passed over at a time.
const PIECE_ROOM: usize = 512;

/// An input that is looked at now and then, until it has ended. What it brings is passed over; one for which
/// the system cannot wait, as a file, counts as one that has ended.
#[derive(Drop)]
pub struct Ending<I: Read + AsRawFd + Drop> {
    poll: Poll,
    events: Events,
    input: I,
    ended: bool,
}

impl<I: Read + AsRawFd + Drop> Ending<I> {
    /// Has the system tell of an input.
    pub fn of(net: &impl Net, alloc: Global, input: I) -> io::Result<Ending<I>> {
        let Ok(events) = Events::with_capacity(alloc, 1) else {
            return Err(io::Error::from(ErrorKind::OutOfMemory));
        };
        let poll = Poll::new(net)?;
        let ended = poll
            .registry()
            .register(&mut SourceFd(&input.as_raw_fd()), INPUT, Interest::READABLE)
            .is_err();
        Ok(Ending {
            poll,
            events,
            input,
            ended,
        })
    }

    /// Has the input ended? It is looked at without waiting. An input that fails has ended.
    pub fn has_ended(&mut self) -> bool
        ensures { result ≡ self.new.ended }
    {
        if self.ended {
            return true;
        }
        if self
            .poll
            .poll(&mut self.events, Some(Duration::from_secs(0)))
            .is_err()
        {
            return false;
        }
        if !self.events.is_empty() {
            self.pass_over();
        }
        self.ended
    }

    /// Passes over a piece of what the input brings, and sees whether it has ended.
    fn pass_over(&mut self) {
        let mut room = [0; PIECE_ROOM];
        self.ended = match self.input.read(&mut room) {
            Ok(count) => count == 0,
            Err(fault) => !matches!(fault.kind(), ErrorKind::WouldBlock | ErrorKind::Interrupted),
        };
        if self.ended {
            return;
        }
        // What is left is told of anew only once it is asked for anew.
        self.ended = self
            .poll
            .registry()
            .reregister(
                &mut SourceFd(&self.input.as_raw_fd()),
                INPUT,
                Interest::READABLE,
            )
            .is_err();
    }
}
