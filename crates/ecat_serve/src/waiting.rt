//! What waits at the two ends of a line and at an input at once.

ghost use Rattle.std.specs.Prelude.{◌≡◌, ◌≢◌, ◌≤◌, IfOk, IfErr, IfSome};
ghost use Rattle.std.specs.IoError.{error_kind};
ghost use Rattle.ecat_serve.specs.Ends.{has_room, other, says_again};
ghost use Rattle.ecat_serve.specs.Lines.{IsInRoom};
ghost use Rattle.ec_wire.specs.declared.frame.TheConstants.{PACKET_ROOM};

use crate::ends::{Arrived, Waited};
use crate::lines::{InputLine, InputLines, LINE_ROOM, PIECE_ROOM};
use ec_ring::{Port, PortFault};
use ec_wire::PACKET_ROOM;
use mio::unix::SourceFd;
use mio::{Events, Interest, Poll, Token};
use std::alloc::Global;
use std::io::{self, ErrorKind, Read};
use std::net::Net;
use std::os::fd::AsRawFd;
use std::time::Duration;

/// The events of end A.
const END_A: Token = Token(0);

/// The events of end B.
const END_B: Token = Token(1);

/// The events of the input.
const INPUT: Token = Token(2);

/// How many events are taken at a time: one of each kind.
const MOST_EVENTS: usize = 3;

/// After how many packets in a row a line of the input comes before the next one.
const MOST_IN_A_ROW: u8 = 32;

/// Why nothing could be waited for.
#[derive(Clone, Copy, PartialEq, Eq, Debug)]
pub enum WaitFault {
    /// Memory ran out.
    NoMemory,
    /// The system refuses to tell of what comes.
    Refused,
}

/// The sockets at the two ends of a line, at which no call waits.
pub trait EndSockets {
    /// Receives a packet that waits at an end, if one does, into the front of the room. A packet that is
    /// longer than the room fills it.
    fn receive_at(
        &mut self,
        at: Port,
        into: &mut [u8; PACKET_ROOM],
    ) -> Result<Option<Arrived>, PortFault>
        ensures room { IfOk result (λ found. IfSome found (λ arrived. arrived.count ≤ PACKET_ROOM)) }
        ensures here { IfOk result (λ found. IfSome found (λ arrived. arrived.at ≡ at)) };
}

/// What waits until a packet is there at either end of a line, or the input brings something.
///
/// Where packets wait at both ends, the end that was not the last one comes first. Where there is an input,
/// no more packets are to come once it has ended and no packet waits. What it brings is passed over, or kept
/// as lines: then a receive also ends where a line is there and no packet waits, and after 32 packets in a
/// row. An input for which one can't wait, as a file, counts as one that has ended, unless its lines are
/// kept. Each error of the system but "try again" is a fault.
#[derive(Drop)]
pub struct Waiting<I: Read + AsRawFd + Drop> {
    poll: Poll,
    events: Events,
    next: Port,
    input: Option<I>,
    waits: bool,
    lines: InputLines,
    keeps_lines: bool,
    in_a_row: u8,
}

impl<I: Read + AsRawFd + Drop> Waiting<I> {
    /// Has the system tell of what comes from the input, if there is one, and of no end yet.
    pub fn new(net: &impl Net, alloc: Global, input: Option<I>) -> Result<Waiting<I>, WaitFault> {
        let events = room_for_events(alloc)?;
        let Ok(poll) = Poll::new(net) else {
            return Err(WaitFault::Refused);
        };
        let waits = match &input {
            Some(input) => poll
                .registry()
                .register(&mut SourceFd(&input.as_raw_fd()), INPUT, Interest::READABLE)
                .is_ok(),
            None => true,
        };
        Ok(Waiting {
            poll,
            events,
            next: Port::A,
            input,
            waits,
            lines: InputLines::new(),
            keeps_lines: false,
            in_a_row: 0,
        })
    }

    /// Has the system tell of what comes to the socket of an end. The caller has made it non-blocking.
    pub fn register(&self, at: Port, socket: &impl AsRawFd) -> io::Result<()> {
        self.poll.registry().register(
            &mut SourceFd(&socket.as_raw_fd()),
            token_of(at),
            Interest::READABLE,
        )
    }

    /// Has what the input brings be kept, as lines to be taken, from now on.
    pub fn keep_lines(&mut self) {
        self.keeps_lines = true;
    }

    /// Takes the next line that came, into the front of the room; `None` where none has come.
    pub fn take_line(&mut self, into: &mut [u8; LINE_ROOM]) -> Option<InputLine>
        ensures room { IfSome result (λ line. IsInRoom line) }
    {
        self.lines.take(into)
    }

    /// Waits for a packet at either end, and receives it into the front of the room; `None` where no more is
    /// to come, or where a line is to be taken first.
    pub fn receive<S: EndSockets>(
        &mut self,
        sockets: &mut S,
        into: &mut [u8; PACKET_ROOM],
    ) -> Result<Option<Arrived>, PortFault>
        ensures room { IfOk result (λ found. IfSome found (λ arrived. arrived.count ≤ PACKET_ROOM)) }
    {
        if self.is_due()? {
            return Ok(None);
        }
        for _turn in 0..u64::MAX {
            if let Some(arrived) = self.receive_waiting(sockets, into)? {
                self.in_a_row = self.in_a_row.saturating_add(1);
                return Ok(Some(arrived));
            }
            self.in_a_row = 0;
            if self.has_ended() || self.lines.holds_line() {
                return Ok(None);
            }
            self.wait(None)?;
        }
        Ok(None)
    }

    /// Receives a packet that is there at either end, as `receive` does; else it waits for one, so long at
    /// most, or until anything comes.
    pub fn receive_within<S: EndSockets>(
        &mut self,
        sockets: &mut S,
        into: &mut [u8; PACKET_ROOM],
        limit: Duration,
    ) -> Result<Waited, PortFault>
        ensures room { IfOk result has_room }
    {
        if self.is_due()? {
            return Ok(Waited::Ended);
        }
        if let Some(arrived) = self.receive_waiting(sockets, into)? {
            self.in_a_row = self.in_a_row.saturating_add(1);
            return Ok(Waited::Arrived(arrived));
        }
        self.in_a_row = 0;
        if self.has_ended() || self.lines.holds_line() {
            return Ok(Waited::Ended);
        }
        self.wait(Some(limit))?;
        Ok(Waited::Silent)
    }

    /// Has the input ended?
    pub fn has_ended(&self) -> bool {
        self.lines.has_ended() || !(self.waits || self.keeps_lines)
    }

    /// Is a line of the input to come before the next packet? It is where as many packets came in a row as
    /// may.
    fn is_due(&mut self) -> Result<bool, PortFault> {
        if !self.keeps_lines || self.in_a_row < MOST_IN_A_ROW {
            return Ok(false);
        }
        self.in_a_row = 0;
        if !self.lines.holds_line() {
            self.wait(Some(Duration::from_secs(0)))?;
        }
        Ok(self.lines.holds_line())
    }

    /// Receives a packet that waits at either end, if one does. The end where it came in is the last one to
    /// be asked the next time.
    fn receive_waiting<S: EndSockets>(
        &mut self,
        sockets: &mut S,
        into: &mut [u8; PACKET_ROOM],
    ) -> Result<Option<Arrived>, PortFault>
        ensures room { IfOk result (λ found. IfSome found (λ arrived. arrived.count ≤ PACKET_ROOM)) }
        ensures turns { IfOk result (λ found. IfSome found (λ arrived. self.new.next ≡ other arrived.at)) }
    {
        let first = self.next;
        let second = other(first);
        self.next = second;
        match sockets.receive_at(first, into)? {
            Some(arrived) => Ok(Some(arrived)),
            None => {
                self.next = first;
                sockets.receive_at(second, into)
            }
        }
    }

    /// Waits until something comes at an end or from the input, so long at most where there is a limit.
    /// The answer is whether anything came.
    pub fn wait(&mut self, limit: Option<Duration>) -> Result<bool, PortFault> {
        if !self.waits && !self.has_ended() {
            self.read_input()?;
            return Ok(true);
        }
        if self.poll.poll(&mut self.events, limit).is_err() {
            return Err(PortFault);
        }
        if self.has_input() {
            self.read_input()?;
        }
        Ok(!self.events.is_empty())
    }

    /// Did something come from the input?
    fn has_input(&self) -> bool {
        for event in &self.events {
            if event.token() == INPUT {
                return true;
            }
        }
        false
    }

    /// Reads some of what the input brings, and sees whether it has ended.
    fn read_input(&mut self) -> Result<(), PortFault> {
        let Some(input) = &mut self.input else {
            return Ok(());
        };
        let mut room = [0; PIECE_ROOM];
        let most = self.lines.room().min(PIECE_ROOM);
        match input.read(&mut room[..most]) {
            Ok(0) => {
                self.lines.end();
                return Ok(());
            }
            Ok(count) => {
                if self.keeps_lines {
                    self.lines.put(&room[..count]);
                }
            }
            Err(fault) if may_try_again(&fault) => {}
            Err(_) => return Err(PortFault),
        }
        if !self.waits {
            return Ok(());
        }
        // What is left is told of anew only once it is asked for anew.
        self.poll
            .registry()
            .reregister(&mut SourceFd(&input.as_raw_fd()), INPUT, Interest::READABLE)
            .map_err(|_| PortFault)
    }
}

/// Does the error say that there is nothing yet, or that a signal came before there was?
pub fn may_try_again(fault: &io::Error) -> bool
    ensures { result ≡ says_again (error_kind fault.now) }
{
    matches!(fault.kind(), ErrorKind::WouldBlock | ErrorKind::Interrupted)
}

/// Room for the events that are taken at a time.
fn room_for_events(alloc: Global) -> Result<Events, WaitFault>
    ensures { IfErr result (λ fault. fault ≡ WaitFault.NoMemory) }
{
    Events::with_capacity(alloc, MOST_EVENTS).map_err(|_| WaitFault::NoMemory)
}

/// The events of an end, which are none of the input's.
fn token_of(at: Port) -> Token
    ensures { result ≢ INPUT }
{
    match at {
        Port::A => END_A,
        Port::B => END_B,
    }
}

/// The end that is not this one.
fn other(end: Port) -> Port
    ensures { result ≡ other end }
{
    match end {
        Port::A => Port::B,
        Port::B => Port::A,
    }
}
