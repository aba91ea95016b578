//! A running master that is asked.

use crate::row::Row;
use ec_io::{MAX_TEXT, QUESTION_HEAD, Question, REPLY_HEAD, Reply};
use std::alloc::AllocError;
use std::net::{Net, UdpSocket};
use std::rt::Clock;
use std::time::{Duration, Instant};
use std::{io, thread};

/// How often a question is sent at the most.
pub const TRIES: usize = 3;

/// For how many milliseconds replies are waited for each time.
const WAIT: u64 = 500;

/// How many milliseconds one waits before a question is sent once more that came beside another one.
const PAUSE: u64 = 20;

/// How often that is done at the most.
const BUSY_TRIES: usize = 50;

/// How many packets are looked at each time at the most.
const MOST_PACKETS: usize = 100_000;

/// How the answer begins to a question that came beside another one.
const BUSY: &[u8] = b"refused: Busy, wanted one question at a time";

/// Why there is no answer.
#[derive(Clone, Copy, PartialEq, Eq, Debug)]
pub enum Unanswered {
    /// The line is of more than 1,024 bytes.
    LongLine,
    /// Memory ran out.
    NoMemory,
    /// No whole answer came in time, or nobody is there.
    NoAnswer,
}

impl From<AllocError> for Unanswered {
    fn from(_fault: AllocError) -> Unanswered {
        Unanswered::NoMemory
    }
}

/// A running master that is asked by packets.
pub trait Master {
    /// Sends it a packet, and says whether that could be sent; replies are waited for from then on.
    fn send(&mut self, packet: &[u8]) -> bool;

    /// Waits for a packet of it, puts it to the front of the room, and says how long it is; none where none
    /// came in the time for which replies are waited for.
    fn receive(&mut self, into: &mut [u8]) -> Option<usize>;

    /// Waits a little while.
    fn pause(&mut self);
}

/// Asks a master a line until the whole answer has come, three times at the most, by the number of the row;
/// and more often where the master is asked something else at the time.
pub fn ask<M: Master>(master: &mut M, line: &[u8], row: &mut Row) -> Result<(), Unanswered> {
    let mut packet = [0; QUESTION_HEAD + MAX_TEXT];
    let question = Question {
        number: row.number(),
        line,
    };
    let Ok(size) = question.write(&mut packet) else {
        return Err(Unanswered::LongLine);
    };
    let packet = packet.get(..size).unwrap_or(&[]);
    for _try in 0..BUSY_TRIES {
        ask_often(master, packet, row)?;
        if !row.text().starts_with(BUSY) {
            break;
        }
        row.clear();
        master.pause();
    }
    Ok(())
}

/// Sends a question until the whole answer has come, three times at the most.
fn ask_often<M: Master>(master: &mut M, packet: &[u8], row: &mut Row) -> Result<(), Unanswered> {
    for _try in 0..TRIES {
        if master.send(packet) {
            hear(master, row)?;
        }
        if row.is_whole() {
            return Ok(());
        }
    }
    Err(Unanswered::NoAnswer)
}

/// Takes the replies that come, up to the last one, or as long as they are waited for. What is no reply is
/// passed over.
fn hear<M: Master>(master: &mut M, row: &mut Row) -> Result<(), Unanswered> {
    let mut room = [0; REPLY_HEAD + MAX_TEXT + 1];
    for _packet in 0..MOST_PACKETS {
        let Some(count) = master.receive(&mut room) else {
            break;
        };
        if let Ok(reply) = Reply::read(room.get(..count).unwrap_or(&[])) {
            row.take(&reply)?;
        }
        if row.is_whole() {
            break;
        }
    }
    Ok(())
}

/// A running master at a UDP socket. Packets of others do not come there.
#[derive(Drop)]
pub struct UdpMaster<'a, R: Clock> {
    clock: &'a R,
    socket: UdpSocket,
    /// When the last packet was sent, where the clock said so.
    sent: Option<Instant>,
}

impl<'a, R: Clock + Net> UdpMaster<'a, R> {
    /// The master whose door is at this address (`HOST:PORT`).
    pub fn at(rt: &'a R, address: &str) -> io::Result<UdpMaster<'a, R>> {
        let socket = match connected(rt, "0.0.0.0:0", address) {
            Ok(socket) => socket,
            Err(_) => connected(rt, "[::]:0", address)?,
        };
        Ok(UdpMaster {
            clock: rt,
            socket,
            sent: None,
        })
    }
}

/// A socket at an address of this machine, to which packets of another one alone come.
fn connected<R: Net>(net: &R, own: &str, other: &str) -> io::Result<UdpSocket> {
    let socket = UdpSocket::bind(net, own)?;
    socket.connect(other)?;
    Ok(socket)
}

impl<R: Clock> UdpMaster<'_, R> {
    /// For how long replies are waited for yet; none where that time is over, or the clock fails.
    fn left(&self) -> Option<Duration> {
        let waited = self.sent?.elapsed(self.clock).ok()?;
        let left = Duration::from_millis(WAIT).checked_sub(waited)?;
        if left.is_zero() { None } else { Some(left) }
    }
}

impl<R: Clock> Master for UdpMaster<'_, R> {
    fn send(&mut self, packet: &[u8]) -> bool {
        self.sent = Instant::now(self.clock).ok();
        let _ = self.socket.send(packet);
        true
    }

    fn receive(&mut self, into: &mut [u8]) -> Option<usize> {
        for _wait in 0..MOST_PACKETS {
            let left = self.left()?;
            self.socket.set_read_timeout(Some(left)).ok()?;
            if let Ok(count) = self.socket.recv(into) {
                return Some(count);
            }
        }
        None
    }

    fn pause(&mut self) {
        thread::sleep(self.clock, Duration::from_millis(PAUSE));
    }
}
