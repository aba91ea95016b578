//! How far the mails of a transfer are, in plain numbers.

ghost use Rattle.std.specs.Prelude.{◌≡◌, ◌&&◌, ◌≤◌, IfSome, Some};
ghost use Rattle.ec_services.specs.Mailbox.{IsPeer};
ghost use Rattle.ec_services.specs.declared.surely.Progress.{Progress as ProgressState};
ghost use Rattle.rummymaple.specs.Mail.{is_counter, is_mailbox, is_peer, known_in, no_mail, peer_in};
ghost use Rattle.rummymaple.specs.Mail.{posted_in, progress_in};

use ec_regs::{LONGEST_MAILBOX, SHORTEST_MAILBOX};
use ec_services::{Area, Mailboxes, Peer, Progress};

/// How far the mails of a transfer with a slave are, in the caller's memory: `struct rmp_mail` of the header.
#[repr(C)]
#[derive(Clone, Copy)]
pub struct Mail {
    /// The station address of the slave.
    pub station: u16,
    /// Where its mailbox of requests begins.
    pub request_start: u16,
    /// How many bytes that has.
    pub request_length: u16,
    /// Where its mailbox of answers begins.
    pub answer_start: u16,
    /// How many bytes that has.
    pub answer_length: u16,
    /// The counter of the next request, 1 to 7.
    pub counter: u8,
    /// The counter of the request that was posted last, where one was.
    pub posted: u8,
    /// Whether one was: 0 or 1.
    pub is_posted: u8,
    /// What is known of both mailboxes: 0 nothing, 1 an answer waits, 2 both are empty.
    pub known: u8,
}

/// What is known of two mailboxes, by its number.
#[tactic(auto, unfolding(crate::specs::Mail::known_in))]
fn known_in(number: u8) -> Option<Mailboxes>
    ensures { result ≡ known_in number }
{
    match number {
        0 => Some(Mailboxes::Unknown),
        1 => Some(Mailboxes::AnswerWaits),
        2 => Some(Mailboxes::Empty),
        _ => None,
    }
}

/// Its number.
#[tactic(auto, unfolding(crate::specs::Mail::known_in))]
fn known_number(known: Mailboxes) -> u8
    ensures { known_in result ≡ Some known }
{
    match known {
        Mailboxes::Unknown => 0,
        Mailboxes::AnswerWaits => 1,
        Mailboxes::Empty => 2,
    }
}

/// Has a mailbox as many bytes as one may have?
fn is_mailbox(length: u16) -> bool
    ensures { result ≡ is_mailbox length }
{
    SHORTEST_MAILBOX <= length && length <= LONGEST_MAILBOX
}

/// Is this the counter of a mail?
fn is_counter(counter: u8) -> bool
    ensures { result ≡ is_counter counter }
{
    1 <= counter && counter <= 7
}

impl Mail {
    /// No mails: of a service with the slave of this station address that needs none.
    pub(crate) fn none(station: u16) -> Mail
        ensures { result ≡ no_mail station }
    {
        Mail {
            station,
            request_start: 0,
            request_length: 0,
            answer_start: 0,
            answer_length: 0,
            counter: 0,
            posted: 0,
            is_posted: 0,
            known: 0,
        }
    }

    /// How far mails are, in numbers.
    pub(crate) fn of(progress: &Progress) -> Mail
        requires { IsPeer progress.now.peer }
        ensures is { progress_in result ≡ Some progress.now }
        ensures station { result.station ≡ progress.now.peer.station }
    {
        let Progress {
            known,
            posted,
            peer,
        } = *progress;
        let (posted, is_posted) = match posted {
            Some(counter) => (counter, 1),
            None => (0, 0),
        };
        Mail {
            station: peer.station,
            request_start: peer.to.start,
            request_length: peer.to.length,
            answer_start: peer.from.start,
            answer_length: peer.from.length,
            counter: peer.counter,
            posted,
            is_posted,
            known: known_number(known),
        }
    }

    /// The peer that the numbers are.
    fn peer(&self) -> Peer
        ensures { result ≡ peer_in self.now }
    {
        Peer {
            station: self.station,
            to: Area {
                start: self.request_start,
                length: self.request_length,
            },
            from: Area {
                start: self.answer_start,
                length: self.answer_length,
            },
            counter: self.counter,
        }
    }

    /// Are they a peer with two mailboxes?
    fn is_peer(&self) -> bool
        ensures { result ≡ is_peer self.now }
    {
        is_mailbox(self.request_length)
            && is_mailbox(self.answer_length)
            && is_counter(self.counter)
    }

    /// The counter that was posted last.
    fn posted(&self) -> Option<u8>
        ensures { result ≡ posted_in self.now }
    {
        if self.is_posted == 0 {
            None
        } else {
            Some(self.posted)
        }
    }

    /// How far the mails are that the numbers say; nothing where they say none.
    pub(crate) fn progress(&self) -> Option<Progress>
        ensures is { result ≡ progress_in self.now }
        ensures peer { IfSome result (λ (p : ProgressState). IsPeer p.peer) }
        ensures station { IfSome result (λ (p : ProgressState). p.peer.station ≡ self.now.station) }
    {
        if !self.is_peer() {
            return None;
        }
        match known_in(self.known) {
            Some(known) => Some(Progress {
                known,
                posted: self.posted(),
                peer: self.peer(),
            }),
            None => None,
        }
    }
}
