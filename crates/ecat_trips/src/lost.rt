//! The frames of the trips that were lost last.

ghost use Rattle.std.specs.Prelude.{◌≡◌, ◌-◌, ◌<◌, ◌≤◌, [], IfOk, IfSome, length, position, remove};
ghost use Rattle.std.specs.Prelude.{slice_index_or, take};
ghost use Rattle.std.specs.Vec.{vec_capacity};

use crate::seen::Seen;
use crate::trip::SentFrame;
use arrayvec::ArrayVec;
use ec_wire::{Command, Datagram, FrameBuf};
use std::alloc::{AllocError, Global};
use std::collections::VecDeque;
use std::marker::Model;

/// How many lost trips are known again when a copy of them comes late.
pub const MAX_LOST: usize = 64;

/// The sent frame of a lost trip, in a place of its own: so it is never moved.
#[derive(Drop)]
struct LostFrame {
    sent: Box<SentFrame>,
}

impl Model for LostFrame {
    ghost use Rattle.ecat_trips.specs.declared.trip.SentFrame.{SentFrame};

    ghost Value = { SentFrame };

    ghost view = { λ l. l.sent.value };
}

impl LostFrame {
    ghost use Rattle.ecat_trips.specs.Trip.{bears};

    /// A place with a frame: 2 KB of memory.
    fn new(alloc: Global, frame: FrameBuf) -> Result<LostFrame, AllocError> {
        let sent = Box::new(alloc, SentFrame { frame })?;
        Ok(LostFrame { sent })
    }

    /// Another frame takes the place.
    fn fill(&mut self, sent: &SentFrame)
        ensures { self.new ≡ sent.now }
    {
        self.sent.copy_from(sent);
    }

    /// Does a frame bear the key of this one?
    fn bears(&self, frame: &FrameBuf) -> bool
        ensures { result ≡ bears frame.now self.now }
    {
        self.sent.bears(frame)
    }
}

/// The sent frames of the last 64 trips that were lost, the newest first.
#[derive(Drop)]
pub(crate) struct Lost {
    frames: VecDeque<LostFrame>,
    /// What is told fast of the key of each: numbers that lie together are looked through much sooner.
    numbers: VecDeque<u64>,
    /// Which numbers lost trips had: a frame of another number is not looked for.
    seen: Seen,
    /// The places that have no frame of a lost trip.
    free: Vec<LostFrame>,
}

impl Model for Lost {
    ghost use Rattle.std.specs.Prelude.{List, ◌≤◌, length};
    ghost use Rattle.ecat_trips.specs.declared.trip.SentFrame.{SentFrame};
    ghost use Rattle.std.specs.VecDeque.{deque_capacity};
    ghost use Rattle.std.specs.Vec.{vec_capacity};
    ghost use Rattle.ecat_trips.specs.declared.lost.TheConstants.{MAX_LOST};

    ghost Value = { List SentFrame };

    ghost view = { λ l. l.frames.items };

    ghost use Rattle.std.specs.Prelude.{◌≡◌, ◌+◌, All, map, true};
    ghost use Rattle.ecat_trips.specs.Lost.{number_of};
    ghost use Rattle.ecat_trips.specs.Seen.{is_seen};

    ghost invariant = { λ l. (MAX_LOST ≤ deque_capacity l.frames) × (length l.frames.items ≤ MAX_LOST)
        × (MAX_LOST ≤ deque_capacity l.numbers) × (l.numbers.items ≡ map number_of l.frames.items)
        × (MAX_LOST ≤ vec_capacity l.free) × (length l.frames.items + length l.free.items ≡ MAX_LOST)
        × All (λ n. is_seen l.seen n ≡ true) l.numbers.items };
}

/// A frame of one datagram that asks nothing.
fn blank() -> FrameBuf {
    FrameBuf::of(&Datagram {
        command: Command::Nop,
        index: 0,
        address: 0,
        circulating: false,
        irq: 0,
        payload: ArrayVec::new(),
        counter: 0,
    })
}

/// As many places as lost trips are known.
fn places(alloc: Global) -> Result<Vec<LostFrame>, AllocError>
    ensures count { IfOk result (λ places. length places.items ≡ MAX_LOST) }
    ensures room { IfOk result (λ places. MAX_LOST ≤ vec_capacity places) }
{
    let mut places = Vec::with_capacity(alloc, MAX_LOST)?;
    for _ in 0..MAX_LOST {
        places.push(LostFrame::new(alloc, blank())?)?;
    }
    Ok(places)
}

impl Lost {
    ghost use Rattle.ecat_trips.specs.declared.lost.TheConstants.{MAX_LOST};
    ghost use Rattle.ecat_trips.specs.declared.trip.SentFrame.{SentFrame};
    ghost use Rattle.ecat_trips.specs.Alike.{told_fast};
    ghost use Rattle.ecat_trips.specs.Trip.{bears};
    ghost use Rattle.ecat_trips.specs.Lost.{number_of, remembered};

    /// No trip was lost yet. It takes 120 KB of memory.
    pub(crate) fn new(alloc: Global) -> Result<Lost, AllocError>
        ensures { IfOk result (λ lost. lost ≡ []) }
    {
        let frames = VecDeque::with_capacity(alloc, MAX_LOST)?;
        let numbers = VecDeque::with_capacity(alloc, MAX_LOST)?;
        let seen = Seen::new(alloc)?;
        let free = places(alloc)?;
        Ok(Lost {
            frames,
            numbers,
            seen,
            free,
        })
    }

    /// The oldest one is forgotten, where there are as many as may be.
    fn make_room(&mut self)
        ensures room { length self.new < MAX_LOST }
        ensures rest { self.new ≡ take (MAX_LOST - 1) self.old }
    {
        if self.frames.len() == MAX_LOST {
            self.forget(MAX_LOST - 1);
        }
    }

    /// Takes the sent frame of a trip that is lost, of whose key this is told fast; the oldest one is
    /// forgotten.
    pub(crate) fn take(&mut self, sent: &SentFrame, number: u64)
        requires { number ≡ number_of sent.now }
        ensures { self.new ≡ remembered sent.now self.old }
    {
        self.make_room();
        let mut place = self.free.pop().unwrap();
        place.fill(sent);
        self.seen.mark(number);
        self.numbers.push_front_reserved(number);
        self.frames.push_front_reserved(place);
    }

    /// The place of the newest one whose key a frame bears, of which this is told fast.
    pub(crate) fn place_of(&self, number: u64, frame: &FrameBuf) -> Option<usize>
        requires { number ≡ told_fast frame.now }
        ensures value { result ≡ position (bears frame.now) self.now }
        ensures within { IfSome result (λ i. i < length self.now) }
    {
        if self.seen.has(number) {
            self.look_for(number, frame)
        } else {
            None
        }
    }

    /// Does a frame, of which this is told fast, bear the key of the one at a place?
    fn bears(&self, i: usize, number: u64, frame: &FrameBuf) -> bool
        requires place { i < length self.now }
        requires number { number ≡ told_fast frame.now }
        ensures { (s : SentFrame) → result ≡ bears frame.now (slice_index_or self.now i s) }
    {
        self.numbers[i] == number && self.frames[i].bears(frame)
    }

    /// Looks for that place among the numbers.
    fn look_for(&self, number: u64, frame: &FrameBuf) -> Option<usize>
        requires { number ≡ told_fast frame.now }
        ensures value { result ≡ position (bears frame.now) self.now }
        ensures within { IfSome result (λ i. i < length self.now) }
    {
        for i in 0..self.frames.len() {
            if self.bears(i, number, frame) {
                return Some(i);
            }
        }
        None
    }

    /// Forgets the one at a place, since a copy of it came.
    pub(crate) fn forget(&mut self, i: usize)
        requires { i < length self.old }
        ensures { self.new ≡ remove self.old i }
    {
        let _ = self.numbers.remove(i);
        let place = self.frames.remove(i).unwrap();
        self.free.push_reserved(place);
    }
}
