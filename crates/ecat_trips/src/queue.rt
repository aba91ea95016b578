//! The trips that are on the way, in the order in which they began.

ghost use Rattle.std.specs.Prelude.{◌≡◌, ◌<◌, ◌∷◌, [], IfOk, IfSome, OnErr, OnOk, length, position, remove};
ghost use Rattle.std.specs.Prelude.{slice_index_or, slice_set};
ghost use Rattle.ecat_trips.specs.Alike.{told_fast};
ghost use Rattle.ecat_trips.specs.Queue.{number_of_trip};

use crate::packet::Outline;
use crate::seen::Seen;
use crate::trip::Kept;
use ec_wire::FrameBuf;
use std::alloc::{AllocError, Global};
use std::marker::Model;
use std::mem::replace;

/// What stands at a place goes, and something else comes to the front; nothing behind the place is moved.
fn put_first<T>(items: &mut [T], i: usize, first: T) -> T
    requires { i < length items.old }
    ensures gone { result ≡ slice_index_or items.old i result }
    ensures after { items.new ≡ first ∷ remove items.old i }
{
    items[..i + 1].rotate_right(1);
    replace(&mut items[0], first)
}

/// The trips that are on the way, the newest first.
#[derive(Drop)]
pub(crate) struct Queue {
    kept: Vec<Kept>,
    /// What is told fast of the key of each: numbers that lie together are looked through much sooner.
    numbers: Vec<u64>,
    /// Which numbers trips had that began: a frame of another number is not looked for.
    seen: Seen,
}

impl Model for Queue {
    ghost use Rattle.std.specs.Prelude.{List};
    ghost use Rattle.ecat_trips.specs.declared.trip.Trip.{Trip};

    ghost Value = { List Trip };

    ghost view = { λ q. q.kept.items };

    ghost use Rattle.std.specs.Prelude.{◌≡◌, All, map, true};
    ghost use Rattle.ecat_trips.specs.Queue.{number_of_trip};
    ghost use Rattle.ecat_trips.specs.Seen.{is_seen};

    ghost invariant = { λ q. (q.numbers.items ≡ map number_of_trip q.kept.items)
        × All (λ n. is_seen q.seen n ≡ true) q.numbers.items };
}

impl Queue {
    ghost use Rattle.ecat_trips.specs.declared.trip.Trip.{Trip};
    ghost use Rattle.ecat_trips.specs.Steps.{bears_trip};
    ghost use Rattle.ecat_trips.specs.Trip.{with_return, with_second};

    /// No trip is on the way, and there is room for so many.
    pub(crate) fn new(alloc: Global, room: usize) -> Result<Queue, AllocError>
        ensures { IfOk result (λ queue. queue ≡ []) }
    {
        let kept = Vec::with_capacity(alloc, room)?;
        let numbers = Vec::with_capacity(alloc, room)?;
        let seen = Seen::new(alloc)?;
        Ok(Queue {
            kept,
            numbers,
            seen,
        })
    }

    /// The trips, the newest first.
    pub(crate) fn trips(&self) -> &[Kept]
        ensures { result.now ≡ self.now }
    {
        &self.kept
    }

    /// How many trips are on the way.
    pub(crate) fn len(&self) -> usize
        ensures { result ≡ length self.now }
    {
        self.kept.len()
    }

    /// The place of the newest trip whose key a frame bears, of which this is told fast.
    pub(crate) fn place_of(&self, number: u64, frame: &FrameBuf) -> Option<usize>
        requires { number ≡ told_fast frame.now }
        ensures value { result ≡ position (bears_trip frame.now) self.now }
        ensures within { IfSome result (λ i. i < length self.now) }
    {
        if self.seen.has(number) {
            self.look_for(number, frame)
        } else {
            None
        }
    }

    /// Does a frame, of which this is told fast, bear the key of the trip at a place?
    fn bears(&self, i: usize, number: u64, frame: &FrameBuf) -> bool
        requires place { i < length self.now }
        requires number { number ≡ told_fast frame.now }
        ensures { (t : Trip) → result ≡ bears_trip frame.now (slice_index_or self.now i t) }
    {
        self.numbers[i] == number && self.kept[i].bears(frame)
    }

    /// Looks for that place among the numbers.
    fn look_for(&self, number: u64, frame: &FrameBuf) -> Option<usize>
        requires { number ≡ told_fast frame.now }
        ensures value { result ≡ position (bears_trip frame.now) self.now }
        ensures within { IfSome result (λ i. i < length self.now) }
    {
        for i in 0..self.kept.len() {
            if self.bears(i, number, frame) {
                return Some(i);
            }
        }
        None
    }

    /// A trip begins, of which this is told fast.
    pub(crate) fn begin(&mut self, kept: Kept, number: u64) -> Result<(), AllocError>
        requires { number ≡ number_of_trip kept }
        ensures begun { OnOk result (self.new ≡ kept ∷ self.old) }
        ensures same { OnErr result (self.new ≡ self.old) }
    {
        self.kept.reserve(1)?;
        self.numbers.insert(0, number)?;
        let _ = self.kept.insert(0, kept);
        self.seen.mark(number);
        Ok(())
    }

    /// A trip begins, of which this is told fast, and the one at a place ends.
    pub(crate) fn begin_for(&mut self, kept: Kept, number: u64, i: usize) -> Kept
        requires place { i < length self.old }
        requires number { number ≡ number_of_trip kept }
        ensures ended { result ≡ slice_index_or self.old i result }
        ensures after { self.new ≡ kept ∷ remove self.old i }
    {
        let _ = put_first(self.numbers.as_mut_slice(), i, number);
        self.seen.mark(number);
        put_first(self.kept.as_mut_slice(), i, kept)
    }

    /// The trip at a place ends.
    pub(crate) fn end(&mut self, i: usize) -> Kept
        requires { i < length self.old }
        ensures ended { result ≡ slice_index_or self.old i result }
        ensures after { self.new ≡ remove self.old i }
    {
        let _ = self.numbers.remove(i);
        self.kept.remove(i)
    }

    /// The trip at a place takes its second sent copy.
    pub(crate) fn take_second(&mut self, i: usize, packet: Outline)
        requires { i < length self.old }
        ensures count { length self.new ≡ length self.old }
        ensures after { (t : Trip) → self.new
            ≡ slice_set self.old i (with_second packet (slice_index_or self.old i t)) }
    {
        self.kept[i].take_second(packet);
    }

    /// The trip at a place takes one more copy that came back.
    pub(crate) fn take_return(&mut self, i: usize, packet: Outline, frame: &FrameBuf)
        requires { i < length self.old }
        ensures count { length self.new ≡ length self.old }
        ensures after { (t : Trip) → self.new
            ≡ slice_set self.old i (with_return packet frame.now (slice_index_or self.old i t)) }
    {
        self.kept[i].take_return(packet, frame);
    }
}
