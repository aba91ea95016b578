//! The trips of a capture, one packet after the other.

ghost use Rattle.std.specs.Prelude.{◌≡◌, ◌<◌, length, position, slice_index_or, IfOk, OnErr, IfSome};
ghost use Rattle.std.specs.Option.{ForSome};

use crate::alike::{is_numbered, told_fast};
use crate::lost::Lost;
use crate::marks::Marks;
use crate::packet::Outline;
use crate::queue::Queue;
use crate::trip::{Kept, Trip};
use crate::way::{Told, Way};
use ec_wire::FrameBuf;
use std::alloc::{AllocError, Global};
use std::marker::Model;

/// How many trips are on the way at most.
pub const MAX_ON_THE_WAY: usize = 4096;

/// What a packet is.
#[derive(Drop)]
pub enum Fate {
    /// It begins a trip.
    Begins,
    /// It begins a trip, and ends this one, whose question it asks again.
    Replaces(Kept),
    /// It is the second sent copy of the trip that the packet with this number began.
    Second(u64),
    /// It is a copy that came back of the trip that the packet with this number began, and another one is to
    /// come back.
    Back(u64),
    /// It is the last copy that comes back of this trip, which ends with it.
    Closes(Kept),
    /// It is a copy of a trip that was lost.
    Late,
    /// It came back, and nothing that was sent explains it.
    Stray,
}

/// One thing that happens.
#[derive(Drop)]
pub enum Step {
    /// A trip ended in front of the packet, which is still to be taken.
    Ended(Kept),
    /// The packet is taken: which way it went, and what it is.
    Taken(Told, Fate),
}

/// The trips of a capture that are on the way, and the frames of those that were lost last.
#[derive(Drop)]
pub struct Trips {
    alloc: Global,
    on_the_way: Queue,
    lost: Lost,
    /// The place of a trip that ended, for the next one that begins.
    spare: Option<Kept>,
}

impl Model for Trips {
    ghost use Rattle.ecat_trips.specs.Steps.{TripsState};

    ghost Value = { TripsState };

    ghost view = { λ t. record { on_the_way = t.on_the_way; lost = t.lost } };
}

impl Trips {
    ghost use Rattle.std.specs.Prelude.{[], ◌∷◌, OnOk};
    ghost use Rattle.ecat_trips.specs.Trip.{asks_again, begun};
    ghost use Rattle.ecat_trips.specs.Ways.{told};
    ghost use Rattle.ecat_trips.specs.Steps.{asked_before, begins, closes, comes_back, ends, is_late};
    ghost use Rattle.ecat_trips.specs.Steps.{lost_with};
    ghost use Rattle.ecat_trips.specs.Steps.{oldest_ends, replaces, returned, seconds, sent, sent_new, step};
    ghost use Rattle.ecat_trips.specs.Steps.{trip_of};

    /// No packet was taken yet.
    pub fn new(alloc: Global) -> Result<Trips, AllocError>
        ensures { IfOk result (λ trips. trips ≡ record { on_the_way = []; lost = [] }) }
    {
        let on_the_way = Queue::new(alloc, MAX_ON_THE_WAY)?;
        let lost = Lost::new(alloc)?;
        Ok(Trips {
            alloc,
            on_the_way,
            lost,
            spare: None,
        })
    }

    /// The way of a packet whose trip on the way, by its key, stands at this place.
    fn told(&self, marks: &Marks, packet: &Outline, frame: &FrameBuf, at: Option<usize>) -> Told
        requires { ForSome at (λ i. i < length self.now.on_the_way) }
        ensures { result ≡ told marks.now packet.now frame.now (trip_of packet.now frame.now self.now at) }
    {
        match at {
            Some(i) => marks.told(packet, frame, Some(self.trip(i))),
            None => marks.told(packet, frame, None),
        }
    }

    /// The trip at a place.
    fn trip(&self, i: usize) -> &Trip
        requires { i < length self.now.on_the_way }
        ensures { result.now ≡ slice_index_or self.now.on_the_way i result.now }
    {
        self.on_the_way.trips()[i].trip()
    }

    /// The place of a trip, whose question the packet asks again, goes to the one that the packet begins.
    fn replace(
        &mut self,
        packet: &Outline,
        frame: &FrameBuf,
        told: Told,
        i: usize,
    ) -> Result<Step, AllocError>
        requires { i < length self.old.on_the_way }
        ensures step { IfOk result (λ happened.
            happened ≡ (replaces packet.now frame.now self.old told i).step) }
        ensures after { OnOk result (self.new ≡ (replaces packet.now frame.now self.old told i).after) }
        ensures kept { OnErr result (self.new ≡ self.old) }
    {
        let kept = self.make(packet, frame)?;
        let kept = self.on_the_way.begin_for(kept, told_fast(frame), i);
        self.note_loss(kept.trip());
        Ok(Step::Taken(told, Fate::Replaces(kept)))
    }

    /// Of a trip that ended with no copy back the sent frame is known for a while.
    fn note_loss(&mut self, trip: &Trip)
        ensures { self.new ≡ record self.old { lost = lost_with trip.now self.old.lost } }
    {
        if trip.back.is_none() {
            self.lost.take(&trip.sent, told_fast(&trip.sent.frame));
        }
    }

    /// The trip at a place ends in front of the packet.
    fn end(&mut self, packet: &Outline, frame: &FrameBuf, i: usize) -> Step
        requires { i < length self.old.on_the_way }
        ensures step { result ≡ (ends packet.now frame.now self.old i).step }
        ensures after { self.new ≡ (ends packet.now frame.now self.old i).after }
    {
        let kept = self.on_the_way.end(i);
        self.note_loss(kept.trip());
        Step::Ended(kept)
    }

    /// The oldest trip ends in front of the packet.
    fn end_oldest(&mut self, packet: &Outline, frame: &FrameBuf) -> Step
        requires { 0 < length self.old.on_the_way }
        ensures step { result ≡ (oldest_ends packet.now frame.now self.old).step }
        ensures after { self.new ≡ (oldest_ends packet.now frame.now self.old).after }
    {
        let i = self.on_the_way.len() - 1;
        self.end(packet, frame, i)
    }

    /// A trip that begins with the packet, in the place of one that ended, if there is any.
    fn make(&mut self, packet: &Outline, frame: &FrameBuf) -> Result<Kept, AllocError>
        ensures trip { IfOk result (λ kept. kept ≡ begun packet.now frame.now) }
        ensures same { self.new ≡ self.old }
    {
        match self.spare.take() {
            Some(mut kept) => {
                kept.begin(*packet, frame);
                Ok(kept)
            }
            None => Kept::begun(self.alloc, *packet, frame),
        }
    }

    /// The packet begins a trip.
    fn add(&mut self, packet: &Outline, frame: &FrameBuf) -> Result<(), AllocError>
        ensures added { OnOk result (self.new ≡ record {
          on_the_way = begun packet.now frame.now ∷ self.old.on_the_way;
          lost = self.old.lost;
        }) }
        ensures kept { OnErr result (self.new ≡ self.old) }
    {
        let kept = self.make(packet, frame)?;
        self.on_the_way.begin(kept, told_fast(frame))
    }

    /// The packet begins a trip; where as many are on the way as may be, the oldest ends first.
    fn begin(&mut self, packet: &Outline, frame: &FrameBuf, told: Told) -> Result<Step, AllocError>
        ensures step { IfOk result (λ happened. happened ≡ (begins packet.now frame.now self.old told).step) }
        ensures after { OnOk result (self.new ≡ (begins packet.now frame.now self.old told).after) }
        ensures kept { OnErr result (self.new ≡ self.old) }
    {
        if self.on_the_way.len() < MAX_ON_THE_WAY {
            self.add(packet, frame)?;
            Ok(Step::Taken(told, Fate::Begins))
        } else {
            Ok(self.end_oldest(packet, frame))
        }
    }

    /// The packet is the second sent copy of the trip at a place.
    fn second(&mut self, packet: &Outline, frame: &FrameBuf, told: Told, i: usize) -> Step
        requires { i < length self.old.on_the_way }
        ensures step { result ≡ (seconds packet.now frame.now self.old told i).step }
        ensures after { self.new ≡ (seconds packet.now frame.now self.old told i).after }
    {
        self.on_the_way.take_second(i, *packet);
        Step::Taken(told, Fate::Second(self.trip(i).first.number))
    }

    /// The packet is a copy that came back, and one more is to come back.
    fn come_back(&mut self, packet: &Outline, frame: &FrameBuf, told: Told, i: usize) -> Step
        requires { i < length self.old.on_the_way }
        ensures step { result ≡ (comes_back packet.now frame.now self.old told i).step }
        ensures after { self.new ≡ (comes_back packet.now frame.now self.old told i).after }
    {
        self.on_the_way.take_return(i, *packet, frame);
        Step::Taken(told, Fate::Back(self.trip(i).first.number))
    }

    /// The packet is the last copy that comes back; older trips end first.
    fn close(&mut self, packet: &Outline, frame: &FrameBuf, told: Told, i: usize) -> Step
        requires { i < length self.old.on_the_way }
        ensures step { result ≡ (closes packet.now frame.now self.old told i).step }
        ensures after { self.new ≡ (closes packet.now frame.now self.old told i).after }
    {
        if self.on_the_way.len() == i + 1 {
            let mut kept = self.on_the_way.end(i);
            kept.take_return(*packet, frame);
            Step::Taken(told, Fate::Closes(kept))
        } else {
            self.end_oldest(packet, frame)
        }
    }

    /// The packet came back of no trip on the way.
    fn stray(&mut self, packet: &Outline, frame: &FrameBuf, told: Told) -> Step
        ensures step { result ≡ (is_late packet.now frame.now self.old told).step }
        ensures after { self.new ≡ (is_late packet.now frame.now self.old told).after }
    {
        match self.lost.place_of(told_fast(frame), frame) {
            Some(j) => {
                self.lost.forget(j);
                Step::Taken(told, Fate::Late)
            }
            None => Step::Taken(told, Fate::Stray),
        }
    }

    /// The place of the newest trip on the way whose question a frame with a number asks again. A frame
    /// without one has the key of such a trip.
    fn asked_before(&self, frame: &FrameBuf) -> Option<usize>
        ensures value { result ≡ asked_before frame.now self.now.on_the_way }
        ensures within { IfSome result (λ i. i < length self.now.on_the_way) }
    {
        if is_numbered(frame) {
            self.place_asked(frame)
        } else {
            None
        }
    }

    /// The place of the newest trip on the way whose question a frame asks again.
    fn place_asked(&self, frame: &FrameBuf) -> Option<usize>
        ensures value { result ≡ position (asks_again frame.now) self.now.on_the_way }
        ensures within { IfSome result (λ i. i < length self.now.on_the_way) }
    {
        self.on_the_way
            .trips()
            .iter()
            .position(|kept| kept.trip().asks_again(frame))
    }

    /// The packet was sent, and no trip of its key is on the way.
    fn send_new(
        &mut self,
        packet: &Outline,
        frame: &FrameBuf,
        told: Told,
    ) -> Result<Step, AllocError>
        ensures step { IfOk result (λ happened. happened ≡ (sent_new packet.now frame.now self.old told
            (asked_before frame.now self.old.on_the_way)).step) }
        ensures after { OnOk result (self.new ≡ (sent_new packet.now frame.now self.old told
            (asked_before frame.now self.old.on_the_way)).after) }
        ensures kept { OnErr result (self.new ≡ self.old) }
    {
        match self.asked_before(frame) {
            Some(j) => self.replace(packet, frame, told, j),
            None => self.begin(packet, frame, told),
        }
    }

    /// The packet was sent, and the trip of its key on the way stands at this place.
    fn send_again(
        &mut self,
        marks: &Marks,
        packet: &Outline,
        frame: &FrameBuf,
        told: Told,
        i: usize,
    ) -> Result<Step, AllocError>
        requires { i < length self.old.on_the_way }
        ensures step { IfOk result (λ happened.
            happened ≡ (sent marks.now packet.now frame.now self.old told (Some i)).step) }
        ensures after { OnOk result
            (self.new ≡ (sent marks.now packet.now frame.now self.old told (Some i)).after) }
        ensures kept { OnErr result (self.new ≡ self.old) }
    {
        if marks.two && self.trip(i).is_second(packet, frame) {
            Ok(self.second(packet, frame, told, i))
        } else {
            self.replace(packet, frame, told, i)
        }
    }

    /// The packet returned, and the trip of its key on the way stands at this place.
    fn return_to(
        &mut self,
        marks: &Marks,
        packet: &Outline,
        frame: &FrameBuf,
        told: Told,
        i: usize,
    ) -> Step
        requires { i < length self.old.on_the_way }
        ensures step { result ≡ (returned marks.now packet.now frame.now self.old told (Some i)).step }
        ensures after { self.new ≡ (returned marks.now packet.now frame.now self.old told (Some i)).after }
    {
        let trip = self.trip(i);
        if !trip.has_room() {
            self.stray(packet, frame, told)
        } else if marks.two && trip.back.is_none() {
            self.come_back(packet, frame, told, i)
        } else {
            self.close(packet, frame, told, i)
        }
    }

    /// What happens with a packet: call it again with the same packet as long as it answers [`Step::Ended`],
    /// that a trip ended in front of it. Where memory is refused, 4 KB for a trip that begins, nothing has
    /// changed.
    pub fn take(
        &mut self,
        marks: &Marks,
        packet: &Outline,
        frame: &FrameBuf,
    ) -> Result<Step, AllocError>
        ensures step { IfOk result (λ happened.
            happened ≡ (step marks.now packet.now frame.now self.old).step) }
        ensures after { OnOk result (self.new ≡ (step marks.now packet.now frame.now self.old).after) }
        ensures kept { OnErr result (self.new ≡ self.old) }
    {
        let at = self.on_the_way.place_of(told_fast(frame), frame);
        let told = self.told(marks, packet, frame, at);
        match told.way {
            Way::Sent => match at {
                Some(i) => self.send_again(marks, packet, frame, told, i),
                None => self.send_new(packet, frame, told),
            },
            Way::Returned => match at {
                Some(i) => Ok(self.return_to(marks, packet, frame, told, i)),
                None => Ok(self.stray(packet, frame, told)),
            },
        }
    }

    /// Takes back the place of the trip that ended with a step, if one did, for one that begins: then no
    /// memory is asked for, and less is copied.
    pub fn reuse(&mut self, step: Step)
        ensures { self.new ≡ self.old }
    {
        match step {
            Step::Ended(kept) => self.spare = Some(kept),
            Step::Taken(_, Fate::Replaces(kept) | Fate::Closes(kept)) => self.spare = Some(kept),
            Step::Taken(_, _) => {}
        }
    }

    /// How many trips are on the way.
    pub fn on_the_way(&self) -> usize
        ensures { result ≡ length self.now.on_the_way }
    {
        self.on_the_way.len()
    }

    /// The trips that are on the way, the newest first.
    pub fn trips(&self) -> &[Kept]
        ensures { result.now ≡ self.now.on_the_way }
    {
        self.on_the_way.trips()
    }
}
