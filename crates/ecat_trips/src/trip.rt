//! A trip: what was sent, and what came back of it.

ghost use Rattle.std.specs.Prelude.{◌≡◌, IfOk, None, Some, is_some, true};
ghost use Rattle.ecat_trips.specs.Copies.{both_moved, joined_with, with_number};

use crate::alike::{is_still, same_frame, same_key, same_question};
use crate::copies::{join_in, take_number, with_number};
use crate::packet::Outline;
use ec_wire::FrameBuf;
use std::alloc::{AllocError, Global};
use std::marker::Model;

/// A frame as it was sent, by which its copies are known.
#[derive(Drop)]
pub struct SentFrame {
    /// The frame of the first copy.
    pub frame: FrameBuf,
}

impl SentFrame {
    ghost use Rattle.ecat_trips.specs.Trip.{bears};

    /// Does a frame bear the key of this one?
    pub fn bears(&self, frame: &FrameBuf) -> bool
        ensures { result ≡ bears frame.now self.now }
    {
        same_key(&self.frame, frame)
    }

    /// Another frame takes the place of this one.
    pub(crate) fn copy_from(&mut self, sent: &SentFrame)
        ensures { self.new ≡ sent.now }
    {
        self.frame.copy_from(&sent.frame);
    }
}

/// A frame that came back, in a place of its own: so the trip that has it is handed on with no frame moved.
#[derive(Drop)]
pub struct CameFrame {
    frame: Box<FrameBuf>,
}

impl Model for CameFrame {
    ghost use Rattle.std.specs.Prelude.{List};
    ghost use Rattle.ec_wire.specs.Datagram.{DatagramRecord};

    ghost Value = { List DatagramRecord };

    ghost view = { λ c. c.frame.value };
}

impl CameFrame {
    ghost use Rattle.ecat_trips.specs.Copies.{joined, with_number};

    /// This frame, as it came back: 2 KB of memory.
    pub fn new(alloc: Global, frame: &FrameBuf) -> Result<CameFrame, AllocError>
        ensures { IfOk result (λ came. came ≡ frame.now) }
    {
        let frame = Box::new(alloc, frame.copy())?;
        Ok(CameFrame { frame })
    }

    /// The frame.
    pub fn frame(&self) -> &FrameBuf
        ensures { result.now ≡ self.now }
    {
        &self.frame
    }

    /// A frame that came takes the place, with the number of the sent one.
    fn put(&mut self, sent: &FrameBuf, frame: &FrameBuf)
        ensures { self.new ≡ with_number sent.now frame.now }
    {
        self.fill(frame);
        take_number(sent, &mut self.frame);
    }

    /// A frame takes the place.
    fn fill(&mut self, frame: &FrameBuf)
        ensures { self.new ≡ frame.now }
    {
        self.frame.copy_from(frame);
    }

    /// Joins another copy in.
    fn join(&mut self, sent: &FrameBuf, other: &FrameBuf)
        ensures { self.new ≡ joined sent.now self.old other.now }
    {
        join_in(sent, &mut self.frame, other);
    }
}

/// What was sent, once or by both ports of a master, and what came back of it.
#[derive(Drop)]
pub struct Trip {
    /// The frame that was sent.
    pub sent: SentFrame,
    /// The packet of the first sent copy.
    pub first: Outline,
    /// That of the second, which the other port sent.
    pub second: Option<Outline>,
    /// What came back, with the number of the first sent copy: of two copies the join.
    pub came: Option<CameFrame>,
    /// The packet of the first copy that came back.
    pub back: Option<Outline>,
    /// That of the second.
    pub again: Option<Outline>,
    /// Did slaves process both copies that came back? Over a closed ring one of them comes back as it was
    /// sent.
    pub is_open: bool,
}

impl Trip {
    ghost use Rattle.ecat_trips.specs.Trip.{asks_again, begun, has_room, is_second, with_again, with_back};
    ghost use Rattle.ecat_trips.specs.Trip.{with_return, with_second};

    /// A trip that begins with a packet.
    pub(crate) fn begun(first: Outline, frame: &FrameBuf) -> Trip
        ensures { result ≡ begun first frame.now }
    {
        Trip {
            sent: SentFrame {
                frame: frame.copy(),
            },
            first,
            second: None,
            came: None,
            back: None,
            again: None,
            is_open: false,
        }
    }

    /// A trip that begins with a packet takes the place of this one; gives the place of what came back.
    pub(crate) fn begin(&mut self, first: Outline, frame: &FrameBuf) -> Option<CameFrame>
        ensures trip { self.new ≡ begun first frame.now }
        ensures place { result ≡ self.old.came }
    {
        self.sent.frame.copy_from(frame);
        self.first = first;
        self.second = None;
        self.back = None;
        self.again = None;
        self.is_open = false;
        self.came.take()
    }

    /// Is a packet the second sent copy of the trip?
    pub(crate) fn is_second(&self, packet: &Outline, frame: &FrameBuf) -> bool
        ensures { result ≡ is_second packet.now frame.now self.now }
    {
        self.second.is_none()
            && packet.source.base != self.first.source.base
            && same_frame(&self.sent.frame, frame)
    }

    /// Does a frame ask what this one asked, under whatever number?
    pub(crate) fn asks_again(&self, frame: &FrameBuf) -> bool
        ensures { result ≡ asks_again frame.now self.now }
    {
        same_question(&self.sent.frame, frame)
    }

    /// May one more copy come back? No more may than were sent.
    pub(crate) fn has_room(&self) -> bool
        ensures { result ≡ has_room self.now }
    {
        self.back.is_none() || self.second.is_some()
    }

    /// Takes the second sent copy.
    pub(crate) fn take_second(&mut self, packet: Outline)
        ensures { self.new ≡ with_second packet self.old }
    {
        self.second = Some(packet);
    }

    /// Takes the first copy that came back; it goes to this place where the trip has none.
    fn take_back(&mut self, packet: Outline, frame: &FrameBuf, place: Option<CameFrame>)
        requires { self.old.came ≡ None → is_some place ≡ true }
        ensures { self.new ≡ with_back packet frame.now self.old }
    {
        let place = first_of(self.came.take(), place);
        self.came = filled(place, &self.sent.frame, frame);
        self.back = Some(packet);
    }

    /// Takes the second copy that came back; it goes to this place where no first one is.
    fn take_again(&mut self, packet: Outline, frame: &FrameBuf, place: Option<CameFrame>)
        requires { self.old.came ≡ None → is_some place ≡ true }
        ensures { self.new ≡ with_again packet frame.now self.old }
    {
        let other = with_number(&self.sent.frame, frame);
        self.is_open = both_moved(&self.sent.frame, &self.came, &other);
        self.came = joined_with(&self.sent.frame, self.came.take(), &other, place);
        self.again = Some(packet);
    }

    /// Takes one more copy that came back; it goes to this place where the trip has none.
    pub(crate) fn take_return(
        &mut self,
        packet: Outline,
        frame: &FrameBuf,
        place: Option<CameFrame>,
    )
        requires { self.old.came ≡ None → is_some place ≡ true }
        ensures trip { self.new ≡ with_return packet frame.now self.old }
        ensures came { is_some self.new.came ≡ true }
    {
        match self.back {
            None => self.take_back(packet, frame, place),
            Some(_) => self.take_again(packet, frame, place),
        }
    }
}

/// Did slaves process both the copy that came and another one?
fn both_moved(sent: &FrameBuf, came: &Option<CameFrame>, other: &FrameBuf) -> bool
    ensures { result ≡ both_moved sent.now other.now came.now }
{
    match came {
        None => false,
        Some(came) => !is_still(sent, came.frame()) && !is_still(sent, other),
    }
}

/// The first place, or where there is none the second.
fn first_of(place: Option<CameFrame>, other: Option<CameFrame>) -> Option<CameFrame>
    requires { place ≡ None → is_some other ≡ true }
    ensures { is_some result ≡ true }
{
    match place {
        Some(place) => Some(place),
        None => other,
    }
}

/// A place with a frame that came, with the number of the sent one.
fn filled(place: Option<CameFrame>, sent: &FrameBuf, frame: &FrameBuf) -> Option<CameFrame>
    requires { is_some place ≡ true }
    ensures { result ≡ Some (with_number sent.now frame.now) }
{
    match place {
        None => None,
        Some(mut place) => {
            place.put(sent, frame);
            Some(place)
        }
    }
}

/// What came, with another copy joined in; of none that one, in this place.
fn joined_with(
    sent: &FrameBuf,
    came: Option<CameFrame>,
    other: &FrameBuf,
    place: Option<CameFrame>,
) -> Option<CameFrame>
    requires { came ≡ None → is_some place ≡ true }
    ensures { result ≡ Some (joined_with sent.now other.now came) }
{
    match came {
        None => match place {
            None => None,
            Some(mut place) => {
                place.fill(other);
                Some(place)
            }
        },
        Some(mut came) => {
            came.join(sent, other);
            Some(came)
        }
    }
}

/// A trip, and where what comes back of it is put.
#[derive(Drop)]
struct Held {
    trip: Trip,
    /// Where what comes back is put, until the trip has it.
    place: Option<CameFrame>,
}

/// A trip that is kept in a place of its own: so it is moved by eight bytes.
#[derive(Drop)]
pub struct Kept {
    held: Box<Held>,
}

impl Model for Kept {
    ghost use Rattle.ecat_trips.specs.declared.trip.Trip.{Trip};

    ghost Value = { Trip };

    ghost view = { λ k. k.held.value.trip };

    ghost use Rattle.std.specs.Prelude.{◌≡◌, None, is_some, true};

    ghost invariant = { λ k. k.held.value.trip.came ≡ None → is_some k.held.value.place ≡ true };
}

impl Kept {
    ghost use Rattle.ecat_trips.specs.Trip.{bears, begun, with_return, with_second};

    /// Keeps a trip that begins with a packet: 4 KB of memory.
    pub(crate) fn begun(alloc: Global, first: Outline, frame: &FrameBuf) -> Result<Kept, AllocError>
        ensures { IfOk result (λ kept. kept ≡ begun first frame.now) }
    {
        let place = Some(CameFrame::new(alloc, frame)?);
        let trip = Trip::begun(first, frame);
        let held = Box::new(alloc, Held { trip, place })?;
        Ok(Kept { held })
    }

    /// A trip that begins with a packet takes the place of this one.
    pub(crate) fn begin(&mut self, first: Outline, frame: &FrameBuf)
        ensures { self.new ≡ begun first frame.now }
    {
        match self.held.trip.begin(first, frame) {
            Some(place) => self.held.place = Some(place),
            None => {}
        }
    }

    /// Does a frame bear the key of the trip?
    pub(crate) fn bears(&self, frame: &FrameBuf) -> bool
        ensures { result ≡ bears frame.now self.now.sent }
    {
        self.held.trip.sent.bears(frame)
    }

    /// The trip.
    pub fn trip(&self) -> &Trip
        ensures { result.now ≡ self.now }
    {
        &self.held.trip
    }

    /// Takes the second sent copy.
    pub(crate) fn take_second(&mut self, packet: Outline)
        ensures { self.new ≡ with_second packet self.old }
    {
        self.held.trip.take_second(packet);
    }

    /// Takes one more copy that came back.
    pub(crate) fn take_return(&mut self, packet: Outline, frame: &FrameBuf)
        ensures { self.new ≡ with_return packet frame.now self.old }
    {
        let place = self.held.place.take();
        self.held.trip.take_return(packet, frame, place);
    }
}
