//! Ports whose trips meet with what lines say, and past these with a ring.

ghost use Rattle.std.specs.Prelude.{◌≤◌, ◌≡◌};

use crate::words::{Fault, Words};
use ec_master::{PortFault, Ports, RingPorts};
use ec_ring::{Came, Ring, Travel, Weather};
use ec_wire::{Command, Datagram, FrameBuf};
use std::alloc::Global;

/// What comes back as a copy of a frame.
#[derive(Drop)]
enum Copy {
    /// Nothing.
    Lost,
    /// The frame as it was sent.
    Sent,
    /// A frame of one empty datagram that nobody asks.
    Other,
    /// The frame with this counter in its first datagram, and with these bytes first in its data.
    Answered { counter: u16, front: Vec<u8> },
}

/// What a trip meets with.
#[derive(Drop)]
enum Fate {
    /// The ports fail.
    Fails,
    /// These copies come back.
    Comes { a: Copy, b: Copy },
    /// The frame travels over the ring in this weather.
    Under(Weather),
}

/// What came of a trip.
#[derive(Drop)]
enum Met {
    /// The ports fail.
    Fault,
    /// These copies.
    Copies(Came),
    /// The frame travels in this weather.
    Sky(Weather),
    /// No line says anything of it.
    Nothing,
}

/// Two ports: what their trips meet with, one after the other, and the ring over which frames travel past
/// these. Where there is none, their copies are lost.
#[derive(Drop)]
pub struct Ways {
    fates: Vec<Fate>,
    ring: Option<Ring>,
    is_open: bool,
    trips: usize,
    failed: u64,
    sent: Option<FrameBuf>,
}

/// A copy, up to the word that ends it: `lost`, `sent`, `other`, or COUNTER BYTES.
fn copy_of(words: &mut Words<'_>, end: &str) -> Copy {
    match words.word() {
        "lost" => bare(Copy::Lost, words, end),
        "sent" => bare(Copy::Sent, words, end),
        "other" => bare(Copy::Other, words, end),
        word => {
            let counter = words.within(word, 0xFFFF) as u16;
            Copy::Answered {
                counter,
                front: words.bytes_to(end),
            }
        }
    }
}

/// A copy that has no bytes of its own.
fn bare(copy: Copy, words: &mut Words<'_>, end: &str) -> Copy {
    if !words.bytes_to(end).is_empty() {
        words.refuse(Fault::TooManyWords);
    }
    copy
}

/// A frame of one empty datagram that nobody asks.
fn other() -> FrameBuf {
    FrameBuf::of(&Datagram {
        command: Command::Nop,
        index: 99,
        address: 0,
        circulating: false,
        irq: 0,
        payload: Default::default(),
        counter: 0,
    })
}

/// The frame with this counter in its first datagram, and with these bytes first in its data, as far as they
/// go.
fn answered(sent: &FrameBuf, counter: u16, front: &[u8]) -> FrameBuf {
    let mut frame = sent.copy();
    if frame.count() > 0 {
        frame.set_counter(0, counter);
        for (to, from) in frame.data_mut(0).iter_mut().zip(front) {
            *to = *from;
        }
    }
    frame
}

/// The copy that comes back of a frame.
fn came(copy: &Copy, sent: &FrameBuf) -> Option<FrameBuf> {
    match copy {
        Copy::Lost => None,
        Copy::Sent => Some(sent.copy()),
        Copy::Other => Some(other()),
        Copy::Answered { counter, front } => Some(answered(sent, *counter, front.as_slice())),
    }
}

impl Ways {
    /// Ports that have made no trip, at which every copy is lost.
    pub fn new(alloc: Global) -> Ways {
        Ways {
            fates: Vec::new(alloc),
            ring: None,
            is_open: false,
            trips: 0,
            failed: 0,
            sent: None,
        }
    }

    /// Frames travel over the ring from now on, where no line says anything else.
    pub fn open(&mut self) {
        self.is_open = true;
    }

    /// Takes the ring, for the trips of one line.
    pub fn board(&mut self, ring: Ring) {
        self.ring = Some(ring);
    }

    /// Gives the ring back.
    pub fn land(&mut self) -> Option<Ring> {
        self.ring.take()
    }

    /// The ring.
    pub fn ring(&self) -> Option<&Ring> {
        self.ring.as_ref()
    }

    /// How many trips were made.
    pub fn trips(&self) -> usize {
        self.trips
    }

    /// The frame that was sent last.
    pub fn sent(&self) -> Option<&FrameBuf> {
        self.sent.as_ref()
    }

    /// `fails`: the next trip fails; `comes COPY / COPY`: those copies come back of it. They stand one behind
    /// the other.
    pub fn set(&mut self, verb: &str, words: &mut Words<'_>) -> bool {
        let fate = match verb {
            "fails" => Fate::Fails,
            "comes" => Fate::Comes {
                a: copy_of(words, "/"),
                b: copy_of(words, ""),
            },
            _ => return false,
        };
        self.push(fate, words);
        true
    }

    /// The next trip goes over the ring in this weather.
    pub fn push_under(&mut self, weather: Weather, words: &mut Words<'_>) {
        self.push(Fate::Under(weather), words);
    }

    /// Puts what a trip meets with behind that of the others.
    fn push(&mut self, fate: Fate, words: &mut Words<'_>) {
        if self.fates.push(fate).is_err() {
            words.refuse(Fault::NoMemory);
        }
    }

    /// No trip has been made, and no line says anything of any.
    pub fn forget(&mut self, alloc: Global) {
        self.fates = Vec::new(alloc);
        self.trips = 0;
    }

    /// What a line says of a trip of a frame.
    fn met(&self, trip: usize, sent: &FrameBuf) -> Met {
        match self.fates.get(trip) {
            Some(Fate::Fails) => Met::Fault,
            Some(Fate::Comes { a, b }) => Met::Copies(Came {
                a: came(a, sent),
                b: came(b, sent),
            }),
            Some(Fate::Under(weather)) => Met::Sky(*weather),
            None => Met::Nothing,
        }
    }

    /// What comes of a trip over the ring in a weather, where there is a ring; its slaves take their steps.
    fn travel_under(&mut self, sent: &FrameBuf, weather: &Weather) -> Came
        ensures { self.new.failed ≡ self.old.failed }
    {
        match self.ring.take() {
            Some(ring) => {
                let mut ring = ring;
                let came = ring.trip(sent, weather);
                ring.step_all();
                self.ring = Some(ring);
                came
            }
            None => Came { a: None, b: None },
        }
    }

    /// What comes of a trip over the ring, where there is one.
    fn travel(&mut self, sent: &FrameBuf) -> Came
        ensures { self.new.failed ≡ self.old.failed }
    {
        if !self.is_open {
            return Came { a: None, b: None };
        }
        match self.ring.take() {
            Some(ring) => {
                let mut ports = RingPorts::new(ring);
                let came = ports.trip(sent);
                self.ring = Some(ports.into_ring());
                came.unwrap_or(Came { a: None, b: None })
            }
            None => Came { a: None, b: None },
        }
    }
}

impl Ports for Ways {
    ghost trips = { λ before sent came later. before.failed ≤ later.failed };

    ghost failed = { λ ports. ports.failed };

    fn trip(&mut self, sent: &FrameBuf) -> Result<Came, PortFault> {
        let trip = self.trips;
        self.trips = trip.wrapping_add(1);
        self.sent = Some(sent.copy());
        match self.met(trip, sent) {
            Met::Fault => match self.failed.checked_add(1) {
                Some(failed) => {
                    self.failed = failed;
                    Err(PortFault)
                }
                None => Ok(Came { a: None, b: None }),
            },
            Met::Copies(came) => Ok(came),
            Met::Sky(weather) => Ok(self.travel_under(sent, &weather)),
            Met::Nothing => Ok(self.travel(sent)),
        }
    }

    fn failures(&self) -> u64 {
        self.failed
    }
}
