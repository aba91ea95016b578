//! Verbs on a ring: copies of frames over its links, and its slaves.

use crate::answer::Answer;
use crate::bench::frame_of;
use crate::words::{Fault, Words};
use ec_app::{Objects, Slave};
use ec_applications::tell_links;
use ec_merge::join_frames;
use ec_regs::{AlState, Information};
use ec_ring::{Arrival, Came, HeardPorts, Links, MAX_LINKS, Port, Ring, Travel, Weather};
use ec_wire::{Form, FrameBuf};
use std::alloc::Global;
use std::mem::replace;

/// A copy as it came back, and where.
#[derive(Drop)]
pub struct Copy {
    frame: Option<FrameBuf>,
    at: Option<Port>,
}

impl Copy {
    /// None came.
    pub fn lost() -> Copy {
        Copy {
            frame: None,
            at: None,
        }
    }

    /// One came, or none.
    fn came(frame: Option<FrameBuf>) -> Copy {
        Copy { frame, at: None }
    }

    /// One arrived, or none did.
    fn arrived(arrival: Option<Arrival>) -> Copy {
        match arrival {
            Some(arrival) => Copy {
                frame: Some(arrival.frame),
                at: Some(arrival.at),
            },
            None => Copy::lost(),
        }
    }
}

/// A ring, a weather, and the copies that came last.
#[derive(Drop)]
pub struct Line {
    ring: Ring,
    weather: Weather,
    a: Copy,
    b: Copy,
}

/// A ring of slaves in the states that the words name, with the stations 0x1001, 0x1002 and so on.
fn ring_of(words: &mut Words<'_>) -> Option<Ring> {
    let alloc = words.alloc();
    let mut slaves = Vec::new(alloc);
    let count = words.number(256) as u16;
    for k in 0..count {
        let state = words.state();
        let slave = slave_in(alloc, 0x1001 + k, state)?;
        slaves.push(slave).ok()?;
    }
    Ring::new(slaves).ok()
}

/// A slave in a state, with no objects and no process data.
fn slave_in(alloc: Global, station: u16, state: AlState) -> Option<Slave> {
    let mut slave = Slave::new(alloc, station, Objects::new(), 0, 0).ok()?;
    slave.set_state(state);
    Some(slave)
}

/// Has a slave tell that it is an IP core.
fn tell_what_it_is(slave: &mut Slave) {
    slave
        .controller_mut()
        .set_information(&Information::ip_core());
}

/// All links up but those whose numbers follow.
fn links_of(words: &mut Words<'_>) -> Links {
    let mut links = Links::new();
    for _ in 0..MAX_LINKS {
        match words.next_number(256) {
            Some(k) => links.set(k as usize, false),
            None => break,
        }
    }
    links
}

/// A port by its name.
fn port_of(words: &mut Words<'_>) -> Port {
    match words.word() {
        "A" => Port::A,
        "B" => Port::B,
        _ => {
            words.refuse(Fault::BadName);
            Port::A
        }
    }
}

impl Line {
    /// A ring without slaves, in calm weather, on which no copy has come.
    pub fn new(alloc: Global) -> Option<Line> {
        Some(Line {
            ring: Ring::new(Vec::new(alloc)).ok()?,
            weather: Weather::calm(Links::new()),
            a: Copy::lost(),
            b: Copy::lost(),
        })
    }

    /// Takes the ring; there is one without slaves then.
    pub fn take_ring(&mut self, alloc: Global) -> Option<Ring> {
        let empty = Ring::new(Vec::new(alloc)).ok()?;
        Some(replace(&mut self.ring, empty))
    }

    /// Puts a ring in the place of the one that was taken, where there is one.
    pub fn put_ring(&mut self, ring: Option<Ring>) {
        if let Some(ring) = ring {
            self.ring = ring;
        }
    }

    /// The weather.
    pub fn weather(&self) -> Weather {
        self.weather
    }

    /// Verbs that change nothing.
    pub fn tell(&self, verb: &str, words: &mut Words<'_>, answer: &mut Answer) -> bool {
        match verb {
            "came" => match &self.copy(words).frame {
                Some(frame) => answer.bytes(frame.bytes()),
                None => answer.put("none"),
            },
            "at" => match self.copy(words).at {
                Some(port) => answer.name(port),
                None => answer.put("none"),
            },
            "link" => {
                let k = words.number(256) as usize;
                answer.put(self.ring.links().is_up(k));
            }
            "weather_link" => {
                let k = words.number(256) as usize;
                answer.put(self.weather.a.is_up(k));
            }
            "failures" => answer.put(self.ring.failures()),
            "slave_byte" => self.tell_byte(words, answer),
            _ => return false,
        }
        true
    }

    /// The copy that a port's name means: the one that was sent there.
    fn copy(&self, words: &mut Words<'_>) -> &Copy {
        match port_of(words) {
            Port::A => &self.a,
            Port::B => &self.b,
        }
    }

    /// `slave_byte K ADDRESS`: a byte of the memory of the slave at K.
    fn tell_byte(&self, words: &mut Words<'_>, answer: &mut Answer) {
        let k = words.number(255) as usize;
        let address = words.number(0x2FFF) as u16;
        if k < self.ring.slaves().len() {
            answer.byte(self.ring.slave(k).controller().byte(address));
        } else {
            words.refuse(Fault::OutOfRange);
        }
    }

    /// Verbs that set the ring and the weather: `ring COUNT STATE..`, slaves with the stations 0x1001, 0x1002
    /// and so on; `down LINK..` for both copies, `down_a` and `down_b` for one; `copy_a BYTES`, a copy that
    /// came.
    pub fn set(&mut self, verb: &str, words: &mut Words<'_>) -> bool {
        match verb {
            "ring" => match ring_of(words) {
                Some(ring) => self.ring = ring,
                None => words.refuse(Fault::NoMemory),
            },
            "down" => {
                self.weather.a = links_of(words);
                self.weather.b = self.weather.a;
            }
            "down_a" => self.weather.a = links_of(words),
            "down_b" => self.weather.b = links_of(words),
            "lost_a" => self.weather.lost_a = words.yes(),
            "lost_b" => self.weather.lost_b = words.yes(),
            "b_first" => self.weather.b_first = words.yes(),
            "set_link" => self.set_link(words),
            "tell_links" => {
                let k = words.number(255) as usize;
                let before = words.yes();
                tell_links(&mut self.ring, k, before, words.yes());
            }
            "tells" => self.tells(words),
            "step_all" => self.ring.step_all(),
            "copy_a" => self.a = Copy::came(frame_of(Form::Udp, words)),
            "copy_b" => self.b = Copy::came(frame_of(Form::Udp, words)),
            _ => return false,
        }
        true
    }

    /// `tells K`: the slave at K tells what it is, as a device does.
    fn tells(&mut self, words: &mut Words<'_>) {
        let k = words.number(255) as usize;
        if k < self.ring.slaves().len() {
            tell_what_it_is(self.ring.slave_mut(k));
        } else {
            words.refuse(Fault::OutOfRange);
        }
    }

    /// `set_link K UP`: a link of the ring itself.
    fn set_link(&mut self, words: &mut Words<'_>) {
        let k = words.number(256) as usize;
        let up = words.yes();
        if k <= self.ring.slaves().len() {
            self.ring.set_link(k, up);
        } else {
            words.refuse(Fault::OutOfRange);
        }
    }

    /// Verbs by which a frame travels: `walk PORT`, one copy from there, and where it arrives; `trip`, both
    /// in the weather; `arrivals`, both in the weather with their ports; `heard`, both under the ring's own
    /// links; `join`, what the copies that came are together; and `keep`, the frame is a copy that came.
    pub fn send(
        &mut self,
        verb: &str,
        sent: &FrameBuf,
        words: &mut Words<'_>,
        answer: &mut Answer,
    ) -> bool {
        match verb {
            "walk" => self.walk(sent.copy(), port_of(words), answer),
            "trip" => {
                let weather = self.weather;
                let Came { a, b } = self.ring.trip(sent, &weather);
                self.a = Copy::came(a);
                self.b = Copy::came(b);
            }
            "arrivals" => {
                let weather = self.weather;
                let both = self.ring.arrivals(sent, &weather);
                self.a = Copy::arrived(both.a);
                self.b = Copy::arrived(both.b);
            }
            "heard" => match self.ring.trip_heard(sent) {
                Ok(both) => {
                    let Came { a, b } = both.into_came();
                    self.a = Copy::came(a);
                    self.b = Copy::came(b);
                }
                Err(_) => words.refuse(Fault::NoFrame),
            },
            "keep" => self.a = Copy::came(Some(sent.copy())),
            "join" => match join_frames(sent, self.a.frame.as_ref(), self.b.frame.as_ref()) {
                Ok(joined) => answer.bytes(joined.bytes()),
                Err(fault) => answer.name(fault),
            },
            _ => return false,
        }
        true
    }

    /// Takes one copy over the line.
    fn walk(&mut self, frame: FrameBuf, from: Port, answer: &mut Answer) {
        let links = match from {
            Port::A => self.weather.a,
            Port::B => self.weather.b,
        };
        match self.ring.walk(from, frame, &links) {
            Some((frame, at)) => {
                answer.name(at);
                answer.bytes(frame.bytes());
            }
            None => answer.put("lost"),
        }
    }
}
