//! What the addresses of a whole capture tell of the ways of its packets.

ghost use Rattle.std.specs.Prelude.{◌≡◌};
ghost use Rattle.std.specs.Option.{option_copied};
ghost use Rattle.ecat_trips.specs.Ways.{by_port, by_trip};

use crate::alike::{has_counted, is_still, same_frame};
use crate::bases::Bases;
use crate::packet::{Outline, Ports};
use crate::trip::Trip;
use crate::way::{By, Told};
use ec_wire::FrameBuf;

/// The UDP port of slaves.
const ETHERCAT: u16 = 34_980;

/// What the addresses of a whole capture tell.
#[derive(Drop)]
pub struct Marks {
    /// With which addresses they come.
    pub bases: Bases,
    /// Has the master two ports?
    pub two: bool,
    /// Do the packets lie on more than one interface?
    pub interfaces: bool,
}

/// What the ports tell, where they differ.
fn by_port(ports: Option<Ports>) -> Option<Told>
    ensures { result ≡ by_port ports }
{
    let ports = ports?;
    if ports.from == ports.to {
        None
    } else {
        Some(Told::by(By::Port, ports.from == ETHERCAT))
    }
}

/// What the trip of its key tells of a frame, where one is on the way.
fn by_trip(frame: &FrameBuf, trip: Option<&Trip>) -> Option<Told>
    ensures { result ≡ by_trip frame.now (option_copied trip.entry) }
{
    let trip = trip?;
    Some(Told::by(By::Counters, !is_still(&trip.sent.frame, frame)))
}

impl Marks {
    ghost use Rattle.ecat_trips.specs.Bases.{is_marking, two_ports};
    ghost use Rattle.std.specs.List.{list_any};
    ghost use Rattle.ecat_trips.specs.Ways.{by_mark, by_place, is_over_again, told};

    /// What the addresses tell, and whether the packets lie on more than one interface.
    pub fn of(bases: Bases, interfaces: bool) -> Marks
        ensures bases { result.bases ≡ bases }
        ensures two { result.two ≡ two_ports bases.told.items }
        ensures interfaces { result.interfaces ≡ interfaces }
    {
        let two = bases.two_ports();
        Marks {
            bases,
            two,
            interfaces,
        }
    }

    /// Is a packet the second sent copy of a trip over again?
    fn is_over_again(&self, packet: &Outline, frame: &FrameBuf, trip: &Trip) -> bool
        ensures { result ≡ is_over_again self.now packet.now frame.now trip.now trip.now.second }
    {
        match trip.second {
            None => false,
            Some(second) => {
                packet.source.base == second.source.base
                    && !(self.interfaces && packet.interface == second.interface)
                    && same_frame(&trip.sent.frame, frame)
            }
        }
    }

    /// What its place tells of a packet: that it is the copy which no slave processed.
    fn by_place(&self, packet: &Outline, frame: &FrameBuf, trip: Option<&Trip>) -> Option<Told>
        ensures { result ≡ by_place self.now packet.now frame.now (option_copied trip.entry) }
    {
        let trip = trip?;
        if self.two && !packet.source.marked && self.is_over_again(packet, frame, trip) {
            Some(Told::by(By::Place, true))
        } else {
            None
        }
    }

    /// Does a base occur with the mark and without?
    fn is_marking(&self, base: u64) -> bool
        ensures { result ≡ list_any (is_marking base) self.now.bases.told.items }
    {
        self.bases
            .told
            .iter()
            .any(|entry| entry.base == base && entry.plain && entry.marked)
    }

    /// What the mark tells of a packet.
    fn by_mark(&self, packet: &Outline) -> Option<Told>
        ensures { result ≡ by_mark self.now packet.now }
    {
        if self.two || self.is_marking(packet.source.base) {
            Some(Told::by(By::Mark, packet.source.marked))
        } else {
            None
        }
    }

    /// The way of a packet by the first rule that fits: its UDP ports, its place behind the second sent copy,
    /// the mark, the counters of the trip of its key that is on the way, or whether any counter is not 0.
    pub fn told(&self, packet: &Outline, frame: &FrameBuf, trip: Option<&Trip>) -> Told
        ensures { result ≡ told self.now packet.now frame.now (option_copied trip.entry) }
    {
        match by_port(packet.ports) {
            Some(told) => return told,
            None => {}
        }
        match self.by_place(packet, frame, trip) {
            Some(told) => return told,
            None => {}
        }
        match self.by_mark(packet) {
            Some(told) => return told,
            None => {}
        }
        match by_trip(frame, trip) {
            Some(told) => told,
            None => Told::by(By::Counters, has_counted(frame)),
        }
    }
}
