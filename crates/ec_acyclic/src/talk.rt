//! A service that is under way.

ghost use Rattle.std.specs.Prelude.{◌≡◌, IfSome};
ghost use Rattle.ec_acyclic.specs.Next.{HasPeer, IsPeerOf};
ghost use Rattle.ec_acyclic.specs.Talk.{begun, given_up, resumed};

use crate::next::Next;
use crate::service::Service;
use ec_services::{MasterFault, Peer};
use std::marker::Model;

/// How often a slave is asked again in a row that did not answer: a copy may have been lost that passed it.
pub(crate) const MORE_TRIES: u32 = 9;

/// A service that is under way with a slave, turn by turn. In a turn one frame goes out at the most: a state
/// is asked for in one turn, and in each one behind it AL status is read once, until the slave is there; and
/// an object is read or written a trip at a time.
#[derive(Drop)]
pub struct Talk {
    /// The station address of the slave.
    pub(crate) station: u16,
    /// What goes out next.
    pub(crate) next: Next,
    /// How often in a row no slave answered.
    pub(crate) unanswered: u32,
    /// How many trips are left.
    pub(crate) trips: u32,
}

impl Model for Talk {
    ghost use Rattle.ec_acyclic.specs.Next.{HasPeer, TalkState};

    ghost Value = { TalkState };

    ghost view = { λ t. record {
      station = t.station;
      next = t.next;
      unanswered = t.unanswered;
      trips = t.trips;
    } };

    ghost invariant = { λ t. HasPeer t.station t.next };
}

impl Talk {
    /// A service that has made no trip, of a slave with this station address, by so many trips at the most.
    /// Objects are read and written by mail with this peer, which has that station address and the counter of
    /// the first mail; of a slave without one no object can be read or written.
    pub fn begun(service: Service, station: u16, peer: Option<Peer>, trips: u32) -> Talk
        requires { IfSome peer (IsPeerOf station) }
        ensures { result ≡ begun service station peer trips }
    {
        Talk {
            station,
            next: Next::first_of(service, peer),
            unanswered: 0,
            trips,
        }
    }

    /// A service of which this goes out next to the slave with a station address, which so many questions in
    /// a row no slave has answered, and of which so many trips are left: for who keeps these himself between
    /// turns.
    pub fn resumed(station: u16, next: Next, unanswered: u32, trips: u32) -> Talk
        requires { HasPeer station next }
        ensures { result ≡ resumed station next unanswered trips }
    {
        Talk {
            station,
            next,
            unanswered,
            trips,
        }
    }

    /// What goes out next.
    pub fn next(&self) -> Next
        ensures is { result ≡ self.now.next }
        ensures peer { HasPeer self.now.station result }
    {
        self.next
    }

    /// How many questions in a row no slave has answered.
    pub fn unanswered(&self) -> u32
        ensures { result ≡ self.now.unanswered }
    {
        self.unanswered
    }

    /// How many trips are left.
    pub fn trips(&self) -> u32
        ensures { result ≡ self.now.trips }
    {
        self.trips
    }

    /// The station address of the slave.
    pub fn station(&self) -> u16
        ensures { result ≡ self.now.station }
    {
        self.station
    }

    /// Why nothing more is asked, where nothing is.
    pub(crate) fn given_up(&self) -> Option<MasterFault>
        ensures { result ≡ given_up self.now }
    {
        match self.next {
            Next::NoMailboxes => Some(MasterFault::NoSlave),
            _ if self.trips == 0 => Some(MasterFault::NoAnswer),
            _ => None,
        }
    }
}
