//! The ends of lines that are reached by UDP, at any ports.

ghost use Rattle.std.specs.Prelude.{◌≡◌, ◌<◌, length};
ghost use Rattle.ecat_frames.specs.Ends.{begins_behind, end_in, is_from_line, is_of, port_in, told_at};
ghost use Rattle.ecat_frames.specs.Ends.{told_by_way, told_of};
ghost use Rattle.std.specs.Option.{option_map};
ghost use Rattle.std.specs.Prelude.{◌&&◌, ◌||◌, ◌==◌, find};

use crate::packet::{host_of, interface_of};
use arrayvec::ArrayVec;
use ecat_capture::{Link, Packet};
use ecat_trips::{Bases, Outline, Ports, Source as Sender};

/// The UDP port of EtherCAT.
const ETHERCAT: u16 = 34_980;

/// How many pairs of sockets are told apart; packets of further ones are told by their frames alone.
const MAX_PAIRS: usize = 64;

/// How many frames of a pair are looked at that tell nothing new.
const MAX_LOOKS: u32 = 4096;

/// How many ports a host has.
const PORTS: u64 = 65_536;

/// Who sent a UDP packet, and who gets it: each a host, times 65,536, and the port there. A host is its
/// address on Ethernet, or where the capture has none of both the interface.
#[derive(Clone, Copy, Debug, Default, PartialEq, Eq)]
pub(crate) struct Peers {
    /// Who sent it.
    pub from: u64,
    /// Who gets it.
    pub to: u64,
}

/// The port of one of two peers.
fn port_in(peer: u64) -> u16
    ensures { result ≡ port_in peer }
{
    (peer % PORTS) as u16
}

impl Peers {
    /// Those of a packet with these ports.
    pub(crate) fn of(packet: &Packet, bytes: &[u8], ports: Ports) -> Peers {
        let interface = u64::from(interface_of(packet, bytes));
        let (from, to) = match packet.link {
            Link::Ethernet => (host_of(bytes.get(6..)), host_of(bytes.get(..6))),
            Link::Cooked | Link::CookedTwo => (interface, interface),
        };
        Peers {
            from: from
                .saturating_mul(PORTS)
                .saturating_add(u64::from(ports.from)),
            to: to.saturating_mul(PORTS).saturating_add(u64::from(ports.to)),
        }
    }

    /// Those of a packet the other way.
    fn turned(self) -> Peers
        ensures from { result.from ≡ self.to }
        ensures to { result.to ≡ self.from }
    {
        Peers {
            from: self.to,
            to: self.from,
        }
    }

    /// Are both at EtherCAT's own port? Then the ports tell nothing.
    pub(crate) fn are_alike(self) -> bool
        ensures { result ≡ (port_in self.from == 34980) && (port_in self.to == 34980) }
    {
        port_in(self.from) == ETHERCAT && port_in(self.to) == ETHERCAT
    }

    /// Is one of them?
    fn are_known(self) -> bool
        ensures { result ≡ (port_in self.from == 34980) || (port_in self.to == 34980) }
    {
        port_in(self.from) == ETHERCAT || port_in(self.to) == ETHERCAT
    }
}

/// Two peers between which frames go, and what tells which of them is the end of a line.
#[derive(Clone, Copy, Debug, Default, PartialEq, Eq)]
pub(crate) struct Pair {
    /// The peers of the first packet.
    pub peers: Peers,
    /// Did a packet go the other way?
    pub is_answered: bool,
    /// Had a frame that went as the first one a counter that is not 0?
    pub counted: bool,
    /// Had one that went the other way?
    pub counted_back: bool,
    /// How many frames were looked at, up to 4,096.
    pub looks: u32,
    /// Is the port of who sent the first packet beside that of an end which is known, at the same host?
    pub is_beside: bool,
}

impl Pair {
    /// Did the first packet come from the end of a line? So it did where it alone is at EtherCAT's own port,
    /// or neither is, and counters came from there alone, or its port is beside that of another end; else it
    /// went to one, since a master begins.
    fn begins_behind(&self) -> bool
        ensures { result ≡ begins_behind self.now }
    {
        let from = port_in(self.peers.from) == ETHERCAT;
        let to = port_in(self.peers.to) == ETHERCAT;
        if from || to {
            from
        } else {
            self.counted && !self.counted_back || self.is_beside
        }
    }

    /// Does it tell itself which of its peers is the end of a line?
    fn is_known(&self) -> bool {
        self.peers.are_known() || self.counted != self.counted_back
    }

    /// Does a packet with these peers, which are those of the pair, come from the end of a line?
    fn is_from_line(&self, peers: Peers) -> bool
        ensures { result ≡ is_from_line self.now peers }
    {
        if peers.from == self.peers.from {
            self.begins_behind()
        } else {
            !self.begins_behind()
        }
    }

    /// The end of a line that it has.
    fn end(&self) -> u64
        ensures { result ≡ end_in self.now }
    {
        if self.begins_behind() {
            self.peers.from
        } else {
            self.peers.to
        }
    }

    /// Does one more packet with these peers tell nothing new?
    fn is_told(&self, peers: Peers) -> bool {
        let is_seen = peers == self.peers || self.is_answered;
        is_seen && (self.is_known() || MAX_LOOKS <= self.looks)
    }

    /// Looks at one more packet with these peers; has its frame a counter that is not 0?
    fn take(&mut self, peers: Peers, has_counted: bool) {
        self.looks = self.looks.saturating_add(1).min(MAX_LOOKS);
        if peers == self.peers {
            self.counted = self.counted || has_counted;
        } else {
            self.is_answered = true;
            self.counted_back = self.counted_back || has_counted;
        }
    }
}

/// Is the port of a peer beside that of one of these, at the same host?
fn is_beside(known: &[u64], peer: u64) -> bool {
    known.iter().any(|end| end.saturating_add(1) == peer || peer.saturating_add(1) == *end)
}

/// What is told of a packet that comes from this end of a line, or goes to it.
fn told_at(outline: &Outline, end: u64, is_back: bool, other: u16) -> Outline
    ensures { result ≡ told_at outline.now end is_back other }
{
    let ports = if is_back {
        Ports {
            from: ETHERCAT,
            to: other,
        }
    } else {
        Ports {
            from: other,
            to: ETHERCAT,
        }
    };
    Outline {
        source: Sender {
            base: end,
            marked: is_back,
        },
        ports: Some(ports),
        ..*outline
    }
}

/// What is told of a packet with these peers, which comes from the line or goes there.
fn told_by_way(outline: &Outline, peers: Peers, is_back: bool) -> Outline
    ensures { result ≡ told_by_way outline.now peers is_back }
{
    if is_back {
        told_at(outline, peers.from, true, port_in(peers.to))
    } else {
        told_at(outline, peers.to, false, port_in(peers.from))
    }
}

/// The pairs of sockets of a capture whose packets have frames.
#[derive(Drop)]
pub(crate) struct Ends {
    pairs: ArrayVec<Pair, MAX_PAIRS>,
}

impl Ends {
    /// Of no packet.
    pub(crate) fn new() -> Ends {
        Ends {
            pairs: ArrayVec::new(),
        }
    }

    /// The pair of these peers, if it was looked at.
    fn pair_of(&self, peers: Peers) -> Option<&Pair>
        ensures { option_map (λ pair. pair.now) result ≡ find (is_of peers) self.now.pairs.items }
    {
        let turned = peers.turned();
        self.pairs
            .iter()
            .find(|pair| pair.peers == peers || pair.peers == turned)
    }

    /// Does one more packet with these peers tell nothing new?
    pub(crate) fn knows(&self, peers: Peers) -> bool {
        match self.pair_of(peers) {
            Some(pair) => pair.is_told(peers),
            None => self.pairs.is_full(),
        }
    }

    /// Looks at a packet with these peers; has its frame a counter that is not 0? Is it told by them?
    pub(crate) fn take(&mut self, peers: Peers, has_counted: bool) -> bool {
        if peers.are_alike() {
            return false;
        }
        let turned = peers.turned();
        for pair in self.pairs.iter_mut() {
            if pair.peers == peers || pair.peers == turned {
                pair.take(peers, has_counted);
                return true;
            }
        }
        if self.pairs.is_full() {
            return false;
        }
        self.pairs.push(Pair {
            peers,
            is_answered: false,
            counted: has_counted,
            counted_back: false,
            looks: 1,
            is_beside: false,
        });
        true
    }

    /// The ends that are known by their own pairs.
    fn known(&self) -> ArrayVec<u64, MAX_PAIRS> {
        let mut known = ArrayVec::new();
        for pair in self.pairs.iter() {
            if pair.is_known() && !known.is_full() {
                known.push(pair.end());
            }
        }
        known
    }

    /// Looks at the pairs that tell nothing themselves: both ends of a line often lie at ports beside each
    /// other, and of a whole ring one of them alone gives back what counted.
    pub(crate) fn settle(&mut self) {
        let known = self.known();
        for pair in self.pairs.iter_mut() {
            pair.is_beside = !pair.is_known()
                && is_beside(known.as_slice(), pair.peers.from)
                && !is_beside(known.as_slice(), pair.peers.to);
        }
    }

    /// Tells the bases of the packets: each is an end of a line, and what comes from there bears the mark.
    pub(crate) fn tell(&self, bases: &mut Bases) {
        for pair in self.pairs.iter() {
            let base = pair.end();
            let marked = pair.begins_behind();
            bases.take(Sender { base, marked });
            if pair.is_answered {
                bases.take(Sender {
                    base,
                    marked: !marked,
                });
            }
        }
    }

    /// What is told of a packet with these peers: where it comes from the end of a line or goes to one, its
    /// source is that end, with the mark on what comes from there, and the port of the end counts as
    /// EtherCAT's own. Of a pair that was not looked at, other ports than that tell nothing.
    pub(crate) fn told(&self, outline: &Outline, peers: Peers) -> Outline
        ensures { result ≡ told_of self.now.pairs.items outline.now peers }
    {
        if peers.are_alike() {
            return *outline;
        }
        match self.pair_of(peers) {
            Some(pair) => told_by_way(outline, peers, pair.is_from_line(peers)),
            None if peers.are_known() => {
                told_by_way(outline, peers, port_in(peers.from) == ETHERCAT)
            }
            None => Outline {
                ports: None,
                ..*outline
            },
        }
    }
}
