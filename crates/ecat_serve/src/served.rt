//! A line that is served to whoever speaks to its ends.

ghost use Rattle.std.specs.Prelude.{◌≡◌, ◌+◌, ◌-◌, ◌^◌, ◌<◌, ◌≤◌, ◌⊎◌, IfOk, None, [], nat_lt};
ghost use Rattle.ec_wire.specs.Datagram.{DatagramRecord};
ghost use Rattle.ec_wire.specs.Fault.{IsSpelt};
ghost use Rattle.ec_wire.specs.declared.fault.Form.TheVariants.{Udp};
ghost use Rattle.ec_ring.specs.declared.port.Port.TheVariants.{B};
ghost use Rattle.ecat_serve.specs.Answering.{AreServed, Replies, Walks, once_lost, spared};
ghost use Rattle.ecat_serve.specs.Ends.{calls_of};
ghost use Rattle.ecat_serve.specs.Rounds.{IsAnswered, IsDropped, IsRound, Serves, round_of, serving};
ghost use Rattle.ecat_serve.specs.State.{linked, losing, moved_on, peer_at, spoken, to_lose_at};
ghost use Rattle.ecat_serve.specs.Watching.{IsFrame, leaving};

use crate::ends::{Arrived, Ends};
use crate::watch::{Leaving, Unwatched, Watch};
use ec_applications::{Applications, tell_each};
use ec_ring::{Links, Port, PortFault, Ring, Travel};
use ec_wire::{Form, FrameBuf, PACKET_ROOM};
use std::marker::Model;
use std::net::SocketAddr;

/// How a round ends in which no call failed.
#[derive(Clone, Copy, PartialEq, Eq, Debug)]
pub enum Round {
    /// A frame came in and has walked.
    Frame,
    /// A packet came in that is no frame.
    Dropped,
    /// No more packets are to come.
    Ended,
}

/// How many packets have come in.
#[derive(Clone, Copy, PartialEq, Eq, Debug)]
pub struct Counts {
    /// How many packets were frames.
    pub frames: u64,
    /// How many packets were dropped, since they were no frames.
    pub dropped: u64,
}

impl Counts {
    /// No packet has come in yet.
    pub fn none() -> Counts
        ensures { result ≡ record { frames = 0; dropped = 0 } }
    {
        Counts {
            frames: 0,
            dropped: 0,
        }
    }

    /// All of them. What would be past the greatest number is that number.
    pub fn packets(&self) -> u64
        ensures { self.now.frames + self.now.dropped < 2 ^ 64 → result ≡ self.now.frames + self.now.dropped }
    {
        self.frames.saturating_add(self.dropped)
    }
}

/// A ring whose two ends anybody may speak to, the applications of its slaves, who spoke last at each end,
/// and how many of the copies that arrive there are still to be lost. Contracts see these six.
#[derive(Drop)]
pub struct Served {
    pub(crate) ring: Ring,
    pub(crate) applications: Applications,
    pub(crate) peer_a: Option<SocketAddr>,
    pub(crate) peer_b: Option<SocketAddr>,
    to_lose_a: u64,
    to_lose_b: u64,
}

impl Model for Served {
    ghost use Rattle.ecat_serve.specs.State.{ServedState};

    ghost Value = { ServedState };

    ghost view = { λ s. record {
      ring = s.ring;
      applications = s.applications;
      peer_a = s.peer_a;
      peer_b = s.peer_b;
      to_lose_a = s.to_lose_a;
      to_lose_b = s.to_lose_b;
    } };
}

impl Served {
    /// A ring to whose ends nobody has spoken yet, and where no copy is to be lost. Its slaves' applications
    /// do nothing with their process data.
    pub fn new(ring: Ring) -> Served
        ensures ring { result.ring ≡ ring }
        ensures applications { result.applications.all ≡ [] }
        ensures peer_a { result.peer_a ≡ None }
        ensures peer_b { result.peer_b ≡ None }
        ensures to_lose_a { result.to_lose_a ≡ 0 }
        ensures to_lose_b { result.to_lose_b ≡ 0 }
    {
        Served::acting(ring, Applications::none())
    }

    /// A ring as by `new`, whose slaves have these applications.
    pub fn acting(ring: Ring, applications: Applications) -> Served
        ensures ring { result.ring ≡ ring }
        ensures applications { result.applications ≡ applications }
        ensures peer_a { result.peer_a ≡ None }
        ensures peer_b { result.peer_b ≡ None }
        ensures to_lose_a { result.to_lose_a ≡ 0 }
        ensures to_lose_b { result.to_lose_b ≡ 0 }
    {
        Served {
            ring,
            applications,
            peer_a: None,
            peer_b: None,
            to_lose_a: 0,
            to_lose_b: 0,
        }
    }

    /// The ring.
    pub fn ring(&self) -> &Ring
        ensures { result.now ≡ self.now.ring }
    {
        &self.ring
    }

    /// Serves at most so many packets, one after the other; ends before that where no more are to come, and
    /// at the first call of the ends that fails. The answer is how many packets have come in. It takes no
    /// memory.
    pub fn serve<E: Ends>(&mut self, ends: &mut E, most: u64) -> Result<Counts, PortFault>
        ensures serves { Serves (calls_of E.receives E.sends) most (record { frames = 0; dropped = 0 })
            (serving self.old ends.old) result (serving self.new ends.new) }
        ensures counted { IfOk result (λ counts. counts.frames + counts.dropped ≤ most) }
    {
        self.serve_watched(ends, most, &mut Unwatched)
    }

    /// Serves packets as `serve` does, and tells somebody of each of them once it has walked, or was dropped.
    pub fn serve_watched<E: Ends, V: Watch>(
        &mut self,
        ends: &mut E,
        most: u64,
        watch: &mut V,
    ) -> Result<Counts, PortFault>
        ensures serves { Serves (calls_of E.receives E.sends) most (record { frames = 0; dropped = 0 })
            (serving self.old ends.old) result (serving self.new ends.new) }
        ensures counted { IfOk result (λ counts. counts.frames + counts.dropped ≤ most) }
    {
        self.serve_on(ends, most, Counts::none(), watch)
    }

    /// Serves packets as `serve_watched` does, and counts them on from those that came before.
    pub(crate) fn serve_on<E: Ends, V: Watch>(
        &mut self,
        ends: &mut E,
        most: u64,
        before: Counts,
        watch: &mut V,
    ) -> Result<Counts, PortFault>
        requires { before.frames + before.dropped + most < 2 ^ 64 }
        ensures serves { Serves (calls_of E.receives E.sends) most before (serving self.old ends.old) result
            (serving self.new ends.new) }
        ensures counted { IfOk result (λ counts. counts.frames + counts.dropped
            ≤ before.frames + before.dropped + most) }
    {
        let mut counts = before;
        for _round in 0..most {
            match self.watch_one(ends, watch)? {
                Round::Frame => counts.frames += 1,
                Round::Dropped => counts.dropped += 1,
                Round::Ended => return Ok(counts),
            }
        }
        Ok(counts)
    }

    /// Waits for one packet, and answers it where it is a frame in the UDP form: who sent it has spoken at
    /// the end where it came in; the frame walks from there under the ring's own links, the last of which
    /// is down while nobody has ever spoken to end B; each slave takes its step, and then each application
    /// acts; and what arrives is sent from the end where it arrives to whoever spoke last there, if anybody
    /// did, unless a copy is still to be lost there: then it is that one. A packet that is no frame is
    /// dropped; the slaves take their step, and the applications act, all the same. It takes no memory.
    pub fn serve_one<E: Ends>(&mut self, ends: &mut E) -> Result<Round, PortFault>
        ensures { IsRound (calls_of E.receives E.sends) (serving self.old ends.old) result
            (serving self.new ends.new) }
    {
        self.watch_one(ends, &mut Unwatched)
    }

    /// Waits for one packet and answers it, and tells of it.
    fn watch_one<E: Ends, V: Watch>(
        &mut self,
        ends: &mut E,
        watch: &mut V,
    ) -> Result<Round, PortFault>
        ensures { IsRound (calls_of E.receives E.sends) (serving self.old ends.old) result
            (serving self.new ends.new) }
    {
        let mut room = [0; PACKET_ROOM];
        match ends.receive(&mut room)? {
            Some(arrived) => self.take(ends, watch, &arrived, &room[..arrived.count]),
            None => Ok(Round::Ended),
        }
    }

    /// Answers a packet, or drops it, and tells of it.
    fn take<E: Ends, V: Watch>(
        &mut self,
        ends: &mut E,
        watch: &mut V,
        arrived: &Arrived,
        packet: &[u8],
    ) -> Result<Round, PortFault>
        ensures { IsAnswered E.sends arrived.now packet.now (serving self.old ends.old) result
            (serving self.new ends.new)
            ⊎ IsDropped packet.now (serving self.old ends.old) result (serving self.new ends.new) }
    {
        match FrameBuf::read(packet, Form::Udp) {
            Ok(frame) => {
                self.greet(watch, arrived);
                self.hear(arrived);
                let arrival = self.walk(arrived.at, frame);
                self.tell(watch, arrived, packet, &arrival);
                let spared = self.spare(arrival);
                self.reply(ends, spared)?;
                Ok(Round::Frame)
            }
            Err(fault) => {
                watch.dropped(arrived, packet, fault);
                self.move_on();
                Ok(Round::Dropped)
            }
        }
    }

    /// Tells of who speaks at an end, if he was not the last one there.
    fn greet<V: Watch>(&self, watch: &mut V, arrived: &Arrived) {
        if self.peer(arrived.at) != Some(arrived.from) {
            watch.speaker(arrived);
        }
    }

    /// Tells of a frame that has walked.
    fn tell<V: Watch>(
        &self,
        watch: &mut V,
        arrived: &Arrived,
        packet: &[u8],
        arrival: &Option<(FrameBuf, Port)>,
    )
        requires { IsFrame packet.now }
    {
        let leaving = self.leaving(arrival);
        match arrival {
            Some((frame, _)) => watch.frame(arrived, packet, Some(frame), leaving),
            None => watch.frame(arrived, packet, None, leaving),
        }
    }

    /// What becomes of an arrival.
    fn leaving(&self, arrival: &Option<(FrameBuf, Port)>) -> Leaving
        ensures { result ≡ leaving self.now arrival.now }
    {
        let Some((_, port)) = arrival else {
            return Leaving::Nowhere;
        };
        if 0 < self.to_lose(*port) {
            return Leaving::Lost(*port);
        }
        match self.peer(*port) {
            Some(_) => Leaving::Left(*port),
            None => Leaving::Unheard(*port),
        }
    }

    /// Keeps who spoke at an end.
    fn hear(&mut self, arrived: &Arrived)
        ensures { self.new ≡ spoken self.old arrived.now.at arrived.now.from }
    {
        match arrived.at {
            Port::A => self.peer_a = Some(arrived.from),
            Port::B => self.hear_b(arrived.from),
        }
    }

    /// Keeps who spoke at end B; the first one there is a link.
    fn hear_b(&mut self, from: SocketAddr)
        ensures { self.new ≡ spoken self.old B from }
    {
        let is_first = self.peer_b.is_none();
        self.peer_b = Some(from);
        if is_first {
            self.tell_links();
        }
    }

    /// Has each slave that tells of itself tell of the links beside it, as frames walk now. Whoever changes
    /// the ring before it is served calls it once.
    pub fn tell_links(&mut self)
        ensures { self.new ≡ linked self.old }
    {
        let links = self.links();
        tell_each(&mut self.ring, &links);
    }

    /// The links under which a frame walks now.
    fn links(&self) -> Links
        ensures { AreServed self.now result }
    {
        let mut links = self.ring.links();
        if self.peer_b.is_none() {
            links.set(self.ring.slaves().len(), false);
        }
        links
    }

    /// Lets each slave take its step, and then each application act.
    fn move_on(&mut self)
        ensures { self.new ≡ moved_on self.old self.old.ring }
    {
        self.ring.step_all();
        self.applications.act(&mut self.ring);
    }

    /// Lets a frame walk, and then the slaves and their applications go on.
    fn walk(&mut self, from: Port, frame: FrameBuf) -> Option<(FrameBuf, Port)>
        ensures { Walks self.old from frame result self.new }
    {
        let links = self.links();
        let arrival = self.ring.walk(from, frame, &links);
        self.move_on();
        arrival
    }

    /// What of an arrival is not lost: where copies are still to be lost at its end, it is one of them.
    fn spare(&mut self, arrival: Option<(FrameBuf, Port)>) -> Option<(FrameBuf, Port)>
        ensures spared { result ≡ spared self.old arrival }
        ensures line { self.new ≡ once_lost self.old arrival }
    {
        match arrival {
            Some((_, port)) if self.loses_one(port) => None,
            arrival => arrival,
        }
    }

    /// A copy arrives at an end: is it to be lost? If so, one fewer is from now on.
    fn loses_one(&mut self, at: Port) -> bool
        ensures lost { result ≡ nat_lt 0 (to_lose_at self.old at) }
        ensures line { self.new ≡ losing self.old at (to_lose_at self.old at - 1) }
    {
        let count = self.to_lose(at);
        self.set_to_lose(at, count.saturating_sub(1));
        0 < count
    }

    /// How many copies that arrive at an end are still to be lost.
    pub fn to_lose(&self, at: Port) -> u64
        ensures { result ≡ to_lose_at self.now at }
    {
        match at {
            Port::A => self.to_lose_a,
            Port::B => self.to_lose_b,
        }
    }

    /// Sets how many are.
    pub(crate) fn set_to_lose(&mut self, at: Port, count: u64)
        ensures { self.new ≡ losing self.old at count }
    {
        match at {
            Port::A => self.to_lose_a = count,
            Port::B => self.to_lose_b = count,
        }
    }

    /// Sends what arrived to whoever spoke last at the end where it arrived.
    fn reply<E: Ends>(
        &self,
        ends: &mut E,
        arrival: Option<(FrameBuf, Port)>,
    ) -> Result<(), PortFault>
        ensures { Replies E.sends self.now arrival ends.old result ends.new }
    {
        let Some((frame, port)) = arrival else {
            return Ok(());
        };
        match self.peer(port) {
            Some(peer) => ends.send(port, peer, frame.bytes()),
            None => Ok(()),
        }
    }

    /// Who spoke last at an end.
    fn peer(&self, port: Port) -> Option<SocketAddr>
        ensures { result ≡ peer_at self.now port }
    {
        match port {
            Port::A => self.peer_a,
            Port::B => self.peer_b,
        }
    }
}
