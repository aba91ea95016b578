//! The line to which frames are sent once more, one after the other.

ghost use Rattle.std.specs.Prelude.{◌≡◌, ◌<◌, ◌≤◌, IfSome, false, length, None, position, take};
ghost use Rattle.ec_wire.specs.Spelling.{IsFrameValue, spelling};
ghost use Rattle.ec_wire.specs.declared.frame.TheConstants.{PACKET_ROOM};
ghost use Rattle.ecat_replay.specs.Playing.{IsJoin, IsRead, has_station, mail_start, receive_one, send_one};

use crate::part::{Part, Whom};
use ec_app::Slave;
use ec_merge::join_into;
use ec_regs::SyncMan;
use ec_ring::{Port, PortFault};
use ec_wire::{Form, FrameBuf, PACKET_ROOM, one_spelling};
use ecat_serve::{Arrived, Ends, Served};
use std::marker::Model;
use std::net::{IpAddr, Ipv4Addr, SocketAddr};

/// A line, and how frames get there and back.
#[derive(Drop)]
pub struct Player {
    served: Served,
}

impl Model for Player {
    ghost use Rattle.ecat_serve.specs.State.{ServedState};

    ghost Value = { ServedState };

    ghost view = { λ p. p.served };
}

impl Player {
    ghost use Rattle.ecat_replay.specs.Playing.{IsPlayed, IsSent, mailbox_of, place_of};

    /// The line, to which nothing was sent yet.
    pub fn new(served: Served) -> Player
        ensures { result ≡ served }
    {
        Player { served }
    }

    /// Sends a frame from port A of a master, and from port B too where it has two, and answers what comes
    /// back, joined; nothing where nothing does. Slaves and applications act behind each copy, as those of a
    /// line that is served.
    pub fn play(&mut self, frame: &FrameBuf, has_two: bool) -> Option<FrameBuf>
        ensures { IsPlayed has_two frame.now self.old result self.new }
    {
        if has_two {
            let first = self.send(frame, Port::A);
            let second = self.send(frame, Port::B);
            joined(frame, first, second)
        } else {
            self.send(frame, Port::A)
        }
    }

    /// Sends a copy of a frame from a port, and answers what comes back of it.
    fn send(&mut self, frame: &FrameBuf, from: Port) -> Option<FrameBuf>
        ensures { IsSent from frame.now self.old result self.new }
    {
        one_spelling();
        let mut ends = OneFrame::of(frame, from);
        // The ends of one frame never fail.
        let _ = self.served.serve_one(&mut ends);
        ends.came
    }

    /// The place of the slave that a datagram asks alone, if there is one.
    fn place_of(&self, whom: Whom) -> Option<usize>
        ensures value { result ≡ place_of whom self.now.ring.slaves }
        ensures within { IfSome result (λ place. place < length self.now.ring.slaves) }
    {
        let slaves = self.served.ring().slaves();
        match whom {
            Whom::Place(place) if usize::from(place) < slaves.len() => Some(usize::from(place)),
            Whom::Station(station) => place_of_station(slaves, station),
            Whom::Place(_) | Whom::All | Whom::Mapped => None,
        }
    }

    /// The slave that a datagram asks alone, and its place, if there is one.
    pub fn slave_of(&self, whom: Whom) -> Option<(usize, &Slave)> {
        let place = self.place_of(whom)?;
        Some((place, self.served.ring().slave(place)))
    }

    /// Where the slave that is asked has what it mails, if it is one with mailboxes: where sync manager 1
    /// begins (IEC 61158-6-12, sync manager channels).
    #[tactic(auto, unfolding(crate::specs::Playing::mailbox_of))]
    pub fn mailbox_of(&self, part: &Part) -> Option<u16>
        ensures { result ≡ mailbox_of part.now self.now.ring.slaves }
    {
        match self.place_of(part.whom) {
            None => None,
            Some(place) => mail_start(self.served.ring().slave(place).controller().syncman(1)),
        }
    }
}

/// The place of the first slave with this station address.
fn place_of_station(slaves: &[Slave], station: u16) -> Option<usize>
    ensures value { result ≡ position (has_station station) slaves.now }
    ensures within { IfSome result (λ place. place < length slaves.now) }
{
    slaves
        .iter()
        .position(|slave| slave.controller().station() == station)
}

/// Where the mailbox of a sync manager begins, if there is one.
fn mail_start(manager: SyncMan) -> Option<u16>
    ensures { result ≡ mail_start manager }
{
    if manager.length == 0 {
        None
    } else {
        Some(manager.start)
    }
}

/// What comes back of two copies of a frame, joined; of one, that one.
fn joined(frame: &FrameBuf, first: Option<FrameBuf>, second: Option<FrameBuf>) -> Option<FrameBuf>
    ensures { IsJoin frame.now first second result }
{
    match (first, second) {
        (Some(mut first), Some(second)) => match join_into(frame, &mut first, &second) {
            Ok(()) => Some(first),
            Err(_) => None,
        },
        (Some(first), None) => Some(first),
        (None, second) => second,
    }
}

/// The ends of a line to which one frame comes, and from which one leaves.
#[derive(Drop)]
struct OneFrame {
    /// The frame that comes.
    frame: FrameBuf,
    /// Where it comes.
    at: Port,
    /// Whether it has come.
    has_come: bool,
    /// What left.
    came: Option<FrameBuf>,
}

impl OneFrame {
    /// Nothing has come yet of this frame.
    fn of(frame: &FrameBuf, at: Port) -> OneFrame
        ensures ends { result ≡ record { frame = frame.now; at = at; has_come = false; came = None } }
        ensures value { IsFrameValue frame.now }
    {
        is_value(frame);
        OneFrame {
            frame: frame.copy(),
            at,
            has_come: false,
            came: None,
        }
    }

    /// The bytes of the frame that comes, for which the room of a packet is enough.
    fn bytes(&self) -> &[u8]
        ensures value { result.now ≡ spelling self.now.frame }
        ensures room { length result.now ≤ PACKET_ROOM }
    {
        is_value(&self.frame);
        self.frame.bytes()
    }
}

/// What a proof knows of every frame.
fn is_value(frame: &FrameBuf)
    ensures { IsFrameValue frame.now }
{
    let _count = frame.count();
}

/// Who speaks at an end: at each somebody else, on this machine.
fn speaker_at(port: Port) -> SocketAddr {
    let number = match port {
        Port::A => 1,
        Port::B => 2,
    };
    SocketAddr::new(IpAddr::V4(Ipv4Addr::LOCALHOST), number)
}

/// Puts bytes into the front of the room of a packet.
fn put_into(bytes: &[u8], into: &mut [u8; PACKET_ROOM])
    requires { length bytes.now ≤ PACKET_ROOM }
    ensures { take (length bytes.now) into.new ≡ bytes.now }
{
    into[..bytes.len()].copy_from_slice(bytes);
}

/// The frame that a packet spells, if it spells one.
fn read(packet: &[u8]) -> Option<FrameBuf>
    ensures { IsRead packet.now result }
{
    FrameBuf::read(packet, Form::Udp).ok()
}

impl Ends for OneFrame {
    ghost receives = { receive_one };

    ghost sends = { send_one };

    fn receive(&mut self, into: &mut [u8; PACKET_ROOM]) -> Result<Option<Arrived>, PortFault> {
        if self.has_come {
            return Ok(None);
        }
        self.has_come = true;
        let bytes = self.bytes();
        put_into(bytes, into);
        Ok(Some(Arrived {
            at: self.at,
            from: speaker_at(self.at),
            count: bytes.len(),
        }))
    }

    fn send(&mut self, _from: Port, _to: SocketAddr, bytes: &[u8]) -> Result<(), PortFault> {
        self.came = read(bytes);
        Ok(())
    }
}
