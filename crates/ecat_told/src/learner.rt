//! What the packets of a capture tell, one after the other.

ghost use Rattle.std.specs.Prelude.{◌<◌, length};

use crate::groups::{Came, Groups, Key};
use crate::known::{Known, KnownFault};
use crate::left_out::LeftOut;
use crate::mails::Mails;
use crate::registers::meets;
use crate::slave::Slave;
use crate::whom::{Whom, is_logical, is_write, meant_by};
use ec_wire::{Command, FrameBuf};
use ecat_trips::{By, Fate, Marks, Outline, Step, Sums, Told, Trip, Trips, moved};
use std::alloc::Global;

/// How many start-ups are named by their packets.
pub(crate) const NAMED_STARTS: usize = 8;

/// How many stations without places are kept.
const MAX_STRANGERS: usize = 256;

/// AL control.
const AL_CONTROL: u32 = 0x0120;

/// A station that was read, but is not told to be at a place.
#[derive(Clone, Copy)]
pub(crate) struct Stranger {
    /// Its station address.
    pub station: u16,
    /// The byte of AL status that was read of it last.
    pub status: Option<u8>,
}

/// What tells the ways of the packets.
#[derive(Clone, Copy)]
pub(crate) struct Ways {
    pub port: bool,
    pub place: bool,
    pub mark: bool,
    pub counters: bool,
}

impl Ways {
    /// One more packet is told by this.
    fn take(&mut self, told: Told) {
        match told.by {
            By::Port => self.port = true,
            By::Place => self.place = true,
            By::Mark => self.mark = true,
            By::Counters => self.counters = true,
        }
    }
}

/// What a capture has told so far.
#[derive(Drop)]
pub(crate) struct Learner {
    trips: Trips,
    /// What is told of the slaves.
    pub known: Known,
    /// How often each datagram came.
    pub groups: Groups,
    /// What mails tell.
    pub mails: Mails,
    /// What a scene cannot say.
    pub left_out: LeftOut,
    /// How many trips there were.
    pub sums: Sums,
    /// What tells their ways.
    pub ways: Ways,
    /// The first packet with a frame, and the last.
    pub first: Option<u64>,
    pub last: u64,
    /// The packets in which start-ups began, eight at most, and how many began.
    pub starts: [u64; NAMED_STARTS],
    pub started: u64,
    /// How many had begun in front of the line.
    pub line_started: u64,
    /// The packet of the first trip of which a datagram by place told nothing, since the ring may have been
    /// open then.
    pub first_unplaced: Option<u64>,
    /// Does a place mean one slave in the frame that is taken?
    is_placed: bool,
    /// Stations without places.
    pub strangers: Vec<Stranger>,
    /// Is what was sent taken as taken where nothing came back?
    pub asked: bool,
}

impl Learner {
    /// Nothing is told yet.
    pub(crate) fn new(alloc: Global, asked: bool, keeps: bool) -> Result<Learner, KnownFault> {
        Ok(Learner {
            trips: Trips::new(alloc)?,
            known: Known::new(alloc),
            groups: Groups::new(alloc, keeps),
            mails: Mails::new(alloc),
            left_out: LeftOut::new(),
            sums: Sums::default(),
            ways: Ways {
                port: false,
                place: false,
                mark: false,
                counters: false,
            },
            first: None,
            last: 0,
            starts: [0; NAMED_STARTS],
            started: 0,
            line_started: 0,
            first_unplaced: None,
            is_placed: true,
            strangers: Vec::new(alloc),
            asked,
        })
    }

    /// Takes a packet with a frame.
    pub(crate) fn take(
        &mut self,
        marks: &Marks,
        packet: &Outline,
        frame: &FrameBuf,
    ) -> Result<(), KnownFault> {
        if self.first.is_none() {
            self.first = Some(packet.number);
        }
        self.last = packet.number;
        for _ in 0..u64::MAX {
            let step = self.trips.take(marks, packet, frame)?;
            let is_taken = self.take_step(marks, packet, frame, &step)?;
            self.trips.reuse(step);
            if is_taken {
                break;
            }
        }
        Ok(())
    }

    /// Takes what happens; is the packet taken?
    fn take_step(
        &mut self,
        marks: &Marks,
        packet: &Outline,
        frame: &FrameBuf,
        step: &Step,
    ) -> Result<bool, KnownFault> {
        self.sums.count(step);
        match step {
            Step::Ended(kept) => {
                self.take_trip(kept.trip())?;
                Ok(false)
            }
            Step::Taken(told, fate) => {
                self.ways.take(*told);
                self.take_fate(marks, packet, frame, fate)?;
                Ok(true)
            }
        }
    }

    /// Takes what becomes of a packet.
    fn take_fate(
        &mut self,
        marks: &Marks,
        packet: &Outline,
        frame: &FrameBuf,
        fate: &Fate,
    ) -> Result<(), KnownFault> {
        match fate {
            Fate::Replaces(kept) | Fate::Closes(kept) => self.take_trip(kept.trip()),
            Fate::Stray => self.take_stray(!marks.two, packet, frame),
            Fate::Begins | Fate::Second(_) | Fate::Back(_) | Fate::Late => Ok(()),
        }
    }

    /// Takes a trip that ended.
    fn take_trip(&mut self, trip: &Trip) -> Result<(), KnownFault> {
        match &trip.came {
            Some(came) => {
                let ready = self.known.is_ready();
                self.tell(trip)?;
                self.take_start(ready, trip.first.number);
                self.take_frame(&trip.first, &trip.sent.frame, came.frame())
            }
            None => {
                if self.asked {
                    let ready = self.known.is_ready();
                    self.known.take_asked(&trip.sent.frame)?;
                    self.is_placed = true;
                    self.take_start(ready, trip.first.number);
                    self.take_frame(&trip.first, &trip.sent.frame, &trip.sent.frame)
                } else {
                    self.lose_frame(trip.first.number, &trip.sent.frame);
                    self.tell(trip)
                }
            }
        }
    }

    /// Takes what a trip that ended tells of the slaves.
    fn tell(&mut self, trip: &Trip) -> Result<(), KnownFault> {
        let unplaced = self.known.unplaced();
        self.known.take(trip)?;
        self.is_placed = self.known.unplaced() == unplaced;
        if !self.is_placed && self.first_unplaced.is_none() {
            self.first_unplaced = Some(trip.first.number);
        }
        Ok(())
    }

    /// Takes a frame that came back of no trip.
    fn take_stray(
        &mut self,
        all: bool,
        packet: &Outline,
        frame: &FrameBuf,
    ) -> Result<(), KnownFault> {
        let ready = self.known.is_ready();
        self.known.take_stray(frame, all)?;
        self.is_placed = true;
        self.take_start(ready, packet.number);
        let sent = uncounted(frame);
        self.take_frame(packet, &sent, frame)
    }

    /// Counts a start-up, if one began with a packet.
    fn take_start(&mut self, ready: bool, packet: u64) {
        if ready && !self.known.is_ready() {
            if let Some(place) = self.starts.get_mut(self.started as usize % NAMED_STARTS)
                && self.started < NAMED_STARTS as u64
            {
                *place = packet;
            }
            self.started = self.started.saturating_add(1);
        }
    }

    /// Takes a frame that was lost: AL requests begin an epoch whether they are taken or not.
    fn lose_frame(&mut self, packet: u64, sent: &FrameBuf) {
        for k in 0..sent.count() {
            if asks_state(sent, k) {
                self.groups.request();
            }
            self.left_out.take(sent, k, packet);
        }
    }

    /// Takes the datagrams of a frame that came back.
    fn take_frame(
        &mut self,
        packet: &Outline,
        sent: &FrameBuf,
        came: &FrameBuf,
    ) -> Result<(), KnownFault> {
        let shared = sent.count().min(came.count());
        for k in 0..shared {
            self.take_datagram(packet, sent, came, k)?;
        }
        Ok(())
    }

    /// Takes a datagram that came back.
    fn take_datagram(
        &mut self,
        packet: &Outline,
        sent: &FrameBuf,
        came: &FrameBuf,
        k: usize,
    ) -> Result<(), KnownFault>
        requires sent { k < length sent.now }
        requires came { k < length came.now }
    {
        let command = sent.command(k);
        let moved = moved(sent, came, k);
        if asks_state(sent, k) {
            self.groups.request();
        }
        self.left_out.take(sent, k, packet.number);
        if is_grouped(command) {
            let came_back = Came {
                packet: packet.number,
                place: k,
                time: packet.time,
                moved,
            };
            self.groups
                .take(key_of(sent, k), command, &came_back, came.data(k))?;
        }
        if is_logical(command) && (0 < moved || self.asked) {
            self.groups.find();
            self.line_started = self.started;
        }
        if moved == 1 || self.asked {
            self.take_physical(sent, came, k)?;
        }
        Ok(())
    }

    /// Takes a datagram that one slave counted: a mail, or what is told of a station without a place.
    fn take_physical(
        &mut self,
        sent: &FrameBuf,
        came: &FrameBuf,
        k: usize,
    ) -> Result<(), KnownFault>
        requires sent { k < length sent.now }
        requires came { k < length came.now }
    {
        let command = sent.command(k);
        let slave = match meant_by(command) {
            Whom::Place => {
                if !self.is_placed {
                    return Ok(());
                }
                Some(usize::from(0u16.wrapping_sub(sent.adp(k))))
            }
            Whom::Station => {
                let station = sent.adp(k);
                self.known
                    .slaves()
                    .iter()
                    .position(|slave| slave.is_at(station))
            }
            Whom::Nobody | Whom::Everybody => return Ok(()),
        };
        match slave {
            Some(slave) => self.take_mail(slave, command, sent.ado(k), came.data(k)),
            None => self.take_stranger(command, sent.adp(k), sent.ado(k), came.data(k)),
        }
    }

    /// Takes what may be a mail.
    fn take_mail(
        &mut self,
        slave: usize,
        command: Command,
        register: u16,
        bytes: &[u8],
    ) -> Result<(), KnownFault> {
        let Some(told) = self.known.slaves().get(slave) else {
            return Ok(());
        };
        if is_write(command) {
            if told.has_mailbox(register, true) {
                self.mails.take_request(slave, bytes)?;
            }
        } else if told.has_mailbox(register, false) {
            let start = if self.known.is_ready() {
                None
            } else {
                Some(self.started)
            };
            self.mails.take_answer(slave, bytes, start)?;
        }
        Ok(())
    }

    /// Takes what is told of a station that is at no told place.
    fn take_stranger(
        &mut self,
        command: Command,
        station: u16,
        register: u16,
        bytes: &[u8],
    ) -> Result<(), KnownFault> {
        let status = if command == Command::Fprd && register == 0x0130 {
            bytes.first().copied()
        } else {
            None
        };
        for stranger in self.strangers.iter_mut() {
            if stranger.station == station {
                if status.is_some() {
                    stranger.status = status;
                }
                return Ok(());
            }
        }
        if self.strangers.len() < MAX_STRANGERS {
            self.strangers.push(Stranger { station, status })?;
        }
        Ok(())
    }

    /// The capture has ended: where what was sent is taken as taken, so are the trips that are on the way.
    pub(crate) fn end(&mut self) -> Result<(), KnownFault> {
        if self.asked {
            for i in 0..self.trips.on_the_way() {
                self.ask(i)?;
            }
        }
        self.groups.end();
        Ok(())
    }

    /// Takes a trip that is on the way, the oldest being the first, as taken.
    fn ask(&mut self, i: usize) -> Result<(), KnownFault> {
        let trips = self.trips.trips();
        let place = trips.len().saturating_sub(i).saturating_sub(1);
        let Some(kept) = trips.get(place) else {
            return Ok(());
        };
        let first = kept.trip().first;
        let sent = kept.trip().sent.frame.copy();
        let ready = self.known.is_ready();
        self.known.take_asked(&sent)?;
        self.is_placed = true;
        self.take_start(ready, first.number);
        self.take_frame(&first, &sent, &sent)
    }

    /// Which start-up is that of the line, the first one being 1; 0 where it had none.
    pub(crate) fn start_of_line(&self, at_end: bool) -> u64 {
        if self.known.has_cycled() && !at_end {
            self.line_started
        } else {
            self.started
        }
    }

    /// The slaves of the line: as the last logical datagram that moved found them, or as they are told at the
    /// end.
    pub(crate) fn line(&self, at_end: bool) -> &[Slave] {
        if self.known.has_cycled() && !at_end {
            self.known.line()
        } else {
            self.known.slaves()
        }
    }
}

/// A frame that came back, with the counters 0 that it was sent with.
fn uncounted(frame: &FrameBuf) -> FrameBuf {
    let mut sent = frame.copy();
    for k in 0..frame.count() {
        if k < sent.count() {
            sent.set_counter(k, 0);
        }
    }
    sent
}

/// Does datagram `k` of a frame write AL control?
fn asks_state(sent: &FrameBuf, k: usize) -> bool
    requires { k < length sent.now }
{
    let address = u32::from(sent.ado(k));
    let count = sent.data(k).len() as u32;
    is_write(sent.command(k)) && meets(address, count, AL_CONTROL, AL_CONTROL + 2)
}

/// May datagrams of a command be items, or are they told by their group?
fn is_grouped(command: Command) -> bool {
    matches!(
        command,
        Command::Lrd
            | Command::Lwr
            | Command::Lrw
            | Command::Brd
            | Command::Fprd
            | Command::Fpwr
            | Command::Brw
            | Command::Armw
            | Command::Frmw
    )
}

/// The group of datagram `k` of a frame.
fn key_of(sent: &FrameBuf, k: usize) -> Key
    requires { k < length sent.now }
{
    let command = sent.command(k);
    let address = match command {
        Command::Brd | Command::Brw => u32::from(sent.ado(k)) * 65_536,
        _ => sent.address(k),
    };
    Key {
        code: command.code(),
        address,
        length: sent.data(k).len(),
    }
}
