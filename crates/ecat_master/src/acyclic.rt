//! What a task asks of slaves beside the cycles.

ghost use Rattle.std.specs.Prelude.{◌≡◌, ◌<◌, IfSome, Some, position, slice_get};
ghost use Rattle.ecat_master.specs.Acyclic.{has_station, talk_with, trips_of};
ghost use Rattle.ecat_master.specs.Course.{IsCaredFor};

use crate::task::Task;
use ec_acyclic::{Answer, Service, Talk, Turn};
use ec_app::roles::{ANSWER_MAILBOX, REQUEST_MAILBOX};
use ec_regs::SyncMan;
use ec_regs::registers::SYNC_MANAGER_COUNT;
use ec_ring::HeardPorts;
use ec_run::{Wanted, Watched, peer_between};
use ec_services::MasterFault;
use std::mem;

/// The most trips by which an object is read or written.
const OBJECT_TRIPS: u32 = 64;

/// How many trips a state takes at the most beside the reads of AL status that a plan lets: it is asked for
/// by one, and before an error is acknowledged AL status is read by another.
const STATE_TRIPS: u32 = 2;

/// The counters of mails run from 1 to this one.
const COUNTERS: u32 = 7;

/// What a task asks of a slave beside the cycles ([`Task::ask`]).
#[derive(Clone, Copy, PartialEq, Eq, Debug)]
pub struct Asked {
    /// The station address of the slave, one of the line.
    pub station: u16,
    /// What is asked of it.
    pub service: Service,
}

/// A service that is under way.
#[derive(Drop)]
struct UnderWay {
    /// The place of the slave on the line, the first one's being 0.
    place: usize,
    /// How far it is.
    talk: Talk,
}

/// What a task asks of slaves beside the cycles: one service after the other.
#[derive(Drop)]
pub(crate) struct Acyclic {
    /// The one that is under way, if one is.
    under_way: Option<UnderWay>,
    /// What came of the last one, until the task is told.
    ended: Option<Result<Answer, MasterFault>>,
    /// How many were begun, from which the counters of their mails follow.
    begun: u32,
    /// Whether the frame behind the last cycle was one of a service.
    has_served: bool,
}

/// The place of the slave on a line that has a station address, of the first one where some do.
fn place_of(line: &[Wanted], station: u16) -> Option<usize>
    ensures { result ≡ position (has_station station) line.now }
{
    line.iter().position(|wanted| wanted.station == station)
}

/// What the slave of a line at a place is to be told, if it has this station address.
fn slave_at(line: &[Wanted], place: usize, station: u16) -> Option<&Wanted>
    ensures { IfSome result (λ wanted. (slice_get line.now place ≡ Some wanted.now)
        × (wanted.now.station ≡ station)) }
{
    if place < line.len() && line[place].station == station {
        Some(&line[place])
    } else {
        None
    }
}

/// The record of a sync manager of a slave.
fn manager_of(wanted: &Wanted, number: usize) -> &SyncMan
    requires { number < SYNC_MANAGER_COUNT }
    ensures { slice_get wanted.now.managers number ≡ Some result.now }
{
    &wanted.managers[number]
}

/// By how many trips at the most a service is done, where AL status is read so often for a state.
fn trips_of(service: Service, reads: u32) -> u32
    ensures { result ≡ trips_of service reads }
{
    match service {
        Service::Read { .. } | Service::Write { .. } => OBJECT_TRIPS,
        Service::State(_) | Service::Acknowledge => reads.saturating_add(STATE_TRIPS),
    }
}

/// A service that begins with a slave, of all services the one with this number, by so many reads of AL
/// status at the most. A slave takes a mail with the counter of the last one for that one again, so the
/// counters of the first mails are others from one service to the next.
fn talk_with(wanted: &Wanted, service: Service, number: u32, reads: u32) -> Talk
    ensures { result ≡ talk_with wanted.now service number reads }
{
    let requests = manager_of(wanted, REQUEST_MAILBOX);
    let answers = manager_of(wanted, ANSWER_MAILBOX);
    let counter = (number % COUNTERS + 1) as u8;
    let peer = peer_between(wanted.station, requests, answers, counter);
    Talk::begun(service, wanted.station, peer, trips_of(service, reads))
}

impl Acyclic {
    /// Nothing was asked for.
    pub(crate) fn none() -> Acyclic {
        Acyclic {
            under_way: None,
            ended: None,
            begun: 0,
            has_served: false,
        }
    }

    /// Begins what a task asks of a slave of the line next, where nothing is under way, by so many reads of
    /// AL status at the most. Where no slave of the line has the station address, the task is told so.
    pub(crate) fn begin<D: Task>(&mut self, task: &mut D, line: &[Wanted], reads: u32) {
        if self.under_way.is_some() {
            return;
        }
        let Some(asked) = task.ask() else {
            return;
        };
        let Some(place) = place_of(line, asked.station) else {
            task.told(Err(MasterFault::NoSlave));
            return;
        };
        let talk = talk_with(&line[place], asked.service, self.begun, reads);
        self.begun = self.begun.wrapping_add(1);
        self.under_way = Some(UnderWay { place, talk });
    }

    /// Does a service go out behind this cycle whatever else is due, where copies of the cycle came or did
    /// not? It does behind one with a frame of none, so that it and what else is due go by turns.
    pub(crate) fn goes_first(&mut self, has_heard: bool) -> bool {
        let goes_first = has_heard && self.under_way.is_some() && !self.has_served;
        self.has_served = false;
        goes_first
    }

    /// Takes the next turn of the service that is under way, behind a cycle of which some copy came.
    pub(crate) fn serve<P: HeardPorts>(&mut self, ports: &mut Watched<P>, line: &[Wanted])
        ensures seen_to { IsCaredFor P.trips line.now ports.old ports.new }
    {
        if !ports.has_heard() {
            return;
        }
        let Some(under_way) = mem::replace(&mut self.under_way, None) else {
            return;
        };
        let UnderWay { place, talk } = under_way;
        let Some(_wanted) = slave_at(line, place, talk.station()) else {
            self.ended = Some(Err(MasterFault::NoSlave));
            return;
        };
        self.has_served = true;
        let turn = talk.turn(ports);
        self.take_turn(place, turn);
    }

    /// Takes how far a service of the slave at a place is behind a turn.
    fn take_turn(&mut self, place: usize, turn: Turn) {
        match turn {
            Turn::Goes(talk) => self.under_way = Some(UnderWay { place, talk }),
            Turn::Ended(answer) => self.ended = Some(answer),
        }
    }

    /// Gives up what is under way, since no other cycle follows: it has no answer.
    pub(crate) fn give_up(&mut self) {
        if self.under_way.is_some() {
            self.under_way = None;
            self.ended = Some(Err(MasterFault::NoAnswer));
        }
    }

    /// Tells a task what came of what it asked for, once that is known.
    pub(crate) fn tell<D: Task>(&mut self, task: &mut D) {
        if let Some(answer) = self.ended {
            self.ended = None;
            task.told(answer);
        }
    }
}
