//! Ports in memory to a ring, at which things happen before the frame of a cycle.

ghost use Rattle.std.specs.Prelude.{⊤, ◌≡◌};

use super::line::{EXPECTED, ring, wanted, work};
use crate::asserts::assert_found;
use arrayvec::ArrayVec;
use ec_master::PortFault;
use ec_regs::{AlState, AlStatus};
use ec_ring::{Arrival, Arrivals, HeardPorts, LateCopies, Port, PortHealth, Ring, Travel, Weather};
use ec_run::{MOST_READS, Outputs, StartupObject, Wanted};
use ec_wire::{Command, Datagram, FrameBuf, address_of};
use ecat_master::{LinePlan, NoTask, Pace, Plan, Writers, master};
use std::io::{Cursor, Write};
use std::process::Abort;

/// What happens before the frame of a cycle.
#[derive(Clone, Copy)]
pub enum Event {
    /// The link with this number is mended, or breaks.
    Link(usize, bool),
    /// The copy from port A is lost, of this frame alone.
    LoseA,
    /// Both copies are lost, of this frame alone.
    LoseBoth,
    /// Both copies are lost of the next frame that goes to one slave, beside the cycles.
    LoseBeside,
    /// The cables at both ports are swapped, for these frames from now on.
    Swap(Swapped),
    /// The slave at this place falls into this state with an error.
    Error(usize, AlState),
    /// The slave at this place falls into this state without one.
    Falls(usize, AlState),
    /// The slave at this place loses its station address.
    Forgets(usize),
    /// The ports fail for this frame.
    Fault,
    /// A copy comes at port B that is none of the frame, in the place of both.
    Stranger,
    /// A copy comes late, of the trip so many before this one.
    Late(u64),
    /// So many frames of another master come.
    Another(u64),
    /// Sends and receives at a port begin to fail with this error of the system, or they work again.
    Fails(Port, Option<i32>),
}

/// Which frames go out over cables that are swapped at the ports.
#[derive(Clone, Copy, PartialEq, Eq)]
pub enum Swapped {
    /// None.
    Nothing,
    /// Those of looks at the cable alone.
    Looks,
    /// All of them.
    All,
    /// All of them, and each copy is told by the port where it came, as ports over a network do.
    AllByPort,
}

/// What befalls a frame.
#[derive(Clone, Copy)]
struct Fate {
    loses_a: bool,
    loses_b: bool,
    fails: bool,
    is_strange: bool,
}

/// Nothing befalls it.
const CALM: Fate = Fate {
    loses_a: false,
    loses_b: false,
    fails: false,
    is_strange: false,
};

/// Ports to a ring whose slaves take a step after each frame.
#[derive(Drop)]
pub struct Stage<'a> {
    ring: Ring,
    events: &'a [(u64, Event)],
    cycles: u64,
    failed: u64,
    trips: u64,
    health_a: PortHealth,
    health_b: PortHealth,
    swapped: Swapped,
    loses_beside: bool,
}

impl<'a> Stage<'a> {
    /// Ports to this ring, at which each of these happens before the frame of the cycle with its number.
    pub fn new(ring: Ring, events: &'a [(u64, Event)]) -> Stage<'a> {
        Stage {
            ring,
            events,
            cycles: 0,
            failed: 0,
            trips: 0,
            health_a: PortHealth::sound(),
            health_b: PortHealth::sound(),
            swapped: Swapped::Nothing,
            loses_beside: false,
        }
    }

    /// With cables that are swapped for these frames from the start on.
    pub fn with_swapped(self, swapped: Swapped) -> Stage<'a> {
        let mut stage = self;
        stage.swapped = swapped;
        stage
    }

    /// The ring.
    pub fn ring(&self) -> &Ring {
        &self.ring
    }

    /// Lets an event happen, and puts into the fate of the frame what befalls it.
    fn happens(&mut self, event: Event, fate: &mut Fate) {
        match event {
            Event::Link(number, up) => self.sets_link(number, up),
            Event::LoseA => fate.loses_a = true,
            Event::LoseBoth => {
                fate.loses_a = true;
                fate.loses_b = true;
            }
            Event::LoseBeside => self.loses_beside = true,
            Event::Swap(swapped) => self.swapped = swapped,
            Event::Error(place, state) => self.falls(place, state, true),
            Event::Falls(place, state) => self.falls(place, state, false),
            Event::Forgets(place) => self.forgets(place),
            Event::Fault => fate.fails = true,
            Event::Stranger => fate.is_strange = true,
            Event::Late(_) | Event::Another(_) => {}
            Event::Fails(port, error) => self.sets_health(port, error),
        }
    }

    /// Mends or breaks a link, where there is one.
    fn sets_link(&mut self, number: usize, up: bool) {
        if number <= self.ring.slaves().len() {
            self.ring.set_link(number, up);
        }
    }

    /// Lets a port fail with an error, or work again: the link there is down or up with it.
    fn sets_health(&mut self, port: Port, error: Option<i32>) {
        let last = self.ring.slaves().len();
        let health = match port {
            Port::A => &mut self.health_a,
            Port::B => &mut self.health_b,
        };
        *health = match error {
            Some(error) => health.failing(error),
            None => health.working(),
        };
        self.sets_link(if port == Port::A { 0 } else { last }, error.is_none());
    }

    /// Lets a slave fall into a state.
    fn falls(&mut self, place: usize, state: AlState, error: bool) {
        if place < self.ring.slaves().len() {
            let status = AlStatus { state, error };
            self.ring
                .slave_mut(place)
                .controller_mut()
                .set_al(status, 0x001B);
        }
    }
}

impl<'a> Stage<'a> {
    /// Lets a slave lose its station address, where the cable is whole.
    fn forgets(&mut self, place: usize) {
        let adp = ((place % 256) as u16).wrapping_neg();
        let mut payload = ArrayVec::new();
        payload.push(0);
        payload.push(0);
        let sent = Datagram {
            command: Command::Apwr,
            index: 0,
            address: address_of(adp, 0x0010),
            circulating: false,
            irq: 0,
            payload,
            counter: 0,
        };
        let weather = Weather::calm(self.ring.links());
        let _ = self.ring.arrivals(&FrameBuf::of(&sent), &weather);
    }

    /// Lets happen what happens before the frame of the next cycle.
    fn befalls(&mut self) -> Fate {
        let mut fate = CALM;
        let events = self.events;
        for k in 0..events.len() {
            let (cycle, event) = events[k];
            if cycle == self.cycles {
                self.happens(event, &mut fate);
            }
        }
        self.cycles = self.cycles.saturating_add(1);
        fate
    }

    /// Which copies came late in the last cycle, whose frame was the last one.
    fn late_in_last_cycle(&self) -> LateCopies {
        let last_trip = self.trips.saturating_sub(1);
        let mut late = LateCopies::none();
        for (cycle, event) in self.events {
            if cycle.saturating_add(1) != self.cycles {
                continue;
            }
            match event {
                Event::Late(ago) => late = late.with(last_trip.saturating_sub(*ago)),
                Event::Another(count) => late.strangers = late.strangers.saturating_add(*count),
                _ => {}
            }
        }
        late
    }

    /// Does the next frame belong to a cycle, and what happens before it?
    fn before(&mut self, sent: &FrameBuf) -> Fate {
        let command = if sent.count() > 0 {
            sent.command(0)
        } else {
            Command::Nop
        };
        match command {
            Command::Lrw => self.befalls(),
            Command::Fprd | Command::Fpwr if self.loses_beside => {
                self.loses_beside = false;
                let mut fate = CALM;
                fate.loses_a = true;
                fate.loses_b = true;
                fate
            }
            _ => CALM,
        }
    }
}

impl<'a> Stage<'a> {
    /// Does a frame go out over swapped cables? A look at the cable reads one byte of AL status of all
    /// slaves.
    fn is_swapped_for(&self, sent: &FrameBuf) -> bool {
        match self.swapped {
            Swapped::Nothing => false,
            Swapped::All | Swapped::AllByPort => true,
            Swapped::Looks => {
                sent.count() > 0 && sent.command(0) == Command::Brd && sent.data(0).len() == 1
            }
        }
    }
}

/// What comes over swapped cables of a whole ring: each copy is of the other port, and comes at the other
/// one.
fn exchanged(came: Arrivals, by_port: bool) -> Arrivals {
    let (a, b) = (at_other_port(came.a), at_other_port(came.b));
    if by_port {
        Arrivals { a, b }
    } else {
        Arrivals { a: b, b: a }
    }
}

/// A copy that arrived at the other port.
fn at_other_port(copy: Option<Arrival>) -> Option<Arrival> {
    match copy {
        Some(Arrival { frame, at: Port::A }) => Some(Arrival { frame, at: Port::B }),
        Some(Arrival { frame, at: Port::B }) => Some(Arrival { frame, at: Port::A }),
        None => None,
    }
}

/// A copy of no frame of the master, at port B.
fn stranger(sent: &FrameBuf) -> Arrivals {
    let mut payload = ArrayVec::new();
    payload.push(0);
    let other = Datagram {
        command: Command::Nop,
        index: 0,
        address: 0,
        circulating: false,
        irq: 0,
        payload,
        counter: if sent.count() > 0 { sent.counter(0) } else { 0 },
    };
    let frame = FrameBuf::of(&other);
    Arrivals {
        a: Some(Arrival { frame, at: Port::B }),
        b: None,
    }
}

impl<'a> HeardPorts for Stage<'a> {
    ghost trips = { λ before sent came later. ⊤ };

    ghost failed = { λ ports. ports.failed };

    fn trip_heard(&mut self, sent: &FrameBuf) -> Result<Arrivals, PortFault> {
        let before = self.failed;
        let fate = self.before(sent);
        self.failed = before;
        self.trips = self.trips.saturating_add(1);
        if fate.fails && before < u64::MAX {
            self.failed = before + 1;
            return Err(PortFault);
        }
        if fate.is_strange {
            return Ok(stranger(sent));
        }
        let mut weather = Weather::calm(self.ring.links());
        weather.lost_a = fate.loses_a;
        weather.lost_b = fate.loses_b;
        let came = self.ring.arrivals(sent, &weather);
        self.ring.step_all();
        if !self.is_swapped_for(sent) {
            return Ok(came);
        }
        Ok(exchanged(came, self.swapped == Swapped::AllByPort))
    }

    fn failures(&self) -> u64 {
        self.failed
    }

    fn trips_made(&self) -> u64 {
        self.trips
    }

    fn take_late(&mut self) -> LateCopies {
        self.late_in_last_cycle()
    }

    fn health(&self, at: Port) -> PortHealth {
        match at {
            Port::A => self.health_a,
            Port::B => self.health_b,
        }
    }
}

/// So many cycles, back to back.
#[derive(Drop)]
pub struct Count {
    /// How many are to come.
    pub left: u64,
}

impl Pace for Count {
    ghost over = { λ count. count.left ≡ 0 };

    fn next(&mut self) -> bool {
        if self.left == 0 {
            return false;
        }
        self.left -= 1;
        true
    }

    fn late(&mut self) -> Option<u64> {
        None
    }

    fn now(&mut self) -> u64 {
        0
    }
}

/// Room for what a run prints.
pub const ROOM: usize = 4096;

/// What was written to a cursor over an array.
pub fn written(cursor: &Cursor<[u8; ROOM]>) -> &str {
    let count = cursor.position().min(ROOM as u64) as usize;
    std::str::from_utf8(&cursor.get_ref()[..count]).unwrap_or("no text")
}

/// How the runs of the tests go: the outputs are kept, slaves are recovered, nothing is logged.
pub fn usual_plan<'a>() -> Plan<'a> {
    Plan {
        outputs: Outputs::Kept,
        stop: false,
        recover: true,
        tries: MOST_READS,
        progress: false,
        log: false,
        log_images: false,
        log_or_stop: false,
        states: true,
        identities: &[],
        names: &[],
        leave: Some(AlState::Init),
        leave_by_task: false,
    }
}

/// A change of what the three slaves are to be told.
#[derive(Clone, Copy)]
pub enum Told {
    /// None.
    Same,
    /// The outputs of the slave at place 1 have two bytes.
    LongOutputs,
    /// The slave at a place has startup objects.
    Startup(usize, &'static [StartupObject]),
}

/// A run of a master on a line, and what it prints.
pub struct Row {
    /// What it shows.
    pub name: &'static str,
    /// How many slaves the ring has, at most three.
    pub slaves: u16,
    /// The links that are down from the start.
    pub down: &'static [usize],
    /// What the slaves are to be told.
    pub told: Told,
    /// What happens before the cycles with these numbers.
    pub events: &'static [(u64, Event)],
    /// Whether the first cycle that is not good is the last.
    pub stop: bool,
    /// How many cycles are to come.
    pub cycles: u64,
    /// The exit status.
    pub status: u8,
    /// What is printed.
    pub text: &'static str,
}

/// A ring of so many slaves, at most three, of whose links these are down.
pub fn ring_with(rt: &(impl AllocGlobal + Abort), slaves: u16, down: &[usize]) -> Ring {
    assert!(rt; slaves <= 3);
    let mut open = ring(rt, rt.alloc(), slaves);
    for link in down {
        if *link <= open.slaves().len() {
            open.set_link(*link, false);
        }
    }
    open
}

/// What three slaves are to be told.
pub fn wanted_with(rt: &(impl AllocGlobal + Abort), told: Told) -> Vec<Wanted> {
    let mut line = wanted(rt, rt.alloc());
    for (place, wanted) in line.iter_mut().enumerate() {
        match told {
            Told::Same => {}
            Told::LongOutputs => {
                if place == 1 {
                    wanted.managers[2].length = 2;
                }
            }
            Told::Startup(at, objects) => {
                if place == at {
                    put_startup(wanted, objects);
                }
            }
        }
    }
    line
}

/// Gives a slave startup objects.
fn put_startup(wanted: &mut Wanted, objects: &[StartupObject]) {
    for (slot, object) in wanted.startup.iter_mut().zip(objects) {
        *slot = Some(*object);
    }
}

/// Runs a master on slaves behind these ports that are to be told this, with what it prints, and asserts its
/// status.
pub fn assert_runs<W: Write>(
    rt: &impl Abort,
    row: &str,
    ports: Stage<'_>,
    line: &[Wanted],
    plan: &Plan<'_>,
    cycles: u64,
    out: &mut W,
    status: u8,
) {
    let work = work(rt);
    let mut err = Cursor::new([0u8; ROOM]);
    let mut log = Cursor::new([0u8; ROOM]);
    let mut pace = Count { left: cycles };
    assert!(rt; work.len() == EXPECTED.len());
    let line_plan = LinePlan {
        line,
        expected: &EXPECTED,
        plan,
    };
    let writers = Writers {
        out,
        err: &mut err,
        log: &mut log,
    };
    let ended = master(ports, work, &line_plan, &mut pace, &mut NoTask, writers);
    assert_found(rt, row, ended, status);
}

/// Asserts the status of a run and what it prints.
fn assert_row(rt: &(impl AllocGlobal + Abort), row: &Row) {
    let line = wanted_with(rt, row.told);
    let ports = Stage::new(ring_with(rt, row.slaves, row.down), row.events);
    let mut plan = usual_plan();
    plan.stop = row.stop;
    let mut out = Cursor::new([0u8; ROOM]);
    assert_runs(
        rt,
        row.name,
        ports,
        line.as_slice(),
        &plan,
        row.cycles,
        &mut out,
        row.status,
    );
    assert_found(rt, row.name, written(&out), row.text);
}

/// Asserts this of each run.
pub fn assert_rows(rt: &(impl AllocGlobal + Abort), rows: &[Row]) {
    for row in rows {
        assert_row(rt, row);
    }
}
