//! A master's two ports whose line lies somewhere else.

ghost use Rattle.std.specs.Prelude.{◌≡◌, ◌+◌, ◌%◌, ◌^◌, ◌≤◌, ◌<◌, ℕ, IsErr, IfOk, IfSome, List, length, Some};
ghost use Rattle.std.specs.Prelude.{◌⊎◌, None, true, false};
ghost use Rattle.std.specs.Option.{is_some, option_map};
ghost use Rattle.ec_wire.specs.Datagram.{DatagramRecord};
ghost use Rattle.ec_ring.specs.declared.port.Port.{Port};
ghost use Rattle.ec_ring.specs.declared.port.Port.TheVariants.{A, B};
ghost use Rattle.ec_wire.specs.Spelling.{IsFrameValue};
ghost use Rattle.ecat_remote.specs.Enough.{IsEnough, Keeps, have_come, have_come_at, next_counters};
ghost use Rattle.ecat_remote.specs.Enough.{awaits};
ghost use Rattle.ecat_remote.specs.Taken.{AreBoth, AreNumbered, AreSoFar, IsTaken, opened_came, opened_copy};
ghost use Rattle.ecat_remote.specs.Taken.{sought};
ghost use Rattle.ecat_remote.specs.Taken.{sent_from};
ghost use Rattle.ecat_remote.specs.Trips.{RemoteState, RemoteTrips, HeardTrips, arrivals_of};

use crate::carrier::Carrier;
use crate::copies::{NumberedCopy, Outgoing, Told, number_both, opened, told_by};
use crate::cycle::{Cycle, Deadline, again};
use crate::enough::{Awaited, Both, have_come, have_come_at, is_enough};
use crate::late::{is_stranger, late_trip};
use crate::ready::Ready;
use crate::silence::Silence;
use crate::timer::{Timer, pass_until};
use ec_master::{PortFault, Ports};
use ec_number::Trip;
use ec_ring::{Arrival, Arrivals, Came, HeardPorts, LateCopies, Port, PortHealth};
use ec_wire::{FrameBuf, PACKET_ROOM};
use std::marker::Model;

/// How many packets that wait at a port are read for one copy, at the most, once the time of its trip is
/// over: more than a socket keeps.
const MOST_WAITING: u64 = 4096;

/// How many turns the waiting of a trip takes at the most for each of its microseconds, and how many more: a
/// turn that looks at both ports takes hardly less than a quarter of one.
const TURNS: u64 = 4;

const MORE_TURNS: u64 = 4096;

/// For how many microseconds at least the other copy is waited for behind one that came with each counter
/// that is expected: as long as a process on a busy machine may be kept from a processor between the two, but
/// no longer than this part of the time that the trip has; half as long with each cycle in which nothing has
/// come at its port.
const FLOOR: u64 = 5_000;

const FLOOR_PART: u64 = 4;

/// For how many microseconds every port may fail before a trip of a cycle does: until then its copies are
/// missing.
const PATIENCE: u64 = 1_000_000;

/// So many microseconds apart the copies of a whole ring come: a look that soon finds the other one.
const CLOSE: u64 = 20;

/// What a receive at a port gave.
#[derive(Drop)]
struct Given {
    /// The copy of the sent frame, if it is one.
    copy: Option<NumberedCopy>,
    /// Whether a packet came.
    came: bool,
}

/// For how long the copies of a trip are waited for.
#[derive(Clone, Copy)]
struct Span {
    /// When they were sent.
    sent_at: u64,
    /// Up to when they are waited for.
    until: u64,
    /// Whether that is sooner than it was, since what came is enough.
    enough: bool,
}

/// What came while a trip's copies were waited for.
#[derive(Drop)]
struct Waited {
    both: Both,
    /// Whether they were waited for less long, since what came is enough.
    enough: bool,
}

/// How the waiting for the copies of a trip has ended.
#[derive(Clone, Copy, PartialEq, Eq, Debug)]
pub(crate) enum End {
    /// Each copy has come.
    All,
    /// Each copy has come that is awaited, and not both are.
    Alone,
    /// One copy has come with each counter that is expected, and the other one has had its time.
    Enough,
    /// The time is over.
    Time,
}

/// What came of a trip.
#[derive(Drop)]
struct Received {
    both: Both,
    end: End,
}

/// A master's two ports over what carries packets to a line and back. Contracts see what carries them, and
/// the number of the next trip.
///
/// A trip ends as soon as nothing is gained by waiting: when each copy has come that is awaited; when one has
/// come with each counter that is expected, and the other one has had as long again, and at least 5
/// milliseconds or a quarter of the trip's time, whichever is less; or when its time is over. These 5
/// milliseconds are halved with each cycle in which nothing came at the port.
#[derive(Drop)]
pub struct RemotePorts<C: Carrier, T: Timer> {
    carrier: C,
    timer: T,
    /// For how many microseconds a trip waits for its copies, from when they were sent on.
    limit: u64,
    next: Trip,
    /// How many trips were made.
    made: u64,
    /// Which copies of earlier trips came since it was last asked, and frames of others.
    late: LateCopies,
    /// The counters that are expected of a cycle's datagrams, in the order of its frames, if any are.
    expected: Option<Vec<u16>>,
    cycle: Cycle,
    silence: Silence,
    /// Whether a copy of the last trip has not come yet.
    misses: bool,
    /// Whether it looks at its ports without sleeping.
    busy: bool,
    /// Since when each trip failed to send, if the last one did.
    failing: Option<u64>,
}

impl<C: Carrier, T: Timer> Model for RemotePorts<C, T> {
    ghost use Rattle.ecat_remote.specs.Trips.{RemoteState};

    ghost Value = { RemoteState C };

    ghost view = { λ p. record { carrier = p.carrier; next = p.next.number } };
}

impl<C: Carrier, T: Timer> RemotePorts<C, T> {
    /// Ports over what carries the packets, whose trips are numbered from one on.
    pub fn new(carrier: C, timer: T, limit: u64, next: Trip) -> RemotePorts<C, T>
        ensures { result ≡ record { carrier = carrier; next = next.number } }
    {
        RemotePorts {
            carrier,
            timer,
            limit,
            next,
            made: 0,
            late: LateCopies::none(),
            expected: None,
            cycle: Cycle::none(),
            silence: Silence::none(),
            misses: false,
            busy: false,
            failing: None,
        }
    }

    /// Ports that are looked at without sleeping between two looks: a processor does nothing else then.
    pub fn busily(self) -> RemotePorts<C, T>
        ensures { result ≡ self }
    {
        let mut ports = self;
        ports.busy = true;
        ports
    }

    /// With the counters that are expected of all datagrams of a cycle, in the order of its frames. In a
    /// cycle a frame takes as many of them as it has datagrams; where fewer are left, nothing is expected of
    /// it.
    pub fn expecting(self, counters: Vec<u16>) -> RemotePorts<C, T>
        ensures { result ≡ self }
    {
        let mut ports = self;
        ports.expected = Some(counters);
        ports
    }

    /// What carries the packets.
    pub fn carrier(&self) -> &C
        ensures { result.now ≡ self.now.carrier }
    {
        &self.carrier
    }

    /// What the ports tell the time by.
    pub fn timer(&self) -> &T {
        &self.timer
    }

    /// Notes a packet that was passed over: it may be a copy of an earlier trip, or another master's frame.
    fn pass_over(&mut self, told: &Told)
        ensures { self.new ≡ self.old }
    {
        let late = self.late;
        self.late = match told.number {
            Some(number) => match late_trip(self.next, self.made, number) {
                Some(trip) => late.with(trip),
                None if is_stranger(self.next, self.made, number) => late.with_stranger(),
                None => late,
            },
            None if told.is_frame => late.with_stranger(),
            None => late,
        };
    }

    /// Sends both copies, from port A first.
    fn send_copies(&mut self, out: &Outgoing) -> Result<(), PortFault>
        ensures counted { IsErr result → C.failed self.old.carrier < C.failed self.new.carrier }
        ensures never_lower { C.failed self.old.carrier ≤ C.failed self.new.carrier }
        ensures heard_on { C.heard self.old.carrier ≤ C.heard self.new.carrier }
        ensures rest { self.new ≡ record self.old { carrier = self.new.carrier } }
    {
        self.carrier.send(Port::A, out.a.bytes())?;
        self.carrier.send(Port::B, out.b.bytes())
    }

    /// Sends both copies. In a cycle a trip goes on that failed to send, with its copies missing, unless all
    /// did for a second.
    fn send_or_miss(&mut self, out: &Outgoing, cycle: Cycle) -> Result<(), PortFault>
        ensures counted { IsErr result → C.failed self.old.carrier < C.failed self.new.carrier }
        ensures never_lower { C.failed self.old.carrier ≤ C.failed self.new.carrier }
        ensures heard_on { C.heard self.old.carrier ≤ C.heard self.new.carrier }
        ensures rest { self.new ≡ record self.old { carrier = self.new.carrier } }
    {
        let sent = self.send_copies(out);
        if sent.is_err() && self.is_patient(cycle) {
            return Ok(());
        }
        if sent.is_ok() {
            self.failing = None;
        }
        sent
    }

    /// Is a trip to go on that failed to send?
    fn is_patient(&mut self, cycle: Cycle) -> bool
        ensures { self.new ≡ self.old }
    {
        let now = self.timer.now();
        let since = self.failing.unwrap_or(now);
        self.failing = Some(since);
        cycle.gone.is_some() && now.saturating_sub(since) < PATIENCE
    }

    /// Passes over what waits at both ports where a copy of the last trip has not come yet: one that came
    /// before the next frame goes out has passed no slave behind that.
    fn pass_over_waiting(&mut self, out: &Outgoing) -> Result<(), PortFault>
        ensures counted { IsErr result → C.failed self.old.carrier < C.failed self.new.carrier }
        ensures never_lower { C.failed self.old.carrier ≤ C.failed self.new.carrier }
        ensures heard_on { C.heard self.old.carrier ≤ C.heard self.new.carrier }
        ensures rest { self.new ≡ record self.old { carrier = self.new.carrier } }
    {
        if !self.misses {
            return Ok(());
        }
        self.misses = false;
        self.pass_over_at(Port::A, out)?;
        self.pass_over_at(Port::B, out)
    }

    /// Passes over what waits at a port, before copies go out.
    fn pass_over_at(&mut self, at: Port, out: &Outgoing) -> Result<(), PortFault>
        ensures counted { IsErr result → C.failed self.old.carrier < C.failed self.new.carrier }
        ensures never_lower { C.failed self.old.carrier ≤ C.failed self.new.carrier }
        ensures heard_on { C.heard self.old.carrier ≤ C.heard self.new.carrier }
        ensures rest { self.new ≡ record self.old { carrier = self.new.carrier } }
    {
        for _passed in 0..MOST_WAITING {
            let given = self.receive_packet(at, out, None)?;
            if !given.came {
                break;
            }
        }
        Ok(())
    }

    /// Receives the copies of a frame that were just sent, of which these counters are expected, or none.
    /// What is expected is given back.
    fn receive_expected(
        &mut self,
        out: &Outgoing,
        cycle: Cycle,
        count: usize,
    ) -> Result<Both, PortFault>
        ensures taken { IfOk result (λ both. (trip : ℕ) (sent : List DatagramRecord)
            → AreNumbered trip sent out.now
            → AreBoth C.gives C.heard (C.heard self.old.carrier) trip sent both self.new.carrier) }
        ensures counted { IsErr result → C.failed self.old.carrier < C.failed self.new.carrier }
        ensures never_lower { C.failed self.old.carrier ≤ C.failed self.new.carrier }
        ensures rest { self.new ≡ record self.old { carrier = self.new.carrier } }
    {
        let sent_at = self.timer.now();
        let until = cycle.until(self.limit, sent_at);
        let counters = self.expected.take();
        let expected = counters_in(&counters, cycle, count);
        let awaited = self.awaited(cycle);
        let received = self.receive_copies(out, expected, awaited, sent_at, until);
        self.expected = counters;
        let Received { both, end } = received?;
        self.misses = end == End::Enough || end == End::Time;
        Ok(both)
    }

    /// At which ports a copy is awaited: at those that speak with an end of the line, and of what is no frame
    /// of a cycle not at one at which nothing comes any more while something comes at the other one.
    fn awaited(&self, cycle: Cycle) -> Awaited
        ensures in_cycle { is_some cycle.gone ≡ true
            → (at : Port) → awaits result at ≡ C.speaks self.now.carrier at }
    {
        let (is_long_a, is_long_b) = (self.silence.is_long(Port::A), self.silence.is_long(Port::B));
        let between = cycle.gone.is_none() && is_long_a != is_long_b;
        Awaited {
            a: self.carrier.speaks(Port::A) && !(between && is_long_a),
            b: self.carrier.speaks(Port::B) && !(between && is_long_b),
        }
    }

    /// Receives at both ports, each of another copy, until nothing is gained by waiting, and says how that
    /// ended. What waits at a port still when the time is over is taken.
    fn receive_copies(
        &mut self,
        out: &Outgoing,
        expected: &[u16],
        awaited: Awaited,
        sent_at: u64,
        until: u64,
    ) -> Result<Received, PortFault>
        ensures taken { IfOk result (λ received. (trip : ℕ) (sent : List DatagramRecord)
            → AreNumbered trip sent out.now
            → AreBoth C.gives C.heard (C.heard self.old.carrier) trip sent received.both self.new.carrier) }
        ensures all { IfOk result (λ received. received.end ≡ End.All → have_come received.both ≡ true) }
        ensures alone { IfOk result (λ received. received.end ≡ End.Alone
            → have_come_at (awaits awaited) received.both ≡ true) }
        ensures enough { IfOk result (λ received. received.end ≡ End.Enough
            → IsEnough expected.now received.both) }
        ensures counted { IsErr result → C.failed self.old.carrier < C.failed self.new.carrier }
        ensures never_lower { C.failed self.old.carrier ≤ C.failed self.new.carrier }
        ensures heard_on { C.heard self.old.carrier ≤ C.heard self.new.carrier }
        ensures rest { self.new ≡ record self.old { carrier = self.new.carrier } }
    {
        let waited = self.wait_for_copies(out, expected, awaited, sent_at, until)?;
        let both = self.look_again(out, waited.both)?;
        let end = end_of(&both, awaited, waited.enough);
        Ok(Received { both, end })
    }

    /// Receives at both ports until each copy has come that is awaited, or one of both alone with each
    /// counter that is expected and the other one has had its time, or the time is over.
    fn wait_for_copies(
        &mut self,
        out: &Outgoing,
        expected: &[u16],
        awaited: Awaited,
        sent_at: u64,
        until: u64,
    ) -> Result<Waited, PortFault>
        ensures taken { IfOk result (λ waited. (trip : ℕ) (sent : List DatagramRecord)
            → AreNumbered trip sent out.now
            → AreSoFar C.gives C.heard (C.heard self.old.carrier) trip sent waited.both self.new.carrier) }
        ensures enough { IfOk result (λ waited. waited.enough ≡ true
            → (have_come waited.both ≡ true) ⊎ IsEnough expected.now waited.both) }
        ensures counted { IsErr result → C.failed self.old.carrier < C.failed self.new.carrier }
        ensures never_lower { C.failed self.old.carrier ≤ C.failed self.new.carrier }
        ensures heard_on { C.heard self.old.carrier ≤ C.heard self.new.carrier }
        ensures rest { self.new ≡ record self.old { carrier = self.new.carrier } }
    {
        let mut both = Both { a: None, b: None };
        let mut span = Span {
            sent_at,
            until,
            enough: false,
        };
        for _turn in 0..most_turns(until.saturating_sub(sent_at)) {
            if have_come_at(&both, awaited) {
                break;
            }
            let left = span.until.saturating_sub(self.timer.now());
            if left == 0 {
                break;
            }
            let ready = self.wait(left);
            both = self.receive_ready(ready, out, both)?;
            span = self.shortened(span, &both, expected);
        }
        Ok(Waited {
            both,
            enough: span.enough,
        })
    }

    /// Waits until a packet may be at a port, so many microseconds at the most.
    fn wait(&self, left: u64) -> Ready {
        if self.busy {
            Ready::both()
        } else {
            self.carrier.wait(left)
        }
    }

    /// The time for which it is waited on: less, where what came is enough.
    fn shortened(&mut self, span: Span, both: &Both, expected: &[u16]) -> Span
        ensures enough { result.enough ≡ true → (span.enough ≡ true) ⊎ IsEnough expected.now both.now }
        ensures whole { result.enough ≡ false → result ≡ span }
        ensures same { self.new ≡ self.old }
    {
        if span.enough || !is_enough(both, expected) {
            return span;
        }
        let missing = if both.a.is_none() { Port::A } else { Port::B };
        let now = self.timer.now();
        let until = again(self.least(missing, span), span.sent_at, now).min(span.until);
        if !self.silence.is_long(missing) {
            pass_until(&mut self.timer, until.min(now.saturating_add(CLOSE)));
        }
        Span {
            sent_at: span.sent_at,
            until,
            enough: true,
        }
    }

    /// For how many microseconds at least the copy at a port is waited for behind the other one, in a trip
    /// that waits for so long.
    fn least(&self, missing: Port, span: Span) -> u64 {
        let floor = self.silence.halved(missing, FLOOR);
        floor.min(span.until.saturating_sub(span.sent_at) / FLOOR_PART)
    }

    /// Receives a packet at each port that may have one. A copy that came stays.
    fn receive_ready(&mut self, ready: Ready, out: &Outgoing, both: Both) -> Result<Both, PortFault>
        ensures taken { IfOk result (λ later. (since trip : ℕ) (sent : List DatagramRecord)
            → AreNumbered trip sent out.now → since ≤ C.heard self.old.carrier
            → AreSoFar C.gives C.heard since trip sent both self.old.carrier
            → AreSoFar C.gives C.heard since trip sent later self.new.carrier) }
        ensures kept { IfOk result (λ later. Keeps both later) }
        ensures counted { IsErr result → C.failed self.old.carrier < C.failed self.new.carrier }
        ensures never_lower { C.failed self.old.carrier ≤ C.failed self.new.carrier }
        ensures heard_on { C.heard self.old.carrier ≤ C.heard self.new.carrier }
        ensures rest { self.new ≡ record self.old { carrier = self.new.carrier } }
    {
        let from_b = sent_from(&both.b);
        let a = self.receive_at(Port::A, ready.a, out, both.a, from_b)?;
        let from_a = sent_from(&a);
        let b = self.receive_at(Port::B, ready.b, out, both.b, from_a)?;
        Ok(Both { a, b })
    }

    /// The copy that came at a port; where none did, what a packet is that may wait there, if it is another
    /// copy than the one at the other port.
    fn receive_at(
        &mut self,
        at: Port,
        ready: bool,
        out: &Outgoing,
        copy: Option<NumberedCopy>,
        other: Option<Port>,
    ) -> Result<Option<NumberedCopy>, PortFault>
        ensures taken { copy ≡ None → IfOk result (λ later. (trip : ℕ) (sent : List DatagramRecord)
            → AreNumbered trip sent out.now → IfSome later (λ found.
            IsTaken C.gives C.heard (C.heard self.old.carrier) at (sought trip sent other) (Some found)
            self.new.carrier)) }
        ensures kept { IfSome copy (λ came. IfOk result (λ later. later ≡ Some came)) }
        ensures counted { IsErr result → C.failed self.old.carrier < C.failed self.new.carrier }
        ensures never_lower { C.failed self.old.carrier ≤ C.failed self.new.carrier }
        ensures heard_on { C.heard self.old.carrier ≤ C.heard self.new.carrier }
        ensures rest { self.new ≡ record self.old { carrier = self.new.carrier } }
    {
        if !ready {
            return Ok(copy);
        }
        let given = self.receive_packet(at, out, other)?;
        match copy {
            Some(copy) => Ok(Some(copy)),
            None => Ok(given.copy),
        }
    }

    /// Looks at each port at which no copy came whether one waits there.
    fn look_again(&mut self, out: &Outgoing, both: Both) -> Result<Both, PortFault>
        ensures taken { IfOk result (λ later. (since trip : ℕ) (sent : List DatagramRecord)
            → AreNumbered trip sent out.now → since ≤ C.heard self.old.carrier
            → AreSoFar C.gives C.heard since trip sent both self.old.carrier
            → AreBoth C.gives C.heard since trip sent later self.new.carrier) }
        ensures kept { IfOk result (λ later. Keeps both later) }
        ensures counted { IsErr result → C.failed self.old.carrier < C.failed self.new.carrier }
        ensures never_lower { C.failed self.old.carrier ≤ C.failed self.new.carrier }
        ensures heard_on { C.heard self.old.carrier ≤ C.heard self.new.carrier }
        ensures rest { self.new ≡ record self.old { carrier = self.new.carrier } }
    {
        let from_b = sent_from(&both.b);
        let a = self.look_at(Port::A, out, both.a, from_b)?;
        let from_a = sent_from(&a);
        let b = self.look_at(Port::B, out, both.b, from_a)?;
        Ok(Both { a, b })
    }

    /// The copy that came at a port; where none did, the one that waits there, if one does.
    fn look_at(
        &mut self,
        at: Port,
        out: &Outgoing,
        copy: Option<NumberedCopy>,
        other: Option<Port>,
    ) -> Result<Option<NumberedCopy>, PortFault>
        ensures taken { copy ≡ None → IfOk result (λ later. (trip : ℕ) (sent : List DatagramRecord)
            → AreNumbered trip sent out.now
            → IsTaken C.gives C.heard (C.heard self.old.carrier) at (sought trip sent other) later
            self.new.carrier) }
        ensures kept { IfSome copy (λ came. IfOk result (λ later. later ≡ Some came)) }
        ensures counted { IsErr result → C.failed self.old.carrier < C.failed self.new.carrier }
        ensures never_lower { C.failed self.old.carrier ≤ C.failed self.new.carrier }
        ensures heard_on { C.heard self.old.carrier ≤ C.heard self.new.carrier }
        ensures rest { self.new ≡ record self.old { carrier = self.new.carrier } }
    {
        match copy {
            Some(copy) => Ok(Some(copy)),
            None => self.receive_copy(at, out, other),
        }
    }

    /// Receives what waits at a port until it is a copy that was not taken already. Whatever else waits there
    /// is passed over.
    fn receive_copy(
        &mut self,
        at: Port,
        out: &Outgoing,
        already: Option<Port>,
    ) -> Result<Option<NumberedCopy>, PortFault>
        ensures taken { IfOk result (λ copy. (trip : ℕ) (sent : List DatagramRecord)
            → AreNumbered trip sent out.now
            → IsTaken C.gives C.heard (C.heard self.old.carrier) at (sought trip sent already) copy
            self.new.carrier) }
        ensures counted { IsErr result → C.failed self.old.carrier < C.failed self.new.carrier }
        ensures never_lower { C.failed self.old.carrier ≤ C.failed self.new.carrier }
        ensures heard_on { C.heard self.old.carrier ≤ C.heard self.new.carrier }
        ensures rest { self.new ≡ record self.old { carrier = self.new.carrier } }
    {
        for _passed in 1..MOST_WAITING {
            let given = self.receive_packet(at, out, already)?;
            if given.copy.is_some() || !given.came {
                return Ok(given.copy);
            }
        }
        let given = self.receive_packet(at, out, already)?;
        Ok(given.copy)
    }

    /// Receives a packet at a port, if one waits there.
    fn receive_packet(
        &mut self,
        at: Port,
        out: &Outgoing,
        already: Option<Port>,
    ) -> Result<Given, PortFault>
        ensures taken { IfOk result (λ given. (trip : ℕ) (sent : List DatagramRecord)
            → AreNumbered trip sent out.now
            → IsTaken C.gives C.heard (C.heard self.old.carrier) at (sought trip sent already) given.copy
            self.new.carrier) }
        ensures counted { IsErr result → C.failed self.old.carrier < C.failed self.new.carrier }
        ensures never_lower { C.failed self.old.carrier ≤ C.failed self.new.carrier }
        ensures heard_on { C.heard self.old.carrier ≤ C.heard self.new.carrier }
        ensures rest { self.new ≡ record self.old { carrier = self.new.carrier } }
    {
        let mut packet = [0; PACKET_ROOM];
        match self.carrier.receive(at, &mut packet, 0)? {
            Some(count) => {
                let told = told_by(out, already, &packet[..count]);
                if told.copy.is_none() {
                    self.pass_over(&told);
                }
                self.silence = self.silence.ended(at);
                Ok(Given {
                    copy: told.copy,
                    came: true,
                })
            }
            None => Ok(Given {
                copy: None,
                came: false,
            }),
        }
    }
}

/// How many turns the waiting of a trip takes at the most that has so many microseconds.
fn most_turns(micros: u64) -> u64 {
    micros.saturating_mul(TURNS).saturating_add(MORE_TURNS)
}

/// How the waiting has ended, in which this came at last.
fn end_of(both: &Both, awaited: Awaited, enough: bool) -> End
    ensures all { result ≡ End.All → have_come both.now ≡ true }
    ensures alone { result ≡ End.Alone → have_come_at (awaits awaited) both.now ≡ true }
    ensures enough { result ≡ End.Enough → (enough ≡ true) × (have_come both.now ≡ false) }
{
    if have_come(both) {
        return End::All;
    }
    if have_come_at(both, awaited) {
        return End::Alone;
    }
    if enough { End::Enough } else { End::Time }
}

/// The counters that are expected of the next frame of a cycle, which has so many datagrams; none where fewer
/// are left, or none are expected.
fn counters_in(expected: &Option<Vec<u16>>, cycle: Cycle, count: usize) -> &[u16]
    ensures { result.now ≡ next_counters (option_map (λ v. v.items) expected.now) cycle.gone count }
{
    let (Some(counters), Some(gone)) = (expected, cycle.gone) else {
        return &[];
    };
    match counters.get(gone..) {
        Some(left) if count <= left.len() => &left[..count],
        _ => &[],
    }
}

/// The port from which a copy was sent.
fn sent_from(copy: &Option<NumberedCopy>) -> Option<Port>
    ensures { result ≡ sent_from copy.now }
{
    match copy {
        Some(copy) => Some(copy.from),
        None => None,
    }
}

/// What came, with the numbers taken off.
fn opened_came(both: Both) -> Came
    requires a { IfSome both.a (λ copy. 1 < length copy.frame) }
    requires b { IfSome both.b (λ copy. 1 < length copy.frame) }
    ensures { result ≡ opened_came both }
{
    Came {
        a: opened_if(both.a),
        b: opened_if(both.b),
    }
}

/// A copy with its number taken off, if one came.
fn opened_if(copy: Option<NumberedCopy>) -> Option<FrameBuf>
    requires { IfSome copy (λ copy. 1 < length copy.frame) }
    ensures { result ≡ option_map opened_copy copy }
{
    match copy {
        Some(copy) => Some(opened(copy)),
        None => None,
    }
}

impl<C: Carrier, T: Timer> Ports for RemotePorts<C, T> {
    ghost trips = { RemoteTrips C.gives C.heard };

    ghost failed = { λ ports. C.failed ports.carrier };

    /// Sends a copy from each port, each under a number of its own, and receives at both what comes back in
    /// time: a packet is a copy exactly where it spells a frame that came of one of them, and each is taken
    /// once. The first call of the carrier that fails is the last.
    fn trip(&mut self, sent: &FrameBuf) -> Result<Came, PortFault> {
        let count = sent.count();
        let cycle = self.cycle;
        self.cycle = cycle.behind(count);
        let Some(out) = number_both(sent, self.next) else {
            return Ok(Came { a: None, b: None });
        };
        let waiting = self.pass_over_waiting(&out);
        self.next = self.next.next();
        self.made = self.made.saturating_add(1);
        self.misses = true;
        waiting?;
        self.send_or_miss(&out, cycle)?;
        let both = self.receive_expected(&out, cycle, count)?;
        Ok(opened_came(both))
    }

    fn failures(&self) -> u64 {
        self.carrier.failures()
    }
}

/// Where a copy arrived is known: at the port where it was received.
impl<C: Carrier, T: Timer> HeardPorts for RemotePorts<C, T> {
    ghost trips = { HeardTrips C.gives C.heard };

    ghost failed = { λ ports. C.failed ports.carrier };

    fn trip_heard(&mut self, sent: &FrameBuf) -> Result<Arrivals, PortFault> {
        let came = self.trip(sent)?;
        Ok(arrivals_of(came))
    }

    fn failures(&self) -> u64 {
        self.carrier.failures()
    }

    fn begin_cycle(&mut self, left: Option<u64>) {
        let deadline = match left {
            Some(left) => Some(Deadline::after(self.timer.now(), left)),
            None => None,
        };
        self.cycle = Cycle::begun(deadline);
        self.silence = self.silence.in_next();
    }

    fn end_cycle(&mut self) {
        self.cycle = self.cycle.over();
    }

    fn trips_made(&self) -> u64 {
        self.made
    }

    fn take_late(&mut self) -> LateCopies {
        let late = self.late;
        self.late = LateCopies::none();
        late
    }

    fn health(&self, at: Port) -> PortHealth {
        self.carrier.health(at)
    }
}

/// The copies, as those that arrived at the port where each was received.
fn arrivals_of(came: Came) -> Arrivals
    ensures { result ≡ arrivals_of came }
{
    Arrivals {
        a: Arrival::at_port(came.a, Port::A),
        b: Arrival::at_port(came.b, Port::B),
    }
}
