//! Ports that fail, and that work again.

ghost use Rattle.std.specs.Prelude.{⊤, ◌≡◌, ◌≤◌, ◌<◌, IsErr, true};

use super::script::Wound;
use super::{LIMIT, NUMBERED, SENT};
use crate::asserts::assert_same;
use ec_master::Ports;
use ec_number::Trip;
use ec_ring::{HeardPorts, Port, PortFault, PortHealth};
use ec_wire::{Form, FrameBuf, PACKET_ROOM};
use ecat_remote::{Carrier, Ready, RemotePorts, SteadyCarrier};
use std::process::Abort;

/// The system's number of "Network is down" (Linux, `ENETDOWN`).
const NETWORK_IS_DOWN: i32 = 100;

/// A carrier whose ports fail or not, at each of which one packet comes again and again.
#[derive(Drop)]
struct Cut {
    /// Whether port A fails, and port B.
    fails: [bool; 2],
    /// Behind how many sends both fail; never where it is 0.
    breaks_behind: usize,
    sends: usize,
    /// Whether receives fail too.
    receives_fail: bool,
    failures: u64,
    health: [PortHealth; 2],
}

/// A carrier of which these ports fail.
fn failing_at(fails: [bool; 2]) -> Cut {
    Cut {
        fails,
        breaks_behind: 0,
        sends: 0,
        receives_fail: false,
        failures: 0,
        health: [PortHealth::sound(); 2],
    }
}

/// The place of what belongs to a port.
fn place_of(port: Port) -> usize
    ensures { result < 2 }
{
    match port {
        Port::A => 0,
        Port::B => 1,
    }
}

impl Cut {
    /// Fails, if the port does.
    fn call(&mut self, at: Port) -> Result<(), PortFault>
        ensures counted { IsErr result → self.old.failures < self.new.failures }
        ensures never_lower { self.old.failures ≤ self.new.failures }
    {
        let place = place_of(at);
        if !self.fails[place] || self.failures == u64::MAX {
            self.health[place] = self.health[place].working();
            return Ok(());
        }
        self.failures += 1;
        self.health[place] = self.health[place].failing(NETWORK_IS_DOWN);
        Err(PortFault)
    }
}

impl Carrier for Cut {
    ghost failed = { λ cut. cut.failures };

    ghost gives = { λ before at packet later. ⊤ };

    ghost heard = { λ cut. 0 };

    ghost speaks = { λ cut at. true };

    fn speaks(&self, _at: Port) -> bool {
        true
    }

    fn send(&mut self, from: Port, _bytes: &[u8]) -> Result<(), PortFault> {
        if self.breaks_behind != 0 && self.sends == self.breaks_behind {
            self.fails = [true, true];
        }
        self.sends = self.sends.saturating_add(1);
        self.call(from)
    }

    fn wait(&self, _within: u64) -> Ready {
        Ready::both()
    }

    fn receive(
        &mut self,
        at: Port,
        into: &mut [u8; PACKET_ROOM],
        _within: u64,
    ) -> Result<Option<usize>, PortFault> {
        if self.receives_fail {
            self.call(at)?;
        }
        into[..35].copy_from_slice(&NUMBERED);
        into[13] = 1;
        Ok(if self.fails[place_of(at)] {
            None
        } else {
            Some(35)
        })
    }

    fn failures(&self) -> u64 {
        self.failures
    }

    fn health(&self, at: Port) -> PortHealth {
        self.health[place_of(at)]
    }
}

/// That carrier, as one that goes on where a port fails.
fn steady(fails: [bool; 2]) -> SteadyCarrier<Cut> {
    SteadyCarrier::new(failing_at(fails))
}

/// Asserts what the sends from port A and from port B come to, and which ports speak behind them.
fn assert_sends(
    rt: &impl Abort,
    carrier: &mut SteadyCarrier<Cut>,
    sends: [Result<(), PortFault>; 2],
    speaks: [bool; 2],
) {
    let a = carrier.send(Port::A, &NUMBERED);
    let b = carrier.send(Port::B, &NUMBERED);
    assert_same(rt, [a, b], sends);
    assert_same(
        rt,
        [carrier.speaks(Port::A), carrier.speaks(Port::B)],
        speaks,
    );
}

/// Neither fails.
const SENT_BOTH: [Result<(), PortFault>; 2] = [Ok(()), Ok(())];

#[test]
fn a_packet_is_lost_at_a_port_that_fails(rt: HostRuntime) {
    let mut carrier = steady([false, true]);
    assert_sends(&rt, &mut carrier, SENT_BOTH, [true, false]);
    assert_same(&rt, carrier.health(Port::A), PortHealth::sound());
    let failed = PortHealth {
        error: Some(NETWORK_IS_DOWN),
        failures: 1,
    };
    assert_same(&rt, carrier.health(Port::B), failed);
    let mut carrier = steady([true, false]);
    assert_sends(&rt, &mut carrier, SENT_BOTH, [false, true]);
}

#[test]
fn a_send_fails_where_each_port_does(rt: HostRuntime) {
    let mut carrier = steady([true, true]);
    assert_sends(&rt, &mut carrier, [Ok(()), Err(PortFault)], [false, false]);
}

#[test]
fn ports_that_fail_are_tried_by_each_send(rt: HostRuntime) {
    let mut working = failing_at([false, false]);
    working.breaks_behind = 2;
    let mut carrier = SteadyCarrier::new(working);
    assert_sends(&rt, &mut carrier, SENT_BOTH, [true, true]);
    assert_sends(&rt, &mut carrier, [Ok(()), Err(PortFault)], [false, false]);
    assert_sends(&rt, &mut carrier, [Ok(()), Err(PortFault)], [false, false]);
}

#[test]
fn a_receive_that_fails_gives_nothing(rt: HostRuntime) {
    let mut failing = failing_at([false, true]);
    failing.receives_fail = true;
    let mut carrier = SteadyCarrier::new(failing);
    let mut room = [0; PACKET_ROOM];
    assert_same(&rt, carrier.receive(Port::B, &mut room, 0), Ok(None));
    assert_same(
        &rt,
        [carrier.speaks(Port::A), carrier.speaks(Port::B)],
        [true, false],
    );
}

/// Ports over such a carrier; so many microseconds pass before each look at the time.
fn ports_at(fails: [bool; 2], step: u64) -> RemotePorts<SteadyCarrier<Cut>, Wound> {
    RemotePorts::new(steady(fails), Wound { now: 0, step }, LIMIT, Trip::of(0))
}

/// Which copies a trip brings; none where it failed.
fn copies(
    rt: &impl Abort,
    ports: &mut RemotePorts<SteadyCarrier<Cut>, Wound>,
) -> Option<[bool; 2]> {
    let sent = FrameBuf::read(&SENT, Form::Udp).ok().expect(rt, "a frame");
    match ports.trip(&sent) {
        Ok(came) => Some([came.a.is_some(), came.b.is_some()]),
        Err(_) => None,
    }
}

#[test]
fn a_trip_waits_at_the_port_that_works_alone(rt: HostRuntime) {
    let mut ports = ports_at([false, true], 10);
    assert_same(&rt, copies(&rt, &mut ports), Some([true, false]));
    let failed = PortHealth {
        error: Some(NETWORK_IS_DOWN),
        failures: 1,
    };
    assert_same(&rt, HeardPorts::health(&ports, Port::B), failed);
}

#[test]
fn a_trip_that_is_none_of_a_cycle_fails_where_each_port_does(rt: HostRuntime) {
    let mut ports = ports_at([true, true], 10);
    assert_same(&rt, copies(&rt, &mut ports), None);
}

#[test]
fn a_trip_of_a_cycle_fails_once_each_port_did_for_a_second(rt: HostRuntime) {
    // each trip looks at the time three times: as it fails to send, and when it begins to wait and ends
    let mut ports = ports_at([true, true], 200_000);
    ports.begin_cycle(None);
    assert_same(&rt, copies(&rt, &mut ports), Some([false, false]));
    assert_same(&rt, copies(&rt, &mut ports), Some([false, false]));
    for _trip in 0..5 {
        let _ = copies(&rt, &mut ports);
    }
    assert_same(&rt, copies(&rt, &mut ports), None);
}
