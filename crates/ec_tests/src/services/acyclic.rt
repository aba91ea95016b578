//! Services of a slave turn by turn, and the use on the page of `ec_acyclic`.

ghost use Rattle.std.specs.Prelude.{◌≡◌};
ghost use Rattle.ec_acyclic.specs.Next.{IsPeerOf};

use crate::asserts::assert_same;
use crate::services::line::slave;
use crate::services::peer::peer;
use crate::services::storm::{KINDS, NONE, Storm};
use ec_acyclic::{Answer, Service, Talk, Turn};
use ec_app::{Objects, Rights, Value};
use ec_regs::AlState;
use ec_services::{MasterFault, Peer};
use std::alloc::Global;
use std::process::Abort;

/// The station address of the slave.
const STATION: u16 = 0x1001;

/// No trouble at all.
const CALM: [usize; 3] = [NONE, NONE, NONE];

/// Trips that are enough with one trouble.
const ENOUGH: u32 = 24;

/// The most turns that a test takes.
const MOST_TURNS: u32 = 100;

/// The identity's vendor, which may be read alone.
const VENDOR: Service = Service::Read {
    index: 0x1018,
    sub: 1,
};

/// A setting, which may be read and written.
const SETTING: Service = Service::Read {
    index: 0x2000,
    sub: 0,
};

/// That a value is written to the setting.
fn set(value: Value) -> Service {
    Service::Write {
        index: 0x2000,
        sub: 0,
        value,
    }
}

/// The ports of a ring of one slave in Pre-Op with these two objects.
fn storm(rt: &impl Abort, alloc: Global) -> Storm {
    let mut objects = Objects::new();
    let vendor = objects.add(0x1018, 1, Rights::ReadOnly, Value::Four(2));
    assert_eq!(rt; vendor, Ok(()));
    let setting = objects.add(0x2000, 0, Rights::Both, Value::Two(0));
    assert_eq!(rt; setting, Ok(()));
    Storm::new(rt, alloc, slave(rt, alloc, AlState::PreOp, objects), CALM)
}

/// The peer that the calls require.
fn its_peer(rt: &impl Abort) -> Peer
    ensures { IsPeerOf STATION result }
{
    let peer = peer();
    assert!(rt; peer.station == STATION);
    assert!(rt; 1 <= peer.counter && peer.counter <= 7);
    assert!(rt; 16 <= peer.to.length && peer.to.length <= 1486);
    assert!(rt; 16 <= peer.from.length && peer.from.length <= 1486);
    peer
}

/// A service of the slave, by so many trips at the most.
fn talk(rt: &impl Abort, service: Service, trips: u32) -> Talk {
    Talk::begun(service, STATION, Some(its_peer(rt)), trips)
}

/// Takes turn after turn until the service has ended, each of which makes one trip or ends without one.
fn ends(rt: &impl Abort, ports: &mut Storm, talk: Talk) -> Result<Answer, MasterFault> {
    let mut talk = talk;
    for turn in 0..MOST_TURNS {
        assert!(rt; ports.trips == turn as usize);
        match talk.turn(ports) {
            Turn::Goes(next) => talk = next,
            Turn::Ended(answer) => return answer,
        }
    }
    Err(MasterFault::Broken)
}

/// What a service comes to with this trouble.
fn comes_to(
    rt: &impl Abort,
    ports: &mut Storm,
    service: Service,
    trouble: usize,
) -> Result<Answer, MasterFault> {
    ports.begin([trouble, NONE, NONE]);
    let talk = talk(rt, service, ENOUGH);
    ends(rt, ports, talk)
}

/// What the slave's object 0x2000 holds.
fn setting(ports: &Storm) -> Option<Value> {
    let slave = ports.ring().slaves().first()?;
    Some(slave.objects().get(0x2000, 0)?.1)
}

/// In which state the slave is, and whether an error stands.
fn al(ports: &Storm) -> Option<(AlState, bool)> {
    let slave = ports.ring().slaves().first()?;
    let (status, _code) = slave.controller().al();
    Some((status.state, status.error))
}

#[test]
fn an_object_is_read_turn_by_turn(rt: HostRuntime) {
    let mut ports = storm(&rt, rt.alloc());
    let mut talk = talk(&rt, VENDOR, 64);
    let mut answer = Err(MasterFault::NoAnswer);
    for _cycle in 0..MOST_TURNS {
        match talk.turn(&mut ports) {
            Turn::Goes(next) => talk = next,
            Turn::Ended(told) => {
                answer = told;
                break;
            }
        }
    }
    assert_same(&rt, answer, Ok(Answer::Value(Value::Four(2))));
    assert_same(&rt, ports.trips, 4);
}

#[test]
fn an_object_is_written_and_one_that_may_not_be_is_not(rt: HostRuntime) {
    let mut ports = storm(&rt, rt.alloc());
    let written = comes_to(&rt, &mut ports, set(Value::Two(5)), NONE);
    assert_same(&rt, written, Ok(Answer::Written));
    assert_same(&rt, setting(&ports), Some(Value::Two(5)));
    let vendor = Service::Write {
        index: 0x1018,
        sub: 1,
        value: Value::Four(3),
    };
    let refused = comes_to(&rt, &mut ports, vendor, NONE);
    assert_same(&rt, refused, Err(MasterFault::Abort(0x0601_0002)));
}

#[test]
fn a_slave_comes_to_the_state_that_it_is_asked_for(rt: HostRuntime) {
    let mut ports = storm(&rt, rt.alloc());
    let state = Service::State(AlState::SafeOp);
    let there = comes_to(&rt, &mut ports, state, NONE);
    assert_same(&rt, there, Ok(Answer::In(AlState::SafeOp)));
    assert_same(&rt, al(&ports), Some((AlState::SafeOp, false)));
    assert_same(&rt, ports.trips, 2);
}

#[test]
fn a_refused_state_is_told_with_its_code_and_is_acknowledged(rt: HostRuntime) {
    let mut ports = storm(&rt, rt.alloc());
    let refused = comes_to(&rt, &mut ports, Service::State(AlState::Op), NONE);
    assert_same(&rt, refused, Err(MasterFault::Refused(0x0011)));
    assert_same(&rt, al(&ports), Some((AlState::PreOp, true)));
    let cleared = comes_to(&rt, &mut ports, Service::Acknowledge, NONE);
    assert_same(&rt, cleared, Ok(Answer::In(AlState::PreOp)));
    assert_same(&rt, al(&ports), Some((AlState::PreOp, false)));
    assert_same(&rt, ports.trips, 3);
}

/// With this trouble an object is written and read, a state is reached, and an error is acknowledged.
fn goes_well(rt: &impl Abort, alloc: Global, trouble: usize) {
    let mut ports = storm(rt, alloc);
    let written = comes_to(rt, &mut ports, set(Value::Two(7)), trouble);
    assert_same(rt, written, Ok(Answer::Written));
    let read = comes_to(rt, &mut ports, SETTING, trouble);
    assert_same(rt, read, Ok(Answer::Value(Value::Two(7))));
    let _refused = comes_to(rt, &mut ports, Service::State(AlState::Op), NONE);
    let cleared = comes_to(rt, &mut ports, Service::Acknowledge, trouble);
    assert_same(rt, cleared, Ok(Answer::In(AlState::PreOp)));
    let there = comes_to(rt, &mut ports, Service::State(AlState::Init), trouble);
    assert_same(rt, there, Ok(Answer::In(AlState::Init)));
}

#[test]
fn a_copy_that_is_lost_is_asked_for_again(rt: HostRuntime) {
    for trip in 0..6 {
        goes_well(&rt, rt.alloc(), trip * KINDS);
        goes_well(&rt, rt.alloc(), trip * KINDS + 1);
        goes_well(&rt, rt.alloc(), trip * KINDS + 2);
    }
}

#[test]
fn a_slave_that_is_not_there_is_asked_ten_times(rt: HostRuntime) {
    let mut ports = storm(&rt, rt.alloc());
    let nobody = Talk::begun(Service::State(AlState::Init), 0x1002, None, ENOUGH);
    let told = ends(&rt, &mut ports, nobody);
    assert_same(&rt, told, Err(MasterFault::NoSlave));
    assert_same(&rt, ports.trips, 10);
}

#[test]
fn a_slave_without_mailboxes_is_asked_for_no_object(rt: HostRuntime) {
    let mut ports = storm(&rt, rt.alloc());
    let read = Talk::begun(VENDOR, STATION, None, ENOUGH);
    let told = ends(&rt, &mut ports, read);
    assert_same(&rt, told, Err(MasterFault::NoSlave));
    let written = Talk::begun(set(Value::Two(1)), STATION, None, ENOUGH);
    let told = ends(&rt, &mut ports, written);
    assert_same(&rt, told, Err(MasterFault::NoSlave));
    assert_same(&rt, ports.trips, 0);
}

#[test]
fn where_no_trip_is_left_there_is_no_answer(rt: HostRuntime) {
    for trips in 0..4 {
        let mut ports = storm(&rt, rt.alloc());
        let read = talk(&rt, VENDOR, trips);
        let told = ends(&rt, &mut ports, read);
        assert_same(&rt, told, Err(MasterFault::NoAnswer));
        assert_same(&rt, ports.trips, trips as usize);
    }
}
