//! A start-up and a service by turns over a ring, and the use on the page of `ec_turns`.

ghost use Rattle.std.specs.Prelude.{◌≡◌};
ghost use Rattle.ec_turns.specs.Start.{HasPeer};

use crate::asserts::assert_same;
use crate::services::line::{alone, slave};
use ec_app::{Objects, Rights, Value};
use ec_master::{Ports, RingPorts};
use ec_regs::AlState;
use ec_ring::Came;
use ec_run::{StartupObject, Wanted};
use ec_services::MasterFault;
use ec_turns::{HeldPorts, Plan, Stage, Start, StartFault, StartTurn};
use ec_wire::FrameBuf;
use std::alloc::Global;
use std::process::Abort;

/// The most turns that a test takes.
const MOST_TURNS: u32 = 200;

/// A start-up of one slave, to Op.
const PLAN: Plan = Plan {
    slaves: 1,
    down: None,
    last: Stage::Op,
};

/// An object that is written at start-up.
const SETTING: StartupObject = StartupObject {
    index: 0x2000,
    sub: 0,
    value: Value::Two(0x1234),
};

/// The ports of a ring of one slave in Init, with an object that may be written.
fn ring(rt: &impl Abort, alloc: Global) -> RingPorts {
    let mut objects = Objects::new();
    let setting = objects.add(0x2000, 0, Rights::Both, Value::Two(0));
    assert_eq!(rt; setting, Ok(()));
    alone(rt, alloc, slave(rt, alloc, AlState::Init, objects))
}

/// What its slave is to be told: the records that it has, and the object.
fn wanted(rt: &impl Abort, ports: &RingPorts) -> Wanted {
    let slaves = ports.ring().slaves();
    assert!(rt; slaves.len() == 1);
    let mut wanted = Wanted::of(&slaves[0]);
    wanted.startup[0] = Some(SETTING);
    wanted
}

/// What comes back of a frame, and nothing where it is lost.
fn came_of(rt: &impl Abort, ports: &mut RingPorts, sent: &FrameBuf, is_lost: bool) -> Came {
    let came = match ports.trip(sent) {
        Ok(came) => came,
        Err(_) => Came { a: None, b: None },
    };
    assert!(rt; came.a.is_some());
    if is_lost {
        Came { a: None, b: None }
    } else {
        came
    }
}

/// Takes turn after turn until the start-up has ended; the copies of the turn with this number are lost.
fn ends(
    rt: &impl Abort,
    ports: &mut RingPorts,
    wanted: &Wanted,
    lost: u32,
) -> Result<u32, StartFault> {
    let mut start = Start::begun(PLAN);
    for turn in 0..MOST_TURNS {
        let sent = start.frame(PLAN, wanted).expect(rt, "a frame");
        let came = came_of(rt, ports, &sent, turn == lost);
        let mut held = HeldPorts::giving(came);
        match start.turn(&mut held, PLAN, wanted) {
            StartTurn::Goes(next) => start = next,
            StartTurn::Ended(Ok(())) => return Ok(turn),
            StartTurn::Ended(Err(fault)) => return Err(fault),
        }
    }
    Err(StartFault::Ask(MasterFault::NoAnswer))
}

/// Is the slave in Op, with the value that was to be written?
fn assert_up(rt: &impl Abort, ports: &RingPorts) {
    let slaves = ports.ring().slaves();
    assert!(rt; slaves.len() == 1);
    assert_same(rt, slaves[0].state(), AlState::Op);
    let (_rights, value) = slaves[0].objects().get(0x2000, 0).expect(rt, "the object");
    assert_same(rt, value, Value::Two(0x1234));
}

// One turn counts the slaves and one gives the address; a state takes two, a sync manager four and an FMMU
// two; the object takes four. So there are 1 + 1 + 2 + (2 * 4 + 2) + (4 + 6 * 4 + 8 * 2 + 2) + 2 = 62.
#[test]
fn a_line_is_started_by_turns(rt: HostRuntime) {
    let mut ports = ring(&rt, rt.alloc());
    let wanted = wanted(&rt, &ports);
    let turns = ends(&rt, &mut ports, &wanted, MOST_TURNS);
    assert_eq!(&rt; turns, Ok(61));
    assert_up(&rt, &ports);
}

#[test]
fn a_line_is_started_though_any_one_frame_is_lost(rt: HostRuntime) {
    for lost in 0..62 {
        let mut ports = ring(&rt, rt.alloc());
        let wanted = wanted(&rt, &ports);
        assert!(&rt; ends(&rt, &mut ports, &wanted, lost).is_ok());
        assert_up(&rt, &ports);
    }
}
