//! Startup objects, which are written in Pre-Op.

use super::line::{held, shown};
use super::stage::{Event, ROOM, Row, Stage, Told, assert_rows, ring_with, wanted_with, written};
use crate::asserts::assert_found;
use ec_app::Value;
use ec_regs::AlState;
use ec_run::{StartupObject, Watched};
use ecat_master::start;
use ecat_text::Lines;
use std::io::Cursor;

/// The object that slaves have, with a value of two bytes.
const SEVEN: StartupObject = StartupObject {
    index: 0x8000,
    sub: 1,
    value: Value::Two(7),
};

/// The same with the next value.
const EIGHT: StartupObject = StartupObject {
    index: 0x8000,
    sub: 1,
    value: Value::Two(8),
};

/// And with the one behind that.
const NINE: StartupObject = StartupObject {
    index: 0x8000,
    sub: 1,
    value: Value::Two(9),
};

/// An object that no slave has.
const MISSING: StartupObject = StartupObject {
    index: 0x8001,
    sub: 2,
    value: Value::One(1),
};

#[test]
fn startup_objects_are_written_in_their_order(rt: HostRuntime) {
    let row = "three values of one object";
    let line = wanted_with(&rt, Told::Startup(1, &[SEVEN, EIGHT, NINE]));
    let mut out = Cursor::new([0u8; ROOM]);
    let mut ports = Watched::new(Stage::new(ring_with(&rt, 3, &[]), &[]));
    let started = start(&mut ports, line.as_slice(), &[], &mut Lines::new(&mut out));
    assert_found(&rt, row, started.is_ok(), true);
    assert_found(
        &rt,
        row,
        written(&out),
        "slaves 3\nring whole\nstations given\nall in Init\nall in Pre-Op\nstartup objects written\n\
        all in Safe-Op\nall in Op\n",
    );
    let ports = ports.into_ports();
    for (place, value) in [0, 9, 0].iter().enumerate() {
        let wanted = Some(Value::Two(*value));
        assert_found(&rt, row, held(ports.ring(), place), wanted);
    }
    let in_op = Some((AlState::Op, 0x1002));
    assert_found(&rt, row, shown(ports.ring(), 1), in_op);
}

/// Objects that cannot be written, and those of slaves that leave Op. An object takes six turns there: a look
/// at the mailboxes, the request, which has the counter of the mail before and is dropped, another look, the
/// request with the next counter, a look, and the answer.
static ROWS: [Row; 2] = [
    Row {
        name: "an abort is told with its object and its name",
        slaves: 3,
        down: &[],
        told: Told::Startup(1, &[SEVEN, MISSING]),
        events: &[],
        stop: false,
        cycles: 2,
        status: 1,
        text: "slaves 3\nring whole\nstations given\nall in Init\nall in Pre-Op\n\
            fault: slave 1 (0x1002): startup object 0x8001:2: abort 0x06020000 object does not exist in the \
            object dictionary\n",
    },
    Row {
        name: "slaves with startup objects are recovered",
        slaves: 3,
        down: &[],
        told: Told::Startup(0, &[SEVEN]),
        events: &[
            (3, Event::Falls(0, AlState::Init)),
            (80, Event::Falls(1, AlState::PreOp)),
        ],
        stop: false,
        cycles: 160,
        status: 0,
        text: "slaves 3\nring whole\nstations given\nall in Init\nall in Pre-Op\n\
            startup objects written\nall in Safe-Op\nall in Op\n\
            cycle 3: not all in Op\ncycle 64: all in Op again after 61 cycles\n\
            cycle 64: slave 0 (0x1001) was in Init, brought to Op\ncycle 80: not all in Op\n\
            cycle 125: all in Op again after 45 cycles\n\
            cycle 125: slave 1 (0x1002) was in Pre-Op, brought to Op\nleft in Init\n\
            cycles 160 good 160 short 0 over 0 fault 0 not-in-op 106\n\
            cycle time least 0 mean 0 greatest 0 microseconds, 50% within 0, 90% 0, 99% 0, 99.9% 0\n\
            item 0 LRW data a0a1a2 wkc 9 of 9\n",
    },
];

#[test]
fn startup_objects_are_aborted_and_written_again(rt: HostRuntime) {
    assert_rows(&rt, &ROWS);
}
