//! Slaves that leave Op, and slaves that are others, told by a master that brings nobody up again.

use super::stage::{
    Event, ROOM, Stage, Told, assert_runs, ring_with, usual_plan, wanted_with, written,
};
use crate::asserts::assert_found;
use ec_app::Value;
use ec_regs::AlState;
use ecat_master::Identity;
use std::io::Cursor;
use std::process::Abort;

/// A run of a master on three slaves that recovers none, and what it prints.
struct Row {
    name: &'static str,
    events: &'static [(u64, Event)],
    stop: bool,
    identities: &'static [Identity],
    leave: Option<AlState>,
    status: u8,
    text: &'static str,
}

/// What is told of slaves that leave Op or are not those that are wanted.
static ROWS: [Row; 7] = [
    Row {
        name: "slaves that leave Op are told, with their errors, and the status says it",
        events: &[
            (3, Event::Falls(1, AlState::SafeOp)),
            (3, Event::Error(2, AlState::PreOp)),
        ],
        stop: false,
        identities: &[],
        leave: Some(AlState::Init),
        status: 1,
        text: brought!(
            "cycle 3: not all in Op\ncycle 4: slave 1 (0x1002) is in Safe-Op\n\
            cycle 6: slave 2 (0x1003) is in Pre-Op with error 0x001b sync manager watchdog\n\
            left in Init\ncycles 8 good 8 short 0 over 0 fault 0 not-in-op 5\n\
            cycle time least 0 mean 0 greatest 0 microseconds, 50% within 0, 90% 0, 99% 0, 99.9% 0\n\
            item 0 LRW data a0a1a2 wkc 9 of 9\n"
        ),
    },
    Row {
        name: "a slave that is in Op again is told, and the end is good",
        events: &[
            (3, Event::Falls(1, AlState::SafeOp)),
            (6, Event::Falls(1, AlState::Op)),
        ],
        stop: false,
        identities: &[],
        leave: Some(AlState::SafeOp),
        status: 0,
        text: brought!(
            "cycle 3: not all in Op\ncycle 4: slave 1 (0x1002) is in Safe-Op\n\
            cycle 6: all in Op again after 3 cycles\n\
            left in Safe-Op\ncycles 8 good 8 short 0 over 0 fault 0 not-in-op 3\n\
            cycle time least 0 mean 0 greatest 0 microseconds, 50% within 0, 90% 0, 99% 0, 99.9% 0\n\
            item 0 LRW data a0a1a2 wkc 9 of 9\n"
        ),
    },
    Row {
        name: "who leaves Op where all were in Op again is looked for from the first slave on",
        events: &[
            (2, Event::Falls(1, AlState::SafeOp)),
            (4, Event::Falls(1, AlState::Op)),
            (5, Event::Falls(0, AlState::SafeOp)),
        ],
        stop: false,
        identities: &[],
        leave: Some(AlState::SafeOp),
        status: 1,
        text: brought!(
            "cycle 2: not all in Op\ncycle 3: slave 1 (0x1002) is in Safe-Op\n\
            cycle 4: all in Op again after 2 cycles\n\
            cycle 5: not all in Op\ncycle 6: slave 0 (0x1001) is in Safe-Op\n\
            left in Safe-Op\ncycles 8 good 8 short 0 over 0 fault 0 not-in-op 5\n\
            cycle time least 0 mean 0 greatest 0 microseconds, 50% within 0, 90% 0, 99% 0, 99.9% 0\n\
            item 0 LRW data a0a1a2 wkc 9 of 9\n"
        ),
    },
    Row {
        name: "a port that fails where a look at the cable was put off says nothing of the cable",
        events: &[
            (2, Event::Falls(1, AlState::SafeOp)),
            (3, Event::LoseA),
            (5, Event::Fault),
        ],
        stop: false,
        identities: &[],
        leave: Some(AlState::Init),
        status: 1,
        text: brought!(
            "cycle 2: not all in Op\n\
            cycle 3: item 0: came 0 of 9; ring whole, nothing came at port B\n\
            cycle 4: slave 1 (0x1002) is in Safe-Op\ncycle 4: good again after 1 cycle\n\
            cycle 5: a port failed\ncycle 6: good again after 1 cycle\n\
            left in Init\ncycles 8 good 6 short 1 over 0 fault 1 not-in-op 4\n\
            cycle time least 0 mean 0 greatest 0 microseconds, 50% within 0, 90% 0, 99% 0, 99.9% 0\n\
            item 0 LRW data a0a1a2 wkc 9 of 9\n"
        ),
    },
    Row {
        name: "a cycle with a slave that is not in Op may be the last",
        events: &[(3, Event::Falls(0, AlState::PreOp))],
        stop: true,
        identities: &[],
        leave: None,
        status: 1,
        text: brought!(
            "cycle 3: not all in Op\ncycle 3: slave 0 (0x1001) is in Pre-Op\n\
            cycles 4 good 4 short 0 over 0 fault 0 not-in-op 1\n\
            cycle time least 0 mean 0 greatest 0 microseconds, 50% within 0, 90% 0, 99% 0, 99.9% 0\n\
            item 0 LRW data a0a1a2 wkc 9 of 9\n"
        ),
    },
    Row {
        name: "another product in a slave's place is told before Op",
        events: &[],
        stop: false,
        identities: &[
            [Some(Value::Four(2)), None, None, None],
            [Some(Value::Four(3)), None, None, None],
        ],
        leave: None,
        status: 1,
        text: "slaves 3\nring whole\nstations given\nall in Init\nall in Pre-Op\n\
            fault: slave 1 (0x1002): object 0x1018:1 is 0x00000002, wanted 0x00000003\n",
    },
    Row {
        name: "an entry that a slave does not have is told",
        events: &[],
        stop: false,
        identities: &[[Some(Value::Four(2)), None, Some(Value::Two(1)), None]],
        leave: None,
        status: 1,
        text: "slaves 3\nring whole\nstations given\nall in Init\nall in Pre-Op\n\
            fault: slave 0 (0x1001): object 0x1018:3 is abort 0x06090011, wanted 0x0001\n",
    },
];

/// Asserts the status of a run and what it prints.
fn assert_row(rt: &(impl AllocGlobal + Abort), row: &Row) {
    let line = wanted_with(rt, Told::Same);
    let ports = Stage::new(ring_with(rt, 3, &[]), row.events);
    let mut plan = usual_plan();
    plan.recover = false;
    plan.stop = row.stop;
    plan.identities = row.identities;
    plan.leave = row.leave;
    let mut out = Cursor::new([0u8; ROOM]);
    assert_runs(
        rt,
        row.name,
        ports,
        line.as_slice(),
        &plan,
        8,
        &mut out,
        row.status,
    );
    assert_found(rt, row.name, written(&out), row.text);
}

#[test]
fn slaves_that_leave_op_are_told(rt: HostRuntime) {
    for row in &ROWS {
        assert_row(&rt, row);
    }
}
