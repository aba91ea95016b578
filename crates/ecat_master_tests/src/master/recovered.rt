//! Slaves that leave Op while a master runs.

use super::stage::{Event, Row, Told, assert_rows};
use ec_regs::AlState;

/// What is told of slaves that leave Op, of ports that fail, and of a last cycle. A turn behind each cycle
/// asks one question: two for each state, four for each sync manager, two for each FMMU. So a slave in Pre-Op
/// takes 44 turns from the cycle behind the look at it on, one with an error 56, one in Init 54, and one
/// without its station 57.
static ROWS: [Row; 5] = [
    Row {
        name: "an error is acknowledged and a slave that fell is brought up",
        slaves: 3,
        down: &[],
        told: Told::Same,
        events: &[
            (3, Event::Falls(0, AlState::PreOp)),
            (3, Event::Error(1, AlState::SafeOp)),
            (3, Event::Falls(2, AlState::Init)),
        ],
        stop: false,
        cycles: 200,
        status: 0,
        text: brought!(
            "cycle 3: not all in Op\ncycle 48: slave 0 (0x1001) was in Pre-Op, brought to Op\n\
            cycle 106: slave 1 (0x1002) had an error in Safe-Op: 0x001b sync manager watchdog, \
            brought to Op\n\
            cycle 162: all in Op again after 159 cycles\n\
            cycle 162: slave 2 (0x1003) was in Init, brought to Op\nleft in Init\n\
            cycles 200 good 200 short 0 over 0 fault 0 not-in-op 159\n\
            cycle time least 0 mean 0 greatest 0 microseconds, 50% within 0, 90% 0, 99% 0, 99.9% 0\n\
            item 0 LRW data a0a1a2 wkc 9 of 9\n"
        ),
    },
    Row {
        name: "a slave without its station gets it again",
        slaves: 3,
        down: &[],
        told: Told::Same,
        events: &[(3, Event::Forgets(0))],
        stop: false,
        cycles: 120,
        status: 0,
        text: brought!(
            "cycle 28: not all in Op\ncycle 82: all in Op again after 54 cycles\n\
            cycle 82: slave 0 (0x1001) had lost its station, brought to Op\n\
            left in Init\ncycles 120 good 120 short 0 over 0 fault 0 not-in-op 54\n\
            cycle time least 0 mean 0 greatest 0 microseconds, 50% within 0, 90% 0, 99% 0, 99.9% 0\n\
            item 0 LRW data a0a1a2 wkc 9 of 9\n"
        ),
    },
    Row {
        name: "the second slave gets its own station again",
        slaves: 3,
        down: &[],
        told: Told::Same,
        events: &[(3, Event::Forgets(1))],
        stop: false,
        cycles: 120,
        status: 0,
        text: brought!(
            "cycle 44: not all in Op\ncycle 98: all in Op again after 54 cycles\n\
            cycle 98: slave 1 (0x1002) had lost its station, brought to Op\n\
            left in Init\ncycles 120 good 120 short 0 over 0 fault 0 not-in-op 54\n\
            cycle time least 0 mean 0 greatest 0 microseconds, 50% within 0, 90% 0, 99% 0, 99.9% 0\n\
            item 0 LRW data a0a1a2 wkc 9 of 9\n"
        ),
    },
    Row {
        name: "a port that fails is a fault and the cycles go on",
        slaves: 3,
        down: &[],
        told: Told::Same,
        events: &[(2, Event::Fault), (3, Event::Fault)],
        stop: false,
        cycles: 6,
        status: 0,
        text: brought!(
            "cycle 2: a port failed\ncycle 4: good again after 2 cycles\n\
            left in Init\ncycles 6 good 4 short 0 over 0 fault 2 not-in-op 0\n\
            cycle time least 0 mean 0 greatest 0 microseconds, 50% within 0, 90% 0, 99% 0, 99.9% 0\n\
            item 0 LRW data a0a1a2 wkc 9 of 9\n"
        ),
    },
    Row {
        name: "the first cycle that is not good may be the last",
        slaves: 3,
        down: &[],
        told: Told::Same,
        events: &[(2, Event::LoseA)],
        stop: true,
        cycles: 6,
        status: 1,
        text: brought!(
            "cycle 2: item 0: came 0 of 9; ring whole, nothing came at port B\nleft in Init\n\
            cycles 3 good 2 short 1 over 0 fault 0 not-in-op 0\n\
            cycle time least 0 mean 0 greatest 0 microseconds, 50% within 0, 90% 0, 99% 0, 99.9% 0\n\
            item 0 LRW data a0a1a2 wkc 9 of 9\n"
        ),
    },
];

#[test]
fn slaves_that_leave_op_are_recovered(rt: HostRuntime) {
    assert_rows(&rt, &ROWS);
}
