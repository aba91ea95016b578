//! What a task asks of slaves beside the cycles.

ghost use Rattle.std.specs.Prelude.{◌≡◌, false, []};

use super::line::{EXPECTED, work};
use super::stage::{Count, Event, ROOM, Stage, Told, ring_with, usual_plan, wanted_with, written};
use crate::asserts::assert_found;
use ec_app::Value;
use ec_regs::AlState;
use ec_services::MasterFault;
use ecat_master::{Answer, Asked, LinePlan, Plan, Report, Service, Task, Writers, master};
use std::io::Cursor;
use std::process::Abort;

/// How many services a task of the tests asks for at the most.
const MOST: usize = 4;

/// A task that asks for one service after the other, and keeps what it is told.
#[derive(Drop)]
struct Asking {
    /// What it asks for.
    asks: &'static [Asked],
    /// How many of these it has asked for.
    asked: usize,
    /// What it was told, and behind which cycle, in their order.
    told: [Option<(u64, Result<Answer, MasterFault>)>; MOST],
    /// How many cycles were reported.
    cycles: u64,
}

impl Task for Asking {
    ghost listens = { λ before are_others later. are_others ≡ false };

    ghost held = { λ task. [] };

    fn listen(&mut self) -> bool {
        false
    }

    fn outputs(&self) -> &[u8] {
        &[]
    }

    fn report(&mut self, report: &Report<'_>) {
        self.cycles = report.cycle;
    }

    fn ask(&mut self) -> Option<Asked> {
        let asked = self.asks.get(self.asked).copied();
        self.asked = self.asked.saturating_add(1);
        asked
    }

    fn told(&mut self, answer: Result<Answer, MasterFault>) {
        for place in self.told.iter_mut() {
            if place.is_none() {
                *place = Some((self.cycles, answer));
                return;
            }
        }
    }
}

/// An object of a slave that is read.
macro_rules! reads {
    ($station:expr, $index:expr) => {
        Asked {
            station: $station,
            service: Service::Read {
                index: $index,
                sub: 1,
            },
        }
    };
}

/// A value that is written to the object that slaves have.
macro_rules! writes {
    ($station:expr, $value:expr) => {
        Asked {
            station: $station,
            service: Service::Write {
                index: 0x8000,
                sub: 1,
                value: Value::Two($value),
            },
        }
    };
}

/// A state that a slave is asked for.
macro_rules! state {
    ($station:expr, $state:expr) => {
        Asked {
            station: $station,
            service: Service::State($state),
        }
    };
}

/// An error of a slave that is acknowledged.
macro_rules! acknowledge {
    ($station:expr) => {
        Asked {
            station: $station,
            service: Service::Acknowledge,
        }
    };
}

/// A run of a master whose task asks for services, what it is told, and what is printed.
struct Row {
    /// What it shows.
    name: &'static str,
    /// What the task asks for.
    asks: &'static [Asked],
    /// What happens before the cycles with these numbers.
    events: &'static [(u64, Event)],
    /// Whether slaves are brought to Op again.
    recover: bool,
    /// How many cycles are to come.
    cycles: u64,
    /// What the task is told, and behind which cycle.
    told: &'static [(u64, Result<Answer, MasterFault>)],
    /// What is printed.
    text: &'static str,
}

/// Asserts what a task is told in a run.
fn assert_told(rt: &impl Abort, row: &Row, task: &Asking) {
    for place in 0..MOST {
        let wanted = row.told.get(place).copied();
        assert_found(rt, row.name, task.told[place], wanted);
    }
}

/// Asserts what a task is told in a run, and what is printed.
fn assert_asks(rt: &(impl AllocGlobal + Abort), row: &Row) {
    let line = wanted_with(rt, Told::Same);
    let ports = Stage::new(ring_with(rt, 3, &[]), row.events);
    let plan = Plan {
        recover: row.recover,
        ..usual_plan()
    };
    let mut task = Asking {
        asks: row.asks,
        asked: 0,
        told: [None; MOST],
        cycles: 0,
    };
    let mut pace = Count { left: row.cycles };
    let mut out = Cursor::new([0u8; ROOM]);
    let mut err = Cursor::new([0u8; ROOM]);
    let mut log = Cursor::new([0u8; ROOM]);
    let work = work(rt);
    assert!(rt; work.len() == EXPECTED.len());
    let line_plan = LinePlan {
        line: line.as_slice(),
        expected: &EXPECTED,
        plan: &plan,
    };
    let writers = Writers {
        out: &mut out,
        err: &mut err,
        log: &mut log,
    };
    let _status = master(ports, work, &line_plan, &mut pace, &mut task, writers);
    assert_told(rt, row, &task);
    assert_found(rt, row.name, written(&out), row.text);
}

/// Services of slaves of a line of three. Behind the first cycle the cable is looked at, so that a service
/// that goes first takes a cycle more; an object takes four frames, and a state two.
static ROWS: [Row; 10] = [
    Row {
        name: "an object is read and written and read again",
        asks: &[
            reads!(0x1002, 0x1018),
            writes!(0x1002, 7),
            reads!(0x1002, 0x8000),
        ],
        events: &[],
        recover: true,
        cycles: 40,
        told: &[
            (4, Ok(Answer::Value(Value::Four(2)))),
            (8, Ok(Answer::Written)),
            (12, Ok(Answer::Value(Value::Two(7)))),
        ],
        text: brought!(
            "left in Init\ncycles 40 good 40 short 0 over 0 fault 0 not-in-op 0\n\
            cycle time least 0 mean 0 greatest 0 microseconds, 50% within 0, 90% 0, 99% 0, 99.9% 0\n\
            item 0 LRW data a0a1a2 wkc 9 of 9\n"
        ),
    },
    Row {
        name: "an object that there is not is aborted",
        asks: &[reads!(0x1003, 0x8001)],
        events: &[],
        recover: true,
        cycles: 10,
        told: &[(4, Err(MasterFault::Abort(0x0602_0000)))],
        text: brought!(
            "left in Init\ncycles 10 good 10 short 0 over 0 fault 0 not-in-op 0\n\
            cycle time least 0 mean 0 greatest 0 microseconds, 50% within 0, 90% 0, 99% 0, 99.9% 0\n\
            item 0 LRW data a0a1a2 wkc 9 of 9\n"
        ),
    },
    Row {
        name: "a station that no slave has is asked for nothing",
        asks: &[reads!(0x1004, 0x1018), writes!(0x1001, 7)],
        events: &[],
        recover: true,
        cycles: 10,
        told: &[(0, Err(MasterFault::NoSlave)), (4, Ok(Answer::Written))],
        text: brought!(
            "left in Init\ncycles 10 good 10 short 0 over 0 fault 0 not-in-op 0\n\
            cycle time least 0 mean 0 greatest 0 microseconds, 50% within 0, 90% 0, 99% 0, 99.9% 0\n\
            item 0 LRW data a0a1a2 wkc 9 of 9\n"
        ),
    },
    Row {
        name: "a slave comes to another state and back",
        asks: &[state!(0x1002, AlState::SafeOp), state!(0x1002, AlState::Op)],
        events: &[],
        recover: false,
        cycles: 20,
        told: &[
            (2, Ok(Answer::In(AlState::SafeOp))),
            (6, Ok(Answer::In(AlState::Op))),
        ],
        text: brought!(
            "cycle 1: not all in Op\n\
            cycle 5: all in Op again after 4 cycles\n\
            left in Init\n\
            cycles 20 good 20 short 0 over 0 fault 0 not-in-op 4\n\
            cycle time least 0 mean 0 greatest 0 microseconds, 50% within 0, 90% 0, 99% 0, 99.9% 0\n\
            item 0 LRW data a0a1a2 wkc 9 of 9\n"
        ),
    },
    Row {
        name: "a refused state is acknowledged",
        asks: &[
            state!(0x1002, AlState::PreOp),
            state!(0x1002, AlState::Op),
            acknowledge!(0x1002),
            state!(0x1002, AlState::SafeOp),
        ],
        events: &[],
        recover: false,
        cycles: 40,
        told: &[
            (2, Ok(Answer::In(AlState::PreOp))),
            (6, Err(MasterFault::Refused(0x0011))),
            (12, Ok(Answer::In(AlState::PreOp))),
            (16, Ok(Answer::In(AlState::SafeOp))),
        ],
        text: brought!(
            "cycle 1: not all in Op\n\
            cycle 5: slave 1 (0x1002) is in Pre-Op with error 0x0011 invalid requested state change\n\
            cycle 11: slave 1 (0x1002) is in Pre-Op\n\
            cycle 17: slave 1 (0x1002) is in Safe-Op\n\
            left in Init\n\
            cycles 40 good 40 short 0 over 0 fault 0 not-in-op 39\n\
            cycle time least 0 mean 0 greatest 0 microseconds, 50% within 0, 90% 0, 99% 0, 99.9% 0\n\
            item 0 LRW data a0a1a2 wkc 9 of 9\n"
        ),
    },
    Row {
        name: "a frame that is lost goes out again",
        asks: &[reads!(0x1002, 0x1018), writes!(0x1002, 7)],
        events: &[
            (0, Event::LoseBeside),
            (2, Event::LoseBeside),
            (8, Event::LoseBeside),
        ],
        recover: true,
        cycles: 40,
        told: &[
            (6, Ok(Answer::Value(Value::Four(2)))),
            (10, Ok(Answer::Written)),
        ],
        text: brought!(
            "left in Init\n\
            cycles 40 good 40 short 0 over 0 fault 0 not-in-op 0\n\
            cycle time least 0 mean 0 greatest 0 microseconds, 50% within 0, 90% 0, 99% 0, 99.9% 0\n\
            item 0 LRW data a0a1a2 wkc 9 of 9\n"
        ),
    },
    Row {
        name: "a state is asked for again where a frame is lost",
        asks: &[state!(0x1002, AlState::SafeOp), acknowledge!(0x1003)],
        events: &[
            (0, Event::LoseBeside),
            (2, Event::LoseBeside),
            (4, Event::LoseBeside),
        ],
        recover: false,
        cycles: 40,
        told: &[
            (8, Ok(Answer::In(AlState::SafeOp))),
            (14, Ok(Answer::In(AlState::Op))),
        ],
        text: brought!(
            "cycle 1: not all in Op\n\
            cycle 5: slave 1 (0x1002) is in Safe-Op\n\
            left in Init\n\
            cycles 40 good 40 short 0 over 0 fault 0 not-in-op 39\n\
            cycle time least 0 mean 0 greatest 0 microseconds, 50% within 0, 90% 0, 99% 0, 99.9% 0\n\
            item 0 LRW data a0a1a2 wkc 9 of 9\n"
        ),
    },
    Row {
        name: "looks and a recovery go on beside a service",
        asks: &[
            reads!(0x1002, 0x1018),
            writes!(0x1002, 7),
            reads!(0x1001, 0x8000),
        ],
        events: &[
            (0, Event::Falls(0, AlState::PreOp)),
            (2, Event::Link(2, false)),
        ],
        recover: true,
        cycles: 90,
        told: &[
            (6, Ok(Answer::Value(Value::Four(2)))),
            (14, Ok(Answer::Written)),
            (22, Ok(Answer::Value(Value::Two(0)))),
        ],
        text: brought!(
            "cycle 0: not all in Op\n\
            cycle 2: redundancy lost: link 2 down: between slave 1 (0x1002) and slave 2 (0x1003)\n\
            cycle 60: all in Op again after 60 cycles\n\
            cycle 60: slave 0 (0x1001) was in Pre-Op, brought to Op\n\
            left in Init\n\
            cycles 90 good 90 short 0 over 0 fault 0 not-in-op 60\n\
            cycle time least 0 mean 0 greatest 0 microseconds, 50% within 0, 90% 0, 99% 0, 99.9% 0\n\
            item 0 LRW data a0a1a2 wkc 9 of 9\n"
        ),
    },
    Row {
        name: "behind a cycle of which no copy came nobody is asked",
        asks: &[reads!(0x1002, 0x1018), reads!(0x1003, 0x8000)],
        events: &[(6, Event::Fault), (7, Event::Fault)],
        recover: true,
        cycles: 16,
        told: &[
            (4, Ok(Answer::Value(Value::Four(2)))),
            (11, Ok(Answer::Value(Value::Two(0)))),
        ],
        text: brought!(
            "cycle 6: a port failed\ncycle 8: good again after 2 cycles\n\
            left in Init\ncycles 16 good 14 short 0 over 0 fault 2 not-in-op 0\n\
            cycle time least 0 mean 0 greatest 0 microseconds, 50% within 0, 90% 0, 99% 0, 99.9% 0\n\
            item 0 LRW data a0a1a2 wkc 9 of 9\n"
        ),
    },
    Row {
        name: "what is under way behind the last cycle has no answer",
        asks: &[reads!(0x1002, 0x1018)],
        events: &[],
        recover: true,
        cycles: 3,
        told: &[(2, Err(MasterFault::NoAnswer))],
        text: brought!(
            "left in Init\ncycles 3 good 3 short 0 over 0 fault 0 not-in-op 0\n\
            cycle time least 0 mean 0 greatest 0 microseconds, 50% within 0, 90% 0, 99% 0, 99.9% 0\n\
            item 0 LRW data a0a1a2 wkc 9 of 9\n"
        ),
    },
];

#[test]
fn slaves_are_asked_beside_the_cycles(rt: HostRuntime) {
    for row in &ROWS {
        assert_asks(&rt, row);
    }
}
