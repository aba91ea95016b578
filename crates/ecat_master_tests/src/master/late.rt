//! Copies of earlier cycles that come late while a master runs, and cycles that begin late.

ghost use Rattle.std.specs.Prelude.{⊤};

use super::line::{EXPECTED, work};
use super::stage::{
    Count, Event, ROOM, Row, Stage, Told, assert_rows, ring_with, usual_plan, wanted_with, written,
};
use crate::asserts::assert_found;
use ecat_master::{LinePlan, NoTask, Pace, Writers, master};
use std::io::Cursor;

/// What is told of copies of earlier trips, and of frames of others.
static ROWS: [Row; 6] = [
    Row {
        name: "a copy of an earlier cycle is told once, and each is counted",
        slaves: 3,
        down: &[],
        told: Told::Same,
        events: &[(5, Event::Late(2)), (8, Event::Late(1))],
        stop: false,
        cycles: 10,
        status: 0,
        text: brought!(
            "cycle 5: a copy of cycle 3 came 0.000 s late: slaves may have had its outputs until cycle 5\n\
            left in Init\ncycles 10 good 10 short 0 over 0 fault 0 not-in-op 0\n\
            cycle time least 0 mean 0 greatest 0 microseconds, 50% within 0, 90% 0, 99% 0, 99.9% 0\n\
            late copies 2, unsure cycles 3\nitem 0 LRW data a0a1a2 wkc 9 of 9\n"
        ),
    },
    Row {
        name: "a cycle that is unsure by two copies counts once",
        slaves: 3,
        down: &[],
        told: Told::Same,
        events: &[
            (4, Event::Late(1)),
            (6, Event::Late(4)),
            (6, Event::Late(1)),
        ],
        stop: false,
        cycles: 7,
        status: 0,
        text: brought!(
            "cycle 4: a copy of cycle 3 came 0.000 s late: slaves may have had its outputs until cycle 4\n\
            left in Init\ncycles 7 good 7 short 0 over 0 fault 0 not-in-op 0\n\
            cycle time least 0 mean 0 greatest 0 microseconds, 50% within 0, 90% 0, 99% 0, 99.9% 0\n\
            late copies 3, unsure cycles 4\nitem 0 LRW data a0a1a2 wkc 9 of 9\n"
        ),
    },
    Row {
        name: "a copy of the start-up makes no outputs unsure",
        slaves: 3,
        down: &[],
        told: Told::Same,
        events: &[(2, Event::Late(6))],
        stop: false,
        cycles: 3,
        status: 0,
        text: brought!(
            "left in Init\ncycles 3 good 3 short 0 over 0 fault 0 not-in-op 0\n\
            cycle time least 0 mean 0 greatest 0 microseconds, 50% within 0, 90% 0, 99% 0, 99.9% 0\n\
            late copies 1, unsure cycles 0\nitem 0 LRW data a0a1a2 wkc 9 of 9\n"
        ),
    },
    Row {
        name: "a copy of a look at a slave makes no outputs unsure",
        slaves: 3,
        down: &[],
        told: Told::Same,
        events: &[(16, Event::Late(1))],
        stop: false,
        cycles: 17,
        status: 0,
        text: brought!(
            "left in Init\ncycles 17 good 17 short 0 over 0 fault 0 not-in-op 0\n\
            cycle time least 0 mean 0 greatest 0 microseconds, 50% within 0, 90% 0, 99% 0, 99.9% 0\n\
            late copies 1, unsure cycles 0\nitem 0 LRW data a0a1a2 wkc 9 of 9\n"
        ),
    },
    Row {
        name: "another master is told once its frames came in three cycles",
        slaves: 3,
        down: &[],
        told: Told::Same,
        events: &[
            (2, Event::Another(4)),
            (3, Event::Another(1)),
            (5, Event::Another(2)),
            (6, Event::Another(1)),
        ],
        stop: false,
        cycles: 7,
        status: 0,
        text: brought!(
            "cycle 5: strangers: another master speaks here\n\
            left in Init\ncycles 7 good 7 short 0 over 0 fault 0 not-in-op 0\n\
            cycle time least 0 mean 0 greatest 0 microseconds, 50% within 0, 90% 0, 99% 0, 99.9% 0\n\
            strangers 8\nitem 0 LRW data a0a1a2 wkc 9 of 9\n"
        ),
    },
    Row {
        name: "copies of a master that has ended are no other master",
        slaves: 3,
        down: &[],
        told: Told::Same,
        events: &[(1, Event::Another(9)), (2, Event::Another(9))],
        stop: false,
        cycles: 7,
        status: 0,
        text: brought!(
            "left in Init\ncycles 7 good 7 short 0 over 0 fault 0 not-in-op 0\n\
            cycle time least 0 mean 0 greatest 0 microseconds, 50% within 0, 90% 0, 99% 0, 99.9% 0\n\
            item 0 LRW data a0a1a2 wkc 9 of 9\n"
        ),
    },
];

#[test]
fn late_copies_are_told_and_counted(rt: HostRuntime) {
    assert_rows(&rt, &ROWS);
}

/// The last two lines of the log of 302 cycles, in the last of which a copy comes that is older than those
/// that are remembered, and in the one before it one of the cycle before.
const LOG: &str = "\
cycle 300 good counts 9 unsure 300..300
cycle 301 good counts 9 unsure ..301
";

/// What is told of the first of them, and the sums of the second alone.
#[test]
fn unsure_cycles_are_logged(rt: HostRuntime) {
    // 300 cycles, and a look at a slave behind each sixteenth
    let events = [(300, Event::Late(1)), (301, Event::Late(310))];
    let ports = Stage::new(ring_with(&rt, 3, &[]), &events);
    let line = wanted_with(&rt, Told::Same);
    let mut plan = usual_plan();
    plan.log = true;
    let mut pace = Count { left: 302 };
    let mut out = Cursor::new([0u8; ROOM]);
    let mut err = Cursor::new([0u8; ROOM]);
    let mut log = Cursor::new([0u8; 2 * ROOM]);
    let work = work(&rt);
    assert!(&rt; work.len() == EXPECTED.len());
    let line_plan = LinePlan {
        line: line.as_slice(),
        expected: &EXPECTED,
        plan: &plan,
    };
    let writers = Writers {
        out: &mut out,
        err: &mut err,
        log: &mut log,
    };
    let status = master(ports, work, &line_plan, &mut pace, &mut NoTask, writers);
    assert_found(&rt, "the status", status, 0);
    let count = log.position().min(2 * ROOM as u64) as usize;
    let text = std::str::from_utf8(&log.get_ref()[..count]).unwrap_or("no text");
    let last = match text.find("cycle 300 ") {
        Some(at) => text.split_at(at).1,
        None => "no such line",
    };
    assert_found(&rt, "the log", last, LOG);
}

/// By how much cycles begin late, and how many are left out before each.
const BEATS: [(Option<u64>, u64); 4] = [
    (None, 0),
    (Some(40), 0),
    (Some(3_000_417), 3_000),
    (Some(2_000), 2),
];

/// What is told of them.
const LATENESS: &str = brought!(
    "cycle 2: began 3.000 s late, 3000 cycles left out\nleft in Init\n\
    cycles 4 good 4 short 0 over 0 fault 0 not-in-op 0\n\
    cycle time least 0 mean 0 greatest 0 microseconds, 50% within 0, 90% 0, 99% 0, 99.9% 0\n\
    lateness least 40 mean 1000819 greatest 3000417 microseconds, 50% within 2047, 90% 3000417, \
    99% 3000417, 99.9% 3000417, missed 3002\n\
    item 0 LRW data a0a1a2 wkc 9 of 9\n"
);

/// Cycles that begin so late.
#[derive(Drop)]
struct Beats {
    next: usize,
}

impl Beats {
    /// The beat of the last cycle.
    fn beat(&self) -> (Option<u64>, u64) {
        match self.next.checked_sub(1) {
            Some(at) if at < BEATS.len() => BEATS[at],
            _ => (None, 0),
        }
    }
}

impl Pace for Beats {
    ghost over = { λ pace. ⊤ };

    fn next(&mut self) -> bool {
        self.next = self.next.saturating_add(1);
        self.next <= BEATS.len()
    }

    fn late(&mut self) -> Option<u64> {
        self.beat().0
    }

    fn missed(&mut self) -> u64 {
        self.beat().1
    }

    fn now(&mut self) -> u64 {
        0
    }
}

#[test]
fn cycles_that_are_left_out_are_told_at_once_and_counted(rt: HostRuntime) {
    let ports = Stage::new(ring_with(&rt, 3, &[]), &[]);
    let line = wanted_with(&rt, Told::Same);
    let mut pace = Beats { next: 0 };
    let mut out = Cursor::new([0u8; ROOM]);
    let mut err = Cursor::new([0u8; ROOM]);
    let mut log = Cursor::new([0u8; ROOM]);
    let work = work(&rt);
    assert!(&rt; work.len() == EXPECTED.len());
    let plan = usual_plan();
    let line_plan = LinePlan {
        line: line.as_slice(),
        expected: &EXPECTED,
        plan: &plan,
    };
    let writers = Writers {
        out: &mut out,
        err: &mut err,
        log: &mut log,
    };
    let status = master(ports, work, &line_plan, &mut pace, &mut NoTask, writers);
    assert_found(&rt, "the status", status, 0);
    assert_found(&rt, "what is told", written(&out), LATENESS);
}
