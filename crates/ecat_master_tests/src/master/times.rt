//! Progress, by a time that goes on.

ghost use Rattle.std.specs.Prelude.{⊤};

use super::line::{EXPECTED, work};
use super::stage::{ROOM, Stage, Told, ring_with, usual_plan, wanted_with, written};
use crate::asserts::assert_found;
use ecat_master::{LinePlan, NoTask, Pace, Writers, master};
use std::io::Cursor;

/// What each cycle takes, in microseconds.
const TOOK: [u64; 4] = [900_000, 400_000, 100, 1_000_000];

/// What is told behind the second of them, and behind the last.
const PROGRESS: &str = "\
cycles 2 good 2 short 0 over 0 fault 0 not-in-op 0, cycle time least 400000 mean 650000 greatest \
    900000 microseconds, 1 a second
cycles 4 good 4 short 0 over 0 fault 0 not-in-op 0, cycle time least 100 mean 500050 greatest \
    1000000 microseconds, 1 a second
";

/// So many cycles, each of which asks for the time at its beginning and at its end.
#[derive(Drop)]
struct Timed {
    next: usize,
    at: u64,
    has_begun: bool,
}

impl Pace for Timed {
    ghost over = { λ pace. ⊤ };

    fn next(&mut self) -> bool {
        self.next < TOOK.len()
    }

    fn late(&mut self) -> Option<u64> {
        None
    }

    fn now(&mut self) -> u64 {
        if self.has_begun && self.next < TOOK.len() {
            self.at = self.at.saturating_add(TOOK[self.next]);
            self.next = self.next.saturating_add(1);
        }
        self.has_begun = !self.has_begun;
        self.at
    }
}

#[test]
fn progress_has_the_times_since_the_last_line(rt: HostRuntime) {
    let ports = Stage::new(ring_with(&rt, 3, &[]), &[]);
    let line = wanted_with(&rt, Told::Same);
    let mut plan = usual_plan();
    plan.progress = true;
    let mut pace = Timed {
        next: 0,
        at: 0,
        has_begun: false,
    };
    let mut out = Cursor::new([0u8; ROOM]);
    let mut err = Cursor::new([0u8; ROOM]);
    let mut log = Cursor::new([0u8; ROOM]);
    let work = work(&rt);
    assert!(&rt; work.len() == EXPECTED.len());
    let line_plan = LinePlan {
        line: line.as_slice(),
        expected: &EXPECTED,
        plan: &plan,
    };
    let writers = Writers {
        out: &mut out,
        err: &mut err,
        log: &mut log,
    };
    let status = master(ports, work, &line_plan, &mut pace, &mut NoTask, writers);
    assert_found(&rt, "the status", status, 0);
    assert_found(&rt, "progress", written(&err), PROGRESS);
}
