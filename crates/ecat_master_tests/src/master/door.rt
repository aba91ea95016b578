//! The use on the crate's page.

use super::line::{EXPECTED, ring, wanted, work};
use super::stage::{Count, Event, ROOM, Stage, written};
use crate::asserts::assert_found;
use ec_regs::AlState;
use ec_run::{MOST_READS, Outputs};
use ecat_master::{LinePlan, NoTask, Plan, Writers, master};
use std::io::Cursor;

/// What is printed of it.
const TOLD: &str =
    "slaves 3\nring whole\nstations given\nall in Init\nall in Pre-Op\nall in Safe-Op\n\
    all in Op\n\
    cycle 3: redundancy lost: link 2 down: between slave 1 (0x1002) and slave 2 (0x1003)\n\
    left in Init\ncycles 5 good 5 short 0 over 0 fault 0 not-in-op 0\n\
    cycle time least 0 mean 0 greatest 0 microseconds, 50% within 0, 90% 0, 99% 0, 99.9% 0\n\
    item 0 LRW data a0a1a2 wkc 9 of 9\n";

#[test]
fn a_line_is_brought_up_and_a_link_breaks_while_it_cycles(rt: HostRuntime) {
    let line = wanted(&rt, rt.alloc());
    let events = [(3, Event::Link(2, false))];
    let ports = Stage::new(ring(&rt, rt.alloc(), 3), &events);
    let plan = Plan {
        outputs: Outputs::Count,
        stop: false,
        recover: true,
        tries: MOST_READS,
        progress: true,
        log: true,
        log_images: true,
        log_or_stop: false,
        states: true,
        identities: &[],
        names: &[],
        leave: Some(AlState::Init),
        leave_by_task: false,
    };
    let mut pace = Count { left: 5 };
    let mut out = Cursor::new([0u8; ROOM]);
    let mut err = Cursor::new([0u8; ROOM]);
    let mut log = Cursor::new([0u8; ROOM]);
    let work = work(&rt);
    if work.len() != EXPECTED.len() {
        return;
    }
    let line_plan = LinePlan {
        line: line.as_slice(),
        expected: &EXPECTED,
        plan: &plan,
    };
    let writers = Writers {
        out: &mut out,
        err: &mut err,
        log: &mut log,
    };
    let status = master(ports, work, &line_plan, &mut pace, &mut NoTask, writers);
    assert_found(&rt, "the status", status, 0);
    assert_found(&rt, "what is told", written(&out), TOLD);
    assert_found(
        &rt,
        "what is logged",
        written(&log),
        "cycle 0 good counts 9 sent 000000 image a0a1a2\n\
        cycle 1 good counts 9 sent 010000 image a0a1a2\n\
        cycle 2 good counts 9 sent 020000 image a0a1a2\n\
        cycle 3 good counts 9 sent 030000 image a0a1a2\n\
        cycle 4 good counts 9 sent 040000 image a0a1a2\n",
    );
}
