//! What is logged of cycles that have no verdict.

use super::line::{EXPECTED, work};
use super::stage::{Count, Event, ROOM, Stage, Told, ring_with, usual_plan, wanted_with, written};
use crate::asserts::assert_found;
use ecat_master::{LinePlan, NoTask, Plan, Writers, master};
use std::io::{Cursor, Write};
use std::process::Abort;

/// The log of six cycles.
const LOG: &str = "\
cycle 0 good counts 9
cycle 1 good counts 9
cycle 2 fault Port counts
cycle 3 good counts 9
cycle 4 fault Stranger counts 0
cycle 5 good counts 9
";

/// Room for the first two lines of such a log and a part of the third.
const SHORT_ROOM: usize = 60;

/// What is told of a log that has no room for the line of cycle 2.
const LOG_FAILS: &str =
    "cycle 2: log: Write (failed to write whole buffer), no more of it is written\n";

/// Runs a master for six cycles, at whose cycles 2 and 4 things go wrong, and asserts its status and what it
/// writes to this log and beside it.
fn assert_logs<L: Write>(
    rt: &(impl AllocGlobal + Abort),
    plan: &Plan<'_>,
    log: &mut L,
    status: u8,
    said: &str,
) {
    let events = [(2, Event::Fault), (4, Event::Stranger)];
    let ports = Stage::new(ring_with(rt, 3, &[]), &events);
    let line = wanted_with(rt, Told::Same);
    let mut pace = Count { left: 6 };
    let mut out = Cursor::new([0u8; ROOM]);
    let mut err = Cursor::new([0u8; ROOM]);
    let work = work(rt);
    assert!(rt; work.len() == EXPECTED.len());
    let line_plan = LinePlan {
        line: line.as_slice(),
        expected: &EXPECTED,
        plan,
    };
    let writers = Writers {
        out: &mut out,
        err: &mut err,
        log,
    };
    let ended = master(ports, work, &line_plan, &mut pace, &mut NoTask, writers);
    assert_found(rt, "the status", ended, status);
    assert_found(rt, "what is said", written(&err), said);
}

/// A plan with a log, whose failure ends the run or not.
fn logging(log_or_stop: bool) -> Plan<'static> {
    let mut plan = usual_plan();
    plan.log = true;
    plan.log_or_stop = log_or_stop;
    plan
}

#[test]
fn faults_are_logged_by_their_names(rt: HostRuntime) {
    let mut log = Cursor::new([0u8; ROOM]);
    assert_logs(&rt, &logging(false), &mut log, 0, "");
    assert_found(&rt, "the log", written(&log), LOG);
}

#[test]
fn cycles_go_on_without_a_log_that_fails(rt: HostRuntime) {
    let mut log = Cursor::new([0u8; SHORT_ROOM]);
    assert_logs(&rt, &logging(false), &mut log, 3, LOG_FAILS);
}

#[test]
fn a_log_that_fails_ends_a_run_that_is_to_stop_then(rt: HostRuntime) {
    let mut log = Cursor::new([0u8; SHORT_ROOM]);
    assert_logs(&rt, &logging(true), &mut log, 3, "log: Write\n");
}
