//! Ports whose cables are swapped.

use super::stage::{
    Event, ROOM, Row, Stage, Swapped, Told, assert_rows, assert_runs, ring_with, usual_plan,
    wanted_with, written,
};
use crate::asserts::assert_found;
use ec_run::Watched;
use ecat_master::{Unfound, scan};
use ecat_text::Lines;
use std::io::Cursor;
use std::process::Abort;

/// What is told of cables that are swapped, and swapped back, while cycles run.
static ROWS: [Row; 1] = [Row {
    name: "cables are swapped while cycles run, which stay good",
    slaves: 3,
    down: &[],
    told: Told::Same,
    events: &[
        (3, Event::Swap(Swapped::All)),
        (6, Event::Swap(Swapped::Nothing)),
    ],
    stop: false,
    cycles: 8,
    status: 0,
    text: brought!(
        "cycle 3: ports A and B are swapped\ncycle 6: ring whole again\nleft in Init\n\
        cycles 8 good 8 short 0 over 0 fault 0 not-in-op 0\n\
        cycle time least 0 mean 0 greatest 0 microseconds, 50% within 0, 90% 0, 99% 0, 99.9% 0\n\
        item 0 LRW data a0a1a2 wkc 9 of 9\n"
    ),
}];

#[test]
fn cables_are_swapped_while_cycles_run(rt: HostRuntime) {
    assert_rows(&rt, &ROWS);
}

/// Asserts what a start over cables that are swapped for these frames prints.
fn assert_start(rt: &(impl AllocGlobal + Abort), row: &str, swapped: Swapped, text: &str) {
    let line = wanted_with(rt, Told::Same);
    let ports = Stage::new(ring_with(rt, 3, &[]), &[]).with_swapped(swapped);
    let mut out = Cursor::new([0u8; ROOM]);
    assert_runs(
        rt,
        row,
        ports,
        line.as_slice(),
        &usual_plan(),
        2,
        &mut out,
        1,
    );
    assert_found(rt, row, written(&out), text);
}

#[test]
fn a_start_over_swapped_cables_says_what_is_to_be_done(rt: HostRuntime) {
    let text = "slaves 3\nports A and B are swapped\n\
        fault: ports A and B are swapped: name them in the other order\n";
    assert_start(&rt, "copies by where they start", Swapped::All, text);
    assert_start(&rt, "copies by where they come", Swapped::AllByPort, text);
    let text = "slaves 3\n\
        no one set of links gives these copies: the links changed between them\n\
        fault: no one set of links gives these copies: the links changed between them\n";
    assert_start(&rt, "the looks at the cable alone", Swapped::Looks, text);
}

#[test]
fn a_scan_over_swapped_cables_says_so(rt: HostRuntime) {
    let stage = Stage::new(ring_with(&rt, 2, &[]), &[]).with_swapped(Swapped::All);
    let mut out = Cursor::new([0u8; ROOM]);
    let scanned = scan(
        &mut Watched::new(stage),
        &mut Lines::new(&mut out),
        &mut Unfound,
    )
    .ok();
    assert_found(&rt, "all could be read", scanned, Some(true));
    let text = "slaves 2\nports A and B are swapped\nslave 0 station 0x0000 state Init\n\
        slave 1 station 0x0000 state Init\n";
    assert_found(&rt, "what is printed", written(&out), text);
}
