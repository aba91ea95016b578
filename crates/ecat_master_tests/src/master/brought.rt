//! Lines that are brought from Init to Op.

use super::line::shown;
use super::stage::{ROOM, Row, Stage, Told, assert_rows, ring_with, wanted_with};
use crate::asserts::assert_found;
use ec_regs::AlState;
use ec_run::Watched;
use ecat_master::start;
use ecat_text::Lines;
use std::io::Cursor;
use std::process::Abort;

/// A line whose cable is whole.
static ROWS: [Row; 1] = [Row {
    name: "three slaves are brought up and cycle",
    slaves: 3,
    down: &[],
    told: Told::Same,
    events: &[],
    stop: false,
    cycles: 2,
    status: 0,
    text: brought!(
        "left in Init\ncycles 2 good 2 short 0 over 0 fault 0 not-in-op 0\n\
        cycle time least 0 mean 0 greatest 0 microseconds, 50% within 0, 90% 0, 99% 0, 99.9% 0\n\
        item 0 LRW data a0a1a2 wkc 9 of 9\n"
    ),
}];

#[test]
fn three_slaves_are_brought_up_and_cycle(rt: HostRuntime) {
    assert_rows(&rt, &ROWS);
}

/// Brings up three slaves with one link down, and asserts that each is in Op under its station address.
fn is_brought(rt: &(impl AllocGlobal + Abort), row: &str, link: usize) {
    let line = wanted_with(rt, Told::Same);
    let mut out = Cursor::new([0u8; ROOM]);
    let mut ports = Watched::new(Stage::new(ring_with(rt, 3, &[link]), &[]));
    let started = start(&mut ports, line.as_slice(), &[], &mut Lines::new(&mut out));
    assert!(rt; started.is_ok(), "{row}");
    let ports = ports.into_ports();
    for place in 0..3usize {
        let wanted = Some((AlState::Op, 0x1001 + place as u16));
        assert_found(rt, row, shown(ports.ring(), place), wanted);
    }
}

/// Each link in its turn.
static LINKS: [&str; 4] = ["link 0 down", "link 1 down", "link 2 down", "link 3 down"];

#[test]
fn a_ring_with_any_one_link_down_is_brought_up(rt: HostRuntime) {
    for (link, row) in LINKS.iter().enumerate() {
        is_brought(&rt, row, link);
    }
}
