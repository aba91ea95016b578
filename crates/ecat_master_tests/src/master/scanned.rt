//! What stands on a line, read from the line itself.

use super::stage::{ROOM, Stage, Told, ring_with, wanted_with, written};
use crate::asserts::assert_found;
use ec_run::Watched;
use ecat_master::{Unfound, scan, start};
use ecat_text::Lines;
use std::io::Cursor;
use std::process::Abort;

/// A line that is scanned, and what is printed of it.
struct Row {
    name: &'static str,
    /// How many slaves the ring has.
    slaves: u16,
    /// The links that are down.
    down: &'static [usize],
    /// Whether the slaves were brought up before.
    starts: bool,
    /// Whether a copy came back and all of them could be read.
    all: bool,
    text: &'static str,
}

/// Lines that are whole or broken, brought up or not.
static ROWS: [Row; 4] = [
    Row {
        name: "a line that was brought up is scanned",
        slaves: 3,
        down: &[],
        starts: true,
        all: true,
        text: "slaves 3\nring whole\n\
            slave 0 station 0x1001 state Op sm 0 0x1800 32 mailbox-write sm 1 0x1880 32 mailbox-read \
            sm 2 0x1000 1 write sm 3 0x1100 1 read fmmu 0 0x00010000 1 0 7 0x1000 0 write \
            fmmu 1 0x00010000 1 0 7 0x1100 0 read 0x1018:1 0x00000002 0x1018:2 abort 0x06090011\n\
            slave 1 station 0x1002 state Op sm 0 0x1800 32 mailbox-write sm 1 0x1880 32 mailbox-read \
            sm 2 0x1000 1 write sm 3 0x1100 1 read fmmu 0 0x00010001 1 0 7 0x1000 0 write \
            fmmu 1 0x00010001 1 0 7 0x1100 0 read 0x1018:1 0x00000002 0x1018:2 abort 0x06090011\n\
            slave 2 station 0x1003 state Op sm 0 0x1800 32 mailbox-write sm 1 0x1880 32 mailbox-read \
            sm 2 0x1000 1 write sm 3 0x1100 1 read fmmu 0 0x00010002 1 0 7 0x1000 0 write \
            fmmu 1 0x00010002 1 0 7 0x1100 0 read 0x1018:1 0x00000002 0x1018:2 abort 0x06090011\n",
    },
    Row {
        name: "slaves that were told nothing are scanned",
        slaves: 2,
        down: &[],
        starts: false,
        all: true,
        text: "slaves 2\nring whole\nslave 0 station 0x0000 state Init\n\
            slave 1 station 0x0000 state Init\n",
    },
    // Slave 1 is the first behind the broken link, and slave 0 the first from port A: by a place of 0 both
    // answer. Slave 2 is the second behind it, and there is no second one before it.
    Row {
        name: "a slave with a twin before the broken link is not read",
        slaves: 3,
        down: &[1],
        starts: false,
        all: false,
        text: "slaves 3\nlink 1 down\nslave 0 station 0x0000 state Init\nslave 1 BadAnswer \
        (while the cable is broken, another slave may answer for it)\n\
            slave 2 station 0x0000 state Init\n",
    },
    Row {
        name: "nothing is known where no copy comes back",
        slaves: 3,
        down: &[0, 3],
        starts: false,
        all: false,
        text: "nobody answers at A\n",
    },
];

/// Brings up three slaves.
fn brings_up(rt: &(impl AllocGlobal + Abort), ports: &mut Watched<Stage<'_>>) {
    let line = wanted_with(rt, Told::Same);
    let mut out = Cursor::new([0u8; ROOM]);
    let started = start(ports, line.as_slice(), &[], &mut Lines::new(&mut out));
    assert!(rt; started.is_ok());
}

/// Asserts what a scan prints.
fn assert_row(rt: &(impl AllocGlobal + Abort), row: &Row) {
    let ring = ring_with(rt, row.slaves, row.down);
    let mut ports = Watched::new(Stage::new(ring, &[]));
    if row.starts {
        brings_up(rt, &mut ports);
    }
    let mut out = Cursor::new([0u8; ROOM]);
    let scanned = scan(&mut ports, &mut Lines::new(&mut out), &mut Unfound).ok();
    assert_found(rt, row.name, scanned, Some(row.all));
    assert_found(rt, row.name, written(&out), row.text);
}

#[test]
fn lines_are_scanned(rt: HostRuntime) {
    for row in &ROWS {
        assert_row(&rt, row);
    }
}
