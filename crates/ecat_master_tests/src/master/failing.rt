//! An output that fails, each of its writes in turn.

use super::stage::{Stage, Told, assert_runs, ring_with, usual_plan, wanted_with};
use std::io::{self, Write};
use std::process::Abort;

/// An output whose write after so many fails.
#[derive(Drop)]
struct Stops {
    left: usize,
}

impl Write for Stops {
    fn write(&mut self, bytes: &[u8]) -> io::Result<usize> {
        if self.left == 0 {
            return Err(io::Error::from(io::ErrorKind::BrokenPipe));
        }
        self.left -= 1;
        Ok(bytes.len())
    }

    fn flush(&mut self) -> io::Result<()> {
        Ok(())
    }
}

/// The writes, each of which fails in turn: seven lines of start-up, that of the end, those of the
/// sums and the time, and that of the item.
static WRITES: [&str; 11] = [
    "slaves", "ring", "stations", "Init", "Pre-Op", "Safe-Op", "Op", "left", "the sums",
    "the time", "the item",
];

/// Asserts the status of a run whose write after so many fails.
fn assert_status(rt: &(impl AllocGlobal + Abort), row: &str, left: usize, status: u8) {
    let line = wanted_with(rt, Told::Same);
    let ports = Stage::new(ring_with(rt, 3, &[]), &[]);
    let out = &mut Stops { left };
    assert_runs(
        rt,
        row,
        ports,
        line.as_slice(),
        &usual_plan(),
        3,
        out,
        status,
    );
}

#[test]
fn each_write_of_the_output_fails_in_turn(rt: HostRuntime) {
    for (left, row) in WRITES.iter().enumerate() {
        assert_status(&rt, row, left, 3);
    }
    assert_status(&rt, "no write fails", WRITES.len(), 0);
}
