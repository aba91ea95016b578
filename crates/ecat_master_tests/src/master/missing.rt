//! Lines that cannot be brought up.

use super::stage::{Row, Told, assert_rows};

/// What is told where a line is not as it was wanted.
static ROWS: [Row; 3] = [
    Row {
        name: "a missing slave is told",
        slaves: 2,
        down: &[],
        told: Told::Same,
        events: &[],
        stop: false,
        cycles: 2,
        status: 1,
        text: "slaves 2, wanted 3\nfault: another number of slaves\n",
    },
    Row {
        name: "a slave that refuses is named with its code",
        slaves: 3,
        down: &[],
        told: Told::LongOutputs,
        events: &[],
        stop: false,
        cycles: 2,
        status: 1,
        text: "slaves 3\nring whole\nstations given\nall in Init\nall in Pre-Op\n\
            fault: slave 1 (0x1002): Safe-Op: refused 0x001d invalid output configuration\n",
    },
    Row {
        name: "a cable that cuts a slave off is told",
        slaves: 3,
        down: &[1, 2],
        told: Told::Same,
        events: &[],
        stop: false,
        cycles: 2,
        status: 1,
        text: "slaves 2, wanted 3\nlinks 1 and 2 down: slave 1 cut off (0x1002)\n\
            fault: another number of slaves\n",
    },
];

#[test]
fn a_line_that_cannot_be_brought_up_is_told(rt: HostRuntime) {
    assert_rows(&rt, &ROWS);
}
