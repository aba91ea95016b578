//! What writes reach: sync managers that are on or off, several records at once.

use crate::told::play::{At, Back, Row, assert_played};
use ec_wire::Command::{Apwr, Fprd, Fpwr};
use ecat_told::Byte::{Guessed, Told, Untold};
use ecat_told::Known;

/// The record of sync manager 0 lies from place 136 on: start, length, control, status, activate, PDI
/// control. While it is on, its first five bytes are not written; status and PDI control never are.
const MANAGERS: [Row; 7] = [
    Row(Back(Apwr, 0, 0x0010, &[1, 0], &[1, 0], 1, 1), &[]),
    // Whether it was on is not told: a guess.
    Row(
        Back(Fpwr, 1, 0x0800, &[0x00, 0x10], &[0x00, 0x10], 1, 0),
        &[
            At(136, Guessed(0x00)),
            At(137, Guessed(0x10)),
            At(142, Untold),
        ],
    ),
    Row(
        Back(Fpwr, 1, 0x0800, &[0; 8], &[0; 8], 1, 0),
        &[
            At(136, Guessed(0)),
            At(141, Untold),
            At(142, Told(0)),
            At(143, Untold),
        ],
    ),
    // It is off.
    Row(
        Back(
            Fpwr,
            1,
            0x0800,
            &[0x00, 0x18, 0x20, 0x00, 0x26, 0xff, 0x01, 0xff],
            &[0x00, 0x18, 0x20, 0x00, 0x26, 0xff, 0x01, 0xff],
            1,
            0,
        ),
        &[
            At(136, Told(0x00)),
            At(137, Told(0x18)),
            At(138, Told(0x20)),
            At(140, Told(0x26)),
            At(141, Untold),
            At(142, Told(0x01)),
            At(143, Untold),
        ],
    ),
    // It is on.
    Row(
        Back(
            Fpwr,
            1,
            0x0800,
            &[0x55, 0x55, 0x55, 0x55, 0x55],
            &[0x55; 5],
            1,
            0,
        ),
        &[
            At(136, Told(0x00)),
            At(137, Told(0x18)),
            At(140, Told(0x26)),
        ],
    ),
    // One write over two records: the first is on and is switched off, the second one is as it was not told.
    Row(
        Back(
            Fpwr,
            1,
            0x0806,
            &[0x00, 0x00, 0x80, 0x18],
            &[0x00, 0x00, 0x80, 0x18],
            1,
            0,
        ),
        &[
            At(142, Told(0)),
            At(143, Untold),
            At(144, Guessed(0x80)),
            At(145, Guessed(0x18)),
        ],
    ),
    // What is read is told, status too.
    Row(
        Back(Fprd, 1, 0x0805, &[0, 0], &[0x08, 0x01], 1, 0),
        &[At(141, Told(0x08)), At(142, Told(0x01))],
    ),
];

#[test]
fn a_sync_manager_that_is_on_keeps_its_area(rt: HostRuntime) {
    let mut known = Known::new(rt.alloc());
    assert_played(&rt, &mut known, &MANAGERS);
}
