//! Times and their stamps, and what goes out of lines that are written in pieces.

use crate::{Stamped, Utc, stamp_of};
use std::cell::Cell;
use std::io::Write;
use std::process::Abort;

/// Times, in nanoseconds since 1970, and their stamps: leap days and the days behind them, where there is one
/// and where there is none, the ends of years, those of 31 bits of seconds, and the last time.
const STAMPS: [(u64, &str); 21] = [
    (0, "1970-01-01T00:00:00.000Z "),
    (86_399_999_999_999, "1970-01-01T23:59:59.999Z "),
    (5_054_400_001_000_000, "1970-02-28T12:00:00.001Z "),
    (68_169_600_000_999_999, "1972-02-29T00:00:00.000Z "),
    (68_256_000_000_000_000, "1972-03-01T00:00:00.000Z "),
    (946_684_799_999_999_999, "1999-12-31T23:59:59.999Z "),
    (946_684_800_000_000_000, "2000-01-01T00:00:00.000Z "),
    (951_804_428_009_000_000, "2000-02-29T06:07:08.009Z "),
    (951_868_800_000_000_000, "2000-03-01T00:00:00.000Z "),
    (978_307_199_000_000_000, "2000-12-31T23:59:59.000Z "),
    (1_677_628_799_999_000_000, "2023-02-28T23:59:59.999Z "),
    (1_677_628_800_000_000_000, "2023-03-01T00:00:00.000Z "),
    (1_709_251_199_100_000_000, "2024-02-29T23:59:59.100Z "),
    (1_796_098_563_123_999_999, "2026-12-01T04:16:03.123Z "),
    (2_147_483_647_000_000_000, "2038-01-19T03:14:07.000Z "),
    (2_147_483_648_000_000_000, "2038-01-19T03:14:08.000Z "),
    (4_102_444_799_999_999_999, "2099-12-31T23:59:59.999Z "),
    (4_107_542_399_000_000_000, "2100-02-28T23:59:59.000Z "),
    (4_107_542_400_000_000_000, "2100-03-01T00:00:00.000Z "),
    (13_574_608_496_789_000_000, "2400-02-29T12:34:56.789Z "),
    (18_446_744_073_709_551_615, "2554-07-21T23:34:33.709Z "),
];

/// Asserts the stamp of a time.
fn assert_stamp(rt: &impl Abort, nanoseconds: u64, wanted: &str) {
    let stamp = stamp_of(nanoseconds);
    assert!(rt; stamp.as_str() == wanted, "{wanted} and not {stamp}");
}

#[test]
fn a_time_is_that_of_the_millisecond_that_has_begun(rt: HostRuntime) {
    for (nanoseconds, wanted) in STAMPS {
        assert_stamp(&rt, nanoseconds, wanted);
    }
}

/// Pieces that are written, of which the last ones may be answers, and the lines that become of them, each
/// without its time where it has one.
struct Row {
    pieces: [&'static str; 3],
    answers: &'static str,
    written: &'static [(bool, &'static str)],
}

/// In their order: a line; two in one piece; one in three pieces; nothing; answers behind a line; the end of
/// a line, and an answer behind it.
const ROWS: [Row; 6] = [
    Row {
        pieces: ["slaves 3\n", "", ""],
        answers: "",
        written: &[(true, "slaves 3\n")],
    },
    Row {
        pieces: ["slaves 3\nring whole\n", "", ""],
        answers: "",
        written: &[(true, "slaves 3\n"), (true, "ring whole\n")],
    },
    Row {
        pieces: ["cycle 0: ", "ring whole", " again\n"],
        answers: "",
        written: &[(true, "cycle 0: ring whole again\n")],
    },
    Row {
        pieces: ["", "", ""],
        answers: "",
        written: &[],
    },
    Row {
        pieces: ["all in Op\n", "", ""],
        answers: "ring whole\nok\n",
        written: &[
            (true, "all in Op\n"),
            (false, "ring whole\n"),
            (false, "ok\n"),
        ],
    },
    Row {
        pieces: ["all in", "", ""],
        answers: " Op\nok\n",
        written: &[(true, "all in Op\n"), (false, "ok\n")],
    },
];

/// How many bytes a stamp has in the years of four digits.
const STAMP: usize = 25;

/// Takes a line off what was written, with its stamp if it is to have one, and answers what is left.
fn line_off<'a>(rt: &impl Abort, written: &'a [u8], has_time: bool, line: &str) -> &'a [u8] {
    let stamp = if has_time { STAMP } else { 0 };
    let all = stamp + line.len();
    assert!(rt; written.len() >= all, "{line} is written");
    assert!(rt; &written[stamp..all] == line.as_bytes(), "{line}");
    assert!(rt;
        !has_time || &written[STAMP - 2..STAMP] == b"Z ".as_slice(),
        "{line} has a time"
    );
    &written[all..]
}

/// Asserts what becomes of the pieces of a row.
fn assert_row(rt: &impl Abort, row: &Row, utc: &Option<Utc<'_, HostRuntime>>) {
    let are_put = Cell::new(true);
    let mut room = [0; 128];
    let mut out = room.as_mut_slice();
    let mut lines = Stamped::new(&mut out, utc, &are_put);
    for piece in &row.pieces {
        assert!(rt; lines.write_all(piece.as_bytes()).is_ok(), "{piece}");
    }
    are_put.set(false);
    assert!(rt; lines.write_all(row.answers.as_bytes()).is_ok(), "answers");
    let count = 128 - out.len().min(128);
    let mut left = &room[..count];
    for (has_time, line) in row.written {
        left = line_off(rt, left, *has_time, line);
    }
    assert!(rt; left.is_empty(), "nothing is behind");
}

#[test]
fn each_line_begins_with_the_time(rt: HostRuntime) {
    let Ok(utc) = Utc::begin(&rt) else {
        return;
    };
    let utc = Some(utc);
    for row in &ROWS {
        assert_row(&rt, row, &utc);
    }
}

#[test]
fn without_a_clock_lines_stay_as_they_are(rt: HostRuntime) {
    let utc: Option<Utc<'_, HostRuntime>> = None;
    let are_put = Cell::new(true);
    let mut room = [0; 32];
    let mut out = room.as_mut_slice();
    let mut lines = Stamped::new(&mut out, &utc, &are_put);
    assert!(rt;
        lines.write_all(b"slaves 3\nring whole\n").is_ok(),
        "two lines"
    );
    assert!(rt;
        &room[..20] == b"slaves 3\nring whole\n".as_slice(),
        "they are as they were"
    );
}
