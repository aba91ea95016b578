//! What goes out and what is left out, to readers that take some writes and not others.

use crate::{AT_ONCE, Behind, Reader, Records, Unblocking};
use std::cell::Cell;
use std::io::{self, ErrorKind, Write};
use std::os::fd::AsRawFd;
use std::process::Abort;

/// A reader that takes the writes of which this says so, and no other one; it keeps for how long it was asked
/// to be waited for last.
#[derive(Drop)]
struct Script<'a> {
    takes: &'a [bool],
    asked: usize,
    waited: &'a Cell<i32>,
}

impl Reader for Script<'_> {
    fn takes(&mut self, milliseconds: i32) -> bool {
        self.waited.set(milliseconds);
        let takes = self.takes.get(self.asked).is_some_and(|takes| *takes);
        self.asked = self.asked.saturating_add(1);
        takes
    }
}

/// Pieces that are written, four bytes at once, which of them the reader takes, and what becomes of them.
struct Row {
    pieces: [&'static str; 3],
    takes: [bool; 4],
    written: &'static str,
    left_out: u64,
}

/// In their order: each is taken; one is not; of two in one piece the first is not; one stops amid a long
/// line; a line in pieces loses its rest; one loses its beginning; the end of a line that was cut off is not
/// taken either; none is ever taken.
const ROWS: [Row; 8] = [
    Row {
        pieces: ["one\n", "two\n", ""],
        takes: [true, true, false, false],
        written: "one\ntwo\n",
        left_out: 0,
    },
    Row {
        pieces: ["one\n", "two\n", ""],
        takes: [false, true, false, false],
        written: "two\n",
        left_out: 1,
    },
    Row {
        pieces: ["one\ntwo\n", "", ""],
        takes: [false, true, false, false],
        written: "two\n",
        left_out: 1,
    },
    Row {
        pieces: ["longer\n", "two\n", ""],
        takes: [true, false, true, true],
        written: "long\ntwo\n",
        left_out: 1,
    },
    Row {
        pieces: ["one", "more\n", "two\n"],
        takes: [true, false, true, true],
        written: "one\ntwo\n",
        left_out: 1,
    },
    Row {
        pieces: ["one", "more\n", "two\n"],
        takes: [false, true, false, false],
        written: "two\n",
        left_out: 1,
    },
    Row {
        pieces: ["longer\n", "two\n", "six\n"],
        takes: [true, false, false, true],
        written: "long\n",
        left_out: 3,
    },
    Row {
        pieces: ["one\n", "longer\ntwo\n", ""],
        takes: [false, false, false, false],
        written: "",
        left_out: 3,
    },
];

/// Asserts what becomes of the pieces of a row.
fn assert_row(rt: &impl Abort, row: &Row, written: &mut [u8]) {
    let (is_patient, waited) = (Cell::new(false), Cell::new(-1));
    let mut room = written;
    let reader = Script {
        takes: &row.takes,
        asked: 0,
        waited: &waited,
    };
    let mut lines = Unblocking::new(&mut room, reader, 4, &is_patient);
    for piece in &row.pieces {
        assert!(rt; lines.write_all(piece.as_bytes()).is_ok(), "{piece}");
    }
    let (found, wanted) = (lines.left_out(), row.left_out);
    assert!(rt;
        found == wanted,
        "{}: {found} lines left out, wanted {wanted}",
        row.written
    );
    assert!(rt; waited.get() <= 0, "waited for {}", row.written);
}

#[test]
fn what_is_left_out_is_whole_lines(rt: HostRuntime) {
    for row in &ROWS {
        let mut written = [0; 16];
        assert_row(&rt, row, &mut written);
        let count = row.written.len().min(16);
        assert!(rt;
            &written[..count] == row.written.as_bytes(),
            "{}",
            row.written
        );
        assert!(rt;
            written[count..].iter().all(|byte| *byte == 0),
            "behind {}",
            row.written
        );
    }
}

#[test]
fn a_patient_writer_waits_until_its_reader_has_stopped(rt: HostRuntime) {
    let (is_patient, waited) = (Cell::new(true), Cell::new(-1));
    let mut room = [0; 64];
    let mut out = room.as_mut_slice();
    let reader = Script {
        takes: &[true, false, false, true, true],
        asked: 0,
        waited: &waited,
    };
    let mut lines = Unblocking::new(&mut out, reader, 4, &is_patient);
    for wanted in [1000, 1000, 0, 0, 1000] {
        assert!(rt; lines.write_all(b"one\n").is_ok(), "a line");
        assert!(rt; waited.get() == wanted, "{} and not {wanted}", waited.get());
    }
    is_patient.set(false);
    assert!(rt; lines.write_all(b"one\n").is_ok(), "a line");
    assert!(rt; waited.get() == 0, "{}", waited.get());
    assert!(rt; lines.left_out() == 3, "{}", lines.left_out());
}

#[test]
fn lines_that_nobody_takes_are_counted(rt: HostRuntime) {
    let patient = Cell::new(false);
    let mut room = [0; 64];
    let mut out = room.as_mut_slice();
    let reader = Behind(rt.stdout().as_raw_fd());
    let mut lines = Unblocking::new(&mut out, reader, AT_ONCE, &patient);
    assert!(rt; lines.write_all(b"cycle 0 good\n").is_ok(), "a line");
    let left_out = lines.left_out();
    assert!(rt; left_out <= 1, "{left_out}");
}

/// A writer that takes so many bytes at each call in turn; where that is 0, it would have to wait.
#[derive(Drop)]
struct Narrow<'a> {
    takes: &'a [usize],
    call: usize,
    written: [u8; 16],
    count: usize,
}

impl Write for Narrow<'_> {
    fn write(&mut self, bytes: &[u8]) -> io::Result<usize> {
        let takes = self.takes.get(self.call).copied().unwrap_or(0);
        self.call = self.call.saturating_add(1);
        if takes == 0 {
            return Err(io::Error::from(ErrorKind::WouldBlock));
        }
        let from = self.count.min(16);
        let taken = takes.min(bytes.len()).min(16 - from);
        self.written[from..from + taken].copy_from_slice(&bytes[..taken]);
        self.count = from + taken;
        Ok(taken)
    }

    fn flush(&mut self) -> io::Result<()> {
        Ok(())
    }
}

#[test]
fn what_would_have_to_wait_is_left_out(rt: HostRuntime) {
    let (is_patient, waited) = (Cell::new(false), Cell::new(-1));
    let mut narrow = Narrow {
        takes: &[4, 2, 0, 1, 4, 0],
        call: 0,
        written: [0; 16],
        count: 0,
    };
    let reader = Script {
        takes: &[true; 16],
        asked: 0,
        waited: &waited,
    };
    let mut lines = Unblocking::new(&mut narrow, reader, AT_ONCE, &is_patient);
    for line in ["one\n", "two\n", "six\n", "ten\n"] {
        assert!(rt; lines.write_all(line.as_bytes()).is_ok(), "{line}");
    }
    let left_out = lines.left_out();
    assert!(rt; left_out == 2, "{left_out}");
    assert!(rt;
        narrow.written == *b"one\ntw\nsix\n\0\0\0\0\0",
        "what goes out"
    );
}

#[test]
fn records_that_nobody_takes_are_left_out_whole(rt: HostRuntime) {
    let (is_patient, waited) = (Cell::new(false), Cell::new(-1));
    let narrow = Narrow {
        takes: &[4, 0, 4],
        call: 0,
        written: [0; 16],
        count: 0,
    };
    let reader = Script {
        takes: &[true, false, true, true],
        asked: 0,
        waited: &waited,
    };
    let mut records = Records::new(narrow, reader, &is_patient);
    // the second one is not asked for, and the third would have to wait
    for record in ["\n\0\n1", "\n\0\n2", "\n\0\n3", "\n\0\n4"] {
        assert!(rt; records.write_all(record.as_bytes()).is_ok(), "{record}");
    }
    assert!(rt; records.left_out() == 2, "{}", records.left_out());
    assert!(rt; waited.get() == 0, "nobody is waited for");
    is_patient.set(true);
    assert!(rt; records.write_all(b"more").is_ok(), "one more");
    assert!(rt; waited.get() == 1_000, "who reads is waited for");
}
