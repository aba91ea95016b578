//! Reads and writes that fail, each in turn.

use crate::outputs::{NoRoom, ROOM, Stops, written};
use crate::reading::{EXAMPLE, is_want_of_memory, scene_of};
use ecat_record::unrecorded;
use ecat_scene::Scene;
use ecat_setup::{LineFailure, text_of};
use ecat_simulation::{Asked, check, cover, lint, run, sdo, sweep, where_broken};
use ecat_source::{Bytes, FailsAt, Source};
use std::alloc::Global;
use std::io::{self, Cursor, Write};
use std::process::Abort;

/// A command over a scene.
#[derive(Clone, Copy)]
enum Command {
    Check,
    Cover,
    Judge,
    Lint,
    Run,
    Sweep,
    Where,
}

impl Command {
    /// Does the command over a source.
    fn act<S: Source, W: Write>(
        self,
        alloc: Global,
        source: &mut S,
        out: &mut W,
    ) -> Result<u8, LineFailure> {
        let text = text_of(alloc, source)?;
        let scene = Scene::read(alloc, text.as_slice())?;
        match self {
            Command::Check => check(alloc, &scene, out),
            Command::Cover => cover(alloc, &scene, out),
            Command::Judge => run(alloc, true, &mut unrecorded(), scene, out),
            Command::Lint => lint(alloc, text.as_slice(), &scene, out),
            Command::Run => run(alloc, false, &mut unrecorded(), scene, out),
            Command::Sweep => sweep(alloc, scene, out),
            Command::Where => where_broken(alloc, scene, out),
        }
    }
}

/// What `sdo` is asked of the example.
const ASKED: Asked = Asked {
    station: 0x1001,
    index: 0x1018,
    sub: 1,
    value: None,
    surely: false,
};

/// All commands over a scene.
const COMMANDS: [Command; 7] = [
    Command::Check,
    Command::Cover,
    Command::Judge,
    Command::Lint,
    Command::Run,
    Command::Sweep,
    Command::Where,
];

/// How many bytes a read gives.
const PIECE: usize = 50;

/// Room for all that a sweep prints of a long line.
const LONG_ROOM: usize = 10_240;

/// After how many bytes an output fails: `sweep` writes 4,096 at once.
const PLACES: [usize; 6] = [0, 1, 4095, 4096, 4097, LONG_ROOM];

/// A line of which a sweep prints more than what is written at once.
const LONG: &[u8] =
    b"slave 1\nslave 2\nslave 3\nslave 4\nslave 5\nslave 6\nslave 7\nslave 8\nslave 9\nslave 10\n\
    slave 11\nslave 12\nslave 13\nslave 14\nslave 15\nbrd 0x0130 0000\n";

/// An output that keeps what it takes, and fails when it has taken so much.
#[derive(Drop)]
struct Bounded {
    kept: Cursor<[u8; LONG_ROOM]>,
    left: usize,
}

impl Bounded {
    /// One that fails after so many bytes.
    fn new(left: usize) -> Bounded {
        Bounded {
            kept: Cursor::new([0; LONG_ROOM]),
            left,
        }
    }

    /// What it took.
    fn taken(&self) -> &[u8] {
        let count = self.kept.position().min(LONG_ROOM as u64) as usize;
        &self.kept.get_ref()[..count]
    }
}

impl Write for Bounded {
    fn write(&mut self, bytes: &[u8]) -> io::Result<usize> {
        if self.left == 0 {
            return Err(io::Error::from(io::ErrorKind::BrokenPipe));
        }
        let count = bytes.len().min(self.left);
        self.left -= count;
        self.kept.write(&bytes[..count])
    }

    fn flush(&mut self) -> io::Result<()> {
        Ok(())
    }
}

/// Does `sdo` over a source.
fn transfer<S: Source, W: Write>(
    alloc: Global,
    source: &mut S,
    out: &mut W,
) -> Result<u8, LineFailure> {
    let mut err = Cursor::new([0u8; ROOM]);
    sdo(alloc, &ASKED, scene_of(alloc, source)?, out, &mut err)
}

/// Asserts that a command ended since the output failed, or memory ran out.
fn assert_output_failed(rt: &impl Abort, done: Result<u8, LineFailure>, writes: usize) {
    let failed = match &done {
        Ok(_) => false,
        Err(failure) => matches!(failure, LineFailure::Output) || is_want_of_memory(failure),
    };
    assert!(rt; failed, "write {writes}");
}

/// Asserts that a command ended since a read failed, or memory ran out, and that it printed nothing.
fn assert_read_failed(
    rt: &impl Abort,
    done: Result<u8, LineFailure>,
    printed: &Cursor<[u8; ROOM]>,
    reads: u64,
) {
    let failed = match &done {
        Ok(_) => false,
        Err(failure) => matches!(failure, LineFailure::Read) || is_want_of_memory(failure),
    };
    assert!(rt; failed && written(printed).is_empty(), "read {reads}");
}

#[test]
fn each_write_that_fails_ends_a_run(rt: HostRuntime) {
    for writes in 0..3usize {
        let mut out = Stops { left: writes };
        let done = Command::Run.act(rt.alloc(), &mut Bytes::new(EXAMPLE), &mut out);
        assert_output_failed(&rt, done, writes);
    }
}

#[test]
fn an_output_that_takes_nothing_ends_a_run(rt: HostRuntime) {
    let done = Command::Run.act(rt.alloc(), &mut Bytes::new(EXAMPLE), &mut NoRoom);
    assert_output_failed(&rt, done, 0);
}

#[test]
fn a_write_that_fails_ends_each_command(rt: HostRuntime) {
    for command in &COMMANDS {
        if !matches!(command, Command::Lint) {
            let mut out = Stops { left: 0 };
            let done = command.act(rt.alloc(), &mut Bytes::new(EXAMPLE), &mut out);
            assert_output_failed(&rt, done, 0);
        }
    }
    let done = transfer(rt.alloc(), &mut Bytes::new(EXAMPLE), &mut Stops { left: 0 });
    assert_output_failed(&rt, done, 0);
}

#[test]
fn each_read_that_fails_ends_each_command(rt: HostRuntime) {
    for reads in 0..6u64 {
        for command in &COMMANDS {
            let mut printed = Cursor::new([0u8; ROOM]);
            let mut source = FailsAt::new(EXAMPLE, PIECE, reads);
            let done = command.act(rt.alloc(), &mut source, &mut printed);
            assert_read_failed(&rt, done, &printed, reads);
        }
        let mut printed = Cursor::new([0u8; ROOM]);
        let mut source = FailsAt::new(EXAMPLE, PIECE, reads);
        let done = transfer(rt.alloc(), &mut source, &mut printed);
        assert_read_failed(&rt, done, &printed, reads);
    }
}

/// An output that fails has taken what comes before that place, and nothing else.
#[test]
fn a_sweep_ends_with_its_output_behind_a_front(rt: HostRuntime) {
    let mut whole = Bounded::new(LONG_ROOM);
    let all = Command::Sweep.act(rt.alloc(), &mut Bytes::new(LONG), &mut whole);
    if all.is_err() {
        return;
    }
    assert!(rt; whole.taken().len() > 4097 && whole.taken().len() < LONG_ROOM);
    for room in PLACES {
        let mut out = Bounded::new(room);
        let done = Command::Sweep.act(rt.alloc(), &mut Bytes::new(LONG), &mut out);
        assert!(rt; whole.taken().starts_with(out.taken()), "{room}");
        let is_so = match &done {
            Ok(_) => out.taken() == whole.taken(),
            Err(LineFailure::Output) => out.taken().len() == room,
            Err(failure) => is_want_of_memory(failure),
        };
        assert!(rt; is_so, "{room}");
    }
}
