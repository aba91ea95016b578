#![tactic(auto)]
//! The works of the benchmark on this side: what `bench/works` compares with a peer in plain Rust.
//!
//! With no argument it lists the works. With the argument `measure` it prints a line for each: its name and
//! the picoseconds of one run, the best of many.

ghost use Rattle.std.specs.Prelude.{◌≡◌, length};

mod checker;
mod ring;

use checker::{checking, covering, showing};
use ec_esc::Controller;
use ec_merge::join_bytes;
use ec_regs::{Fmmu, SyncMan};
use ec_wire::{Form, FrameBuf};
use ring::{cycling, walking};
use std::process::ExitCode;
use std::rt::{Clock, Env};
use std::time::Instant;
use std::{env, io};

/// How often a work runs between two looks at the clock.
const RUNS: u32 = 1000;

/// How often its time is taken.
const ROUNDS: u32 = 20;

/// The works, by name.
const WORKS: [&str; 11] = [
    "read_1",
    "read_124",
    "lrw_1486_aligned",
    "lrd_1486_odd",
    "brd_1486",
    "join_1486",
    "check_256",
    "uncovered_256",
    "not_shown_256",
    "ring_256",
    "cycle_256",
];

/// What runs will hardly have seen.
const UNLIKELY: u64 = 0x9E37_79B9_7F4A_7C15;

fn main(rt: HostRuntime) -> ExitCode {
    match start(&rt, &mut rt.stdout()) {
        Ok(()) => ExitCode::from(0),
        Err(_) => ExitCode::from(1),
    }
}

/// Lists the works, or measures them where an argument is given.
fn start<R, W>(rt: &R, out: &mut W) -> io::Result<()>
where
    R: Env + Clock + AllocGlobal,
    W: io::Write,
{
    if env::args(rt)?.len() < 2 {
        for name in WORKS {
            writeln!(out, "{name}")?;
        }
        return Ok(());
    }
    measure_reading(rt, out)?;
    measure_whole_bytes(rt, out)?;
    measure_odd_bits(rt, out)?;
    writeln!(out, "join_1486 {}", joining(rt)?)?;
    writeln!(out, "check_256 {}", checking(rt)?)?;
    writeln!(out, "uncovered_256 {}", covering(rt)?)?;
    writeln!(out, "not_shown_256 {}", showing(rt)?)?;
    writeln!(out, "ring_256 {}", walking(rt)?)?;
    writeln!(out, "cycle_256 {}", cycling(rt)?)
}

/// Measures the reading of frames.
fn measure_reading<R: Clock, W: io::Write>(rt: &R, out: &mut W) -> io::Result<()> {
    writeln!(out, "read_1 {}", reading(rt, &mut one(0x0C, 0x0001_0000))?)?;
    writeln!(out, "read_124 {}", reading(rt, &mut many())?)
}

/// Measures a controller whose FMMUs map whole bytes.
fn measure_whole_bytes<R, W>(rt: &R, out: &mut W) -> io::Result<()>
where
    R: Clock + AllocGlobal,
    W: io::Write,
{
    let Ok(mut slave) = Controller::new(rt.alloc(), 0x1001) else {
        return Err(io::Error::from(io::ErrorKind::OutOfMemory));
    };
    map_whole_bytes(&mut slave);
    let lrw = one(0x0C, 0x0001_0000);
    writeln!(out, "lrw_1486_aligned {}", passing(rt, &mut slave, &lrw)?)
}

/// Measures a controller whose FMMUs map bits at odd places, and reads its registers too.
fn measure_odd_bits<R, W>(rt: &R, out: &mut W) -> io::Result<()>
where
    R: Clock + AllocGlobal,
    W: io::Write,
{
    let Ok(mut slave) = Controller::new(rt.alloc(), 0x1001) else {
        return Err(io::Error::from(io::ErrorKind::OutOfMemory));
    };
    map_odd_bits(&mut slave);
    let lrd = one(0x0A, 0x0001_0000);
    writeln!(out, "lrd_1486_odd {}", passing(rt, &mut slave, &lrd)?)?;
    let brd = one(0x07, 0x0130_0000);
    writeln!(out, "brd_1486 {}", passing(rt, &mut slave, &brd)?)
}

/// Eight FMMUs of 185 whole bytes each, by turns for reading and for writing, and the areas onto which they
/// map.
fn map_whole_bytes(slave: &mut Controller) {
    for k in 0..8usize {
        let physical = 0x1000 + 185 * k as u16;
        let logical = 0x0001_0000 + 185 * k as u32;
        if k % 2 == 1 {
            slave.set_fmmu(k, &Fmmu::writing(logical, 185, physical));
            slave.set_syncman(k, &SyncMan::outputs(physical, 185));
        } else {
            slave.set_fmmu(k, &Fmmu::reading(logical, 185, physical));
            slave.set_syncman(k, &SyncMan::inputs(physical, 185));
        }
    }
}

/// Eight FMMUs for reading, each from bit 3 of one of 185 bytes to bit 4 of the last, onto bits from bit 5
/// on.
fn map_odd_bits(slave: &mut Controller) {
    for k in 0..8usize {
        let logical = 0x0001_0000 + 185 * k as u32;
        let physical = 0x1000 + 186 * k as u16;
        let fmmu = Fmmu {
            start: 3,
            stop: 4,
            bit: 5,
            ..Fmmu::reading(logical, 185, physical)
        };
        slave.set_fmmu(k, &fmmu);
    }
}

/// A frame of one datagram with 1,486 bytes of data.
fn one(command: u8, address: u32) -> [u8; 1500] {
    let mut bytes = [0; 1500];
    bytes[0] = 0xDA;
    bytes[1] = 0x15;
    bytes[2] = command;
    bytes[4..8].copy_from_slice(&address.to_le_bytes());
    bytes[8] = 0xCE;
    bytes[9] = 0x05;
    bytes
}

/// A frame of 124 datagrams with no data.
fn many() -> [u8; 1490] {
    let mut bytes = [0; 1490];
    for k in 0..123usize {
        bytes[12 * k + 9] = 0x80;
    }
    bytes[0] = 0xD0;
    bytes[1] = 0x15;
    bytes
}

/// The picoseconds of reading a frame's bytes into a frame that is kept.
fn reading(rt: &impl Clock, bytes: &mut [u8]) -> io::Result<u64> {
    let Ok(mut frame) = FrameBuf::read(bytes, Form::Udp) else {
        return Ok(0);
    };
    let mut best = u64::MAX;
    for _round in 0..ROUNDS {
        let start = Instant::now(rt)?;
        let mut seen = 0u64;
        for run in 0..RUNS {
            // Each frame has another index than the one before, so that none is read ahead of the loop.
            if let Some(index) = bytes.get_mut(3) {
                *index = (run % 256) as u8;
            }
            if frame.refill(bytes, Form::Udp).is_ok() {
                seen = seen.wrapping_mul(31).wrapping_add(seen_of(frame.bytes()));
            }
        }
        best = best.min(picoseconds(start.elapsed(rt)?.subsec_nanos(), seen));
    }
    Ok(best)
}

/// The index of a frame's first datagram and the last byte of the frame, as a number.
fn seen_of(frame: &[u8]) -> u64 {
    let index = frame.get(3).copied().unwrap_or(0);
    let last = frame.last().copied().unwrap_or(0);
    u64::from(index) + u64::from(last)
}

/// The picoseconds of one run where all took some nanoseconds. What the runs have seen must be computed to
/// tell it from a number that it will hardly be, so no run is left out.
fn picoseconds(nanoseconds: u32, seen: u64) -> u64 {
    u64::from(nanoseconds) * 1000 / u64::from(RUNS) + u64::from(seen == UNLIKELY)
}

/// The picoseconds of one frame's pass through a controller.
fn passing(rt: &impl Clock, slave: &mut Controller, bytes: &[u8]) -> io::Result<u64> {
    let Ok(mut frame) = FrameBuf::read(bytes, Form::Udp) else {
        return Ok(0);
    };
    let mut best = u64::MAX;
    for _round in 0..ROUNDS {
        let start = Instant::now(rt)?;
        for _run in 0..RUNS {
            slave.process(&mut frame);
        }
        best = best.min(picoseconds(
            start.elapsed(rt)?.subsec_nanos(),
            u64::from(slave.byte(0x1000)),
        ));
    }
    Ok(best)
}

/// The picoseconds of joining two copies of 1,486 bytes.
fn joining(rt: &impl Clock) -> io::Result<u64> {
    let sent = [0xF0; 1486];
    let mut into = [0xF1; 1486];
    let other = [0x70; 1486];
    let mut best = u64::MAX;
    for _round in 0..ROUNDS {
        let start = Instant::now(rt)?;
        for _run in 0..RUNS {
            join_bytes(&sent, &mut into, &other);
        }
        best = best.min(picoseconds(start.elapsed(rt)?.subsec_nanos(), into[7].into()));
    }
    Ok(best)
}
