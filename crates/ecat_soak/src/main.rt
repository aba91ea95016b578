#![tactic(auto)]
//! Many cycles over real sockets, a few of whose packets are lost.
//!
//! With no argument it says how to run it. With a number it runs so many cycles over a line of five slaves,
//! each with other inputs and outputs, over the whole line or with one of its inner links down, and judges
//! each cycle. It prints how many were good, short and over, how many packets were lost, and the process's
//! memory before and after. At the first cycle that is judged wrong it ends with status 1, and says why.

mod exchange;
mod lossy;
mod random;
mod rig;
mod slaves;

use ec_master::Verdict;
use ecat_udp::{PacketLine, UdpLine};
use lossy::Lossy;
use random::{Random, SEED};
use rig::{Rig, Wrong};
use std::net::Net;
use std::process::ExitCode;
use std::rt::{Env, Files};
use std::{env, fs, io};

/// The first port that is tried for the line's end A.
const FIRST_PORT: u16 = 34980;

/// Where the system says how many pages of memory the process has.
const MEMORY: &str = "/proc/self/statm";

fn main(rt: HostRuntime) -> ExitCode {
    match start(&rt, &mut rt.stdout()) {
        Ok(true) => ExitCode::from(0),
        Ok(false) | Err(_) => ExitCode::from(1),
    }
}

/// Runs the cycles that are asked for, and says whether all went well.
fn start<R, W>(rt: &R, out: &mut W) -> io::Result<bool>
where
    R: Env + Files + Net + AllocGlobal,
    W: io::Write,
{
    let mut arguments = env::args(rt)?;
    let _program = arguments.next();
    let Some(word) = arguments.next() else {
        writeln!(out, "usage: ecat_soak CYCLES")?;
        return Ok(true);
    };
    let Ok(cycles) = word.parse::<u64>() else {
        writeln!(out, "CYCLES is a number")?;
        return Ok(false);
    };
    let Ok(ring) = slaves::ring(rt.alloc()) else {
        writeln!(out, "the line could not be made")?;
        return Ok(false);
    };
    let Some(line) = open(rt) else {
        writeln!(out, "no port is free")?;
        return Ok(false);
    };
    let rig = Rig::new(ring, Lossy::new(line, Random::new(SEED)));
    soak(rt, out, rig, cycles)
}

/// A line on the first free port.
fn open(rt: &impl Net) -> Option<UdpLine> {
    for k in 0..100u16 {
        if let Ok(line) = UdpLine::bind(rt, FIRST_PORT + 2 * k) {
            return Some(line);
        }
    }
    None
}

/// How many cycles had which verdict.
#[derive(Clone, Copy, Default)]
struct Counts {
    good: u64,
    short: u64,
    over: u64,
}

impl Counts {
    /// Counts a verdict.
    fn count(&mut self, verdict: Verdict) {
        match verdict {
            Verdict::Good => self.good = self.good.wrapping_add(1),
            Verdict::Short(_) => self.short = self.short.wrapping_add(1),
            Verdict::Over(_) => self.over = self.over.wrapping_add(1),
        }
    }
}

/// Runs the cycles and prints what came of them.
fn soak<R, W, L>(rt: &R, out: &mut W, rig: Rig<L>, cycles: u64) -> io::Result<bool>
where
    R: Files + AllocGlobal,
    W: io::Write,
    L: PacketLine + Drop,
{
    writeln!(out, "seed {SEED}")?;
    write!(out, "pages before: {}", fs::read_to_string(rt, MEMORY)?)?;
    let mut counts = Counts::default();
    let mut rig = rig;
    for number in 0..cycles {
        match rig.cycle() {
            Ok((next, verdict)) => {
                rig = next;
                counts.count(verdict);
            }
            Err(wrong) => {
                writeln!(out, "cycle {number}: {wrong:?}")?;
                return Ok(false);
            }
        }
    }
    write!(out, "pages after: {}", fs::read_to_string(rt, MEMORY)?)?;
    writeln!(out, "good {}", counts.good)?;
    writeln!(out, "short {}", counts.short)?;
    writeln!(out, "over {}", counts.over)?;
    writeln!(out, "packets lost {}", rig.lost())?;
    Ok(true)
}
