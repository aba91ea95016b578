#![tactic(auto)]
//! The jobs that a user of this software waits for, as works of a benchmark (`bench/workloads.txt`).
//!
//! Run with the name of a work and a seed below 2^32, it makes an input of real shape and size by that seed,
//! does the work once, and prints a digest of all that came of it, the same at each run. With no argument it
//! does a small one of each work. What it calls is what the commands of `ecat` call.

mod captures;
mod chance;
mod digest;
mod line;
mod machine;
mod mapping;
mod packets;

use captures::{listed, tallied};
use machine::mastered;
use mapping::{checked, swept, swept_bits};
use std::alloc::Global;
use std::process::ExitCode;
use std::rt::Env;
use std::{env, io};

/// The works.
const WORKS: [&str; 6] = ["sweep", "bits", "check", "master", "list", "stats"];

/// What each seed is where none is named.
const SEED: u32 = 1;

fn main(rt: HostRuntime) -> ExitCode {
    match start(&rt, &mut rt.stdout()) {
        Ok(true) => ExitCode::from(0),
        Ok(false) | Err(_) => ExitCode::from(1),
    }
}

/// Does the work that is named, or a small one of each, and says whether all went well.
fn start<R, W>(rt: &R, out: &mut W) -> io::Result<bool>
where
    R: Env + AllocGlobal,
    W: io::Write,
{
    let mut arguments = env::args(rt)?;
    let _program = arguments.next();
    let Some(name) = arguments.next() else {
        return all_small(rt.alloc(), out);
    };
    let seed = arguments.next().and_then(|word| word.parse::<u32>().ok());
    let Some(seed) = seed else {
        writeln!(out, "usage: ecat_workloads [WORK SEED]")?;
        return Ok(false);
    };
    tell(&name, large(rt.alloc(), &name, seed), out)
}

/// Does a small one of each work.
fn all_small<W: io::Write>(alloc: Global, out: &mut W) -> io::Result<bool> {
    let mut well = true;
    for name in WORKS {
        well = tell(name, small(alloc, name), out)? && well;
    }
    Ok(well)
}

/// Prints what a work came to, and says whether it came to anything.
fn tell<W: io::Write>(name: &str, digest: Option<u64>, out: &mut W) -> io::Result<bool> {
    match digest {
        Some(digest) => writeln!(out, "{name} {digest:016x}")?,
        None => writeln!(out, "{name} failed")?,
    }
    Ok(digest.is_some())
}

/// The digest of a work as the benchmark runs it.
fn large(alloc: Global, name: &str, seed: u32) -> Option<u64> {
    match name {
        "sweep" => swept(alloc, seed, 256),
        "bits" => swept_bits(alloc, seed, 120),
        "check" => checked(alloc, seed, 80),
        "master" => mastered(alloc, seed, 64, 40_000),
        "list" => listed(alloc, seed, 2_000_000),
        "stats" => tallied(alloc, seed, 5_000_000),
        _ => None,
    }
}

/// The digest of a small work.
fn small(alloc: Global, name: &str) -> Option<u64> {
    match name {
        "sweep" => swept(alloc, SEED, 4),
        "bits" => swept_bits(alloc, SEED, 4),
        "check" => checked(alloc, SEED, 2),
        "master" => mastered(alloc, SEED, 3, 20),
        "list" => listed(alloc, SEED, 200),
        "stats" => tallied(alloc, SEED, 200),
        _ => None,
    }
}
