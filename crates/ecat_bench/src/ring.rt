//! A copy's way and a master's cycle as works, over a ring of 256 slaves with all links up. Each slave reads
//! and writes five logical bytes of its own.

ghost use Rattle.std.specs.Prelude.{◌<◌};

use ec_app::{Objects, Slave};
use ec_map::{Item, Kind};
use ec_master::{Work, ring_cycle};
use ec_merge::join_frames;
use ec_regs::{Fmmu, NoMemory, SyncMan};
use ec_ring::{Links, Port, Ring};
use ec_wire::FrameBuf;
use std::alloc::Global;
use std::io;
use std::rt::Clock;
use std::time::Instant;

/// How many slaves stand on the line.
const SLAVES: u16 = 256;

/// Where the logical bytes begin.
const LOGICAL: u32 = 0x0001_0000;

/// What the line adds to the counter of the exchange: each slave reads and writes.
const EXCHANGED: u16 = 3 * SLAVES;

/// How often a work runs between two looks at the clock.
const RUNS: u32 = 100;

/// How often its time is taken.
const ROUNDS: u32 = 20;

/// The picoseconds in which one copy of a frame passes the ring and is joined with the sent frame.
pub(crate) fn walking(rt: &(impl Clock + AllocGlobal)) -> io::Result<u64> {
    let mut ring = full_ring(rt.alloc())?;
    let sent = sent_frame()?;
    let links = Links::new();
    let mut best = u64::MAX;
    for _round in 0..ROUNDS {
        let start = Instant::now(rt)?;
        let mut answered = true;
        for _run in 0..RUNS {
            answered = is_answered_frame(&mut ring, &sent, &links) && answered;
        }
        best = best.min(picoseconds(start.elapsed(rt)?.subsec_nanos()));
        if !answered {
            return Err(wrong_answer());
        }
    }
    Ok(best)
}

/// The picoseconds of one whole cycle over the ring.
pub(crate) fn cycling(rt: &(impl Clock + AllocGlobal)) -> io::Result<u64> {
    let mut ring = full_ring(rt.alloc())?;
    let mut work = Work::new();
    if work.push(exchange()?).is_err() || work.push(status()?).is_err() {
        return Err(wrong_answer());
    }
    let mut best = u64::MAX;
    for _round in 0..ROUNDS {
        let start = Instant::now(rt)?;
        for _run in 0..RUNS {
            work.rewind();
            ring_cycle(&mut ring, &mut work);
        }
        best = best.min(picoseconds(start.elapsed(rt)?.subsec_nanos()));
        if !is_answered_work(&work) {
            return Err(wrong_answer());
        }
    }
    Ok(best)
}

/// The picoseconds of one run where all took some nanoseconds.
fn picoseconds(nanoseconds: u32) -> u64 {
    u64::from(nanoseconds) * 1000 / u64::from(RUNS)
}

/// What is answered where the ring does not answer as it is mapped.
fn wrong_answer() -> io::Error {
    io::Error::from(io::ErrorKind::InvalidData)
}

/// Takes one copy of a frame over the ring, joins it with the sent one, and tells whether each slave has
/// answered.
fn is_answered_frame(ring: &mut Ring, sent: &FrameBuf, links: &Links) -> bool {
    let Some((came, _)) = ring.walk(Port::A, sent.copy(), links) else {
        return false;
    };
    match join_frames(sent, Some(&came), None) {
        Ok(joined) => {
            joined.count() == 2 && joined.counter(0) == EXCHANGED && joined.counter(1) == SLAVES
        }
        Err(_) => false,
    }
}

/// Has each slave answered both items?
fn is_answered_work(work: &Work) -> bool {
    work.len() == 2 && work.item(0).counter() == EXCHANGED && work.item(1).counter() == SLAVES
}

/// The item that exchanges all logical bytes.
fn exchange() -> io::Result<Item> {
    Item::new(Kind::Lrw, LOGICAL, &[0x5A; 1280]).map_err(|_| wrong_answer())
}

/// The item that asks all slaves for their AL status.
fn status() -> io::Result<Item> {
    Item::new(Kind::Brd, 0x0130, &[0; 2]).map_err(|_| wrong_answer())
}

/// The frame of both items.
fn sent_frame() -> io::Result<FrameBuf> {
    let mut frame = FrameBuf::of(&exchange()?.datagram(0));
    match frame.push(&status()?.datagram(1)) {
        Ok(()) => Ok(frame),
        Err(_) => Err(wrong_answer()),
    }
}

/// The ring, with all links up.
fn full_ring(alloc: Global) -> io::Result<Ring> {
    let Ok(line) = full_line(alloc) else {
        return Err(io::Error::from(io::ErrorKind::OutOfMemory));
    };
    match Ring::new(line) {
        Ok(ring) => Ok(ring),
        Err(_) => Err(wrong_answer()),
    }
}

/// The line of the ring, from the first slave on.
fn full_line(alloc: Global) -> Result<Vec<Slave>, NoMemory> {
    let mut line = Vec::new(alloc);
    for place in 0..SLAVES {
        if line.push(exchanging_slave(alloc, place)?).is_err() {
            return Err(NoMemory);
        }
    }
    Ok(line)
}

/// A slave that takes five logical bytes of its own as they arrive, and puts five others in their place.
fn exchanging_slave(alloc: Global, place: u16) -> Result<Slave, NoMemory>
    requires { place < 256 }
{
    let logical = LOGICAL + 5 * u32::from(place);
    let mut slave = Slave::new(alloc, place, Objects::new(), 0, 0)?;
    let controller = slave.controller_mut();
    controller.set_syncman(2, &SyncMan::outputs(0x1000, 5));
    controller.set_syncman(3, &SyncMan::inputs(0x1100, 5));
    controller.set_fmmu(0, &Fmmu::writing(logical, 5, 0x1000));
    controller.set_fmmu(1, &Fmmu::reading(logical, 5, 0x1100));
    controller.load(0x1100, &[0x11, 0x22, 0x33, 0x44, 0x55]);
    Ok(slave)
}
