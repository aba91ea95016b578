//! `ecat where`: where the cable of a scene is broken, and who is missing.

use ec_app::Slave;
use ec_diag::{Located, probe};
use ec_ring::{Arrivals, HeardPorts, Ring, Travel, Weather};
use ec_wire::FrameBuf;
use ecat_scene::Scene;
use ecat_setup::{LineFailure, names_of, ring_of, slaves_of, weathers_of};
use ecat_text::{Lines, are_swapped, print_arrived, print_break, print_copies, print_swapped};
use std::alloc::Global;
use std::io::{self, Write};

/// Sends one frame over the line of the scene, in its first weather, or under its links where it has none,
/// and prints where the copies came back and where the cable is broken. The actions and items of the scene
/// are passed over.
#[inline(never)]
pub fn where_broken<W: Write>(alloc: Global, scene: Scene, out: &mut W) -> Result<u8, LineFailure> {
    let weathers = weathers_of(alloc, scene.weathers.as_slice())?;
    let names = names_of(alloc, scene.slaves.as_slice())?;
    let mut ring = ring_of(alloc, scene.slaves, scene.links_down.as_slice())?;
    let weather = weather_of(weathers.as_slice(), &ring);
    let mut lines = Lines::named(out, names.as_slice());
    Ok(print_probe(&mut ring, &weather, &mut lines)?)
}

/// The first of these weathers, or that of the links of a ring.
pub(crate) fn weather_of(weathers: &[Weather], ring: &Ring) -> Weather {
    match weathers.first() {
        Some(weather) => *weather,
        None => Weather::calm(ring.links()),
    }
}

/// Sends one frame in this weather, and prints what its copies tell.
fn print_probe<W: Write>(
    ring: &mut Ring,
    weather: &Weather,
    lines: &mut Lines<'_, W>,
) -> io::Result<u8> {
    let sent = probe();
    let came = ring.arrivals(&sent, weather);
    print_copies(&sent, &came, lines)?;
    print_told(ring.slaves(), &sent, &came, lines)
}

/// Sends one frame over ports to a line somewhere else, whose slaves are those of the scene, and prints where
/// the copies came back and where the cable is broken; or that the ports are swapped, where it is whole.
pub fn where_far<P: HeardPorts, W: Write>(
    alloc: Global,
    ports: &mut P,
    scene: Scene,
    out: &mut W,
) -> Result<u8, LineFailure> {
    let names = names_of(alloc, scene.slaves.as_slice())?;
    let line = slaves_of(alloc, scene.slaves)?;
    let sent = probe();
    let Ok(came) = ports.trip_heard(&sent) else {
        return Err(LineFailure::Port);
    };
    let mut lines = Lines::named(out, names.as_slice());
    print_arrived(&sent, &came, &mut lines)?;
    if are_swapped(line.len(), &sent, &came) {
        return Ok(print_swapped(&mut lines)?);
    }
    Ok(print_told(line.as_slice(), &sent, &came, &mut lines)?)
}

/// Prints what the copies of a frame tell of the cable of a line.
fn print_told<W: Write>(
    line: &[Slave],
    sent: &FrameBuf,
    came: &Arrivals,
    lines: &mut Lines<'_, W>,
) -> io::Result<u8> {
    let located = Located::Unknown.and_arrivals(line.len(), sent, came);
    print_break(located, line, lines)
}
