//! A line that is served: where it lies, and what came.

ghost use Rattle.std.specs.Prelude.{◌≡◌, Some};
ghost use Rattle.ecat_service.specs.Services.{address_words, counts_words, most_packets, where_of};
ghost use Rattle.ecat_service.specs.Services.{where_words};

use crate::raw::RawWhereText;
use crate::service::Service;
use ec_applications::PlacedEeprom;
use ec_ring::Ring;
use ecat_log::{Cables, Log};
use ecat_scene::Scene;
use ecat_serve::{Console, Counts, Desk, Disturb, Ends, Onward, Served, Unwatched, Watch};
use ecat_setup::{
    LineFailure, applications_with, for_packets, make_devices, ring_of, switch_on, take_aliases,
};
use ecat_text::{GOOD, Lines, print_areas};
use std::alloc::Global;
use std::fmt;
use std::io::{self, Write};
use std::net::Ipv4Addr;

/// An end at an address and a port, as it is printed.
#[derive(Drop)]
struct Address {
    address: Ipv4Addr,
    port: u32,
}

impl fmt::Display for Address {
    ghost output = { λ end. Some (address_words end.address end.port) };

    #[tactic(auto, unfolding(crate::specs::Services::address_words))]
    fn fmt<W: fmt::Write>(&self, f: &mut fmt::Formatter<W>) -> fmt::Result {
        let address = self.address;
        let port = self.port;
        write!(f, "{address}:{port}")
    }
}

/// Where the ends of a line lie, as it is printed.
#[derive(Drop)]
struct WhereText {
    address: Ipv4Addr,
    port_a: u32,
    port_b: u32,
}

impl fmt::Display for WhereText {
    ghost output = { λ text. Some (where_words text) };

    fn fmt<W: fmt::Write>(&self, f: &mut fmt::Formatter<W>) -> fmt::Result {
        let end_a = Address {
            address: self.address,
            port: self.port_a,
        };
        let end_b = Address {
            address: self.address,
            port: self.port_b,
        };
        write!(f, "serving A {end_a} B {end_b}")
    }
}

/// Where the ends of a line at this address and port lie.
fn where_of(address: Ipv4Addr, port: u16) -> WhereText
    ensures { result ≡ where_of address port }
{
    WhereText {
        address,
        port_a: u32::from(port),
        port_b: u32::from(port) + 1,
    }
}

/// How many packets have come in, as it is printed.
#[derive(Drop)]
struct CountsText {
    packets: u64,
    frames: u64,
    dropped: u64,
}

impl fmt::Display for CountsText {
    ghost output = { λ counts. Some (counts_words counts) };

    fn fmt<W: fmt::Write>(&self, f: &mut fmt::Formatter<W>) -> fmt::Result {
        let packets = self.packets;
        let frames = self.frames;
        let dropped = self.dropped;
        write!(f, "packets {packets} frames {frames} dropped {dropped}")
    }
}

/// The line of the scene, which has no actions and no weathers, as it is served; its items are a master's,
/// and are passed over. Slaves of which the scene does not say what they tell of themselves are devices,
/// unless the service leaves them plain: it is there for masters that somebody else wrote. Devices begin as
/// ones that were just switched on, unless the service has them set up: so a master that forgets to set one
/// up is seen. They have the EEPROMs that are given, or else ones that are made of the scene.
pub fn line_to_serve(
    alloc: Global,
    service: Service,
    scene: Scene,
    eeproms: Vec<PlacedEeprom>,
) -> Result<Served, LineFailure> {
    let mut scene = for_packets(scene)?;
    if !service.plain {
        make_devices(scene.slaves.as_mut_slice());
    }
    take_aliases(scene.slaves.as_mut_slice(), eeproms.as_slice());
    let applications = applications_with(alloc, scene.slaves.as_slice(), eeproms)?;
    if !service.set_up {
        switch_on(scene.slaves.as_mut_slice());
    }
    let ring = ring_of(alloc, scene.slaves, scene.links_down.as_slice())?;
    let mut served = Served::acting(ring, applications);
    served.tell_links();
    Ok(served)
}

/// Serves a line that has these ends, and answers the exit status. It prints where the line is served, and at
/// the end how many packets came and a line for each active buffered area that the master writes; `err` is
/// told of each packet where the service logs, and that it ended with its input where that would have been
/// left alone by other words. It takes no memory.
pub fn serve<E, W, V>(
    served: Served,
    service: Service,
    ends: &mut E,
    out: &mut W,
    err: &mut V,
) -> Result<u8, LineFailure>
where
    E: Ends,
    W: Write,
    V: Write,
{
    let done = if service.log {
        serve_watched(served, service, ends, &mut Log::new(err), out)
    } else {
        serve_watched(served, service, ends, &mut Unwatched, out)
    };
    tell_end(service, &done, err);
    done
}

/// Serves a line as `serve` does, at ends whose cables are looked at: one that is pulled is the link at that
/// end, and is told there.
pub fn serve_cabled<E, W, V>(
    served: Served,
    service: Service,
    ends: &mut E,
    out: &mut W,
    err: &mut V,
) -> Result<u8, LineFailure>
where
    E: Ends + Console + Disturb,
    W: Write,
    V: Write,
{
    let done = if service.log {
        serve_unattended(served, service, ends, &mut Log::new(err), out)
    } else {
        serve_unattended(served, service, ends, &mut Cables::new(err), out)
    };
    tell_end(service, &done, err);
    done
}

/// Nobody, who passes over each line that comes.
#[derive(Drop)]
struct Nobody;

impl Desk for Nobody {
    fn take(&mut self, _served: &mut Served, _came: Counts, _line: Option<&[u8]>) -> Onward {
        Onward::Goes
    }
}

/// Serves a line with no commands, whose cables are looked at; somebody is told of each packet.
fn serve_unattended<E, V, W>(
    mut served: Served,
    service: Service,
    ends: &mut E,
    watch: &mut V,
    out: &mut W,
) -> Result<u8, LineFailure>
where
    E: Ends + Console + Disturb,
    V: Watch,
    W: Write,
{
    let mut lines = Lines::new(out);
    print_where(service, &mut lines)?;
    let most = most_packets(service.packets);
    let counts = served.serve_commanded(ends, most, watch, &mut Nobody)?;
    print_end(counts, served.ring(), &mut lines)?;
    Ok(GOOD)
}

/// Serves a line; somebody is told of each packet.
fn serve_watched<E, V, W>(
    mut served: Served,
    service: Service,
    ends: &mut E,
    watch: &mut V,
    out: &mut W,
) -> Result<u8, LineFailure>
where
    E: Ends,
    V: Watch,
    W: Write,
{
    let mut lines = Lines::new(out);
    print_where(service, &mut lines)?;
    let counts = served.serve_watched(ends, most_packets(service.packets), watch)?;
    print_end(counts, served.ring(), &mut lines)?;
    Ok(GOOD)
}

/// Tells `err` that a service ended since its input did, and what has it go on. A fault of `err` is passed
/// over.
fn tell_end<V: Write>(service: Service, done: &Result<u8, LineFailure>, err: &mut V) {
    if done.is_ok() && service.awaits_input() {
        let _ = err.write_all(b"input: ended; with --forever or --packets N it is left alone\n");
    }
}

/// Prints where a line is served.
pub fn print_where<W: Write>(service: Service, lines: &mut Lines<'_, W>) -> io::Result<()> {
    match service.raw {
        Some(descriptors) => lines.text(RawWhereText(descriptors))?,
        None => lines.text(where_of(service.address, service.port))?,
    }
    lines.end()
}

/// Prints how many packets came.
pub fn print_counts<W: Write>(counts: Counts, lines: &mut Lines<'_, W>) -> io::Result<()> {
    lines.text(CountsText {
        packets: counts.packets(),
        frames: counts.frames,
        dropped: counts.dropped,
    })?;
    lines.end()
}

/// Prints how many packets came, and the areas that the master writes as they are at the end.
pub fn print_end<W: Write>(
    counts: Counts,
    ring: &Ring,
    lines: &mut Lines<'_, W>,
) -> io::Result<()> {
    print_counts(counts, lines)?;
    print_areas(ring.slaves(), lines)
}

/// After how many packets a service ends; without a number after as many as can be counted.
pub fn most_packets(packets: Option<u32>) -> u64
    ensures { result ≡ most_packets packets }
{
    match packets {
        Some(count) => u64::from(count),
        None => u64::MAX,
    }
}
