//! `ecat udp`: the cycle of a scene through UDP sockets.

ghost use Rattle.std.specs.Prelude.{◌≡◌, length};

use crate::failure::{Failure, report, status_of};
use ec_applications::Applications;
use ec_map::Item;
use ec_master::{Reporting, Work, run_cycle};
use ec_ring::Ring;
use ecat_scene::{Scene, SceneFault};
use ecat_setup::{Expected, LineFailure, applications_of, for_packets, ring_of, work_of};
use ecat_simulation::{judged_cycle, print_cable};
use ecat_text::{GOOD, Lines, REFUSED, print_areas, print_items, print_verdict, refuse};
use ecat_udp::{PacketLine, UdpPorts};
use std::alloc::Global;
use std::io::Write;

/// What the words of `udp` say of its cycle.
#[derive(Clone, Copy)]
pub struct Wanted {
    /// The port of the line's end A. The end B has the next one.
    pub port: u16,
    /// Whether what is in the way of a good verdict is printed.
    pub judge: bool,
}

/// What `udp` does once its sockets are open: the ring of a scene, the applications of its slaves, and its
/// items, which are accepted.
#[derive(Drop)]
pub struct Prepared {
    ring: Ring,
    applications: Applications,
    items: Vec<Item>,
}

/// Checks the scene that was read, before any socket is opened. Where nothing is to be
/// done, reports why and answers the exit status.
pub fn prepare_udp<W, V>(
    alloc: Global,
    scene: Result<Scene, SceneFault>,
    out: &mut W,
    err: &mut V,
) -> Result<Prepared, u8>
where
    W: Write,
    V: Write,
{
    match checked(alloc, scene, out) {
        Ok(Some(prepared)) => Ok(prepared),
        Ok(None) => Err(REFUSED),
        Err(failure) => Err(report(&Failure::Line(failure), out, err)),
    }
}

/// The ring and the items of the scene that was read, which has no actions and no weathers. If it has items,
/// the line and the items are checked, and where they are refused it is printed why.
fn checked<W: Write>(
    alloc: Global,
    scene: Result<Scene, SceneFault>,
    out: &mut W,
) -> Result<Option<Prepared>, LineFailure> {
    let scene = for_packets(scene?)?;
    let applications = applications_of(alloc, scene.slaves.as_slice())?;
    let ring = ring_of(alloc, scene.slaves, scene.links_down.as_slice())?;
    let items = scene.items;
    if !items.is_empty() && refuse(ring.slaves(), items.as_slice(), &mut Lines::new(out))? {
        return Ok(None);
    }
    Ok(Some(Prepared {
        ring,
        applications,
        items,
    }))
}

/// Does `udp`, whose packets `line` carries, and answers the exit status. It takes no memory.
pub fn act_udp<L, W, V>(prepared: Prepared, judge: bool, line: L, out: &mut W, err: &mut V) -> u8
where
    L: PacketLine + Drop,
    W: Write,
    V: Write,
{
    status_of(udp(prepared, judge, line, out), out, err)
}

/// If there are items, one cycle of them over the packets, behind which applications act; then a line for
/// each active buffered area that the master writes.
fn udp<L, W>(prepared: Prepared, judge: bool, line: L, out: &mut W) -> Result<u8, LineFailure>
where
    L: PacketLine + Drop,
    W: Write,
{
    let Prepared {
        ring,
        mut applications,
        items,
    } = prepared;
    let mut lines = Lines::new(out);
    if items.is_empty() {
        print_areas(ring.slaves(), &mut lines)?;
        return Ok(GOOD);
    }
    let mut work = work_of(items)?;
    let mut ports = UdpPorts::new(ring, line);
    if judge {
        return judged(ports, applications, &mut work, &mut lines);
    }
    let status = cycle(&mut ports, &mut work, &mut lines)?;
    let (mut ring, _) = ports.into_parts();
    applications.act(&mut ring);
    print_areas(ring.slaves(), &mut lines)?;
    Ok(status)
}

/// Does one cycle of the work, and prints its verdict, what is in the way of a good one, the items and the
/// areas.
fn judged<L: PacketLine + Drop, W: Write>(
    ports: UdpPorts<L>,
    mut applications: Applications,
    work: &mut Work,
    lines: &mut Lines<'_, W>,
) -> Result<u8, LineFailure> {
    let expected = Expected::of(ports.ring().slaves(), work);
    let mut ports = Reporting::new(ports);
    let verdict = judged_cycle(&mut ports, work, expected.counters(), lines)?;
    let (ports, report) = ports.into_parts();
    let (mut ring, _) = ports.into_parts();
    applications.act(&mut ring);
    print_cable(verdict, &report, &mut ring, &[], lines)?;
    print_items(work, expected.table(), lines)?;
    print_areas(ring.slaves(), lines)?;
    Ok(ecat_text::status_of(verdict))
}

/// Does one cycle, and prints its verdict and a line for each item.
fn cycle<L: PacketLine + Drop, W: Write>(
    ports: &mut UdpPorts<L>,
    work: &mut Work,
    lines: &mut Lines<'_, W>,
) -> Result<u8, LineFailure> {
    let expected = Expected::of(ports.ring().slaves(), work);
    let verdict = run_cycle(ports, work, expected.counters())?;
    let status = print_verdict(verdict, lines)?;
    print_items(work, expected.table(), lines)?;
    Ok(status)
}
