//! What DL status tells of a slave's links (IEC 61158-4-12, DL status), and how often one was lost (lost link
//! counter).

ghost use Rattle.std.specs.Prelude.{◌≡◌, ◌<◌, slice_get};
ghost use Rattle.ec_ring.specs.Links.{is_up};
ghost use Rattle.ec_applications.specs.Links.{all_told, controller_told, dl_status, one_told, slave_told};
ghost use Rattle.ec_applications.specs.Links.{counted, has_link, is_lost, lost_after, with_links};

use ec_app::Slave;
use ec_esc::Controller;
use ec_ring::{Links, Ring};

/// The application can be reached, and ports 2 and 3, which no slave here has, are closed.
const ALWAYS: u16 = 0x5001;

/// Port 0 has a link and takes frames, or is closed.
const LINKED_0: u16 = 0x0210;

const CLOSED_0: u16 = 0x0100;

/// Port 1 has a link and takes frames, or is closed.
const LINKED_1: u16 = 0x0820;

const CLOSED_1: u16 = 0x0400;

/// DL status by whether there is a link before the slave, at its port 0, and behind it, at its port 1.
pub fn dl_status(before: bool, behind: bool) -> u16
    ensures { result ≡ dl_status before behind }
{
    let port_0 = if before { LINKED_0 } else { CLOSED_0 };
    let port_1 = if behind { LINKED_1 } else { CLOSED_1 };
    ALWAYS + port_0 + port_1
}

/// Where the bit of DL status stands that tells of a link at port 0; that of port 1 stands behind it.
const LINK_AT: u16 = 4;

/// How many ports a slave has.
const PORTS: u16 = 2;

/// Does DL status tell of a link at the port?
fn has_link(status: u16, port: u16) -> bool
    requires { port < PORTS }
    ensures { result ≡ has_link status port }
{
    status >> (LINK_AT + port) & 1 == 1
}

/// By DL status before and now, was there a link at the port, and is there none?
fn is_lost(before: u16, now: u16, port: u16) -> bool
    requires { port < PORTS }
    ensures { result ≡ is_lost before now port }
{
    has_link(before, port) && !has_link(now, port)
}

/// A counter of lost links, once one more was lost or not.
fn counted(lost: bool, count: u8) -> u8
    ensures { result ≡ counted lost count }
{
    if lost { count.saturating_add(1) } else { count }
}

/// The counters of lost links at ports 0 and 1 where DL status was the first and is the second (IEC
/// 61158-4-12, lost link counter): where there was a link and is none now, one more, and 255 stays.
fn lost_after(before: u16, now: u16, counts: &[u8; 2]) -> [u8; 2]
    ensures { result ≡ lost_after before now counts.now }
{
    let port_0 = counted(is_lost(before, now, 0), counts[0]);
    let port_1 = counted(is_lost(before, now, 1), counts[1]);
    [port_0, port_1]
}

/// Tells the slave at a place of its links, if the line has it and its controller tells of itself; a link
/// that is lost by that counts at its port. All else of the line stays.
pub fn tell_links(ring: &mut Ring, place: usize, before: bool, behind: bool)
    ensures { ring.new ≡ one_told place (dl_status before behind) ring.old }
{
    if place < ring.slaves().len() {
        tell_slave(ring.slave_mut(place), dl_status(before, behind));
    }
}

/// Tells each slave whose controller tells of itself which of the links beside it are up; a link that is
/// lost by that counts at its port. All else of the line stays.
pub fn tell_each(ring: &mut Ring, links: &Links)
    ensures { ring.new ≡ all_told (is_up links.now) ring.old }
{
    let count = ring.slaves().len();
    for k in 0..count {
        tell_links(ring, k, links.is_up(k), links.is_up(k + 1));
    }
}

/// Sets DL status of a slave whose controller tells of itself, which counts lost links.
fn tell_slave(slave: &mut Slave, status: u16)
    ensures { slave.new ≡ slave_told status slave.old }
{
    tell_controller(slave.controller_mut(), status);
}

/// Sets DL status of a controller that tells of itself, which counts lost links.
fn tell_controller(controller: &mut Controller, status: u16)
    ensures { controller.new ≡ controller_told status controller.old }
{
    if controller.has_sii() {
        set_links(controller, status);
    }
}

/// Sets DL status of a controller, and counts the links that were lost.
fn set_links(controller: &mut Controller, status: u16)
    ensures { controller.new ≡ with_links controller.old status }
{
    let lost = lost_after(controller.dl_status(), status, &controller.lost_links());
    controller.set_dl_status(status);
    controller.set_lost_links(&lost);
}
