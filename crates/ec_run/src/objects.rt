//! Startup objects, which are written by mail.

ghost use Rattle.std.specs.Prelude.{◌≡◌, ◌≤◌, ◌<◌, Err, IfSome, slice_get};
ghost use Rattle.ec_services.specs.Mailbox.{IsPeer};
ghost use Rattle.ec_services.specs.declared.fault.MasterFault.TheVariants.{Port};
ghost use Rattle.ec_run.specs.StartupObjects.{area_of, peer_between, startup_peer, WritesObject};
ghost use Rattle.ec_run.specs.StartupObjects.{WritesObjectOn, WritesStartup, WritesStartupOn};
ghost use Rattle.ec_services.specs.declared.surely.Progress.{Progress as ProgressState};

use crate::wanted::{MAX_STARTUP, StartupObject, Wanted};
use ec_app::roles::{ANSWER_MAILBOX, REQUEST_MAILBOX, is_answer_mailbox, is_request_mailbox};
use ec_master::Ports;
use ec_regs::SyncMan;
use ec_services::{Area, MasterFault, Peer, Progress, download_on, download_surely};

/// The most trips by which a startup object is written.
pub(crate) const STARTUP_TRIPS: u32 = 64;

/// The counters of mails run from 1 to this one.
const COUNTERS: usize = 7;

/// The area of a mailbox.
fn area_of(manager: &SyncMan) -> Area
    ensures { result ≡ area_of manager.now }
{
    Area {
        start: manager.start,
        length: manager.length,
    }
}

/// A slave with these records as one with which mails are exchanged, if both are mailboxes. The counter is
/// that of its next mail.
#[tactic(auto, unfolding(ec_regs::specs::SyncMan::is_active))]
pub fn peer_between(
    station: u16,
    requests: &SyncMan,
    answers: &SyncMan,
    counter: u8,
) -> Option<Peer>
    requires least { 1 ≤ counter }
    requires most { counter ≤ 7 }
    ensures is { result ≡ peer_between station requests.now answers.now counter }
    ensures peer { IfSome result IsPeer }
{
    if !is_request_mailbox(requests) || !is_answer_mailbox(answers) {
        return None;
    }
    Some(Peer {
        station,
        to: area_of(requests),
        from: area_of(answers),
        counter,
    })
}

/// A slave for its startup object with a number, if it has both mailboxes.
fn startup_peer(wanted: &Wanted, number: usize) -> Option<Peer>
    ensures is { result ≡ startup_peer wanted.now number }
    ensures peer { IfSome result IsPeer }
{
    let requests = wanted.manager(REQUEST_MAILBOX);
    let answers = wanted.manager(ANSWER_MAILBOX);
    let counter = (number % COUNTERS + 1) as u8;
    peer_between(wanted.station, requests, answers, counter)
}

/// Writes an object of a slave, if it has mailboxes.
fn write_object<P: Ports>(
    ports: &mut P,
    peer: Option<Peer>,
    object: &StartupObject,
) -> Result<(), MasterFault>
    requires { IfSome peer IsPeer }
    ensures writes { WritesObject P.trips ports.old peer object.now result ports.new }
    ensures counted { result ≡ Err Port → P.failed ports.old < P.failed ports.new }
    ensures never_lower { P.failed ports.old ≤ P.failed ports.new }
{
    match peer {
        None => Err(MasterFault::NoSlave),
        Some(mut peer) => download_surely(
            ports,
            &mut peer,
            object.index,
            object.sub,
            object.value,
            STARTUP_TRIPS,
        ),
    }
}

/// Writes the startup object of a slave that has a place in its list, if one stands there.
pub(crate) fn write_startup<P: Ports>(
    ports: &mut P,
    wanted: &Wanted,
    number: usize,
) -> Result<(), MasterFault>
    requires { number < MAX_STARTUP }
    ensures writes { WritesStartup P.trips ports.old (startup_peer wanted.now number)
        (slice_get wanted.now.startup number) result ports.new }
    ensures counted { result ≡ Err Port → P.failed ports.old < P.failed ports.new }
    ensures never_lower { P.failed ports.old ≤ P.failed ports.new }
{
    match wanted.startup_object(number) {
        None => Ok(()),
        Some(object) => write_object(ports, startup_peer(wanted, number), &object),
    }
}

/// Makes one trip more by which an object of a slave is written, if it has mailboxes; the first one begins
/// it.
fn write_object_on<P: Ports>(
    ports: &mut P,
    peer: Option<Peer>,
    object: &StartupObject,
    written: &mut Option<Progress>,
) -> Result<Option<()>, MasterFault>
    requires peer { IfSome peer IsPeer }
    requires written { IfSome written.old (λ (p : ProgressState). IsPeer p.peer) }
    ensures writes { WritesObjectOn P.trips ports.old peer object.now written.old result written.new
        ports.new }
    ensures still_peer { IfSome written.new (λ (p : ProgressState). IsPeer p.peer) }
    ensures never_lower { P.failed ports.old ≤ P.failed ports.new }
{
    let Some(peer) = peer else {
        return Err(MasterFault::NoSlave);
    };
    let mut progress = match *written {
        Some(progress) => progress,
        None => Progress::begun(&peer),
    };
    let told = download_on(ports, &mut progress, object.index, object.sub, object.value);
    *written = Some(progress);
    told
}

/// Makes one trip more by which the startup object of a slave is written that has a place in its list, if one
/// stands there.
pub(crate) fn write_startup_on<P: Ports>(
    ports: &mut P,
    wanted: &Wanted,
    number: usize,
    written: &mut Option<Progress>,
) -> Result<Option<()>, MasterFault>
    requires number { number < MAX_STARTUP }
    requires written { IfSome written.old (λ (p : ProgressState). IsPeer p.peer) }
    ensures writes { WritesStartupOn P.trips ports.old (startup_peer wanted.now number)
        (slice_get wanted.now.startup number) written.old result written.new ports.new }
    ensures still_peer { IfSome written.new (λ (p : ProgressState). IsPeer p.peer) }
    ensures never_lower { P.failed ports.old ≤ P.failed ports.new }
{
    match wanted.startup_object(number) {
        None => Ok(Some(())),
        Some(object) => write_object_on(ports, startup_peer(wanted, number), &object, written),
    }
}
