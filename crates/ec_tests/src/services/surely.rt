//! Objects of a slave whatever is lost on the way.

ghost use Rattle.ec_services.specs.Mailbox.{IsPeer};

use crate::asserts::assert_same;
use crate::services::line::slave;
use crate::services::peer::peer;
use crate::services::storm::{KINDS, NONE, Storm};
use ec_app::{Objects, Rights, Value};
use ec_regs::AlState;
use ec_services::{MasterFault, Peer, download_surely, sdo_download, upload_surely};
use std::alloc::Global;
use std::process::Abort;

/// The identity's vendor, which may be read alone.
const VENDOR: (u16, u8) = (0x1018, 1);

/// A value that may be read and written.
const SETTING: (u16, u8) = (0x2000, 0);

/// No trouble at all.
const CALM: [usize; 3] = [NONE, NONE, NONE];

/// What is written first, and what is written then.
const FIRST: Value = Value::Two(0x1111);

const SECOND: Value = Value::Two(0x2222);

/// Trips that are enough for a transfer with up to three troubles.
const ENOUGH: u32 = 24;

/// The troubles of the first six trips, which the tests go through; without one a transfer makes four.
const TROUBLES: usize = 6 * KINDS;

/// The ports of a ring of one slave in Pre-Op with these two objects.
fn storm(rt: &impl Abort, alloc: Global) -> Storm {
    let mut objects = Objects::new();
    let vendor = objects.add(0x1018, 1, Rights::ReadOnly, Value::Four(2));
    assert_eq!(rt; vendor, Ok(()));
    let setting = objects.add(0x2000, 0, Rights::Both, Value::Two(0));
    assert_eq!(rt; setting, Ok(()));
    Storm::new(rt, alloc, slave(rt, alloc, AlState::PreOp, objects), CALM)
}

/// What the slave holds as the setting.
fn setting(ports: &Storm) -> Option<Value> {
    let slave = ports.ring().slaves().first()?;
    Some(slave.objects().get(0x2000, 0)?.1)
}

/// A peer that may be asked: what the calls require.
fn assert_peer(rt: &impl Abort, peer: &Peer)
    ensures { IsPeer peer.now }
{
    assert!(rt; 1 <= peer.counter && peer.counter <= 7);
    assert!(rt; 16 <= peer.to.length && peer.to.length <= 1486);
    assert!(rt; 16 <= peer.from.length && peer.from.length <= 1486);
}

/// A download of the setting that is broken off behind its request.
fn break_off(rt: &impl Abort, ports: &mut Storm, peer: &mut Peer, value: Value) {
    assert_peer(rt, peer);
    let left = sdo_download(ports, peer, SETTING.0, SETTING.1, value, 0);
    assert_same(rt, left, Err(MasterFault::NoAnswer));
}

/// What the sure upload of an object comes to.
fn sure_upload(
    rt: &impl Abort,
    ports: &mut Storm,
    peer: &mut Peer,
    object: (u16, u8),
    trips: u32,
) -> Result<Value, MasterFault> {
    assert_peer(rt, peer);
    upload_surely(ports, peer, object.0, object.1, trips)
}

/// What the sure download of a value comes to.
fn sure_download(
    rt: &impl Abort,
    ports: &mut Storm,
    peer: &mut Peer,
    object: (u16, u8),
    value: Value,
    trips: u32,
) -> Result<(), MasterFault> {
    assert_peer(rt, peer);
    download_surely(ports, peer, object.0, object.1, value, trips)
}

/// Moves the counter on so many times.
fn skip(rt: &impl Abort, peer: &mut Peer, times: usize) {
    for _time in 0..times {
        assert!(rt; 1 <= peer.counter && peer.counter <= 7);
        peer.skip();
    }
}

/// A slave that has stored the first value, whose answer with the counter 1 waits in its mailbox; and its
/// peer, whose next request has the counter 1 again.
fn left_behind(rt: &impl Abort, alloc: Global) -> (Storm, Peer) {
    let (mut ports, mut peer) = (storm(rt, alloc), peer());
    break_off(rt, &mut ports, &mut peer, FIRST);
    assert_same(rt, setting(&ports), Some(FIRST));
    skip(rt, &mut peer, 6);
    assert_same(rt, peer.counter, 1);
    (ports, peer)
}

/// With these troubles, both from a clean start and where an answer was left behind, a download stores its
/// value, an upload brings it, and a refused download stores nothing.
fn recovers(rt: &impl Abort, alloc: Global, troubles: [usize; 3]) {
    let (mut ports, mut asked) = left_behind(rt, alloc);
    ports.begin(troubles);
    let done = sure_download(rt, &mut ports, &mut asked, SETTING, SECOND, ENOUGH);
    assert_same(rt, done, Ok(()));
    assert_same(rt, setting(&ports), Some(SECOND));
    ports.begin(troubles);
    let read = sure_upload(rt, &mut ports, &mut asked, SETTING, ENOUGH);
    assert_same(rt, read, Ok(SECOND));
    ports.begin(troubles);
    let refused = sure_download(rt, &mut ports, &mut asked, VENDOR, Value::Four(3), ENOUGH);
    assert_same(rt, refused, Err(MasterFault::Abort(0x0601_0002)));
    ports.begin(CALM);
    let vendor = sure_upload(rt, &mut ports, &mut asked, VENDOR, 4);
    assert_same(rt, vendor, Ok(Value::Four(2)));
}

#[test]
fn up_to_two_troubles_are_recovered_from(rt: HostRuntime) {
    for one in 0..TROUBLES {
        recovers(&rt, rt.alloc(), [one, NONE, NONE]);
        for two in 0..one {
            recovers(&rt, rt.alloc(), [one, two, NONE]);
        }
    }
}

#[test]
fn three_troubles_are_recovered_from(rt: HostRuntime) {
    for one in 0..TROUBLES {
        for two in 0..one {
            for three in 0..two {
                recovers(&rt, rt.alloc(), [one, two, three]);
            }
        }
    }
}

/// A call with one trouble is broken off after so many trips, and the next call is right.
fn goes_on(rt: &impl Abort, alloc: Global, one: usize, trips: u32) {
    let (mut ports, mut peer) = left_behind(rt, alloc);
    ports.begin([one, NONE, NONE]);
    let _broken_off = sure_download(rt, &mut ports, &mut peer, SETTING, FIRST, trips);
    let done = sure_download(rt, &mut ports, &mut peer, SETTING, SECOND, ENOUGH);
    assert_same(rt, done, Ok(()));
    assert_same(rt, setting(&ports), Some(SECOND));
}

#[test]
fn broken_off_anywhere_the_next_call_is_right(rt: HostRuntime) {
    for trips in 0..7 {
        for one in 0..TROUBLES {
            goes_on(&rt, rt.alloc(), one, trips);
        }
    }
}
