//! Transfers with one slave of three, wherever the cable is broken, while the others answer mails of their
//! own.

ghost use Rattle.std.specs.Prelude.{◌≡◌, List};
ghost use Rattle.ec_app.specs.State.{SlaveState};
ghost use Rattle.ec_app.specs.Value.{FitsValue};
ghost use Rattle.ec_app.specs.declared.sdo.Sdo.TheVariants.{Upload};
ghost use Rattle.ec_services.specs.Mailbox.{IsPeer};
ghost use Rattle.ec_over_ring.specs.Transfers.{HasPeer, answered, download_of, two_steps, upload_of};

use crate::asserts::assert_same;
use crate::over_ring::line::{SETTING, three, value_at};
use ec_app::Value;
use ec_master::RingPorts;
use ec_over_ring::promises::transfers_over_ring;
use ec_services::{Area, MasterFault, Peer, sdo_download, sdo_upload};
use std::process::Abort;

/// The slave at a place as a peer, whose next request has the counter 1.
fn peer(place: u16) -> Peer {
    Peer {
        station: 0x3000 + place % 3,
        to: Area {
            start: 0x1800,
            length: 32,
        },
        from: Area {
            start: 0x1880,
            length: 32,
        },
        counter: 1,
    }
}

/// An upload with one read, and the law of it: over a ring that has the peer it comes to what the peer's
/// slave holds, and the ring has the peer again.
fn upload(ports: &mut RingPorts, peer: &mut Peer, index: u16, sub: u8) -> Result<Value, MasterFault>
    requires { IsPeer peer.old }
    ensures told { (before behind : List SlaveState) (s : SlaveState)
        → HasPeer peer.old ports.old before s behind → result ≡ upload_of index sub s.application.objects }
    ensures again { (before behind : List SlaveState) (s : SlaveState)
        → HasPeer peer.old ports.old before s behind
        → HasPeer peer.new ports.new (two_steps before) (answered peer.old (Upload index sub) s)
        (two_steps behind) }
{
    transfers_over_ring();
    sdo_upload(ports, peer, index, sub, 1)
}

/// Does nothing; its clause is what a proof knows of every value: it fits its bytes.
fn fits(value: Value)
    ensures { FitsValue value }
{
    match value {
        Value::One(_number) => {}
        Value::Two(_number) => {}
        Value::Four(_number) => {}
    }
}

/// A download with one read, and the law of it.
fn download(
    ports: &mut RingPorts,
    peer: &mut Peer,
    index: u16,
    sub: u8,
    value: Value,
) -> Result<(), MasterFault>
    requires { IsPeer peer.old }
    ensures told { (before behind : List SlaveState) (s : SlaveState)
        → HasPeer peer.old ports.old before s behind
        → result ≡ download_of index sub value s.application.objects }
{
    fits(value);
    transfers_over_ring();
    sdo_download(ports, peer, index, sub, value, 1)
}

/// A peer that may be asked: what the calls require.
fn assert_peer(rt: &impl Abort, peer: &Peer)
    ensures { IsPeer peer.now }
{
    assert!(rt; 1 <= peer.counter && peer.counter <= 7);
    assert!(rt; 16 <= peer.to.length && peer.to.length <= 1486);
    assert!(rt; 16 <= peer.from.length && peer.from.length <= 1486);
}

/// Asserts what an upload with one read comes to.
fn assert_uploads(
    rt: &impl Abort,
    ports: &mut RingPorts,
    peer: &mut Peer,
    object: (u16, u8),
    wanted: Result<Value, MasterFault>,
) {
    assert_peer(rt, peer);
    assert_same(rt, upload(ports, peer, object.0, object.1), wanted);
}

/// Asserts what a download with one read comes to.
fn assert_downloads(
    rt: &impl Abort,
    ports: &mut RingPorts,
    peer: &mut Peer,
    object: (u16, u8, Value),
    wanted: Result<(), MasterFault>,
) {
    assert_peer(rt, peer);
    let answer = download(ports, peer, object.0, object.1, object.2);
    assert_same(rt, answer, wanted);
}

#[test]
fn objects_are_read_and_written_wherever_the_cable_is_broken(rt: HostRuntime) {
    for link in 0..=4 {
        for place in 0..3u16 {
            let mut ports = three(&rt, rt.alloc(), place, &[link]);
            let mut peer = peer(place);
            let held = Ok(Value::Two(0x1000 + place));
            assert_uploads(&rt, &mut ports, &mut peer, SETTING, held);
            let new = (0x2000, 1, Value::Two(0x1234));
            assert_downloads(&rt, &mut ports, &mut peer, new, Ok(()));
            assert_uploads(&rt, &mut ports, &mut peer, SETTING, Ok(Value::Two(0x1234)));
            assert_same(&rt, peer.counter, 4);
            for other in 0..3u16 {
                let wanted = if other == place { 0x1234 } else { 0x7777 };
                let held = value_at(&ports, usize::from(other));
                assert_same(&rt, held, Some(Value::Two(wanted)));
            }
        }
    }
}
