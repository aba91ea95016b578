//! The ring that the tests ask.

ghost use Rattle.std.specs.Prelude.{◌≡◌};
ghost use Rattle.ec_regs.specs.declared.sync_man.SyncMan.{SyncMan};
ghost use Rattle.ec_services.specs.declared.mailbox.Peer.{Peer};
ghost use Rattle.ec_over_ring.specs.Transfers.{IsReady};

use ec_app::{Objects, Rights, Slave, Value};
use ec_master::RingPorts;
use ec_over_ring::promises::ready_at_first;
use ec_regs::{AlState, SyncMan};
use ec_ring::Ring;
use ec_wire::{Form, FrameBuf};
use std::alloc::Global;
use std::process::Abort;

/// Slaves on a ring. These of its links are down; numbers above that of its slaves are passed over.
fn ports(rt: &impl Abort, line: Vec<Slave>, down: &[usize]) -> RingPorts {
    let mut ring = Ring::new(line).ok().expect(rt, "no more than the most");
    for &link in down {
        if link <= ring.slaves().len() {
            ring.set_link(link, false);
        }
    }
    RingPorts::new(ring)
}

/// An object that may be read and written: 0x2000:01.
pub const SETTING: (u16, u8) = (0x2000, 1);

/// BWR of a mailbox of requests at 0x1800: a mail with the counter 3, the download of 0x7777 to 0x2000:01.
const WAITING: [u8; 46] = [
    0x2C, 0x10, 0x08, 0x00, 0x00, 0x00, 0x00, 0x18, 0x20, 0x00, 0x00, 0x00, 0x0A, 0x00, 0x00, 0x00,
    0x00, 0x33, 0x00, 0x20, 0x2B, 0x00, 0x20, 0x01, 0x77, 0x77, 0x00, 0x00, 0x00, 0x00, 0x00, 0x00,
    0x00, 0x00, 0x00, 0x00, 0x00, 0x00, 0x00, 0x00, 0x00, 0x00, 0x00, 0x00, 0x00, 0x00,
];

/// An enabled mailbox of 32 bytes.
fn mailbox(start: u16, control: u8) -> SyncMan
    ensures { result ≡ record {
      start = start;
      length = 32;
      control = control;
      status = 0;
      activate = 1;
      pdi = 0;
    } }
{
    SyncMan {
        start,
        length: 32,
        control,
        status: 0x00,
        activate: 0x01,
        pdi: 0x00,
    }
}

/// The objects of the slave at a place: a vendor that may be read alone, a setting, which is 0x1000 and the
/// place, and a value that may be written alone.
fn objects(rt: &impl Abort, place: u16) -> Objects {
    let mut objects = Objects::new();
    let vendor = objects.add(0x1018, 1, Rights::ReadOnly, Value::Four(2));
    assert!(rt; vendor.is_ok());
    let setting = objects.add(0x2000, 1, Rights::Both, Value::Two(0x1000 + place % 3));
    assert!(rt; setting.is_ok());
    let secret = objects.add(0x2000, 2, Rights::WriteOnly, Value::One(5));
    assert!(rt; secret.is_ok());
    objects
}

/// The slave at a place, in Pre-Op, requests at 0x1800 and answers at 0x1880: it is ready for the first
/// request of a peer of these areas.
fn mail_slave(rt: &impl Abort, alloc: Global, place: u16) -> Slave
    ensures { (peer : Peer) → peer.to ≡ record { start = 0x1800; length = 32 }
        → peer.from ≡ record { start = 0x1880; length = 32 } → IsReady peer result }
{
    ready_at_first();
    let station = 0x3000 + place % 3;
    let mut slave = Slave::new(alloc, station, objects(rt, place), 0, 0).expect(rt, "memory");
    slave.set_state(AlState::PreOp);
    slave
        .controller_mut()
        .set_syncman(0, &mailbox(0x1800, 0x06));
    slave
        .controller_mut()
        .set_syncman(1, &mailbox(0x1880, 0x02));
    slave
}

/// That slave with a mail that waits for its next step.
fn busy_slave(rt: &impl Abort, alloc: Global, place: u16) -> Slave {
    let mut slave = mail_slave(rt, alloc, place);
    let mut frame = FrameBuf::read(&WAITING, Form::Ethernet)
        .ok()
        .expect(rt, "a frame");
    slave.controller_mut().process(&mut frame);
    slave
}

/// Three slaves in Pre-Op with mailboxes and the stations 0x3000 to 0x3002. A mail waits for all but the one
/// at a place.
pub fn three(rt: &impl Abort, alloc: Global, free: u16, down: &[usize]) -> RingPorts {
    let mut line = Vec::new(alloc);
    for place in 0..3u16 {
        let slave = if place == free {
            mail_slave(rt, alloc, place)
        } else {
            busy_slave(rt, alloc, place)
        };
        let pushed = line.push(slave);
        assert!(rt; pushed.is_ok());
    }
    ports(rt, line, down)
}

/// What the slave at a place holds as the setting, where there is one.
pub fn value_at(ports: &RingPorts, place: usize) -> Option<Value> {
    let slave = ports.ring().slaves().get(place)?;
    Some(slave.objects().get(0x2000, 1)?.1)
}
