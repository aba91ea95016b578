//! The slave that damaged bytes go through.

use ec_app::{Objects, Rights, Slave, Value};
use ec_regs::{AlState, SyncMan};
use ec_wire::{Form, FrameBuf};
use std::alloc::Global;
use std::process::Abort;

/// The station address of the slave, or of the first of several.
pub const STATION: u16 = 0x1001;

/// The length of each mailbox in bytes.
pub const MAILBOX: u16 = 32;

/// What the slave's one object, 0x1018:01, may be used for and holds.
pub const HELD: (Rights, Value) = (Rights::ReadOnly, Value::Four(2));

/// A slave in Pre-Op with two mailboxes, the master's at 0x1800 and its own at 0x1880, and with one object.
pub fn slave(rt: &impl Abort, alloc: Global, station: u16) -> Slave {
    let mut objects = Objects::new();
    assert!(rt; objects.add(0x1018, 1, HELD.0, HELD.1).is_ok());
    let mut slave = Slave::new(alloc, station, objects, 0, 0).expect(rt, "memory");
    slave.set_state(AlState::PreOp);
    let controller = slave.controller_mut();
    controller.set_syncman(0, &SyncMan::mailbox_from_master(0x1800, MAILBOX));
    controller.set_syncman(1, &SyncMan::mailbox_to_master(0x1880, MAILBOX));
    slave
}

/// Does the slave hold what it held at first, and nothing else?
pub fn holds_its_object(slave: &Slave) -> bool {
    slave.objects().count() == 1 && slave.objects().get(0x1018, 1) == Some(HELD)
}

/// Is a frame read again, of its own bytes, as the same frame?
pub fn is_read_again(frame: &FrameBuf) -> bool {
    match FrameBuf::read(frame.bytes(), Form::Udp) {
        Ok(again) => again.bytes() == frame.bytes(),
        Err(_) => false,
    }
}

/// Is a frame, passed through the slave, read again as the frame that came out?
pub fn passes(slave: &mut Slave, frame: &FrameBuf) -> bool {
    let mut passed = frame.copy();
    slave.controller_mut().process(&mut passed);
    is_read_again(&passed)
}
