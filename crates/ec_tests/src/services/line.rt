//! Rings of slaves as the tests make them.

use ec_app::{Objects, Slave};
use ec_master::RingPorts;
use ec_regs::{AlState, SyncMan};
use ec_ring::Ring;
use std::alloc::Global;
use std::process::Abort;

/// The station address of the only slave of a ring.
const STATION: u16 = 0x1001;

/// An enabled mailbox of 32 bytes.
fn mailbox(start: u16, control: u8) -> SyncMan {
    SyncMan {
        start,
        length: 32,
        control,
        status: 0x00,
        activate: 0x01,
        pdi: 0x00,
    }
}

/// A slave in this state with these objects, requests at 0x1800 and answers at 0x1880.
pub fn slave(rt: &impl Abort, alloc: Global, state: AlState, objects: Objects) -> Slave {
    let mut slave = Slave::new(alloc, STATION, objects, 0, 0).expect(rt, "memory");
    slave.set_state(state);
    slave
        .controller_mut()
        .set_syncman(0, &mailbox(0x1800, 0x06));
    slave
        .controller_mut()
        .set_syncman(1, &mailbox(0x1880, 0x02));
    slave
}

/// The ports of a ring of one slave.
pub fn alone(rt: &impl Abort, alloc: Global, slave: Slave) -> RingPorts {
    let mut line = Vec::new(alloc);
    let pushed = line.push(slave);
    assert!(rt; pushed.is_ok());
    RingPorts::new(Ring::new(line).ok().expect(rt, "room"))
}
