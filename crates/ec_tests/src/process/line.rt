//! A line of slaves with outputs, inputs and a mailbox.

use ec_app::{Objects, Slave};
use ec_applications::{Application, Applications, Behaviour};
use ec_regs::SyncMan;
use ec_ring::Ring;
use std::alloc::Global;
use std::process::Abort;

/// The control byte of a buffered area that the master writes.
const MASTER_WRITES: u8 = 4;

/// An active sync manager.
fn area(start: u16, length: u16, control: u8) -> SyncMan {
    SyncMan {
        start,
        length,
        control,
        status: 0,
        activate: 1,
        pdi: 0,
    }
}

/// A slave of outputs (sync manager 2, as many bytes as these, which it is shown) and inputs (3, so many
/// bytes).
fn slave(rt: &impl Abort, alloc: Global, station: u16, outputs: &[u8], inputs: u16) -> Slave {
    let mut slave = Slave::simple(alloc, station, Objects::new(), 0, inputs).expect(rt, "memory");
    assert!(rt; outputs.len() < 0x100);
    let count = outputs.len() as u16;
    let controller = slave.controller_mut();
    controller.set_syncman(2, &area(0x1000, count, MASTER_WRITES));
    controller.set_syncman(3, &area(0x1100, inputs, 0));
    controller.load(0x1000, outputs);
    slave
}

/// Two slaves: the first one was written two bytes of outputs, the second one has twelve bytes of inputs.
pub fn ring(rt: &impl Abort, alloc: Global) -> Ring {
    let mut slaves = Vec::new(alloc);
    let first = slaves.push(slave(rt, alloc, 0x1001, &[0xAB, 0xCD], 2));
    assert!(rt; first.is_ok());
    let second = slaves.push(slave(rt, alloc, 0x1002, &[0x11], 12));
    assert!(rt; second.is_ok());
    let ring = Ring::new(slaves).ok().expect(rt, "at most 256");
    assert!(rt; ring.slaves().len() == 2);
    ring
}

/// A mirror of a slave's sync manager 2 in its sync manager 3.
pub const fn mirror(place: usize) -> Application {
    Application {
        place,
        behaviour: Behaviour::Mirror {
            inputs: 3,
            outputs: 2,
        },
    }
}

/// A counter in a sync manager of a slave.
pub const fn count(place: usize, inputs: usize) -> Application {
    Application {
        place,
        behaviour: Behaviour::Count { inputs },
    }
}

/// These applications.
pub fn applications(rt: &impl Abort, alloc: Global, these: &[Application]) -> Applications {
    let mut all = Vec::new(alloc);
    for one in these.iter() {
        let pushed = all.push(*one);
        assert!(rt; pushed.is_ok());
    }
    Applications::new(all)
}

/// Asserts that the bytes of a slave's inputs are these, from its first input on.
pub fn assert_inputs(rt: &impl Abort, ring: &Ring, place: usize, wanted: &[u8]) {
    let slaves = ring.slaves();
    let slave = slaves.get(place).expect(rt, "a slave");
    assert!(rt; wanted.len() < 0x100);
    let count = wanted.len() as u16;
    assert_eq!(rt; slave.controller().bytes(0x1100, count), wanted);
}

/// Loads bytes into a slave's outputs, from its first output on.
pub fn load_outputs(rt: &impl Abort, ring: &mut Ring, place: usize, bytes: &[u8]) {
    assert!(rt; place < ring.slaves().len());
    assert!(rt; bytes.len() < 0x100);
    ring.slave_mut(place).controller_mut().load(0x1000, bytes);
}
