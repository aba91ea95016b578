//! A line of two slaves, and the frames that go over it: a BRD of the station address, two bytes at 0x0010.

ghost use Rattle.std.specs.Prelude.{◌≡◌, length};

use ec_app::{Objects, Slave};
use ec_ring::Ring;
use ecat_serve::Served;
use std::alloc::Global;
use std::process::Abort;

/// The frame as a master sends it.
const ASKED: [u8; 16] = [
    0x0E, 0x10, 0x07, 0x07, 0x00, 0x00, 0x10, 0x00, 0x02, 0x00, 0x00, 0x00, 0x00, 0x00, 0x00, 0x00,
];

/// Both slaves have put in their stations, 0x1001 and 0x1002.
const BY_BOTH: [u8; 16] = [
    0x0E, 0x10, 0x07, 0x07, 0x02, 0x00, 0x10, 0x00, 0x02, 0x00, 0x00, 0x00, 0x03, 0x10, 0x02, 0x00,
];

/// The first one alone has.
const BY_FIRST: [u8; 16] = [
    0x0E, 0x10, 0x07, 0x07, 0x01, 0x00, 0x10, 0x00, 0x02, 0x00, 0x00, 0x00, 0x01, 0x10, 0x01, 0x00,
];

/// The second one alone has, behind whose closed port 0 the frame turned round.
const BY_SECOND: [u8; 16] = [
    0x0E, 0x10, 0x07, 0x07, 0x01, 0x00, 0x10, 0x00, 0x02, 0x40, 0x00, 0x00, 0x02, 0x10, 0x01, 0x00,
];

/// A packet that is no frame.
const RUBBISH: [u8; 16] = [0xFF; 16];

/// A packet, by the name of its bytes.
#[derive(Clone, Copy)]
pub enum Spelling {
    /// The frame as a master sends it.
    Asked,
    /// Both slaves have put in their stations.
    ByBoth,
    /// The first one alone has.
    ByFirst,
    /// The second one alone has.
    BySecond,
    /// No frame.
    Rubbish,
}

impl Spelling {
    /// The bytes.
    pub fn bytes(self) -> [u8; 16] {
        match self {
            Spelling::Asked => ASKED,
            Spelling::ByBoth => BY_BOTH,
            Spelling::ByFirst => BY_FIRST,
            Spelling::BySecond => BY_SECOND,
            Spelling::Rubbish => RUBBISH,
        }
    }
}

/// A slave in Init that has nothing but its station address.
fn slave(rt: &impl Abort, alloc: Global, station: u16) -> Slave {
    Slave::new(alloc, station, Objects::new(), 1, 1).expect(rt, "memory")
}

/// A line of two of them; of its links 0 to 2 these are up.
pub fn served(rt: &impl Abort, alloc: Global, up: [bool; 3]) -> Served {
    Served::new(ring(rt, alloc, up))
}

/// The ring of such a line.
fn ring(rt: &impl Abort, alloc: Global, up: [bool; 3]) -> Ring
    ensures { length result.slaves ≡ 2 }
{
    let mut slaves = Vec::new(alloc);
    let first = slaves.push(slave(rt, alloc, 0x1001));
    assert!(rt; first.is_ok());
    let second = slaves.push(slave(rt, alloc, 0x1002));
    assert!(rt; second.is_ok());
    let mut ring = Ring::new(slaves).ok().expect(rt, "no more than the most");
    assert_eq!(rt; ring.slaves().len(), 2);
    ring.set_link(0, up[0]);
    ring.set_link(1, up[1]);
    ring.set_link(2, up[2]);
    ring
}
