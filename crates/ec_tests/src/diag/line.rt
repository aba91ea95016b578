//! Rings as the tests make them.

use ec_app::{Objects, Slave};
use ec_ring::{Links, MAX_LINKS, Ring, Weather};
use std::alloc::Global;
use std::process::Abort;

/// A ring of this many slaves, each in state Init, with no objects and no process data.
pub fn ring(rt: &impl Abort, alloc: Global, count: usize) -> Ring {
    let mut slaves = Vec::new(alloc);
    for _ in 0..count {
        let slave = Slave::new(alloc, 0x1001, Objects::new(), 0, 0).expect(rt, "memory");
        let pushed = slaves.push(slave);
        assert!(rt; pushed.is_ok());
    }
    Ring::new(slaves).ok().expect(rt, "room")
}

/// A ring with these links down.
pub fn broken(rt: &impl Abort, alloc: Global, count: usize, down: &[usize]) -> Ring {
    let mut ring = ring(rt, alloc, count);
    for k in down {
        put(rt, &mut ring, *k, false);
    }
    ring
}

/// Puts a link of a ring up or down.
pub fn put(rt: &impl Abort, ring: &mut Ring, k: usize, up: bool) {
    assert!(rt; k <= ring.slaves().len());
    ring.set_link(k, up);
}

/// All links up but these.
pub fn down(links: &[usize]) -> Links {
    let mut all = Links::new();
    for k in links {
        if *k < MAX_LINKS {
            all.set(*k, false);
        }
    }
    all
}

/// Each copy under links of its own, none lost, copy A first.
pub fn under(a: Links, b: Links) -> Weather {
    Weather {
        a,
        b,
        lost_a: false,
        lost_b: false,
        b_first: false,
    }
}
