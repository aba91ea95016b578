//! Each call that a service makes fails in turn.

use crate::serve::line::{Spelling, served};
use crate::serve::memory::{Packet, Service, assert_served};
use ec_ring::Port;

/// A frame, a packet that is dropped, and again a frame, the first call of which fails.
const FIRST: Service = Service {
    coming: &[packet!(A 1 Asked), packet!(A 1 Rubbish), packet!(A 1 Asked)],
    most: 3,
    failing: 1,
    counts: None,
    sent: &[],
    calls: 1,
};

/// The calls, each of which fails in turn: a receive and a send, a receive of a packet that is dropped, and
/// again a receive and a send.
static CALLS: [&str; 5] = [
    "call 1 fails",
    "call 2 fails",
    "call 3 fails",
    "call 4 fails",
    "call 5 fails",
];

#[test]
fn the_first_call_that_fails_ends_the_service(rt: HostRuntime) {
    for (before, row) in CALLS.iter().enumerate() {
        let mut service = FIRST;
        service.failing = before.wrapping_add(1);
        service.calls = service.failing;
        if service.failing > 2 {
            service.sent = &[packet!(A 1 ByBoth)];
        }
        let mut served = served(&rt, rt.alloc(), [true; 3]);
        assert_served(&rt, &mut served, row, &service);
    }
}
