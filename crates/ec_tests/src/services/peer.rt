//! The peer of the tests.

use ec_services::{Area, Peer};

/// The slave 0x1001 with mailboxes of 32 bytes, whose next request has the counter 1.
pub fn peer() -> Peer {
    Peer {
        station: 0x1001,
        to: Area {
            start: 0x1800,
            length: 32,
        },
        from: Area {
            start: 0x1880,
            length: 32,
        },
        counter: 1,
    }
}
