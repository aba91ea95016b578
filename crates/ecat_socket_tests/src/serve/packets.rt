//! What packets get back, and from which end.

use crate::serve::line::{Spelling, served};
use crate::serve::memory::{Packet, Service, assert_served};
use ec_ring::Port;

/// A line, and how it serves what comes.
struct Row {
    name: &'static str,
    /// Of its links 0 to 2 these are up.
    up: [bool; 3],
    service: Service,
}

/// What is sent back over whole lines and broken ones.
static ROWS: [Row; 8] = [
    Row {
        name: "a master with one port gets its answer at end A",
        up: [true; 3],
        service: Service {
            coming: &[packet!(A 1 Asked)],
            most: 4,
            failing: 0,
            counts: Some((1, 0)),
            sent: &[packet!(A 1 ByBoth)],
            calls: 3,
        },
    },
    // The first copy arrives at end A, to which nobody has spoken by then.
    Row {
        name: "a whole line answers at the other end once somebody spoke there",
        up: [true; 3],
        service: Service {
            coming: &[packet!(B 2 Asked), packet!(A 1 Asked), packet!(B 2 Asked)],
            most: 4,
            failing: 0,
            counts: Some((3, 0)),
            sent: &[packet!(B 2 ByBoth), packet!(A 1 Asked)],
            calls: 6,
        },
    },
    Row {
        name: "at a break each answer leaves where its frame came in",
        up: [true, false, true],
        service: Service {
            coming: &[packet!(A 1 Asked), packet!(B 2 Asked), packet!(A 3 Asked)],
            most: 4,
            failing: 0,
            counts: Some((3, 0)),
            sent: &[
                packet!(A 1 ByFirst),
                packet!(B 2 BySecond),
                packet!(A 3 ByFirst),
            ],
            calls: 7,
        },
    },
    Row {
        name: "an answer goes to whoever spoke last at its end",
        up: [true; 3],
        service: Service {
            coming: &[packet!(A 1 Asked), packet!(A 3 Asked), packet!(B 2 Asked)],
            most: 4,
            failing: 0,
            counts: Some((3, 0)),
            sent: &[packet!(A 1 ByBoth), packet!(A 3 ByBoth), packet!(A 3 Asked)],
            calls: 7,
        },
    },
    Row {
        name: "a copy that is lost is answered by nothing",
        up: [false, true, true],
        service: Service {
            coming: &[packet!(A 1 Asked), packet!(A 1 Asked)],
            most: 4,
            failing: 0,
            counts: Some((2, 0)),
            sent: &[],
            calls: 3,
        },
    },
    Row {
        name: "a packet that is no frame is dropped and its sender has not spoken",
        up: [true; 3],
        service: Service {
            coming: &[
                packet!(A 1 Asked),
                packet!(A 3 Rubbish),
                packet!(B 2 Rubbish),
                packet!(A 1 Asked),
            ],
            most: 4,
            failing: 0,
            counts: Some((2, 2)),
            sent: &[packet!(A 1 ByBoth), packet!(A 1 ByBoth)],
            calls: 6,
        },
    },
    Row {
        name: "no packet is served where none is asked for",
        up: [true; 3],
        service: Service {
            coming: &FOUR,
            most: 0,
            failing: 0,
            counts: Some((0, 0)),
            sent: &[],
            calls: 0,
        },
    },
    Row {
        name: "no more packets are served than asked for",
        up: [true; 3],
        service: Service {
            coming: &FOUR,
            most: 1,
            failing: 0,
            counts: Some((1, 0)),
            sent: &[packet!(A 1 ByBoth)],
            calls: 2,
        },
    },
];

/// Four packets of one master.
const FOUR: [Packet; 4] = [packet!(A 1 Asked); 4];

#[test]
fn packets_get_back_what_the_line_answers(rt: HostRuntime) {
    for row in &ROWS {
        let mut served = served(&rt, rt.alloc(), row.up);
        assert_served(&rt, &mut served, row.name, &row.service);
    }
}
