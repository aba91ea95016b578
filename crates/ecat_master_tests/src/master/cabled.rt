//! Cables that break and heal while a master runs.

use super::stage::{Event, Row, Told, assert_rows};
use ec_ring::Port;

/// The system's number of "Network is down" (Linux, `ENETDOWN`).
const NETWORK_IS_DOWN: i32 = 100;

/// What is told of cables that break, heal or lose a copy.
static ROWS: [Row; 7] = [
    Row {
        name: "a link breaks and heals",
        slaves: 3,
        down: &[],
        told: Told::Same,
        events: &[(3, Event::Link(2, false)), (7, Event::Link(2, true))],
        stop: false,
        cycles: 10,
        status: 0,
        text: brought!(
            "cycle 3: redundancy lost: link 2 down: between slave 1 (0x1002) and slave 2 (0x1003)\n\
            cycle 7: ring whole again\nleft in Init\n\
            cycles 10 good 10 short 0 over 0 fault 0 not-in-op 0\n\
            cycle time least 0 mean 0 greatest 0 microseconds, 50% within 0, 90% 0, 99% 0, 99.9% 0\n\
            item 0 LRW data a0a1a2 wkc 9 of 9\n"
        ),
    },
    Row {
        name: "a slave is cut off and comes back",
        slaves: 3,
        down: &[],
        told: Told::Same,
        events: &[
            (3, Event::Link(1, false)),
            (4, Event::Link(2, false)),
            (9, Event::Link(1, true)),
        ],
        stop: false,
        cycles: 10,
        status: 0,
        text: brought!(
            "cycle 3: redundancy lost: link 1 down: between slave 0 (0x1001) and slave 1 (0x1002)\n\
            cycle 4: item 0: came 6 of 9; links 1 and 2 down: slave 1 cut off (0x1002)\n\
            cycle 9: good again after 5 cycles\n\
            cycle 9: redundancy lost: link 2 down: between slave 1 (0x1002) and slave 2 (0x1003)\n\
            left in Init\ncycles 10 good 5 short 5 over 0 fault 0 not-in-op 0\n\
            cycle time least 0 mean 0 greatest 0 microseconds, 50% within 0, 90% 0, 99% 0, 99.9% 0\n\
            item 0 LRW data a0a1a2 wkc 9 of 9\n"
        ),
    },
    Row {
        name: "a lost copy is told",
        slaves: 3,
        down: &[],
        told: Told::Same,
        events: &[(3, Event::LoseA)],
        stop: false,
        cycles: 5,
        status: 0,
        text: brought!(
            "cycle 3: item 0: came 0 of 9; ring whole, nothing came at port B\n\
            cycle 4: good again after 1 cycle\n\
            left in Init\ncycles 5 good 4 short 1 over 0 fault 0 not-in-op 0\n\
            cycle time least 0 mean 0 greatest 0 microseconds, 50% within 0, 90% 0, 99% 0, 99.9% 0\n\
            item 0 LRW data a0a1a2 wkc 9 of 9\n"
        ),
    },
    Row {
        name: "both copies are lost, and then one: one line tells each",
        slaves: 3,
        down: &[],
        told: Told::Same,
        events: &[(3, Event::LoseBoth), (4, Event::LoseA)],
        stop: false,
        cycles: 6,
        status: 0,
        text: brought!(
            "cycle 3: item 0: came 0 of 9; ring whole, nothing came at ports A and B\n\
            cycle 4: item 0: came 0 of 9; ring whole, nothing came at port B; \
            not good since cycle 3\n\
            cycle 5: good again after 2 cycles\n\
            left in Init\ncycles 6 good 4 short 2 over 0 fault 0 not-in-op 0\n\
            cycle time least 0 mean 0 greatest 0 microseconds, 50% within 0, 90% 0, 99% 0, 99.9% 0\n\
            item 0 LRW data a0a1a2 wkc 9 of 9\n"
        ),
    },
    Row {
        name: "a copy is lost where a slave is cut off: one line tells it, and since when no cycle is good",
        slaves: 3,
        down: &[],
        told: Told::Same,
        events: &[
            (3, Event::Link(1, false)),
            (4, Event::Link(2, false)),
            (6, Event::LoseA),
            (8, Event::Link(1, true)),
            (8, Event::Link(2, true)),
        ],
        stop: false,
        cycles: 10,
        status: 0,
        text: brought!(
            "cycle 3: redundancy lost: link 1 down: between slave 0 (0x1001) and slave 1 (0x1002)\n\
            cycle 4: item 0: came 6 of 9; links 1 and 2 down: slave 1 cut off (0x1002)\n\
            cycle 6: item 0: came 3 of 9; links 1 and 2 down: slave 1 cut off (0x1002); \
            not good since cycle 4\n\
            cycle 7: item 0: came 6 of 9; links 1 and 2 down: slave 1 cut off (0x1002); \
            not good since cycle 4\n\
            cycle 8: good again after 4 cycles\ncycle 8: ring whole again\n\
            left in Init\ncycles 10 good 6 short 4 over 0 fault 0 not-in-op 0\n\
            cycle time least 0 mean 0 greatest 0 microseconds, 50% within 0, 90% 0, 99% 0, 99.9% 0\n\
            item 0 LRW data a0a1a2 wkc 9 of 9\n"
        ),
    },
    Row {
        name: "of links that are up again before all is known of them what was known is told",
        slaves: 3,
        down: &[],
        told: Told::Same,
        events: &[
            (3, Event::Link(1, false)),
            (4, Event::Link(3, false)),
            (6, Event::Link(1, true)),
            (6, Event::Link(3, true)),
        ],
        stop: false,
        cycles: 8,
        status: 0,
        text: brought!(
            "cycle 3: redundancy lost: link 1 down: between slave 0 (0x1001) and slave 1 (0x1002)\n\
            cycle 4: item 0: came 3 of 9; link 1 is the first down, behind it unknown\n\
            cycle 6: good again after 2 cycles\ncycle 6: ring whole again\n\
            left in Init\ncycles 8 good 6 short 2 over 0 fault 0 not-in-op 0\n\
            cycle time least 0 mean 0 greatest 0 microseconds, 50% within 0, 90% 0, 99% 0, 99.9% 0\n\
            item 0 LRW data a0a1a2 wkc 9 of 9\n"
        ),
    },
    Row {
        name: "a line that was never a ring has lost no redundancy",
        slaves: 3,
        down: &[3],
        told: Told::Same,
        events: &[(3, Event::Link(1, false)), (6, Event::Link(1, true))],
        stop: false,
        cycles: 8,
        status: 0,
        text: "slaves 3\nlink 3 down: between slave 2 (0x1003) and port B\n\
            stations given\nall in Init\nall in Pre-Op\nall in Safe-Op\nall in Op\n\
            cycle 3: item 0: came 3 of 9; link 1 is the first down, behind it unknown\n\
            cycle 6: good again after 3 cycles\n\
            cycle 6: link 3 down: between slave 2 (0x1003) and port B\n\
            left in Init\ncycles 8 good 5 short 3 over 0 fault 0 not-in-op 0\n\
            cycle time least 0 mean 0 greatest 0 microseconds, 50% within 0, 90% 0, 99% 0, 99.9% 0\n\
            item 0 LRW data a0a1a2 wkc 9 of 9\n",
    },
];

#[test]
fn cables_break_and_heal(rt: HostRuntime) {
    assert_rows(&rt, &ROWS);
}

/// What is told of ports that fail and work again.
static FAILING: [Row; 4] = [
    Row {
        name: "a port fails, and works again",
        slaves: 3,
        down: &[],
        told: Told::Same,
        events: &[
            (3, Event::Fails(Port::B, Some(NETWORK_IS_DOWN))),
            (7, Event::Fails(Port::B, None)),
        ],
        stop: false,
        cycles: 10,
        status: 0,
        text: brought!(
            "cycle 3: redundancy lost: port B failed (Network is down)\n\
            cycle 7: port B works again\ncycle 7: ring whole again\nleft in Init\n\
            cycles 10 good 10 short 0 over 0 fault 0 not-in-op 0\n\
            cycle time least 0 mean 0 greatest 0 microseconds, 50% within 0, 90% 0, 99% 0, 99.9% 0\n\
            port A failed 0 times, port B 1\n\
            item 0 LRW data a0a1a2 wkc 9 of 9\n"
        ),
    },
    Row {
        name: "port A fails and stays so",
        slaves: 3,
        down: &[],
        told: Told::Same,
        events: &[(3, Event::Fails(Port::A, Some(NETWORK_IS_DOWN)))],
        stop: false,
        cycles: 10,
        status: 0,
        text: brought!(
            "cycle 3: redundancy lost: port A failed (Network is down)\nleft in Init\n\
            cycles 10 good 10 short 0 over 0 fault 0 not-in-op 0\n\
            cycle time least 0 mean 0 greatest 0 microseconds, 50% within 0, 90% 0, 99% 0, 99.9% 0\n\
            port A failed 1 times, port B 0\n\
            item 0 LRW data a0a1a2 wkc 9 of 9\n"
        ),
    },
    Row {
        name: "a port fails where a link is down already: slaves are cut off",
        slaves: 3,
        down: &[],
        told: Told::Same,
        events: &[
            (2, Event::Link(1, false)),
            (3, Event::Fails(Port::B, Some(NETWORK_IS_DOWN))),
        ],
        stop: true,
        cycles: 10,
        status: 1,
        text: brought!(
            "cycle 2: redundancy lost: link 1 down: between slave 0 (0x1001) and slave 1 (0x1002)\n\
            cycle 3: port B failed (Network is down)\n\
            cycle 3: item 0: came 3 of 9; link 1 is the first down, behind it unknown\n\
            not all left in Init\n\
            cycles 4 good 3 short 1 over 0 fault 0 not-in-op 0\n\
            cycle time least 0 mean 0 greatest 0 microseconds, 50% within 0, 90% 0, 99% 0, 99.9% 0\n\
            port A failed 0 times, port B 1\n\
            item 0 LRW data a0a1a2 wkc 9 of 9\n"
        ),
    },
    Row {
        name: "both ports fail: the cycle that ends by it says which and why",
        slaves: 3,
        down: &[],
        told: Told::Same,
        events: &[
            (2, Event::Fails(Port::A, Some(NETWORK_IS_DOWN))),
            (2, Event::Fails(Port::B, Some(NETWORK_IS_DOWN))),
            (4, Event::Fault),
            (5, Event::Fails(Port::A, None)),
            (5, Event::Fails(Port::B, None)),
        ],
        stop: false,
        cycles: 8,
        status: 0,
        text: brought!(
            "cycle 2: port A failed (Network is down)\ncycle 2: port B failed (Network is down)\n\
            cycle 2: item 0: came 0 of 9; no copy came back: nothing known\n\
            cycle 4: port A failed (Network is down), port B failed (Network is down); \
            not good since cycle 2\n\
            cycle 5: port A works again\ncycle 5: port B works again\n\
            cycle 5: good again after 3 cycles\ncycle 5: ring whole again\nleft in Init\n\
            cycles 8 good 5 short 2 over 0 fault 1 not-in-op 0\n\
            cycle time least 0 mean 0 greatest 0 microseconds, 50% within 0, 90% 0, 99% 0, 99.9% 0\n\
            port A failed 1 times, port B 1\n\
            item 0 LRW data a0a1a2 wkc 9 of 9\n"
        ),
    },
];

#[test]
fn ports_fail_and_work_again(rt: HostRuntime) {
    assert_rows(&rt, &FAILING);
}
