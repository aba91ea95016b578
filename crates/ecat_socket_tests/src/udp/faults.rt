//! Each call that a trip makes fails in turn.

use super::cycles::AS_SENT;
use super::packets::{Row, assert_row};
use ec_master::CycleFault;

/// The calls of a trip, each of which fails in turn.
static CALLS: [&str; 8] = [
    "call 1 fails",
    "call 2 fails",
    "call 3 fails",
    "call 4 fails",
    "call 5 fails",
    "call 6 fails",
    "call 7 fails",
    "call 8 fails",
];

#[test]
fn the_first_call_that_fails_is_the_last_call(rt: HostRuntime) {
    for (before, name) in CALLS.iter().enumerate() {
        let failing = before.wrapping_add(1);
        let row = Row {
            name,
            down: None,
            failing,
            trailing: 0,
            verdict: Err(CycleFault::Port),
            left: AS_SENT,
            failures: 1,
            taken: None,
            calls: &[],
            made: failing,
        };
        assert_row(&rt, rt.alloc(), &row);
    }
}
