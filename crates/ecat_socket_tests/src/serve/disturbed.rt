//! Copies that leave an end late, twice or damaged, by a clock that the test winds.

ghost use Rattle.std.specs.Prelude.{◌≤◌};
ghost use Rattle.ecat_serve.specs.Ends.{any_receive, any_send};

use crate::asserts::assert_found;
use arrayvec::ArrayVec;
use ec_ring::{Port, PortFault};
use ec_wire::PACKET_ROOM;
use ecat_serve::{Arrived, Disturb, Disturbance, Disturbed, Ends, TimedEnds, Times, Waited};
use std::net::{IpAddr, Ipv4Addr, SocketAddr};
use std::process::Abort;
use std::time::Duration;

/// The most copies that a row sends.
const MOST: usize = 8;

/// A copy that left: at which end, by its letter, how many bytes, the first one, and the last one.
type Left = (u8, usize, u8, u8);

/// The letter of an end.
fn letter(end: Port) -> u8 {
    match end {
        Port::A => b'A',
        Port::B => b'B',
    }
}

/// Ends that keep what leaves them, and to which nothing comes; how often each kind of receive was asked for.
#[derive(Drop)]
struct Kept {
    left: ArrayVec<Left, MOST>,
    waits: ArrayVec<u64, MOST>,
    ended: usize,
}

impl Ends for Kept {
    ghost receives = { any_receive };

    ghost sends = { any_send };

    fn receive(&mut self, _into: &mut [u8; PACKET_ROOM]) -> Result<Option<Arrived>, PortFault> {
        self.ended = self.ended.wrapping_add(1);
        Ok(None)
    }

    fn send(&mut self, from: Port, _to: SocketAddr, bytes: &[u8]) -> Result<(), PortFault> {
        let first = bytes.first().copied().unwrap_or(0);
        let last = bytes.last().copied().unwrap_or(0);
        let _ = self.left.try_push((letter(from), bytes.len(), first, last));
        Ok(())
    }
}

impl TimedEnds for Kept {
    fn receive_within(
        &mut self,
        _into: &mut [u8; PACKET_ROOM],
        limit: Duration,
    ) -> Result<Waited, PortFault> {
        let micros = u64::try_from(limit.as_micros()).unwrap_or(u64::MAX);
        let _ = self.waits.try_push(micros);
        Ok(Waited::Silent)
    }
}

/// A clock that goes on by so many microseconds each time that it is asked.
#[derive(Drop)]
struct Wound {
    now: u64,
    step: u64,
}

impl Times for Wound {
    fn now(&mut self) -> u64 {
        let now = self.now;
        self.now = now.saturating_add(self.step);
        now
    }
}

/// What somebody asks, and what is sent behind it.
#[derive(Clone, Copy)]
enum Step {
    Ask(Port, Disturbance, u32),
    Send(Port, &'static [u8]),
    Receive,
}

/// Steps, the copies that have left behind them, in their order, and how long the receives have waited.
struct Row {
    name: &'static str,
    steps: &'static [Step],
    left: &'static [Left],
    waits: &'static [u64],
}

/// By a clock that goes on by 400 microseconds: a copy that is to leave a millisecond later is due 1,000
/// behind the reading at its send, and the next readings are 400, 800 and 1,200 behind that.
static ROWS: [Row; 7] = [
    Row {
        name: "a copy that nothing befalls",
        steps: &[Step::Send(Port::A, b"\x0e\x10\x07")],
        left: &[(b'A', 3, 0x0e, 0x07)],
        waits: &[],
    },
    Row {
        name: "the next two at that end leave twice, the third one once",
        steps: &[
            Step::Ask(Port::B, Disturbance::Double, 2),
            Step::Send(Port::A, b"\x0a\x01"),
            Step::Send(Port::B, b"\x0b\x01"),
            Step::Send(Port::B, b"\x0b\x02"),
            Step::Send(Port::B, b"\x0b\x03"),
        ],
        left: &[
            (b'A', 2, 0x0a, 0x01),
            (b'B', 2, 0x0b, 0x01),
            (b'B', 2, 0x0b, 0x01),
            (b'B', 2, 0x0b, 0x02),
            (b'B', 2, 0x0b, 0x02),
            (b'B', 2, 0x0b, 0x03),
        ],
        waits: &[],
    },
    Row {
        name: "a damaged copy has one bit of its length turned",
        steps: &[
            Step::Ask(Port::A, Disturbance::Damage, 1),
            Step::Send(Port::A, b"\x0e\x10\x07"),
            Step::Send(Port::A, b"\x0f\x10\x07"),
        ],
        left: &[(b'A', 3, 0x0f, 0x07), (b'A', 3, 0x0f, 0x07)],
        waits: &[],
    },
    Row {
        name: "an empty packet has no bit to be turned",
        steps: &[
            Step::Ask(Port::A, Disturbance::Damage, 1),
            Step::Send(Port::A, b""),
        ],
        left: &[(b'A', 0, 0, 0)],
        waits: &[],
    },
    Row {
        name: "a late copy leaves behind the next one, when it is due",
        steps: &[
            Step::Ask(Port::A, Disturbance::Late(1), 1),
            Step::Send(Port::A, b"\x0a\x01"),
            Step::Send(Port::A, b"\x0a\x02"),
            Step::Receive,
        ],
        left: &[(b'A', 2, 0x0a, 0x02), (b'A', 2, 0x0a, 0x01)],
        waits: &[600, 200],
    },
    Row {
        name: "late copies leave in the order in which they are due",
        steps: &[
            Step::Ask(Port::A, Disturbance::Late(2), 1),
            Step::Send(Port::A, b"\x0a\x01"),
            Step::Ask(Port::B, Disturbance::Late(1), 1),
            Step::Ask(Port::B, Disturbance::Double, 1),
            Step::Ask(Port::B, Disturbance::Damage, 1),
            Step::Send(Port::B, b"\x0b\x01"),
            Step::Receive,
        ],
        left: &[
            (b'B', 2, 0x0a, 0x01),
            (b'B', 2, 0x0a, 0x01),
            (b'A', 2, 0x0a, 0x01),
        ],
        waits: &[200],
    },
    Row {
        name: "what was asked last says by how much",
        steps: &[
            Step::Ask(Port::A, Disturbance::Late(900), 1),
            Step::Ask(Port::A, Disturbance::Late(0), 1),
            Step::Send(Port::A, b"\x0a\x01"),
            Step::Send(Port::A, b"\x0a\x02"),
            Step::Send(Port::A, b"\x0a\x03"),
            Step::Receive,
        ],
        left: &[
            (b'A', 2, 0x0a, 0x03),
            (b'A', 2, 0x0a, 0x01),
            (b'A', 2, 0x0a, 0x02),
        ],
        waits: &[],
    },
];

/// Does one step.
fn take(ends: &mut Disturbed<'_, Kept, Wound>, step: Step) -> bool {
    match step {
        Step::Ask(at, disturbance, count) => {
            ends.disturb(at, disturbance, count);
            true
        }
        Step::Send(from, bytes) => {
            let somebody = SocketAddr::new(IpAddr::V4(Ipv4Addr::LOCALHOST), 5000);
            ends.send(from, somebody, bytes).is_ok()
        }
        Step::Receive => ends.receive(&mut [0; PACKET_ROOM]) == Ok(None),
    }
}

/// Does the steps of a row at ends, if there is memory; all of them as they should?
fn taken(rt: &impl AllocGlobal, kept: &mut Kept, steps: &[Step]) -> Option<bool> {
    let wound = Wound { now: 0, step: 400 };
    let mut ends = Disturbed::new(rt.alloc(), kept, wound).ok()?;
    let mut done = true;
    for each in steps {
        done = take(&mut ends, *each) && done;
    }
    Some(done)
}

/// Asserts what has left behind the steps of a row, or that memory ran out.
fn assert_row(rt: &(impl AllocGlobal + Abort), row: &Row) {
    let mut kept = Kept {
        left: ArrayVec::new(),
        waits: ArrayVec::new(),
        ended: 0,
    };
    let Some(done) = taken(rt, &mut kept, row.steps) else {
        return;
    };
    assert_found(rt, row.name, done, true);
    assert_found(rt, row.name, kept.left.as_slice() == row.left, true);
    assert_found(rt, row.name, kept.waits.as_slice() == row.waits, true);
}

#[test]
fn copies_leave_late_twice_and_damaged(rt: HostRuntime) {
    for row in &ROWS {
        assert_row(&rt, row);
    }
}
