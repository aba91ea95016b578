//! A line that is served under commands, in memory: a line of input comes where no packet waits.

ghost use Rattle.ecat_serve.specs.Ends.{any_receive, any_send};

use crate::asserts::assert_found;
use crate::serve::line::{Spelling, served};
use crate::serve::memory::{MemoryEnds, Packet, assert_counts};
use ec_ring::{Port, PortFault};
use ec_wire::PACKET_ROOM;
use ecat_serve::{
    Arrived, Console, Counts, Desk, Disturb, Disturbance, Ends, InputLine, LINE_ROOM, Onward,
    Served, Unwatched,
};
use std::net::SocketAddr;
use std::process::Abort;

/// What comes to ends: a packet, or a line of one byte.
#[derive(Clone, Copy, PartialEq)]
enum Next {
    Packet,
    Line(u8),
    Nothing,
}

/// Ends to which packets and lines come in this order.
#[derive(Drop)]
struct Talk {
    ends: MemoryEnds,
    order: &'static [Next],
    at: usize,
    disturbed: Option<(Port, Disturbance, u32)>,
}

impl Talk {
    /// What comes next.
    fn next(&self) -> Next {
        match self.order.get(self.at) {
            Some(next) => *next,
            None => Next::Nothing,
        }
    }
}

impl Ends for Talk {
    ghost receives = { any_receive };

    ghost sends = { any_send };

    fn receive(&mut self, into: &mut [u8; PACKET_ROOM]) -> Result<Option<Arrived>, PortFault> {
        if self.next() != Next::Packet {
            return Ok(None);
        }
        self.at = self.at.wrapping_add(1);
        self.ends.receive(into)
    }

    fn send(&mut self, from: Port, to: SocketAddr, bytes: &[u8]) -> Result<(), PortFault> {
        self.ends.send(from, to, bytes)
    }
}

impl Console for Talk {
    fn take_line(&mut self, into: &mut [u8; LINE_ROOM]) -> Option<InputLine> {
        let Next::Line(byte) = self.next() else {
            return None;
        };
        self.at = self.at.wrapping_add(1);
        into[0] = byte;
        if byte == 0 {
            return Some(InputLine::Long);
        }
        Some(InputLine::Whole(1))
    }
}

impl Disturb for Talk {
    fn disturb(&mut self, at: Port, disturbance: Disturbance, count: u32) {
        self.disturbed = Some((at, disturbance, count));
    }
}

/// Somebody who breaks and mends link 1, has two copies leave end B twice, and keeps how many packets had
/// come at the last line.
#[derive(Drop)]
struct Hand {
    came: u64,
    long: bool,
}

impl Desk for Hand {
    fn take(&mut self, served: &mut Served, came: Counts, line: Option<&[u8]>) -> Onward {
        self.came = came.packets();
        match line {
            Some(b"d") => onward(served.set_link(1, false).is_ok()),
            Some(b"u") => onward(served.set_link(1, true).is_ok()),
            Some(b"2") => Onward::Disturbed(Port::B, Disturbance::Double, 2),
            Some(_) => Onward::Ends,
            None => {
                self.long = true;
                Onward::Goes
            }
        }
    }
}

/// The service goes on, or it ends.
fn onward(goes_on: bool) -> Onward {
    if goes_on { Onward::Goes } else { Onward::Ends }
}

/// What comes to a line in its order, and what becomes of it.
struct Row {
    name: &'static str,
    order: &'static [Next],
    /// The number of the call that fails, none where it is 0.
    failing: usize,
    /// How many packets are served at most, one service after the other.
    most: &'static [u64],
    /// How many frames came in each, none where a call failed.
    frames: &'static [Option<u64>],
    sent: &'static [Packet],
    calls: usize,
    /// How much of the order came.
    at: usize,
    /// How many packets had come at the last line.
    came: u64,
    /// Whether a line was too long.
    long: bool,
}

/// Four packets of one master.
const FOUR: [Packet; 4] = [packet!(A 1 Asked); 4];

/// The order in which calls fail.
const FAILING: &[Next] = &[
    Next::Packet,
    Next::Line(b'd'),
    Next::Packet,
    Next::Line(b'u'),
];

/// Lines between packets, and calls that fail behind them.
static ROWS: [Row; 7] = [
    Row {
        name: "a cable breaks between two packets",
        order: &[
            Next::Packet,
            Next::Line(b'd'),
            Next::Line(0),
            Next::Packet,
            Next::Line(b'u'),
            Next::Packet,
        ],
        failing: 0,
        most: &[9],
        frames: &[Some(3)],
        sent: &[
            packet!(A 1 ByBoth),
            packet!(A 1 ByFirst),
            packet!(A 1 ByBoth),
        ],
        calls: 6,
        at: 6,
        came: 2,
        long: true,
    },
    Row {
        name: "a line ends the service and so do packets",
        order: &[
            Next::Packet,
            Next::Line(b'q'),
            Next::Packet,
            Next::Packet,
            Next::Line(b'd'),
            Next::Packet,
        ],
        failing: 0,
        most: &[9, 2],
        frames: &[Some(1), Some(2)],
        sent: &[
            packet!(A 1 ByBoth),
            packet!(A 1 ByBoth),
            packet!(A 1 ByBoth),
        ],
        calls: 6,
        at: 4,
        came: 1,
        long: false,
    },
    Row {
        name: "call 1 fails",
        order: FAILING,
        failing: 1,
        most: &[9],
        frames: &[None],
        sent: &[],
        calls: 1,
        at: 1,
        came: 0,
        long: false,
    },
    Row {
        name: "call 2 fails",
        order: FAILING,
        failing: 2,
        most: &[9],
        frames: &[None],
        sent: &[],
        calls: 2,
        at: 1,
        came: 0,
        long: false,
    },
    Row {
        name: "call 3 fails",
        order: FAILING,
        failing: 3,
        most: &[9],
        frames: &[None],
        sent: &[packet!(A 1 ByBoth)],
        calls: 3,
        at: 3,
        came: 1,
        long: false,
    },
    Row {
        name: "call 4 fails",
        order: FAILING,
        failing: 4,
        most: &[9],
        frames: &[None],
        sent: &[packet!(A 1 ByBoth)],
        calls: 4,
        at: 3,
        came: 1,
        long: false,
    },
    Row {
        name: "call 5 would fail, which is not made",
        order: FAILING,
        failing: 5,
        most: &[9],
        frames: &[Some(2)],
        sent: &[packet!(A 1 ByBoth), packet!(A 1 ByFirst)],
        calls: 4,
        at: 4,
        came: 2,
        long: false,
    },
];

/// Asserts what becomes of what comes to a line.
fn assert_row(rt: &impl Abort, served: &mut Served, row: &Row) {
    let mut talk = Talk {
        ends: MemoryEnds::new(&FOUR, row.failing),
        order: row.order,
        at: 0,
        disturbed: None,
    };
    let mut desk = Hand {
        came: 0,
        long: false,
    };
    for (most, frames) in row.most.iter().zip(row.frames) {
        let counts = served.serve_commanded(&mut talk, *most, &mut Unwatched, &mut desk);
        let wanted = match frames {
            Some(frames) => Some((*frames, 0)),
            None => None,
        };
        assert_counts(rt, row.name, counts, wanted);
    }
    talk.ends.assert_sent(rt, row.name, row.sent, row.calls);
    let seen = (talk.at, desk.came, desk.long);
    assert_found(rt, row.name, seen, (row.at, row.came, row.long));
}

#[test]
fn lines_come_between_packets(rt: HostRuntime) {
    for row in &ROWS {
        let mut served = served(&rt, rt.alloc(), [true; 3]);
        assert_row(&rt, &mut served, row);
    }
}

#[test]
fn a_line_may_have_copies_disturbed_and_the_service_goes_on(rt: HostRuntime) {
    let mut served = served(&rt, rt.alloc(), [true; 3]);
    let mut talk = Talk {
        ends: MemoryEnds::new(&FOUR, 0),
        order: &[Next::Packet, Next::Line(b'2'), Next::Packet],
        at: 0,
        disturbed: None,
    };
    let mut desk = Hand {
        came: 0,
        long: false,
    };
    let counts = served.serve_commanded(&mut talk, 9, &mut Unwatched, &mut desk);
    assert_counts(&rt, "behind the line", counts, Some((2, 0)));
    assert_found(
        &rt,
        "what is disturbed",
        talk.disturbed,
        Some((Port::B, Disturbance::Double, 2)),
    );
}
