//! Which packets go out in a trip, and what those count for that come.

ghost use Rattle.std.specs.Prelude.{◌≡◌, None};

use super::cycles::{ANSWERED, AS_SENT, assert_cycle, assert_exchange, assert_read};
use super::exchange::{ring, taken};
use super::memory::{Call, MemoryLine};
use crate::asserts::assert_found;
use ec_map::{Item, Kind};
use ec_master::{CycleFault, PortFault, Ports, Verdict, Work};
use ec_ring::Ring;
use ec_wire::PACKET_ROOM;
use ecat_udp::{PacketLine, Socket, UdpPorts};
use std::alloc::Global;
use std::process::Abort;

/// A line to which no packet comes.
#[derive(Drop)]
struct Silent;

impl PacketLine for Silent {
    ghost failed = { λ _. 0 };

    ghost gives = { λ before at packet later. packet ≡ None };

    fn send(&mut self, _from: Socket, _to: Socket, _bytes: &[u8]) -> Result<(), PortFault> {
        Ok(())
    }

    fn receive(
        &mut self,
        _at: Socket,
        _into: &mut [u8; PACKET_ROOM],
    ) -> Result<Option<usize>, PortFault> {
        Ok(None)
    }

    fn failures(&self) -> u64 {
        0
    }
}

/// A cycle of the exchange over a line in memory, and what becomes of it.
#[derive(Drop)]
pub struct Row<'a> {
    /// What it shows.
    pub name: &'a str,
    /// The link that is down, if one is.
    pub down: Option<usize>,
    /// The number of the call that fails, none where it is 0.
    pub failing: usize,
    /// How many zeros come behind each packet.
    pub trailing: usize,
    /// How the cycle ends.
    pub verdict: Result<Verdict, CycleFault>,
    /// The data and the counter that it leaves.
    pub left: ([u8; 2], u16),
    /// How many failures the ports count.
    pub failures: u64,
    /// What the slaves have taken, if that is asked.
    pub taken: Option<[u8; 2]>,
    /// Calls, each with its place among those that are made.
    pub calls: &'static [(usize, Call)],
    /// How many calls are made.
    pub made: usize,
}

/// Cycles in which no call fails.
static ROWS: [Row<'static>; 5] = [
    Row {
        name: "a whole trip makes eight calls in their order",
        down: None,
        failing: 0,
        trailing: 0,
        verdict: Ok(Verdict::Good),
        left: ANSWERED,
        failures: 0,
        taken: Some([0x5A, 0xA5]),
        calls: &[
            (0, Call::Send(Socket::MasterA, Socket::LineA)),
            (1, Call::Receive(Socket::LineA)),
            (2, Call::Send(Socket::LineB, Socket::MasterB)),
            (3, Call::Send(Socket::MasterB, Socket::LineB)),
            (4, Call::Receive(Socket::LineB)),
            (5, Call::Send(Socket::LineA, Socket::MasterA)),
            (6, Call::Receive(Socket::MasterA)),
            (7, Call::Receive(Socket::MasterB)),
        ],
        made: 8,
    },
    Row {
        name: "at a break both copies come back where they started",
        down: Some(1),
        failing: 0,
        trailing: 0,
        verdict: Ok(Verdict::Good),
        left: ANSWERED,
        failures: 0,
        taken: Some([0x5A, 0xA5]),
        calls: &[
            (2, Call::Send(Socket::LineA, Socket::MasterA)),
            (5, Call::Send(Socket::LineB, Socket::MasterB)),
        ],
        made: 8,
    },
    Row {
        name: "a copy that cannot start is not sent on",
        down: Some(0),
        failing: 0,
        trailing: 0,
        verdict: Ok(Verdict::Good),
        left: ANSWERED,
        failures: 0,
        taken: Some([0x5A, 0xA5]),
        calls: &[(2, Call::Send(Socket::MasterB, Socket::LineB))],
        made: 7,
    },
    Row {
        name: "a frame with a byte behind it is no copy",
        down: None,
        failing: 0,
        trailing: 1,
        verdict: Ok(Verdict::Short(0)),
        left: AS_SENT,
        failures: 0,
        taken: Some([0, 0]),
        calls: &[],
        made: 6,
    },
    Row {
        name: "a frame with bytes behind it past the room is no copy",
        down: None,
        failing: 0,
        trailing: 1501,
        verdict: Ok(Verdict::Short(0)),
        left: AS_SENT,
        failures: 0,
        taken: Some([0, 0]),
        calls: &[],
        made: 6,
    },
];

/// The ring of the exchange, of whose links one may be down.
fn ring_with(rt: &impl Abort, alloc: Global, down: Option<usize>) -> Ring {
    let mut ring = ring(rt, alloc);
    if let Some(link) = down {
        assert!(rt; link <= ring.slaves().len());
        ring.set_link(link, false);
    }
    ring
}

/// Asserts what becomes of a cycle.
pub fn assert_row(rt: &impl Abort, alloc: Global, row: &Row<'_>) {
    let line = MemoryLine::new(row.failing, row.trailing);
    let mut ports = UdpPorts::new(ring_with(rt, alloc, row.down), line);
    assert_exchange(rt, row.name, &mut ports, row.verdict, row.left);
    assert_found(rt, row.name, ports.failures(), row.failures);
    let (ring, line) = ports.into_parts();
    if let Some(wanted) = row.taken {
        assert_found(rt, row.name, taken(rt, &ring), wanted);
    }
    let calls = line.calls();
    for (place, call) in row.calls {
        assert_found(rt, row.name, calls.get(*place), Some(&Some(*call)));
    }
    assert_found(rt, row.name, line.made(), row.made);
}

#[test]
fn packets_go_out_and_count_for_what_they_are(rt: HostRuntime) {
    for row in &ROWS {
        assert_row(&rt, rt.alloc(), row);
    }
}

#[test]
fn silence_is_a_lost_copy(rt: HostRuntime) {
    let row = "silence";
    let mut ports = UdpPorts::new(ring(&rt, rt.alloc()), Silent);
    let mut work = Work::new();
    let item = Item::new(Kind::Lrd, 0x0001_0000, &[0]).expect(&rt, "an item");
    work.push(item).expect(&rt, "room");
    let short = Ok(Verdict::Short(0));
    assert_cycle(&rt, row, &mut ports, &mut work, &[1], short);
    assert_found(&rt, row, ports.failures(), 0);
    assert_found(&rt, row, taken(&rt, ports.ring()), [0, 0]);
}

#[test]
fn each_copy_comes_back_at_its_own_port(rt: HostRuntime) {
    let ring = ring_with(&rt, rt.alloc(), Some(1));
    let mut ports = UdpPorts::new(ring, MemoryLine::new(0, 0));
    let at_a = Some((7, [0x01, 0x10], 1));
    let at_b = Some((7, [0x02, 0x10], 1));
    assert_read(&rt, "a read at a break", &mut ports, at_a, at_b);
}
