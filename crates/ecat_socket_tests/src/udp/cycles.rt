//! One cycle of the exchange, or one trip of a frame, over any line, and what becomes of it.

use super::exchange::{EXPECTED, left, station_read, stations, work};
use crate::asserts::assert_found;
use ec_master::{CycleFault, Ports, Verdict, Work, run_cycle};
use ec_ring::Came;
use ecat_udp::{PacketLine, UdpPorts};
use std::process::Abort;

/// The data and the counter of the exchange where both slaves have answered.
pub const ANSWERED: ([u8; 2], u16) = ([0x12, 0x34], 6);

/// Those of the exchange as it was sent.
pub const AS_SENT: ([u8; 2], u16) = ([0x5A, 0xA5], 0);

/// The index, the data and the counter of a broadcast read that came back.
pub type Stations = Option<(u8, [u8; 2], u16)>;

/// Asserts how a cycle of the one item of a work ends.
pub fn assert_cycle<L: PacketLine>(
    rt: &impl Abort,
    row: &str,
    ports: &mut UdpPorts<L>,
    work: &mut Work,
    expected: &[u16; 1],
    wanted: Result<Verdict, CycleFault>,
) {
    assert_eq!(rt; work.len(), 1);
    let verdict = run_cycle(ports, work, expected);
    assert_found(rt, row, verdict, wanted);
}

/// Asserts how a cycle of the exchange ends, and the data and the counter that it leaves.
pub fn assert_exchange<L: PacketLine>(
    rt: &impl Abort,
    row: &str,
    ports: &mut UdpPorts<L>,
    verdict: Result<Verdict, CycleFault>,
    wanted: ([u8; 2], u16),
) {
    let mut work = work(rt);
    assert_cycle(rt, row, ports, &mut work, &EXPECTED, verdict);
    assert_found(rt, row, left(rt, &work), wanted);
}

/// Asserts what comes at both ports of a broadcast read with the index 7.
pub fn assert_read<L: PacketLine>(
    rt: &impl Abort,
    row: &str,
    ports: &mut UdpPorts<L>,
    at_a: Stations,
    at_b: Stations,
) {
    let Came { a, b } = ports.trip(&station_read(rt, 7)).expect(rt, "no call fails");
    assert_found(rt, row, stations(rt, &a), at_a);
    assert_found(rt, row, stations(rt, &b), at_b);
}
