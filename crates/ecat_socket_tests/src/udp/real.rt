//! What real sockets carry, and what they refuse.

ghost use Rattle.std.specs.Prelude.{◌<◌};

use super::cycles::{AS_SENT, assert_exchange, assert_read};
use super::exchange::{ring, station_read};
use super::sockets::{Row, Step, takes};
use crate::asserts::assert_found;
use ec_master::CycleFault;
use ec_wire::{Command, Datagram, FrameBuf};
use ecat_udp::{BindFault, PacketLine, Socket, UdpLine, UdpPorts};
use std::net::Net;
use std::process::Abort;

/// A line on the first of some ports that is free, and this port.
fn open(rt: &(impl Abort + Net)) -> (UdpLine, u16) {
    for k in 0..100u16 {
        let port = 20000 + 2 * k;
        if let Ok(line) = UdpLine::bind(rt, port) {
            return (line, port);
        }
    }
    panic!(rt; "no port is free");
}

#[test]
fn no_line_lies_at_a_port_that_is_bound_or_at_the_least_or_the_greatest(rt: HostRuntime) {
    let (line, port) = open(&rt);
    for (name, port, fault) in [
        ("a port is bound once", port, BindFault::NoSocket),
        ("the least port", 0, BindFault::NoSuchPort),
        ("the greatest port", 65535, BindFault::NoSuchPort),
    ] {
        assert_found(&rt, name, UdpLine::bind(&rt, port).err(), Some(fault));
    }
    assert_found(&rt, "the line that is bound", line.failures(), 0);
}

/// What goes from socket to socket, each row at a new line.
static ROWS: [Row; 3] = [
    Row {
        name: "a packet goes to the socket that is named",
        steps: &[Step::GoesToEach, Step::Failed(0)],
    },
    Row {
        name: "a packet past the room fills it",
        steps: &[Step::FillsTheRoom, Step::Failed(0)],
    },
    Row {
        name: "a packet that no socket sends is a fault",
        steps: &[Step::IsTooLong, Step::Failed(1)],
    },
];

#[test]
fn packets_go_from_socket_to_socket(rt: HostRuntime) {
    for row in &ROWS {
        let (mut line, port) = open(&rt);
        for step in row.steps {
            takes(&rt, rt.alloc(), &mut line, port, row.name, *step);
        }
    }
}

/// A line at real sockets, to which somebody has sent a frame already.
fn open_with(rt: &(impl Abort + Net), from: Socket, to: Socket, early: &FrameBuf) -> UdpLine {
    let (mut line, _) = open(rt);
    let sent = line.send(from, to, early.bytes());
    assert_found(rt, "a frame that comes first", sent, Ok(()));
    line
}

#[test]
fn a_frame_that_nobody_asked_for_is_a_stranger(rt: HostRuntime) {
    let other = FrameBuf::of(&Datagram {
        command: Command::Nop,
        index: 99,
        address: 0,
        circulating: false,
        irq: 0,
        payload: Default::default(),
        counter: 0,
    });
    let line = open_with(&rt, Socket::LineA, Socket::MasterA, &other);
    let mut ports = UdpPorts::new(ring(&rt, rt.alloc()), line);
    let stranger = Err(CycleFault::Stranger);
    assert_exchange(&rt, "a stranger", &mut ports, stranger, AS_SENT);
}

#[test]
fn the_frame_that_comes_first_walks_in_place_of_the_copy(rt: HostRuntime) {
    let early = station_read(&rt, 9);
    let line = open_with(&rt, Socket::LineB, Socket::LineA, &early);
    let mut ports = UdpPorts::new(ring(&rt, rt.alloc()), line);
    let at_a = Some((7, [0, 0], 0));
    let at_b = Some((9, [0x03, 0x10], 2));
    assert_read(&rt, "a read behind another", &mut ports, at_a, at_b);
}
