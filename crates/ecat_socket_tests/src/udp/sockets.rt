//! What happens at the four sockets of a line, step by step, as the system and somebody outside see them.

use crate::asserts::assert_found;
use ec_master::PortFault;
use ecat_udp::{PacketLine, Socket, UdpLine};
use std::alloc::Global;
use std::net::{Ipv4Addr, Net, SocketAddr, UdpSocket};
use std::process::Abort;
use std::time::Duration;

/// The four sockets.
pub const ALL: [Socket; 4] = [
    Socket::MasterA,
    Socket::MasterB,
    Socket::LineA,
    Socket::LineB,
];

/// What happens at the sockets, and what is seen there.
#[derive(Clone, Copy)]
pub enum Step {
    /// Somebody outside sends a packet to the port of an end, and it comes at this socket.
    ComesFromOutside(Socket),
    /// The port of each socket is free at 127.0.0.2.
    AreFreeBeside,
    /// A packet from the first socket leaves for the second from the port of its end.
    LeavesFromItsEnd(Socket, Socket),
    /// The master asks from a socket, and an answer to who asked comes there.
    Answers(Socket),
    /// A receive at each socket waits for 50 milliseconds.
    Wait,
    /// A receive hears that nobody is there any more, once.
    HearsNobody,
    /// A packet goes from each socket to each, and nothing else comes.
    GoesToEach,
    /// A packet of 1,502 bytes fills the room.
    FillsTheRoom,
    /// A packet of 70,000 bytes is sent by no socket.
    IsTooLong,
    /// So many calls have failed.
    Failed(u64),
}

/// What happens at the sockets of a new line.
pub struct Row {
    /// What it shows.
    pub name: &'static str,
    /// What happens, one after the other.
    pub steps: &'static [Step],
}

/// A port of 127.0.0.1.
pub fn address(port: u16) -> SocketAddr {
    SocketAddr::from((Ipv4Addr::LOCALHOST, port))
}

/// Where a socket is reached.
fn address_of(rt: &impl Abort, socket: &UdpSocket) -> SocketAddr {
    socket.local_addr().expect(rt, "an address")
}

/// Somebody on this machine.
fn somebody(rt: &(impl Abort + Net)) -> UdpSocket {
    UdpSocket::bind(rt, address(0)).expect(rt, "a free port")
}

/// Asserts that the next packet at a socket is the one that is sent.
fn assert_packet(rt: &impl Abort, line: &mut UdpLine, row: &str, at: Socket) {
    let mut into = [0; 1501];
    assert_found(rt, row, line.receive(at, &mut into), Ok(Some(8)));
    assert_found(rt, row, &into[..8], b"a packet".as_slice());
}

/// Sends a packet from a socket to another.
fn send(rt: &impl Abort, line: &mut UdpLine, row: &str, from: Socket, to: Socket, bytes: &[u8]) {
    assert_found(rt, row, line.send(from, to, bytes), Ok(()));
}

/// Asserts that nothing comes at a socket.
fn assert_silence(rt: &impl Abort, line: &mut UdpLine, row: &str, at: Socket) {
    let mut into = [0; 1501];
    assert_found(rt, row, line.receive(at, &mut into), Ok(None));
}

/// Has somebody send a packet to an address, and asserts that it comes at a socket of the line.
fn speak(rt: &(impl Abort + Net), line: &mut UdpLine, row: &str, to: SocketAddr, at: Socket) {
    let sent = somebody(rt).send_to(b"a packet", to);
    assert_found(rt, row, sent.ok(), Some(8));
    assert_packet(rt, line, row, at);
}

/// Who sent the packet that waits at a socket.
fn sender(rt: &impl Abort, socket: &UdpSocket) -> SocketAddr {
    let mut into = [0; 1];
    let (_, sender) = socket.recv_from(&mut into).expect(rt, "a packet");
    sender
}

/// The port of an end of a line at a port.
fn port_of(end: Socket, port: u16) -> u16 {
    match end {
        Socket::LineB => port.wrapping_add(1),
        _ => port,
    }
}

/// Asserts that the port of each socket is free at 127.0.0.2.
fn are_free_beside(rt: &(impl Abort + Net), line: &UdpLine, row: &str) {
    for name in ALL {
        let port = address_of(rt, line.socket(name)).port();
        let beside = SocketAddr::from((Ipv4Addr::new(127, 0, 0, 2), port));
        assert_found(rt, row, UdpSocket::bind(rt, beside).is_ok(), true);
    }
}

/// Asserts that a packet leaves from the port of its end.
fn leaves(rt: &impl Abort, line: &mut UdpLine, row: &str, port: u16, ends: (Socket, Socket)) {
    let (from, to) = ends;
    send(rt, line, row, from, to, b"1");
    let sender = sender(rt, line.socket(to));
    assert_found(rt, row, sender, address(port_of(from, port)));
}

/// Asserts that an answer comes where the master has asked.
fn answers(rt: &(impl Abort + Net), line: &mut UdpLine, row: &str, name: Socket) {
    send(rt, line, row, name, Socket::LineA, b"1");
    let sender = sender(rt, line.socket(Socket::LineA));
    speak(rt, line, row, sender, name);
}

/// Asserts that each socket waits for 50 milliseconds. The system may round that up to its own ticks, of ten
/// milliseconds at most.
fn wait(rt: &impl Abort, line: &UdpLine, row: &str) {
    let waits = Duration::from_millis(50)..=Duration::from_millis(60);
    for name in ALL {
        match line.socket(name).read_timeout() {
            Ok(Some(wait)) => assert_found(rt, row, waits.contains(&wait), true),
            _ => panic!(rt; "{row}: a receive waits for ever"),
        }
    }
}

/// A socket that is told whom it speaks to hears that nobody is there any more.
fn hears_nobody(rt: &(impl Abort + Net), line: &mut UdpLine, row: &str) {
    let nobody = address_of(rt, &somebody(rt));
    let socket = line.socket(Socket::LineA);
    assert_found(rt, row, socket.connect(nobody).is_ok(), true);
    assert_found(rt, row, socket.send(b"1").ok(), Some(1));
    let mut into = [0; 1501];
    let heard = line.receive(Socket::LineA, &mut into);
    assert_found(rt, row, heard, Err(PortFault));
    assert_found(rt, row, line.failures(), 1);
    assert_silence(rt, line, row, Socket::LineA);
}

/// Asserts that a packet from each socket comes at each that is named, and nothing else does.
fn goes_to_each(rt: &impl Abort, line: &mut UdpLine, row: &str) {
    for from in ALL {
        for to in ALL {
            send(rt, line, row, from, to, b"a packet");
            assert_packet(rt, line, row, to);
        }
    }
    for at in ALL {
        assert_silence(rt, line, row, at);
    }
}

/// Asserts that a packet past the room fills it.
fn fills_the_room(rt: &impl Abort, line: &mut UdpLine, row: &str) {
    let mut into = [0; 1501];
    send(rt, line, row, Socket::MasterA, Socket::LineA, &[7; 1502]);
    let received = line.receive(Socket::LineA, &mut into);
    assert_found(rt, row, received, Ok(Some(1501)));
}

/// Asserts that a packet which no socket sends is a fault, and that the next one is sent.
fn is_too_long(rt: &impl Abort, alloc: Global, line: &mut UdpLine, row: &str) {
    let bytes = Vec::from_elem(alloc, 0, 70000).expect(rt, "memory");
    let sent = line.send(Socket::MasterA, Socket::LineA, bytes.as_slice());
    assert_found(rt, row, sent, Err(PortFault));
    assert_found(rt, row, line.failures(), 1);
    send(rt, line, row, Socket::MasterA, Socket::LineA, b"a packet");
}

/// Lets this happen at the sockets of a line at a port, and asserts what is seen.
pub fn takes(
    rt: &(impl Abort + Net),
    alloc: Global,
    line: &mut UdpLine,
    port: u16,
    row: &str,
    step: Step,
) {
    match step {
        Step::ComesFromOutside(end) => {
            speak(rt, line, row, address(port_of(end, port)), end);
        }
        Step::AreFreeBeside => are_free_beside(rt, line, row),
        Step::LeavesFromItsEnd(from, to) => leaves(rt, line, row, port, (from, to)),
        Step::Answers(name) => answers(rt, line, row, name),
        Step::Wait => wait(rt, line, row),
        Step::HearsNobody => hears_nobody(rt, line, row),
        Step::GoesToEach => goes_to_each(rt, line, row),
        Step::FillsTheRoom => fills_the_room(rt, line, row),
        Step::IsTooLong => is_too_long(rt, alloc, line, row),
        Step::Failed(count) => assert_found(rt, row, line.failures(), count),
    }
}
