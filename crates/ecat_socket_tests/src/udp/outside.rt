//! The four sockets as the system and somebody outside see them.

ghost use Rattle.std.specs.Prelude.{◌<◌};

use super::sockets::{Row, Step, address, takes};
use ecat_udp::{Socket, UdpLine};
use std::io::{self, ErrorKind};
use std::net::{Net, SocketAddr, UdpSocket};
use std::process::Abort;

/// The system's network, which has no free port to give while these two are free.
#[derive(Drop)]
struct NamedFirst<'a, N: Net> {
    net: &'a N,
    named: [u16; 2],
}

impl<N: Net> Net for NamedFirst<'_, N> {
    type Stream = N::Stream;

    type Listener = N::Listener;

    fn bind(&self, addr: SocketAddr) -> io::Result<N::Listener> {
        self.net.bind(addr)
    }

    fn connect(&self, addr: SocketAddr) -> io::Result<N::Stream> {
        self.net.connect(addr)
    }

    fn bind_udp(&self, addr: SocketAddr) -> io::Result<UdpSocket> {
        if addr.port() == 0 {
            for port in self.named {
                if self.net.bind_udp(address(port)).is_ok() {
                    return Err(io::Error::from(ErrorKind::AddrInUse));
                }
            }
        }
        self.net.bind_udp(addr)
    }
}

/// A line on the first of some ports that is free, and this port.
fn open(rt: &(impl Abort + Net)) -> (UdpLine, u16) {
    for k in 0..100u16 {
        let port = 20200 + 2 * k;
        let net = NamedFirst {
            net: rt,
            named: [port, port + 1],
        };
        if let Ok(line) = UdpLine::bind(&net, port) {
            return (line, port);
        }
    }
    panic!(rt; "no port is free");
}

/// What somebody outside sees of a line, each row at a new one.
static ROWS: [Row; 6] = [
    Row {
        name: "a packet from outside comes at the end of its port",
        steps: &[
            Step::ComesFromOutside(Socket::LineA),
            Step::ComesFromOutside(Socket::LineB),
        ],
    },
    Row {
        name: "each socket lies at 127.0.0.1 alone",
        steps: &[Step::AreFreeBeside],
    },
    Row {
        name: "a packet leaves from the port of its end",
        steps: &[
            Step::LeavesFromItsEnd(Socket::LineA, Socket::MasterA),
            Step::LeavesFromItsEnd(Socket::LineB, Socket::MasterB),
        ],
    },
    Row {
        name: "an answer comes where the master has asked",
        steps: &[
            Step::Answers(Socket::MasterA),
            Step::Answers(Socket::MasterB),
        ],
    },
    Row {
        name: "a receive waits for 50 milliseconds",
        steps: &[Step::Wait],
    },
    Row {
        name: "an error of a receive is a fault",
        steps: &[Step::HearsNobody, Step::Failed(1)],
    },
];

#[test]
fn the_sockets_are_seen_from_outside(rt: HostRuntime) {
    for row in &ROWS {
        let (mut line, port) = open(&rt);
        for step in row.steps {
            takes(&rt, rt.alloc(), &mut line, port, row.name, *step);
        }
    }
}
