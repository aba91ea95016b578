//! Reads of an input that fail, beside ends at real sockets.

ghost use Rattle.std.specs.Prelude.{◌<◌};

use crate::asserts::assert_found;
use ec_ring::PortFault;
use ecat_serve::{Ends, UdpEnds};
use std::alloc::Global;
use std::io::{self, ErrorKind, Read, Write};
use std::net::{Ipv4Addr, Net};
use std::os::fd::{AsRawFd, RawFd};
use std::os::unix::net::UnixStream;
use std::process::Abort;
use std::time::Duration;

/// An input of which the system tells what a stream has, and each read of which fails.
#[derive(Clone, Copy, Drop)]
struct Failing<'a> {
    stream: &'a UnixStream,
    kind: ErrorKind,
}

impl Read for Failing<'_> {
    fn read(&mut self, _into: &mut [u8]) -> io::Result<usize> {
        Err(io::Error::from(self.kind))
    }
}

impl AsRawFd for Failing<'_> {
    fn as_raw_fd(&self) -> RawFd {
        self.stream.as_raw_fd()
    }
}

/// Ends on the first of some ports that is free.
fn open<'a>(rt: &(impl Abort + Net), alloc: Global, input: Failing<'a>) -> UdpEnds<Failing<'a>> {
    for k in 0..100u16 {
        let port = 21000 + 2 * k;
        if let Ok(ends) = UdpEnds::bind(rt, alloc, Ipv4Addr::LOCALHOST, port, Some(input)) {
            return ends;
        }
    }
    panic!(rt; "no port is free");
}

/// How a read fails behind a line that came, and whether that is a fault; else it brings nothing.
struct Row {
    name: &'static str,
    kind: ErrorKind,
    is_fault: bool,
}

/// Reads that fail.
static ROWS: [Row; 3] = [
    Row {
        name: "a read that fails is a fault",
        kind: ErrorKind::Other,
        is_fault: true,
    },
    Row {
        name: "a read that would block is none",
        kind: ErrorKind::WouldBlock,
        is_fault: false,
    },
    Row {
        name: "a read that was interrupted is none",
        kind: ErrorKind::Interrupted,
        is_fault: false,
    },
];

/// Asserts what becomes of such a read at new ends.
fn assert_row(rt: &(impl Abort + Net), alloc: Global, row: &Row) {
    let (near, mut far) = UnixStream::pair(rt).expect(rt, "two sockets");
    assert_found(rt, row.name, far.write(b"\n").ok(), Some(1));
    let input = Failing {
        stream: &near,
        kind: row.kind,
    };
    let mut ends = open(rt, alloc, input);
    if row.is_fault {
        let received = ends.receive(&mut [0; 1501]);
        assert_found(rt, row.name, received.err(), Some(PortFault));
    } else {
        let seen = ends.waiting.wait(Some(Duration::from_secs(5)));
        assert_found(rt, row.name, seen, Ok(true));
        assert_found(rt, row.name, ends.waiting.has_ended(), false);
    }
}

#[test]
fn a_read_of_the_input_that_fails_is_a_fault_or_brings_nothing(rt: HostRuntime) {
    for row in &ROWS {
        assert_row(&rt, rt.alloc(), row);
    }
}
