//! Real sockets, at which the test itself is the line's end.

use crate::asserts::assert_same;
use ec_ring::Port;
use ecat_remote::{Carrier, Ready, RemoteEnds, UdpCarrier};
use std::net::UdpSocket;

/// For how long a receive waits, in microseconds.
const LIMIT: u64 = 20_000;

#[test]
fn packets_go_to_the_end_that_is_named_and_back(rt: HostRuntime) {
    let line = UdpSocket::bind(&rt, "127.0.0.1:0").expect(&rt, "a socket");
    let address = line.local_addr().expect(&rt, "an address");
    let text: Result<_, _> = format!(in rt.alloc(); "{address}");
    let text = text.expect(&rt, "memory");
    let ends = RemoteEnds {
        a: text.as_str(),
        b: None,
    };
    let mut carrier = UdpCarrier::open(&rt, ends).ok().expect(&rt, "sockets");
    let mut into = [0; 1501];
    assert_same(&rt, carrier.send(Port::A, b"out"), Ok(()));
    let (count, from) = line.recv_from(&mut into).expect(&rt, "a packet");
    assert_same(&rt, count, 3);
    assert_same(&rt, carrier.wait(100), Ready::none());
    assert_same(&rt, carrier.wait(LIMIT), Ready::none());
    assert_same(&rt, line.send_to(b"back", from).is_ok(), true);
    assert_same(&rt, carrier.wait(LIMIT), Ready { a: true, b: false });
    assert_same(&rt, carrier.wait(0), Ready { a: true, b: false });
    assert_same(&rt, carrier.receive(Port::A, &mut into, LIMIT), Ok(Some(4)));
    assert_same(&rt, &into[..4], b"back".as_slice());
    assert_same(&rt, carrier.send(Port::B, b"out"), Ok(()));
    assert_same(&rt, carrier.receive(Port::B, &mut into, LIMIT), Ok(None));
    assert_same(&rt, carrier.failures(), 0);
}
