//! Descriptors as a text names them, and those that are of no use.

use super::assert_same;
use crate::{Descriptors, RawCarrier, RawFault, descriptors_of};
use ec_ring::Port;
use std::fs::File;
use std::net::UdpSocket;
use std::os::fd::AsRawFd;

/// Why a carrier over these could not be had.
fn fault(a: u16, b: Option<u16>) -> Option<RawFault> {
    RawCarrier::open(Descriptors { a, b }).err()
}

#[test]
fn a_text_names_one_or_two(rt: HostRuntime) {
    let one = Descriptors { a: 10, b: None };
    let two = Descriptors { a: 10, b: Some(11) };
    assert_same(&rt, descriptors_of("10"), Some(one));
    assert_same(&rt, descriptors_of("10,11"), Some(two));
    for text in ["", "ten", "-1", "65536", "10,", ",11", "10,11,12", "10 ,11"] {
        assert_same(&rt, descriptors_of(text), None);
    }
}

#[test]
fn what_is_no_packet_socket_is_named(rt: HostRuntime) {
    let file = File::open(&rt, "/proc/self/exe").expect(&rt, "a file");
    let socket = UdpSocket::bind(&rt, "127.0.0.1:0").expect(&rt, "a socket");
    let of_file = u16::try_from(file.as_raw_fd()).unwrap_or(0);
    let of_socket = u16::try_from(socket.as_raw_fd()).unwrap_or(0);
    let none = Some(RawFault::NoPacketSocket(Port::A));
    assert_same(&rt, fault(of_file, None), none);
    assert_same(&rt, fault(of_socket, None), none);
    assert_same(&rt, fault(60000, None), Some(RawFault::NotOpen(Port::A)));
    assert_same(&rt, fault(10, Some(10)), Some(RawFault::Twice));
    // Who refuses them leaves them open.
    assert_same(&rt, socket.local_addr().is_ok(), true);
}
