//! A master's ports, at which the test is the line.

use super::sockets::{assert_on, cabled, put};
use super::{ASKED, SENT, assert_same, with};
use crate::RawCarrier;
use crate::sockets::PacketSocket;
use ec_ring::{Port, PortFault};
use ecat_remote::Carrier;
use std::process::Abort;

/// A carrier over these.
fn over(a: PacketSocket, b: Option<PacketSocket>) -> RawCarrier {
    RawCarrier::over(a, b)
}

/// Asserts what is received next at a port, within five milliseconds: so many bytes, those of the asked frame
/// where they are 16.
fn assert_received(rt: &impl Abort, carrier: &mut RawCarrier, at: Port, wanted: Option<usize>) {
    let mut room = [0; 1501];
    assert_same(rt, carrier.receive(at, &mut room, 5_000), Ok(wanted));
    if wanted == Some(16) {
        assert_eq!(rt; room.get(..16), Some(ASKED.as_slice()));
    }
}

#[test]
fn each_port_sends_from_its_own_address(rt: HostRuntime) {
    let (a, line_a) = cabled(&rt);
    let (b, line_b) = cabled(&rt);
    let mut carrier = over(a, Some(b));
    assert_same(&rt, carrier.send(Port::A, &ASKED), Ok(()));
    assert_same(&rt, carrier.send(Port::B, &ASKED), Ok(()));
    assert_on(&rt, &line_a, Some(&SENT));
    assert_on(&rt, &line_b, Some(&with(11, 0x0B)));
    assert_same(&rt, carrier.failures(), 0);
}

#[test]
fn an_answer_is_received_and_nothing_else_is(rt: HostRuntime) {
    let (a, line) = cabled(&rt);
    let mut carrier = over(a, None);
    put(&rt, &line, &with(6, 0x12));
    put(&rt, &line, &SENT);
    put(&rt, &line, &with(13, 0x00));
    assert_received(&rt, &mut carrier, Port::A, Some(16));
    assert_received(&rt, &mut carrier, Port::A, Some(0));
    assert_received(&rt, &mut carrier, Port::A, Some(0));
    assert_received(&rt, &mut carrier, Port::A, None);
    assert_received(&rt, &mut carrier, Port::B, None);
    assert_same(&rt, carrier.failures(), 0);
}

#[test]
fn a_frame_that_is_too_long_counts_as_a_failure(rt: HostRuntime) {
    let (a, _line) = cabled(&rt);
    let mut carrier = over(a, None);
    assert_same(&rt, carrier.send(Port::A, &[0; 1500]), Ok(()));
    assert_same(&rt, carrier.send(Port::A, &[0; 1501]), Err(PortFault));
    assert_same(&rt, carrier.failures(), 1);
    assert_same(&rt, carrier.send(Port::B, &[0; 1501]), Ok(()));
}

#[test]
fn what_the_system_refuses_counts_as_a_failure(rt: HostRuntime) {
    let (a, line) = cabled(&rt);
    let mut carrier = over(a, None);
    drop(line);
    // Nobody is there any more: the system says so once at the next call.
    assert_same(&rt, carrier.send(Port::A, &ASKED), Ok(()));
    let mut room = [0; 1501];
    assert_same(
        &rt,
        carrier.receive(Port::A, &mut room, 5_000),
        Err(PortFault),
    );
    assert_same(&rt, carrier.failures(), 1);
}
