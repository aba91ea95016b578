//! The ends of a line, at whose cables the test is a master.

use super::sockets::{assert_on, cabled, put};
use super::{ASKED, SENT, assert_same, with};
use crate::RawEnds;
use ec_ring::{Port, PortFault};
use ecat_serve::{Console, Ends, InputLine, TimedEnds, Waited};
use std::io::Write;
use std::net::{IpAddr, Ipv6Addr, SocketAddr};
use std::os::unix::net::UnixStream;
use std::process::Abort;
use std::time::Duration;

/// Who sends from port A.
fn from_a() -> Ipv6Addr {
    Ipv6Addr::new(0xFE80, 0, 0, 0, 0x1252, 0x4DFF, 0xFE50, 0x000A)
}

/// Asserts that a packet with the asked frame comes in next at this end.
fn assert_next(rt: &impl Abort, ends: &mut RawEnds<UnixStream>, at: Port) {
    let mut room = [0; 1501];
    match ends.receive(&mut room) {
        Ok(Some(arrived)) => {
            assert_eq!(rt; arrived.at, at);
            assert_eq!(rt; arrived.from.ip(), IpAddr::V6(from_a()));
            assert_eq!(rt; room.get(..arrived.count), Some(ASKED.as_slice()));
        }
        _ => panic!(rt; "no packet came"),
    }
}

#[test]
fn an_answer_leaves_under_the_header_that_came(rt: HostRuntime) {
    let (a, master_a) = cabled(&rt);
    let (b, master_b) = cabled(&rt);
    let ends = RawEnds::<UnixStream>::over(&rt, rt.alloc(), a, Some(b), None);
    let mut ends = ends.ok().expect(&rt, "ends");
    let somebody = SocketAddr::from((from_a(), 1));
    put(&rt, &master_a, &with(13, 0));
    put(&rt, &master_a, &SENT);
    assert_next(&rt, &mut ends, Port::A);
    assert_same(&rt, ends.send(Port::B, somebody, &ASKED), Ok(()));
    assert_on(&rt, &master_b, Some(&with(6, 0x12)));
    assert_same(
        &rt,
        ends.send(Port::A, somebody, &[0; 1501]),
        Err(PortFault),
    );
    put(&rt, &master_b, &SENT);
    assert_next(&rt, &mut ends, Port::B);
}

#[test]
fn without_a_second_socket_there_is_no_end_b(rt: HostRuntime) {
    let (a, master) = cabled(&rt);
    let ends = RawEnds::<UnixStream>::over(&rt, rt.alloc(), a, None, None);
    let mut ends = ends.ok().expect(&rt, "ends");
    put(&rt, &master, &SENT);
    assert_next(&rt, &mut ends, Port::A);
    let somebody = SocketAddr::from((from_a(), 1));
    assert_same(&rt, ends.send(Port::B, somebody, &ASKED), Ok(()));
    assert_on(&rt, &master, None);
}

#[test]
fn a_line_of_the_input_ends_a_receive(rt: HostRuntime) {
    let (near, mut far) = UnixStream::pair(&rt).expect(&rt, "two sockets");
    let (a, master) = cabled(&rt);
    let ends = RawEnds::over(&rt, rt.alloc(), a, None, Some(near));
    let mut ends = ends.ok().expect(&rt, "ends");
    ends.keep_lines();
    let mut room = [0; 1501];
    assert_same(&rt, far.write(b"line\n").ok(), Some(5));
    assert_same(&rt, ends.receive(&mut room), Ok(None));
    let mut line = [0; 1024];
    assert_same(&rt, ends.take_line(&mut line), Some(InputLine::Whole(4)));
    put(&rt, &master, &SENT);
    assert_next(&rt, &mut ends, Port::A);
    drop(far);
    assert_same(&rt, ends.receive(&mut room), Ok(None));
}

#[test]
fn what_an_interface_that_fails_is_sent_is_lost(rt: HostRuntime) {
    let (a, master) = cabled(&rt);
    let ends = RawEnds::<UnixStream>::over(&rt, rt.alloc(), a, None, None);
    let mut ends = ends.ok().expect(&rt, "ends");
    drop(master);
    let somebody = SocketAddr::from((from_a(), 1));
    // Nobody is there any more: the system says so once at the next call.
    for _copy in 0..3 {
        assert_same(&rt, ends.send(Port::A, somebody, &ASKED), Ok(()));
    }
    let mut room = [0; 1501];
    let limit = Duration::from_millis(1);
    assert_same(
        &rt,
        ends.receive_within(&mut room, limit),
        Ok(Waited::Silent),
    );
    assert_same(
        &rt,
        ends.receive_within(&mut room, limit),
        Ok(Waited::Silent),
    );
}
