//! Packets of a tape, each of which is given once.

use super::script::Wound;
use super::{LIMIT, SENT, told, under};
use crate::asserts::assert_same;
use ec_master::Ports;
use ec_number::Trip;
use ec_wire::{Form, FrameBuf};
use ecat_remote::{RemotePorts, Tape};

#[test]
fn a_trip_takes_no_packet_that_one_before_was_given(rt: HostRuntime) {
    // copy A of the first trip, nothing of use, copy A of the first trip again, and copy B of the second one
    let packets = [under(0, 1), under(9, 9), under(0, 1), under(3, 5)];
    let tape = Tape::new(packets.as_flattened(), 35);
    let mut ports = RemotePorts::new(tape, Wound::still(), LIMIT, Trip::of(0));
    let sent = FrameBuf::read(&SENT, Form::Udp).ok().expect(&rt, "a frame");
    let first = ports.trip(&sent).ok().expect(&rt, "no fault");
    assert_same(
        &rt,
        [told(&first.a), told(&first.b)],
        [Some((0x55, 1)), None],
    );
    let second = ports.trip(&sent).ok().expect(&rt, "no fault");
    assert_same(&rt, [told(&second.a), told(&second.b)], [None, None]);
}
