//! The use on the crate's page.

use crate::asserts::assert_same;
use arrayvec::ArrayVec;
use ec_wire::{Command, Datagram, Form, FrameBuf};
use std::test::Fail;

#[test]
fn a_frame_is_made_edited_and_read(rt: HostRuntime) -> Result<(), Fail> {
    let mut payload = ArrayVec::new();
    payload.try_extend_from_slice(&[0x08, 0x00])?;
    let mut frame = FrameBuf::of(&Datagram {
        command: Command::Brd,
        index: 1,
        address: 0x0130_0000,
        circulating: false,
        irq: 0,
        payload,
        counter: 0,
    });
    frame.set_counter(0, 1);
    let again = FrameBuf::read(frame.bytes(), Form::Udp)?;
    assert_same(&rt, again.bytes(), frame.bytes());
    assert!(rt; again.count() == 1);
    assert_same(&rt, again.counter(0), 1);
    Ok(())
}
