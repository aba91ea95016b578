//! The use on the crate's page.

use crate::asserts::assert_same;
use ec_merge::join_frames;
use ec_wire::{Form, FrameBuf};
use std::test::Fail;

#[test]
fn a_bit_and_the_counts_of_both_copies_are_kept(rt: HostRuntime) -> Result<(), Fail> {
    // An LRW of one byte at 0x00010000, and its copies: 12 read on the one way, counts of 3 and 2.
    let sent = [13, 0x10, 0x0C, 0, 0, 0, 1, 0, 1, 0, 0, 0, 0x00, 0, 0];
    let from_a = [13, 0x10, 0x0C, 0, 0, 0, 1, 0, 1, 0, 0, 0, 0x12, 3, 0];
    let from_b = [13, 0x10, 0x0C, 0, 0, 0, 1, 0, 1, 0, 0, 0, 0x00, 2, 0];
    let sent = FrameBuf::read(&sent, Form::Udp)?;
    let a = FrameBuf::read(&from_a, Form::Udp)?;
    let b = FrameBuf::read(&from_b, Form::Udp)?;
    let joined = join_frames(&sent, Some(&a), Some(&b))?;
    assert!(rt; joined.count() == 1);
    assert_same(&rt, joined.data(0), [0x12].as_slice());
    assert_same(&rt, joined.counter(0), 5);
    Ok(())
}
