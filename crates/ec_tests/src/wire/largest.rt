//! The largest frames: 124 datagrams without data, and one with all.

use crate::asserts::assert_same;
use arrayvec::ArrayVec;
use ec_wire::{Command, Datagram, Form, FrameBuf, Full, MAX_DATA, MAX_DATAGRAMS, MAX_FRAME};
use std::process::Abort;
use std::test::Fail;

fn nop(payload: ArrayVec<u8, MAX_DATA>) -> Datagram {
    Datagram {
        command: Command::Nop,
        index: 0,
        address: 0,
        circulating: false,
        irq: 0,
        payload,
        counter: 0,
    }
}

/// A frame of 124 datagrams without data.
fn many(rt: &impl Abort) -> FrameBuf {
    let empty = nop(ArrayVec::new());
    let mut frame = FrameBuf::of(&empty);
    for _ in 1..MAX_DATAGRAMS {
        frame.push(&empty).expect(rt, "room for 124");
    }
    frame
}

/// A frame of one datagram with 1,486 data bytes.
fn wide(rt: &impl Abort) -> FrameBuf {
    let mut payload = ArrayVec::new();
    payload
        .try_extend_from_slice(&[0; MAX_DATA])
        .expect(rt, "1,486 bytes");
    FrameBuf::of(&nop(payload))
}

/// Edits each datagram and reads the frame again.
fn edited_is_read_again(rt: &impl Abort, frame: &mut FrameBuf) {
    for k in 0..MAX_DATAGRAMS {
        if k < frame.count() {
            frame.set_counter(k, k as u16);
        }
        if k < frame.count() {
            frame.set_circulating(k, k % 2 == 1);
        }
        if k < frame.count() {
            for byte in frame.data_mut(k).iter_mut() {
                *byte = 0xa5;
            }
        }
    }
    let again = FrameBuf::read(frame.bytes(), Form::Udp).expect(rt, "a frame");
    assert_eq!(rt; again.count(), frame.count());
    assert_eq!(rt; again.bytes(), frame.bytes());
    for k in 0..MAX_DATAGRAMS {
        if k < again.count() {
            assert_eq!(rt; usize::from(again.counter(k)), k);
            assert_eq!(rt; again.circulating(k), k % 2 == 1);
            assert!(rt; again.data(k).iter().all(|byte| *byte == 0xa5));
        }
    }
}

#[test]
fn a_frame_holds_124_datagrams_and_no_more(rt: HostRuntime) -> Result<(), Fail> {
    let mut frame = many(&rt);
    assert!(rt; frame.count() == 124);
    assert_same(&rt, frame.bytes().len(), 1490);
    assert!(rt; frame.bytes().starts_with(&[0xd0, 0x15]));
    let before = frame.copy();
    assert_same(&rt, frame.push(&nop(ArrayVec::new())), Err(Full));
    assert_same(&rt, frame.bytes(), before.bytes());
    edited_is_read_again(&rt, &mut frame);
    Ok(())
}

#[test]
fn a_datagram_fills_a_frame_alone(rt: HostRuntime) -> Result<(), Fail> {
    let mut frame = wide(&rt);
    assert_same(&rt, frame.bytes().len(), MAX_FRAME);
    assert!(rt;
        frame
            .bytes()
            .starts_with(&[0xda, 0x15, 0, 0, 0, 0, 0, 0, 0xce, 0x05])
    );
    let before = frame.copy();
    assert_same(&rt, frame.push(&nop(ArrayVec::new())), Err(Full));
    assert_same(&rt, frame.bytes(), before.bytes());
    edited_is_read_again(&rt, &mut frame);
    Ok(())
}

#[test]
fn frames_of_124_and_of_one_are_read_into_one_place(rt: HostRuntime) -> Result<(), Fail> {
    let many = many(&rt);
    let one = wide(&rt);
    let mut kept = one.copy();
    kept.refill(many.bytes(), Form::Udp)?;
    assert!(rt; kept.count() == 124);
    assert_same(&rt, kept.bytes(), many.bytes());
    kept.refill(one.bytes(), Form::Udp)?;
    assert!(rt; kept.count() == 1);
    assert_same(&rt, kept.data(0).len(), MAX_DATA);
    assert_same(&rt, kept.bytes(), one.bytes());
    Ok(())
}
