//! Frames and their numbers, with the bytes written out by hand.

ghost use Rattle.std.specs.Prelude.{◌<◌, ◌≤◌};

use crate::copies::copy_in;
use crate::number::{number_frame, number_of, open_frame};
use crate::trip::Trip;
use arrayvec::ArrayVec;
use ec_wire::{Command, Datagram, Form, FrameBuf, Full};
use std::fmt::Debug;
use std::process::Abort;
use std::test::Fail;

/// A BRD of two bytes at 0x0130, index 5.
const STATUS: [u8; 16] = [
    0x0E, 0x10, 0x07, 0x05, 0x00, 0x00, 0x30, 0x01, 0x02, 0x00, 0x00, 0x00, 0x00, 0x00, 0x00, 0x00,
];

/// That with the number 0x0123456789ABCDEF behind it.
const NUMBERED: [u8; 36] = [
    0x22, 0x10, 0x07, 0x05, 0x00, 0x00, 0x30, 0x01, 0x02, 0x80, 0x00, 0x00, 0x00, 0x00, 0x00, 0x00,
    0x00, 0x00, 0x00, 0x00, 0x00, 0x00, 0x08, 0x00, 0x00, 0x00, 0xEF, 0xCD, 0xAB, 0x89, 0x67, 0x45,
    0x23, 0x01, 0x00, 0x00,
];

/// The number of that.
const NUMBER: u64 = 0x0123_4567_89AB_CDEF;

/// Asserts that what was found is what was wanted; once for all tests.
fn assert_same<T: PartialEq + Debug + Drop>(rt: &impl Abort, found: T, wanted: T) {
    assert_eq!(rt; found, wanted);
}

/// The frame of these bytes.
fn read(bytes: &[u8]) -> Result<FrameBuf, Fail> {
    Ok(FrameBuf::read(bytes, Form::Udp)?)
}

#[test]
fn a_number_is_a_nop_behind_the_frame(rt: HostRuntime) -> Result<(), Fail> {
    let mut frame = read(&STATUS)?;
    number_frame(&mut frame, NUMBER)?;
    assert_same(&rt, frame.bytes(), NUMBERED.as_slice());
    assert_same(&rt, number_of(&frame), Some(NUMBER));
    open_frame(&mut frame);
    assert_same(&rt, frame.bytes(), STATUS.as_slice());
    assert_same(&rt, number_of(&frame), None);
    Ok(())
}

#[test]
fn a_copy_comes_back_with_its_number_wherever_it_turned(rt: HostRuntime) -> Result<(), Fail> {
    let sent = read(&NUMBERED)?;
    let mut came = NUMBERED;
    // Three slaves counted, and the frame turned round at the far end.
    came[4] = 0x03;
    came[9] = 0xC0;
    came[12] = 0x08;
    came[14] = 0x03;
    came[23] = 0x40;
    let mut copy = copy_in(&sent, &came).ok_or("no copy")?;
    if copy.count() < 2 {
        return Err("no number")?;
    }
    open_frame(&mut copy);
    let mut wanted = STATUS;
    wanted[4] = 0x03;
    wanted[9] = 0x40;
    wanted[12] = 0x08;
    wanted[14] = 0x03;
    assert_same(&rt, copy.bytes(), wanted.as_slice());
    Ok(())
}

/// Asserts that a packet like the numbered one, but for one byte, is no copy of it.
fn assert_no_copy(rt: &impl Abort, at: usize, byte: u8) -> Result<(), Fail>
    requires { at < 36 }
{
    let sent = read(&NUMBERED)?;
    let mut came = NUMBERED;
    came[at] = byte;
    assert_same(rt, copy_in(&sent, &came).is_none(), true);
    Ok(())
}

#[test]
fn a_packet_of_another_number_or_frame_is_no_copy(rt: HostRuntime) -> Result<(), Fail> {
    // Each end of the number, the NOP's command, the first datagram's command, index and register.
    for (at, byte) in [
        (26usize, 0xEE),
        (33, 0x81),
        (16, 0x01),
        (2, 0x08),
        (3, 0x06),
        (6, 0x31),
    ] {
        if at < 36 {
            assert_no_copy(&rt, at, byte)?;
        }
    }
    let sent = read(&NUMBERED)?;
    assert_same(&rt, copy_in(&sent, &STATUS).is_none(), true);
    assert_same(&rt, copy_in(&sent, &NUMBERED[..35]).is_none(), true);
    Ok(())
}

#[test]
fn only_a_last_nop_of_eight_bytes_is_a_number(rt: HostRuntime) -> Result<(), Fail> {
    let mut other = NUMBERED;
    other[16] = 0x0A;
    assert_same(&rt, number_of(&read(&other)?), None);
    // A NOP of eight bytes in front of the BRD.
    let front = [
        0x22, 0x10, 0x00, 0x00, 0x00, 0x00, 0x00, 0x00, 0x08, 0x80, 0x00, 0x00, 0xEF, 0xCD, 0xAB,
        0x89, 0x67, 0x45, 0x23, 0x01, 0x00, 0x00, 0x07, 0x05, 0x00, 0x00, 0x30, 0x01, 0x02, 0x00,
        0x00, 0x00, 0x00, 0x00, 0x00, 0x00,
    ];
    assert_same(&rt, number_of(&read(&front)?), None);
    // A NOP of two bytes behind it.
    let short = [
        0x1C, 0x10, 0x07, 0x05, 0x00, 0x00, 0x30, 0x01, 0x02, 0x80, 0x00, 0x00, 0x00, 0x00, 0x00,
        0x00, 0x00, 0x00, 0x00, 0x00, 0x00, 0x00, 0x02, 0x00, 0x00, 0x00, 0xEF, 0xCD, 0x00, 0x00,
    ];
    assert_same(&rt, number_of(&read(&short)?), None);
    Ok(())
}

/// A frame of one LRW of so many bytes.
fn exchange(length: usize) -> FrameBuf
    requires { length ≤ 1486 }
{
    let mut payload = ArrayVec::new();
    for _byte in 0..length {
        let _is_full = payload.try_push(0).is_err();
    }
    FrameBuf::of(&Datagram {
        command: Command::Lrw,
        index: 0,
        address: 0x0001_0000,
        circulating: false,
        irq: 0,
        payload,
        counter: 0,
    })
}

#[test]
fn a_frame_of_1478_bytes_has_room_and_a_longer_one_stays_as_it_was(
    rt: HostRuntime,
) -> Result<(), Fail> {
    let mut fits = exchange(1466);
    number_frame(&mut fits, NUMBER)?;
    assert_same(&rt, fits.bytes().len(), 1500);
    let mut full = exchange(1467);
    assert_same(&rt, number_frame(&mut full, NUMBER), Err(Full));
    assert_same(&rt, full.bytes(), exchange(1467).bytes());
    Ok(())
}

#[test]
fn the_copies_of_a_trip_have_two_numbers(rt: HostRuntime) -> Result<(), Fail> {
    let last = Trip::of(0x7FFF_FFFF_FFFF_FFFF);
    assert_same(&rt, last.a(), 0xFFFF_FFFF_FFFF_FFFE);
    assert_same(&rt, last.b(), 0xFFFF_FFFF_FFFF_FFFF);
    assert_same(&rt, last.next(), Trip::of(0));
    assert_same(&rt, Trip::of(0x8000_0000_0000_0005), Trip::of(5));
    assert_same(&rt, Trip::of_copy(11), Trip::of(5));
    Ok(())
}
