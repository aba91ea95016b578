//! The worked rows of the frame format and of the joining of copies.

use arrayvec::ArrayVec;
use ec_merge::{JoinFault, join_frames};
use ec_wire::{Command, Datagram, FaultKind, Form, FrameBuf, MAX_DATA, MAX_DATAGRAMS, WireFault};

/// A broadcast read of AL status.
const BROADCAST_READ: [u8; 16] = [
    0x0e, 0x10, 0x07, 0x01, 0x00, 0x00, 0x30, 0x01, 0x02, 0x00, 0x00, 0x00, 0x00, 0x00, 0x00, 0x00,
];

/// The broadcast read with one byte more than its datagram takes.
const LEFT_OVER: [u8; 17] = [
    0x0f, 0x10, 0x07, 0x01, 0x00, 0x00, 0x30, 0x01, 0x02, 0x00, 0x00, 0x00, 0x00, 0x00, 0x00, 0x00,
    0x00,
];

/// Whether both forms refuse the bytes with this fault.
fn is_refused(bytes: &[u8], at: usize, kind: FaultKind) -> bool {
    let fault = Some(WireFault { at, kind });
    FrameBuf::read(bytes, Form::Ethernet).err() == fault
        && FrameBuf::read(bytes, Form::Udp).err() == fault
}

/// The broadcast read cut to 15 bytes, to 1 and to none.
pub fn cut_frames_are_short() -> bool {
    [15usize, 1, 0].iter().all(|cut| is_refused(&BROADCAST_READ[..*cut], *cut, FaultKind::Short))
}

/// The broadcast read with the more bit, with a longer length, and with an unknown command.
pub fn changed_bytes_are_named() -> bool {
    let mut more = BROADCAST_READ;
    more[9] = 0x80;
    let mut longer = BROADCAST_READ;
    longer[8] = 0x03;
    let mut unknown = BROADCAST_READ;
    unknown[2] = 0x0f;
    is_refused(&more, 9, FaultKind::MoreAtEnd)
        && is_refused(&longer, 8, FaultKind::Overrun)
        && is_refused(&unknown, 2, FaultKind::BadCommand)
}

/// The broadcast read followed by 30 bytes: taken in the Ethernet form, Trailing in the UDP form.
pub fn padding_is_for_ethernet_alone() -> bool {
    let mut padded = [0; 46];
    padded[..16].copy_from_slice(&BROADCAST_READ);
    let trailing = WireFault {
        at: 16,
        kind: FaultKind::Trailing,
    };
    let taken = match FrameBuf::read(&padded, Form::Ethernet) {
        Ok(frame) => frame.bytes() == BROADCAST_READ.as_slice(),
        Err(_) => false,
    };
    taken && FrameBuf::read(&padded, Form::Udp).err() == Some(trailing)
}

/// One byte more than the datagram takes.
pub fn a_byte_too_much_is_left_over() -> bool {
    is_refused(&LEFT_OVER, 16, FaultKind::LeftOver)
}

/// Headers alone, followed by nothing.
pub fn headers_are_tested_in_order() -> bool {
    is_refused(&[0x0e, 0x40], 1, FaultKind::BadType)
        && is_refused(&[0x0e, 0x18], 1, FaultKind::Reserved)
        && is_refused(&[0x00, 0x10], 0, FaultKind::Empty)
        && is_refused(&[0xdb, 0x15], 0, FaultKind::TooLong)
        && is_refused(&[0xda, 0x15], 2, FaultKind::Short)
}

/// A datagram that asks nothing, with these data.
fn nop(payload: ArrayVec<u8, MAX_DATA>) -> Datagram {
    Datagram {
        command: Command::Nop,
        index: 0,
        address: 0,
        circulating: false,
        irq: 0,
        payload,
        counter: 0,
    }
}

/// 124 datagrams without data fill a frame, and so does one with 1,486 bytes.
pub fn largest_frames_are_full() -> bool {
    let empty = nop(ArrayVec::new());
    let mut many = FrameBuf::of(&empty);
    for _ in 1..MAX_DATAGRAMS {
        if many.push(&empty).is_err() {
            return false;
        }
    }
    let before = many.copy();
    let refused = many.push(&empty).is_err() && many.bytes() == before.bytes();
    let mut payload = ArrayVec::new();
    if payload.try_extend_from_slice(&[0; MAX_DATA]).is_err() {
        return false;
    }
    let wide = FrameBuf::of(&nop(payload));
    refused
        && many.bytes().len() == 1490
        && many.bytes().starts_with(&[0xd0, 0x15])
        && wide.bytes().len() == 1500
        && wide
            .bytes()
            .starts_with(&[0xda, 0x15, 0, 0, 0, 0, 0, 0, 0xce, 0x05])
}

/// The frame of one datagram of one byte of data: a logical read with this index, data and counter.
fn one_byte(index: u8, byte: u8, counter: u16) -> FrameBuf {
    let mut payload = ArrayVec::new();
    payload.push(byte);
    FrameBuf::of(&Datagram {
        command: Command::Lrd,
        index,
        address: 0x0001_0000,
        circulating: false,
        irq: 0,
        payload,
        counter,
    })
}

/// Each bit that either copy changed is changed, and the counters add up past 65,535.
pub fn copies_are_joined() -> bool {
    let sent = one_byte(7, 0xf0, 0xffff);
    let a = one_byte(7, 0xf1, 1);
    let b = one_byte(7, 0x70, 0);
    match join_frames(&sent, Some(&a), Some(&b)) {
        Ok(joined) => joined.bytes() == one_byte(7, 0x71, 2).bytes(),
        Err(_) => false,
    }
}

/// A copy with another index than was sent is a stranger.
pub fn another_index_is_a_stranger() -> bool {
    let sent = one_byte(7, 0, 0);
    let a = one_byte(8, 0, 1);
    join_frames(&sent, Some(&a), Some(&sent)).err() == Some(JoinFault::StrangerA(0))
}
