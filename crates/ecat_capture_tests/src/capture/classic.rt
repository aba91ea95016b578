//! Classic captures (the savefile format of libpcap): the longest packet, and reads that fail.
use crate::asserts::assert_same;
use ecat_capture::{Capture, CaptureFault, CaptureFaultKind, Link, Packet, Time};
use ecat_source::{Bytes, FailsAt, Pieces, Source};
use std::process::Abort;
use std::test::Fail;

/// The header, and the head of a record of 262,144 bytes.
const LONG: [u8; 40] = [
    0xd4, 0xc3, 0xb2, 0xa1, 2, 0, 4, 0, 0, 0, 0, 0, 0, 0, 0, 0, 0, 0, 4, 0, 1, 0, 0, 0, //
    0, 0, 0, 0, 0, 0, 0, 0, 0, 0, 4, 0, 0, 0, 4, 0,
];

/// A record of three bytes.
static RECORD: [u8; 19] = [
    4, 3, 2, 1, 0x0c, 0x0b, 0x0a, 0, 3, 0, 0, 0, 3, 0, 0, 0, 0xaa, 0xbb, 0xcc,
];

/// The next packet is refused so, and behind that the capture has failed.
fn expect_fault<S: Source>(
    rt: &impl Abort,
    capture: &mut Capture<S>,
    kind: CaptureFaultKind,
    at: u64,
) {
    assert_same(rt, capture.next(), Err(CaptureFault { kind, at }));
    match capture.next() {
        Ok(_) => panic!(rt; "it goes on behind a fault"),
        Err(fault) => assert_same(rt, fault.kind, CaptureFaultKind::Failed),
    }
}

#[test]
fn longest_packet_is_cut_and_one_byte_more_refused(rt: HostRuntime) -> Result<(), Fail> {
    let mut file = Vec::from_slice(rt.alloc(), &LONG)?;
    for k in 0..262_144_u32 {
        file.push((k % 251) as u8)?;
    }
    file.extend_from_slice(&RECORD)?;
    let mut capture = Capture::new(rt.alloc(), Pieces::new(&file, 40_000));
    let long = Packet {
        number: 1,
        time: Some(Time {
            seconds: 0,
            nanoseconds: 0,
            fine: false,
        }),
        captured: 262_144,
        original: 262_144,
        interface: 0,
        link: Link::Ethernet,
    };
    assert_same(&rt, capture.next(), Ok(Some(long)));
    assert_same(&rt, capture.bytes().len(), 65_536);
    assert_same(&rt, capture.bytes().last(), Some(&24));
    let short = Packet {
        number: 2,
        time: Some(Time {
            seconds: 16_909_060,
            nanoseconds: 658_188_000,
            fine: false,
        }),
        captured: 3,
        original: 3,
        interface: 0,
        link: Link::Ethernet,
    };
    assert_same(&rt, capture.next(), Ok(Some(short)));
    assert_same(&rt, capture.bytes(), [0xaa, 0xbb, 0xcc].as_slice());
    assert_same(&rt, capture.next(), Ok(None));
    let mut more = LONG;
    more[32] = 1;
    let mut capture = Capture::new(rt.alloc(), Bytes::new(&more));
    expect_fault(&rt, &mut capture, CaptureFaultKind::TooLong, 24);
    Ok(())
}

#[test]
fn failing_read_is_read_and_then_failed(rt: HostRuntime) {
    for (reads_before, place) in [(0, 0), (1, 24)] {
        let mut capture = Capture::new(rt.alloc(), FailsAt::new(&LONG, 24, reads_before));
        expect_fault(&rt, &mut capture, CaptureFaultKind::Read, place);
        assert_same(&rt, capture.failures(), 1);
    }
}
