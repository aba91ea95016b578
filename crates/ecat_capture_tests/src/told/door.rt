//! The use on the crate's page: a capture of one slave's start and three cycles, byte by byte.

use ecat_source::Bytes;
use ecat_told::{Asked, Learned, learn};
use std::alloc::Global;

/// The header of a capture, and of each datagram two packets: as it was sent, and as it came back.
const CAPTURE: [&str; 21] = [
    "d4c3b2a1020004000000000000000000ffff000001000000",
    // BRD of the type.
    "e8030000000000001d0000001d000000ffffffffffff00010510000088a40d1007000000000001000000000000",
    "e8030000140000001d0000001d000000ffffffffffff02010510000088a40d1007000100000001000000110100",
    // APWR of the station.
    "e8030000e80300001e0000001e000000ffffffffffff00010510000088a40e100201000010000200000001100000",
    "e8030000fc0300001e0000001e000000ffffffffffff02010510000088a40e100201010010000200000001100100",
    // BWR of all sync managers.
    "e8030000d00700003c0000003c000000ffffffffffff00010510000088a42c1008020000000820000000000000000000\
     00000000000000000000000000000000000000000000000000000000",
    "e8030000e40700003c0000003c000000ffffffffffff02010510000088a42c1008020100000820000000000000000000\
     00000000000000000000000000000000000000000000000000000100",
    // FPWR of sync manager 2.
    "e8030000b80b00002400000024000000ffffffffffff00010510000088a4141005030110100808000000001001006400\
     01000000",
    "e8030000cc0b00002400000024000000ffffffffffff02010510000088a4141005030110100808000000001001006400\
     01000100",
    // FPWR of FMMU 0.
    "e8030000a00f00002c0000002c000000ffffffffffff00010510000088a41c1005040110000610000000000001000100\
     000700100002010000000000",
    "e8030000b40f00002c0000002c000000ffffffffffff02010510000088a41c1005040110000610000000000001000100\
     000700100002010000000100",
    // BWR of AL control.
    "e8030000881300001e0000001e000000ffffffffffff00010510000088a40e100805000020010200000008000000",
    "e80300009c1300001e0000001e000000ffffffffffff02010510000088a40e100805010020010200000008000100",
    // BRD of AL status.
    "e8030000701700001e0000001e000000ffffffffffff00010510000088a40e100706000030010200000000000000",
    "e8030000841700001e0000001e000000ffffffffffff02010510000088a40e100706010030010200000008000100",
    // LRW.
    "e8030000581b00001d0000001d000000ffffffffffff00010510000088a40d100c0700000100010000005a0000",
    "e80300006c1b00001d0000001d000000ffffffffffff02010510000088a40d100c0700000100010000005a0200",
    "e8030000401f00001d0000001d000000ffffffffffff00010510000088a40d100c0800000100010000005a0000",
    "e8030000541f00001d0000001d000000ffffffffffff02010510000088a40d100c0800000100010000005a0200",
    "e8030000282300001d0000001d000000ffffffffffff00010510000088a40d100c0900000100010000005a0000",
    "e80300003c2300001d0000001d000000ffffffffffff02010510000088a40d100c0900000100010000005a0200",
];

/// The scene of it.
const SCENE: &str = "\
# learned of packets 1 to 20: 10 frames sent, 10 returned, told by mark
slave 0x1001
state 8
simple
areas 1 0
sm 2 0x1000 1 write
fmmu 0 0x00010000 1 0 7 0x1000 0 write
# came back 3 times, every 0.001000 s, with counter 2
lrw 0x00010000 00
# left out: control bits of sync managers but kind and direction, 1 times
";

/// The bytes of the capture.
fn capture(alloc: Global) -> Option<Vec<u8>> {
    let mut bytes = Vec::new(alloc);
    for text in CAPTURE {
        let row = hex::decode(alloc, text).ok()?;
        bytes.extend_from_slice(row.as_slice()).ok()?;
    }
    Some(bytes)
}

#[test]
fn a_start_is_learned(rt: HostRuntime) {
    let Some(bytes) = capture(rt.alloc()) else {
        return;
    };
    let first = Bytes::new(bytes.as_slice());
    let again = Bytes::new(bytes.as_slice());
    let asked = Asked {
        at: None,
        asked: false,
        values: false,
    };
    let mut out = Vec::new(rt.alloc());
    let mut err = Vec::new(rt.alloc());
    let found = learn(rt.alloc(), first, again, &asked, &mut out, &mut err);
    if found != Learned::NoMemory && found != Learned::OutputFailed {
        assert_eq!(rt; found, Learned::Whole);
        assert!(rt; out.as_slice() == SCENE.as_bytes(), "{out:?}");
    }
}
