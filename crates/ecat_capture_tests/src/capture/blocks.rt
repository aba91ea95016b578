//! pcapng block by block (the PCAP Next Generation file format).
use crate::asserts::assert_same;
use ecat_capture::{Capture, Link, Packet, Step};
use ecat_source::Bytes;

/// A section of unknown length, an interface, a block of a type that nobody knows, and a packet with five
/// bytes.
static BLOCKS: [u8; 88] = [
    0x0a, 0x0d, 0x0d, 0x0a, 28, 0, 0, 0, 0x4d, 0x3c, 0x2b, 0x1a, 1, 0, 0, 0, //
    0xff, 0xff, 0xff, 0xff, 0xff, 0xff, 0xff, 0xff, 28, 0, 0, 0, //
    1, 0, 0, 0, 20, 0, 0, 0, 1, 0, 0, 0, 0, 0, 0, 0, 20, 0, 0, 0, //
    0xad, 0x0b, 0, 0x40, 16, 0, 0, 0, 7, 7, 7, 7, 16, 0, 0, 0, //
    3, 0, 0, 0, 24, 0, 0, 0, 5, 0, 0, 0, 1, 2, 3, 4, 5, 0, 0, 0, 24, 0, 0, 0,
];

#[test]
fn each_block_is_a_step(rt: HostRuntime) {
    let mut capture = Capture::new(rt.alloc(), Bytes::new(&BLOCKS));
    for place in [28, 48, 64] {
        assert_same(&rt, capture.step(), Ok(Step::Other));
        assert_same(&rt, capture.place(), place);
    }
    let packet = Packet {
        number: 1,
        time: None,
        captured: 5,
        original: 5,
        interface: 0,
        link: Link::Ethernet,
    };
    assert_same(&rt, capture.step(), Ok(Step::Packet(packet)));
    assert_same(&rt, capture.bytes(), [1, 2, 3, 4, 5].as_slice());
    assert_same(&rt, capture.step(), Ok(Step::End));
}
