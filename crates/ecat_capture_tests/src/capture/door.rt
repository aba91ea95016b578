//! The use that the crate's page shows.
use crate::asserts::assert_same;
use ecat_capture::{Capture, CaptureFaultKind, Payload, payload_of};
use ecat_source::Bytes;

/// A classic capture of one EtherCAT frame with a BRD datagram.
static FILE: [u8; 70] = [
    0xd4, 0xc3, 0xb2, 0xa1, 2, 0, 4, 0, 0, 0, 0, 0, 0, 0, 0, 0, 0xff, 0xff, 0, 0, 1, 0, 0, 0, //
    0, 0, 0, 0, 0, 0, 0, 0, 30, 0, 0, 0, 30, 0, 0, 0, //
    0, 0, 0, 0, 0, 0, 0, 0, 0, 0, 0, 0, 0x88, 0xa4, //
    0x0e, 0x10, 0x07, 0x01, 0x00, 0x00, 0x30, 0x01, 0x02, 0x00, 0x00, 0x00, 0x00, 0x00, 0x00, 0x00,
];

#[test]
fn frames_of_a_file_are_found(rt: HostRuntime) {
    let mut capture = Capture::new(rt.alloc(), Bytes::new(&FILE));
    match capture.next() {
        Ok(Some(packet)) => {
            assert_same(&rt, packet.number, 1);
            let payload = payload_of(packet.link, capture.bytes());
            assert_same(&rt, payload, Payload::Ethernet { from: 14, to: 30 });
        }
        Ok(None) => panic!(rt; "the capture ended"),
        Err(fault) => assert_same(&rt, fault.kind, CaptureFaultKind::NoMemory),
    }
}
