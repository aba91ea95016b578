//! Memory that runs out.
use crate::asserts::assert_same;
use ecat_capture::{Capture, CaptureFaultKind};
use ecat_source::Bytes;

/// The header of a classic capture, and a record of one byte.
static FILE: [u8; 41] = [
    0xd4, 0xc3, 0xb2, 0xa1, 2, 0, 4, 0, 0, 0, 0, 0, 0, 0, 0, 0, 0, 0, 4, 0, 1, 0, 0, 0, //
    7, 0, 0, 0, 0, 0, 0, 0, 1, 0, 0, 0, 1, 0, 0, 0, 0x5a,
];

// Run with an allocation that is refused, too: then the call that wanted it says so, and every later one
// fails.
#[test]
fn want_of_memory_is_told(rt: HostRuntime) {
    let mut capture = Capture::new(rt.alloc(), Bytes::new(&FILE));
    match capture.next() {
        Ok(Some(_)) => assert_same(&rt, capture.bytes(), [0x5a].as_slice()),
        Ok(None) => panic!(rt; "the capture ended"),
        Err(fault) => {
            assert_same(&rt, fault.kind, CaptureFaultKind::NoMemory);
            match capture.next() {
                Ok(_) => panic!(rt; "it goes on behind a fault"),
                Err(fault) => assert_same(&rt, fault.kind, CaptureFaultKind::Failed),
            }
        }
    }
}
