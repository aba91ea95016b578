//! Captures that come in pieces, and readers that fail.

use crate::outputs::{ROOM, written};
use ecat_acts::show::act_show;
use ecat_source::{FailsAt, Pieces, Source};
use std::io::Cursor;
use std::process::Abort;

/// A capture of one packet: a broadcast read of AL status.
const ONE: [u8; 70] = [
    0xd4, 0xc3, 0xb2, 0xa1, 0x02, 0x00, 0x04, 0x00, 0x00, 0x00, 0x00, 0x00, 0x00, 0x00, 0x00, 0x00,
    0xff, 0xff, 0x00, 0x00, 0x01, 0x00, 0x00, 0x00, 0x00, 0x00, 0x00, 0x00, 0x00, 0x00, 0x00, 0x00,
    0x1e, 0x00, 0x00, 0x00, 0x1e, 0x00, 0x00, 0x00, 0x00, 0x00, 0x00, 0x00, 0x00, 0x00, 0x00, 0x00,
    0x00, 0x00, 0x00, 0x00, 0x88, 0xa4, 0x0e, 0x10, 0x07, 0x01, 0x00, 0x00, 0x30, 0x01, 0x02, 0x00,
    0x00, 0x00, 0x00, 0x00, 0x00, 0x00,
];

/// What is shown of it.
const ONE_SHOWN: &[u8] =
    b"packet 0 datagrams 1\n  BRD index 1 adp 0000 ado 0130 length 2 irq 0000 counter 0 data 0000\n";

/// Does `show` over a source, and asserts what it prints and answers, or that memory ran out.
fn assert_shown<S: Source>(
    rt: &(impl AllocGlobal + Abort),
    source: &mut S,
    status: u8,
    out: &[u8],
    err: &[u8],
) {
    let mut printed = Cursor::new([0u8; ROOM]);
    let mut complained = Cursor::new([0u8; ROOM]);
    let answer = act_show(rt.alloc(), true, source, &mut printed, &mut complained);
    let failed = written(&complained);
    if failed == b"capture: NoMemory\n".as_slice() {
        assert_eq!(rt; answer, 3);
        return;
    }
    assert_eq!(rt; written(&printed), out);
    assert_eq!(rt; failed, err);
    assert_eq!(rt; answer, status);
}

#[test]
fn a_cut_capture_is_short_but_between_packets(rt: HostRuntime) {
    for most in [1usize, 2, 3, 7] {
        for cut in 0..=70usize {
            let mut source = Pieces::new(&ONE[..cut], most);
            if cut == 70 {
                assert_shown(&rt, &mut source, 0, ONE_SHOWN, b"");
            } else if cut == 24 {
                assert_shown(&rt, &mut source, 0, b"", b"");
            } else {
                assert_shown(&rt, &mut source, 1, b"capture: Short\n", b"");
            }
        }
    }
}

#[test]
fn a_reader_that_fails_is_named(rt: HostRuntime) {
    for read in 0..10 {
        let mut source = FailsAt::new(&ONE, 7, read);
        assert_shown(&rt, &mut source, 3, b"", b"capture: Read\n");
    }
}
