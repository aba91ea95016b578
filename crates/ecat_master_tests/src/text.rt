//! What lines write, as the door shows it, and where the output fails.

use crate::asserts::assert_same;
use ec_master::Verdict;
use ecat_text::{Lines, REFUSED, print_verdict};
use std::io::{self, Write};

/// An output with room for so many bytes, which keeps them.
#[derive(Drop)]
struct Page {
    bytes: [u8; 16],
    count: usize,
    room: usize,
}

impl Page {
    fn new(room: usize) -> Page {
        Page {
            bytes: [0; 16],
            count: 0,
            room,
        }
    }
}

impl Write for Page {
    fn write(&mut self, bytes: &[u8]) -> io::Result<usize> {
        let count = bytes.len();
        if self.count > self.room || count > self.room - self.count || self.room > 16 {
            return Err(io::Error::from(io::ErrorKind::WriteZero));
        }
        self.bytes[self.count..self.count + count].copy_from_slice(bytes);
        self.count += count;
        Ok(count)
    }

    fn flush(&mut self) -> io::Result<()> {
        Ok(())
    }
}

#[test]
fn a_verdict_is_a_line(rt: HostRuntime) {
    let mut page = Page::new(16);
    let status = print_verdict(Verdict::Short(0), &mut Lines::new(&mut page));
    assert_same(&rt, status.ok(), Some(REFUSED));
    assert_same(&rt, page.count, 8);
    assert_same(&rt, &page.bytes[..8], b"short 0\n".as_slice());
}

#[test]
fn an_output_that_is_full_is_an_error(rt: HostRuntime) {
    let mut page = Page::new(6);
    let status = print_verdict(Verdict::Over(0), &mut Lines::new(&mut page));
    assert_same(&rt, status.is_err(), true);
}

#[test]
fn bytes_are_pairs_of_digits_in_lower_case(rt: HostRuntime) {
    let mut page = Page::new(16);
    let mut lines = Lines::new(&mut page);
    assert_same(&rt, lines.hex(&[0x0A, 0xF0, 0x00]).is_ok(), true);
    assert_same(&rt, lines.end().is_ok(), true);
    assert_same(&rt, &page.bytes[..7], b"0af000\n".as_slice());
}
