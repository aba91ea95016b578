//! Bytes in memory, counted readers, and the whole of a source.
use crate::asserts::assert_same;
use ecat_source::{Bytes, Counted, FailsAt, Pieces, ReadAllFault, Source, SourceFault, read_all};
use std::io;
use std::io::{ErrorKind, Read};
use std::test::Fail;

/// A reader whose every read fails.
#[derive(Drop)]
struct Broken;

impl Read for Broken {
    fn read(&mut self, _into: &mut [u8]) -> io::Result<usize> {
        Err(io::Error::from(ErrorKind::Other))
    }
}

#[test]
fn bytes_end_and_stay_at_the_end(rt: HostRuntime) {
    let mut source = Bytes::new(b"abc");
    let mut into = [0; 2];
    assert_same(&rt, source.read(&mut into), Ok(2));
    assert_same(&rt, into, *b"ab");
    assert_same(&rt, source.read(&mut into), Ok(1));
    assert_same(&rt, into[0], b'c');
    assert_same(&rt, source.read(&mut into), Ok(0));
    assert_same(&rt, source.read(&mut into), Ok(0));
    assert_same(&rt, source.failures(), 0);
}

#[test]
fn each_failed_read_is_counted(rt: HostRuntime) {
    let mut source = Counted::new(Broken);
    let mut into = [0; 2];
    assert_same(&rt, source.failures(), 0);
    assert_same(&rt, source.read(&mut into), Err(SourceFault));
    assert_same(&rt, source.read(&mut into), Err(SourceFault));
    assert_same(&rt, source.failures(), 2);
}

#[test]
fn nothing_is_the_whole_of_nothing(rt: HostRuntime) -> Result<(), Fail> {
    let empty = read_all(rt.alloc(), &mut Bytes::new(b""), 0)?;
    assert_same(&rt, empty.len(), 0);
    Ok(())
}

#[test]
fn no_more_than_one_byte_past_the_limit_is_read(rt: HostRuntime) {
    let mut source = Bytes::new(b"abcdef");
    let fault = read_all(rt.alloc(), &mut source, 3).err();
    assert_same(&rt, fault, Some(ReadAllFault::TooLong));
    let mut into = [0; 4];
    assert_same(&rt, source.read(&mut into), Ok(2));
    assert_same(&rt, into[0], b'e');
}

#[test]
fn whole_of_a_source_that_fails(rt: HostRuntime) {
    for reads_before in 0..5 {
        let mut source = FailsAt::new(b"slave", 1, reads_before);
        let fault = read_all(rt.alloc(), &mut source, 100).err();
        assert_same(&rt, fault, Some(ReadAllFault::Read));
        assert_same(&rt, source.failures(), 1);
    }
}

// Run with an allocation that is refused, too.
#[test]
fn want_of_memory_for_the_whole_is_told(rt: HostRuntime) {
    match read_all(rt.alloc(), &mut Pieces::new(b"slave", 2), 100) {
        Ok(whole) => assert_same(&rt, whole.as_slice(), b"slave".as_slice()),
        Err(fault) => assert_same(&rt, fault, ReadAllFault::NoMemory),
    }
}

#[test]
fn faults_print_their_names(rt: HostRuntime) -> Result<(), Fail> {
    for (fault, name) in [
        (ReadAllFault::TooLong, "TooLong"),
        (ReadAllFault::Read, "Read"),
        (ReadAllFault::NoMemory, "NoMemory"),
    ] {
        let text = format!(in rt.alloc(); "{fault}")?;
        assert_same(&rt, text.as_str(), name);
    }
    let text = format!(in rt.alloc(); "{}", SourceFault)?;
    assert_same(&rt, text.as_str(), "Read");
    Ok(())
}
