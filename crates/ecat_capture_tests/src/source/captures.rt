//! Captures of which a read fails, or for which memory runs out.
use crate::asserts::assert_same;
use ecat_source::{Bytes, FailsAt, Packet, Pcap, PcapFault, Source};
use std::process::Abort;
use std::test::Fail;

/// A capture of one record, whose 30 bytes are an Ethernet frame with one BRD datagram.
const CAPTURE: [u8; 70] = [
    0xd4, 0xc3, 0xb2, 0xa1, 2, 0, 4, 0, 0, 0, 0, 0, 0, 0, 0, 0, 0xff, 0xff, 0, 0, 1, 0, 0, 0, //
    0, 0, 0, 0, 0, 0, 0, 0, 30, 0, 0, 0, 30, 0, 0, 0, //
    0, 0, 0, 0, 0, 0, 0, 0, 0, 0, 0, 0, 0x88, 0xa4, //
    0x0e, 0x10, 0x07, 0x01, 0x00, 0x00, 0x30, 0x01, 0x02, 0x00, 0x00, 0x00, 0x00, 0x00, 0x00, 0x00,
];

/// The bytes of that record's packet.
const PACKET: [u8; 30] = [
    0, 0, 0, 0, 0, 0, 0, 0, 0, 0, 0, 0, 0x88, 0xa4, //
    0x0e, 0x10, 0x07, 0x01, 0x00, 0x00, 0x30, 0x01, 0x02, 0x00, 0x00, 0x00, 0x00, 0x00, 0x00, 0x00,
];

// The next packet is this one.
fn expect_packet(rt: &impl Abort, next: Result<Option<Packet>, PcapFault>, bytes: &[u8]) {
    match next {
        Ok(Some(packet)) => assert_eq!(rt; packet.bytes.as_slice(), bytes),
        Ok(None) => panic!(rt; "the capture ended"),
        Err(fault) => panic!(rt; "{fault}"),
    }
}

// The next packet is refused so.
fn expect_fault(rt: &impl Abort, next: Result<Option<Packet>, PcapFault>, expected: PcapFault) {
    match next {
        Ok(Some(_)) => panic!(rt; "there was a packet"),
        Ok(None) => panic!(rt; "the capture ended"),
        Err(fault) => assert_eq!(rt; fault, expected),
    }
}

#[test]
fn failing_read_is_read_and_then_failed(rt: HostRuntime) {
    for most in [1, 2, 3, 7] {
        let reads = (CAPTURE.len() as u64).div_ceil(most as u64);
        for reads_before in 0..reads {
            let source = FailsAt::new(&CAPTURE, most, reads_before);
            let mut pcap = Pcap::new(rt.alloc(), source);
            assert_same(&rt, pcap.failures(), 0);
            expect_fault(&rt, pcap.next(), PcapFault::Read);
            assert_same(&rt, pcap.failures(), 1);
            expect_fault(&rt, pcap.next(), PcapFault::Failed);
        }
    }
}

#[test]
fn lent_source_is_told_from_afterwards(rt: HostRuntime) {
    let mut source = FailsAt::new(&CAPTURE, 70, 1);
    let mut pcap = Pcap::new(rt.alloc(), &mut source);
    expect_packet(&rt, pcap.next(), &PACKET);
    expect_fault(&rt, pcap.next(), PcapFault::Read);
    drop(pcap);
    assert_same(&rt, source.failures(), 1);
}

#[test]
fn read_that_fails_at_the_end_is_read(rt: HostRuntime) {
    let mut pcap = Pcap::new(rt.alloc(), FailsAt::new(&CAPTURE, 70, 1));
    expect_packet(&rt, pcap.next(), &PACKET);
    expect_fault(&rt, pcap.next(), PcapFault::Read);
    expect_fault(&rt, pcap.next(), PcapFault::Failed);
}

// Run with an allocation that is refused, too: then the call that wanted it says so, and every later one
// fails.
#[test]
fn want_of_memory_is_told(rt: HostRuntime) {
    let mut pcap = Pcap::new(rt.alloc(), Bytes::new(&CAPTURE));
    match pcap.next() {
        Ok(Some(packet)) => assert_same(&rt, packet.bytes.as_slice(), PACKET.as_slice()),
        Ok(None) => panic!(rt; "the capture ended"),
        Err(fault) => {
            assert_same(&rt, fault, PcapFault::NoMemory);
            expect_fault(&rt, pcap.next(), PcapFault::Failed);
        }
    }
}

#[test]
fn faults_print_their_names(rt: HostRuntime) -> Result<(), Fail> {
    for (fault, name) in [
        (PcapFault::Short, "Short"),
        (PcapFault::NotPcap, "NotPcap"),
        (PcapFault::Version, "Version"),
        (PcapFault::LinkType, "LinkType"),
        (PcapFault::TooLong, "TooLong"),
        (PcapFault::Read, "Read"),
        (PcapFault::NoMemory, "NoMemory"),
        (PcapFault::Failed, "Failed"),
    ] {
        let text = format!(in rt.alloc(); "{fault}")?;
        assert_same(&rt, text.as_str(), name);
    }
    Ok(())
}
