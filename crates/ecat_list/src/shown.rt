//! `ecat show`: the frames of a classic capture, each field by its name.
ghost use Rattle.std.specs.Prelude.{◌≡◌, ◌<◌, ◌++◌, OnOk, length};
ghost use Rattle.ec_wire.specs.Datagram.{nth};
ghost use Rattle.ecat_list.specs.Shown.{addressed_words, counted_words, datagram_words};
ghost use Rattle.ecat_list.specs.Shown.{head_of, named_words, wire_fault_words};

use crate::line::{any_frame, name_of};
use crate::output::{Output, Stop};
use crate::text::{put_decimal, put_eight_digits, put_four_digits, put_hex};
use ec_wire::{Addressing, Command, Form, FrameBuf, WireFault, ado_of, adp_of};
use ecat_source::{Pcap, PcapFault, Source};
use std::alloc::{AllocError, Global};
use std::io::Write;

/// Where an Ethernet frame's payload begins, behind the addresses and the ethertype.
const PAYLOAD: usize = 14;

/// The ethertype of EtherCAT.
const ETHERCAT: [u8; 2] = [0x88, 0xa4];

/// How a capture was shown.
#[derive(Clone, Copy, Debug, PartialEq, Eq)]
pub enum Shown {
    /// To its end.
    Whole {
        /// Is a payload of EtherCAT's type no frame?
        faulty: bool,
    },
    /// Up to a fault of the capture, its source or memory.
    Stopped(PcapFault),
    /// A write to the output failed.
    OutputFailed,
}

/// Shows each packet of the classic capture that the source holds: in pieces of 64 KiB, or where it is live
/// each packet's lines at once.
pub fn show<S: Source, W: Write>(alloc: Global, source: &mut S, live: bool, out: &mut W) -> Shown {
    let mut capture = Pcap::new(alloc, source);
    let mut output = Output::new(alloc, out, live);
    let shown = match show_packets(&mut capture, &mut output) {
        Ok(shown) => shown,
        Err(stop) => return shown_of(stop),
    };
    match output.flush() {
        Ok(()) => shown,
        Err(stop) => shown_of(stop),
    }
}

/// How a capture was shown whose showing was stopped.
fn shown_of(stop: Stop) -> Shown {
    match stop {
        Stop::Closed | Stop::OutputFailed => Shown::OutputFailed,
        Stop::NoMemory => Shown::Stopped(PcapFault::NoMemory),
    }
}

/// Shows packets, as long as there are some.
fn show_packets<S: Source, W: Write>(
    capture: &mut Pcap<S>,
    output: &mut Output<'_, W>,
) -> Result<Shown, Stop> {
    let mut frame = any_frame();
    let mut faulty = false;
    for number in 0..u64::MAX {
        match capture.next() {
            Ok(Some(packet)) => {
                let bytes = packet.bytes.as_slice();
                if !put_packet(&mut output.text, number, bytes, &mut frame)? {
                    faulty = true;
                }
                output.settle()?;
            }
            Ok(None) => break,
            Err(fault) => return Ok(Shown::Stopped(fault)),
        }
    }
    Ok(Shown::Whole { faulty })
}

/// Puts the lines of one packet, and says whether it is a frame or none of EtherCAT's.
fn put_packet(
    text: &mut Vec<u8>,
    number: u64,
    bytes: &[u8],
    frame: &mut FrameBuf,
) -> Result<bool, AllocError> {
    text.extend_from_slice(b"packet ")?;
    put_decimal(text, number)?;
    if bytes.len() < PAYLOAD {
        text.extend_from_slice(b" short\n")?;
        return Ok(true);
    }
    let ethertype = &bytes[PAYLOAD - 2..PAYLOAD];
    if ethertype != ETHERCAT.as_slice() {
        text.extend_from_slice(b" ethertype ")?;
        put_hex(text, ethertype)?;
        text.extend_from_slice(b"\n")?;
        return Ok(true);
    }
    match frame.refill(&bytes[PAYLOAD..], Form::Ethernet) {
        Ok(()) => {
            put_frame(text, frame)?;
            Ok(true)
        }
        Err(fault) => {
            text.extend_from_slice(b" ")?;
            put_fault(text, fault)?;
            text.extend_from_slice(b"\n")?;
            Ok(false)
        }
    }
}

/// Puts the number of a frame's datagrams and a line for each.
fn put_frame(text: &mut Vec<u8>, frame: &FrameBuf) -> Result<(), AllocError> {
    text.extend_from_slice(b" datagrams ")?;
    put_decimal(text, frame.count() as u64)?;
    text.extend_from_slice(b"\n")?;
    for k in 0..frame.count() {
        put_datagram(text, frame, k)?;
    }
    Ok(())
}

/// Puts the line of one datagram.
fn put_datagram(text: &mut Vec<u8>, frame: &FrameBuf, k: usize) -> Result<(), AllocError>
    requires { k < length frame.now }
{
    let data = frame.data(k);
    put_head(text, &head_of(frame, k))?;
    if data.is_empty() {
        text.extend_from_slice(b"-")?;
    }
    put_hex(text, data)?;
    if frame.circulating(k) {
        text.extend_from_slice(b" circulating")?;
    }
    text.extend_from_slice(b"\n")
}

/// The line of a datagram, as far as its data.
#[derive(Clone, Copy)]
struct DatagramHead {
    command: Command,
    index: u8,
    address: u32,
    length: usize,
    irq: u16,
    counter: u16,
}

/// What the line of a datagram tells before its data.
fn head_of(frame: &FrameBuf, k: usize) -> DatagramHead
    requires { k < length frame.now }
    ensures { result ≡ head_of (nth frame.now k) }
{
    DatagramHead {
        command: frame.command(k),
        index: frame.index(k),
        address: frame.address(k),
        length: frame.data(k).len(),
        irq: frame.irq(k),
        counter: frame.counter(k),
    }
}

/// Puts what the line of a datagram tells before its data.
fn put_head(text: &mut Vec<u8>, head: &DatagramHead) -> Result<(), AllocError>
    ensures { OnOk result (text.new.items ≡ text.old.items ++ datagram_words head.now) }
{
    put_named(text, head)?;
    put_address(text, head.command.addressing(), head.address)?;
    put_counted(text, head)
}

/// Puts the beginning of a datagram's line.
fn put_named(text: &mut Vec<u8>, head: &DatagramHead) -> Result<(), AllocError>
    ensures { OnOk result (text.new.items ≡ text.old.items ++ named_words head.now) }
{
    text.extend_from_slice(b"  ")?;
    text.extend_from_slice(head.command.name().as_bytes())?;
    text.extend_from_slice(b" index ")?;
    put_decimal(text, u64::from(head.index))
}

/// Puts what follows the address.
fn put_counted(text: &mut Vec<u8>, head: &DatagramHead) -> Result<(), AllocError>
    ensures { OnOk result (text.new.items ≡ text.old.items ++ counted_words head.now) }
{
    text.extend_from_slice(b" length ")?;
    put_decimal(text, head.length as u64)?;
    text.extend_from_slice(b" irq ")?;
    put_four_digits(text, head.irq)?;
    text.extend_from_slice(b" counter ")?;
    put_decimal(text, u64::from(head.counter))?;
    text.extend_from_slice(b" data ")
}

/// Puts the address of a datagram.
fn put_address(text: &mut Vec<u8>, addressing: Addressing, address: u32) -> Result<(), AllocError>
    ensures { OnOk result (text.new.items ≡ text.old.items ++ addressed_words addressing address) }
{
    match addressing {
        Addressing::Logical => {
            text.extend_from_slice(b" log ")?;
            put_eight_digits(text, address)
        }
        Addressing::Nobody
        | Addressing::AutoIncrement
        | Addressing::ConfiguredStation
        | Addressing::All => {
            text.extend_from_slice(b" adp ")?;
            put_four_digits(text, adp_of(address))?;
            text.extend_from_slice(b" ado ")?;
            put_four_digits(text, ado_of(address))
        }
    }
}

/// Puts a fault and where it is.
fn put_fault(text: &mut Vec<u8>, fault: WireFault) -> Result<(), AllocError>
    ensures { OnOk result (text.new.items ≡ text.old.items ++ wire_fault_words fault) }
{
    text.extend_from_slice(b"fault ")?;
    text.extend_from_slice(name_of(fault.kind))?;
    text.extend_from_slice(b" at ")?;
    put_decimal(text, fault.at as u64)
}
