//! The packets of a capture.
ghost use Rattle.std.specs.Prelude.{◌≡◌, ◌≤◌, List, ℕ, Err, IfErr, IfOk, IfSome, None, Ok, OnOk, length};
ghost use Rattle.std.specs.Io.KnownBytes.{Consumes};
ghost use Rattle.ecat_source.specs.Capture.{IsHeader, IsRecord, header_length};
ghost use Rattle.ecat_source.specs.Faults.{EndsWithin, Ends, Explains, HeaderIsRefused, RecordIsRefused};
ghost use Rattle.ecat_source.specs.Faults.{Takes};
ghost use Rattle.ecat_source.specs.Progress.{Blames, EndsAt, EndsBehindHeader, GivesFirst, HasAhead};
ghost use Rattle.ecat_source.specs.Progress.{IsNext, IsRefused, stage_after};
ghost use Rattle.ecat_source.specs.Source.{CanFail};

use crate::buffer::{Buffered, InputFault};
use crate::sources::Source;
use std::alloc::Global;
use std::marker::Model;
use thiserror::Error;

/// A packet as it was captured.
#[derive(Debug, Drop)]
pub struct Packet {
    /// The stored bytes, at most 65,535.
    pub bytes: Vec<u8>,
}

/// Why a capture has no further packet.
#[derive(Clone, Copy, Debug, PartialEq, Eq, Error)]
pub enum PcapFault {
    /// The bytes end inside the header or a record.
    #[error("Short")]
    Short,
    /// The first four bytes are not those of a capture.
    #[error("NotPcap")]
    NotPcap,
    /// The version is not 2.4.
    #[error("Version")]
    Version,
    /// The packets are not Ethernet frames.
    #[error("LinkType")]
    LinkType,
    /// A record stores more than 65,535 bytes.
    #[error("TooLong")]
    TooLong,
    /// A read failed.
    #[error("Read")]
    Read,
    /// Memory ran out.
    #[error("NoMemory")]
    NoMemory,
    /// An earlier call found a fault.
    #[error("Failed")]
    Failed,
}

/// What comes next in a capture.
#[derive(Clone, Copy)]
pub(crate) enum Stage {
    /// The header, and then the first record.
    Header,
    /// A record.
    Records,
    /// Nothing: the capture has ended.
    End,
    /// Nothing: a fault was found.
    Fault,
}

/// The packets of a capture, one after another.
///
/// The file is read through a buffer of 64 KiB, which the first call of `next` allocates. Beside that only
/// one packet is held at a time, so a capture of any length takes the same memory.
#[derive(Drop)]
pub struct Pcap<S: Source> {
    alloc: Global,
    input: Buffered<S>,
    stage: Stage,
}

impl<S: Source> Model for Pcap<S> {
    ghost use Rattle.ecat_source.specs.Progress.{Progress};

    ghost Value = { Progress };

    ghost view = { λ p. record { stage = p.stage; input = p.input } };
}

impl<S: Source> Pcap<S> {
    /// The capture that this source has ahead. Nothing is read yet.
    pub fn new(alloc: Global, reader: S) -> Pcap<S>
        ensures stage { result.stage ≡ Stage.Header }
        ensures ahead { result.input.ahead ≡ S.remaining reader }
        ensures count { result.input.count ≡ S.count reader }
    {
        Pcap {
            alloc,
            input: Buffered::new(alloc, reader),
            stage: Stage::Header,
        }
    }

    /// How often the source has failed.
    pub fn failures(&self) -> u64
        ensures { result ≡ self.now.input.count }
    {
        self.input.failures()
    }

    /// The next packet, or `None` where the capture ends in front of a record, and from then on. The first
    /// call takes the header too. After a fault every further call fails.
    pub fn next(&mut self) -> Result<Option<Packet>, PcapFault>
        ensures stage { self.new.stage ≡ stage_after result }
        ensures monotone { self.old.input.count ≤ self.new.input.count }

        ensures packet { IfOk result (λ found. IfSome found (λ packet.
            Takes (IsNext self.old.stage packet.bytes.items) self.old.input self.new.input)) }
        ensures end { result ≡ Ok None → EndsAt self.old.stage self.old.input self.new.input }
        ensures err { IfErr result (Blames self.old.stage self.old.input self.new.input) }

        // Of a capture's packets it gives the first, unless a read fails or memory runs out.
        ensures capture { (packets : List (List ℕ)) → HasAhead self.old packets →
            CanFail self.new.input.count → GivesFirst packets self.old result self.new }

        ensures ended { self.old.stage ≡ Stage.End → result ≡ Ok None }
        ensures failed { self.old.stage ≡ Stage.Fault → result ≡ Err PcapFault.Failed }
    {
        let result = take_next(self.alloc, self.stage, &mut self.input);
        self.stage = stage_after(&result);
        result
    }
}

impl From<InputFault> for PcapFault {
    ghost use Rattle.ecat_source.specs.Faults.{fault_of};

    ghost from_gives = { λ fault made. made ≡ fault_of fault };

    fn from(fault: InputFault) -> PcapFault {
        match fault {
            InputFault::Read => PcapFault::Read,
            InputFault::NoMemory => PcapFault::NoMemory,
        }
    }
}

/// The bytes 0 to 3 of a capture: little endian, with microseconds.
const MAGIC: [u8; 4] = [0xd4, 0xc3, 0xb2, 0xa1];

/// The bytes 4 to 7: the version 2.4.
const VERSION: [u8; 4] = [2, 0, 4, 0];

/// The bytes 20 to 23: the link type of Ethernet.
const ETHERNET: [u8; 4] = [1, 0, 0, 0];

/// The length of a capture's header.
const HEADER_LEN: usize = 24;

/// The length of a record's head.
const HEAD_LEN: usize = 16;

/// How many bytes a record may store.
const MAX_STORED: u32 = 65535;

// Says whether 24 bytes are a capture's header.
fn check_header(header: &[u8]) -> Result<(), PcapFault>
    requires { length header.now ≡ header_length }
    ensures ok { OnOk result (IsHeader header.now) }
    ensures err { IfErr result (HeaderIsRefused header.now) }
{
    if header[..4] != MAGIC[..] {
        return Err(PcapFault::NotPcap);
    }
    if header[4..8] != VERSION[..] {
        return Err(PcapFault::Version);
    }
    if header[20..] != ETHERNET[..] {
        return Err(PcapFault::LinkType);
    }
    Ok(())
}

// Takes the header of a capture.
fn take_header<S: Source>(input: &mut Buffered<S>) -> Result<(), PcapFault>
    ensures ok { OnOk result (Takes IsHeader input.old input.new) }
    ensures err { IfErr result (Explains HeaderIsRefused input.old input.new) }
    ensures monotone { input.old.count ≤ input.new.count }
{
    let mut header = [0; HEADER_LEN];
    if input.take(&mut header)? < HEADER_LEN {
        return Err(PcapFault::Short);
    }
    check_header(&header)
}

// Takes the bytes of a packet.
fn take_packet<S: Source>(
    alloc: Global,
    input: &mut Buffered<S>,
    stored: usize,
) -> Result<Packet, PcapFault>
    ensures stored { IfOk result (λ packet. length packet.bytes.items ≡ stored) }
    ensures taken { IfOk result (λ packet.
        Consumes input.old.ahead input.new.ahead packet.bytes.items) }
    ensures err { IfErr result (Explains (EndsWithin stored) input.old input.new) }
    ensures monotone { input.old.count ≤ input.new.count }
{
    let Ok(mut bytes) = Vec::from_elem(alloc, 0, stored) else {
        return Err(PcapFault::NoMemory);
    };
    if input.take(bytes.as_mut_slice())? < stored {
        return Err(PcapFault::Short);
    }
    Ok(Packet { bytes })
}

// Takes a record, if the bytes don't end in front of it, and gives its packet.
fn take_record<S: Source>(
    alloc: Global,
    input: &mut Buffered<S>,
) -> Result<Option<Packet>, PcapFault>
    ensures packet { IfOk result (λ found. IfSome found (λ packet.
        Takes (λ front. IsRecord front packet.bytes.items) input.old input.new)) }
    ensures end { result ≡ Ok None → Ends input.old input.new }
    ensures err { IfErr result (Explains RecordIsRefused input.old input.new) }
    ensures monotone { input.old.count ≤ input.new.count }
{
    let mut head = [0; HEAD_LEN];
    let count = input.take(&mut head)?;
    if count == 0 {
        return Ok(None);
    }
    if count < HEAD_LEN {
        return Err(PcapFault::Short);
    }
    let stored = u32::from_le_bytes([head[8], head[9], head[10], head[11]]);
    if MAX_STORED < stored {
        return Err(PcapFault::TooLong);
    }
    let packet = take_packet(alloc, input, stored as usize)?;
    Ok(Some(packet))
}

// Takes the header, and then a record.
fn take_first<S: Source>(
    alloc: Global,
    input: &mut Buffered<S>,
) -> Result<Option<Packet>, PcapFault>
    ensures packet { IfOk result (λ found. IfSome found (λ packet.
        Takes (IsNext Stage.Header packet.bytes.items) input.old input.new)) }
    ensures end { result ≡ Ok None → EndsBehindHeader input.old input.new }
    ensures err { IfErr result (Explains (IsRefused Stage.Header) input.old input.new) }
    ensures monotone { input.old.count ≤ input.new.count }
{
    take_header(input)?;
    take_record(alloc, input)
}

// Takes what comes next at a stage.
fn take_next<S: Source>(
    alloc: Global,
    stage: Stage,
    input: &mut Buffered<S>,
) -> Result<Option<Packet>, PcapFault>
    ensures packet { IfOk result (λ found. IfSome found (λ packet.
        Takes (IsNext stage packet.bytes.items) input.old input.new)) }
    ensures end { result ≡ Ok None → EndsAt stage input.old input.new }
    ensures err { IfErr result (Blames stage input.old input.new) }
    ensures monotone { input.old.count ≤ input.new.count }
{
    match stage {
        Stage::Header => take_first(alloc, input),
        Stage::Records => take_record(alloc, input),
        Stage::End => Ok(None),
        Stage::Fault => Err(PcapFault::Failed),
    }
}

// What comes next after a call that gave this.
fn stage_after(outcome: &Result<Option<Packet>, PcapFault>) -> Stage
    ensures { result ≡ stage_after outcome.now }
{
    match outcome {
        Ok(Some(_)) => Stage::Records,
        Ok(None) => Stage::End,
        Err(_) => Stage::Fault,
    }
}
