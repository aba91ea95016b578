//! The packets of a line as a capture has them, made by chance.

use crate::chance::Chance;
use arrayvec::ArrayVec;
use ec_wire::{Command, Datagram, FrameBuf, MAX_DATA};
use std::alloc::{AllocError, Global};

/// Where a frame begins behind the addresses and the ethertype.
const ETHERNET: usize = 14;

/// What stands between them, of a frame in a UDP packet: an IPv4 head and one of UDP.
const UDP: usize = 28;

/// A packet of which copies are captured, with other data in each.
#[derive(Drop)]
pub(crate) struct Model {
    /// The packet.
    pub bytes: Vec<u8>,
    /// Where its frame begins.
    pub frame: usize,
    /// How many bytes it has where it is captured whole.
    pub length: usize,
}

/// A datagram of so many data bytes.
fn datagram(chance: &mut Chance, command: Command, address: u32, count: usize) -> Datagram {
    let mut payload: ArrayVec<u8, MAX_DATA> = ArrayVec::new();
    for _ in 0..count.min(MAX_DATA) {
        let _ = payload.try_push((chance.draw() % 256) as u8);
    }
    Datagram {
        command,
        index: 0,
        address,
        circulating: false,
        irq: 0,
        payload,
        counter: (chance.draw() % 200) as u16,
    }
}

/// The frame of a cycle: an exchange, perhaps with the clock's time before it, and the AL status of all.
fn cycle_frame(chance: &mut Chance) -> FrameBuf {
    let first = 0x0001_0000 + 0x1000 * chance.below(16);
    let count = 8 + chance.below(200) as usize;
    let mut frame = FrameBuf::of(&datagram(chance, Command::Lrw, first, count));
    if chance.below(2) == 0 {
        let _ = frame.push(&datagram(chance, Command::Frmw, 0x0910_1001, 8));
    }
    let _ = frame.push(&datagram(chance, Command::Brd, 0x0130_0000, 2));
    frame
}

/// A frame to one slave: its AL status, a mailbox or a few registers.
fn station_frame(chance: &mut Chance) -> FrameBuf {
    let station = 0x1001 + chance.below(64);
    match chance.below(4) {
        0 => FrameBuf::of(&datagram(chance, Command::Fprd, 0x0130_0000 + station, 8)),
        1 => FrameBuf::of(&datagram(chance, Command::Fpwr, 0x1800_0000 + station, 128)),
        2 => FrameBuf::of(&datagram(chance, Command::Fprd, 0x1880_0000 + station, 128)),
        _ => FrameBuf::of(&datagram(chance, Command::Aprd, 0x0110_0000 + station, 16)),
    }
}

/// The head of a packet with an ethertype.
fn head(alloc: Global, chance: &mut Chance, kind: [u8; 2]) -> Result<Vec<u8>, AllocError> {
    let mut bytes = Vec::new(alloc);
    bytes.extend_from_slice(&[1, 1, 5, 4, 0, 0])?;
    let source = if chance.below(2) == 0 { 0x00 } else { 0x02 };
    bytes.extend_from_slice(&[source, 1, 5, 0x10, 0, 1])?;
    bytes.extend_from_slice(&kind)?;
    Ok(bytes)
}

/// What a packet has behind its addresses.
#[derive(Clone, Copy, PartialEq, Eq)]
enum Carrier {
    /// The frame.
    Ethernet,
    /// A UDP packet with the frame.
    Udp,
    /// Something else.
    Other,
}

/// A packet of a frame.
fn packet(
    alloc: Global,
    chance: &mut Chance,
    frame: &FrameBuf,
    carrier: Carrier,
) -> Result<Model, AllocError> {
    let kind = match carrier {
        Carrier::Ethernet => [0x88, 0xa4],
        Carrier::Udp => [8, 0],
        Carrier::Other => [8, 6],
    };
    let mut bytes = head(alloc, chance, kind)?;
    let mut from = ETHERNET;
    if carrier == Carrier::Udp {
        put_udp_head(&mut bytes, frame.bytes().len())?;
        from += UDP;
    }
    bytes.extend_from_slice(frame.bytes())?;
    for _ in bytes.len()..60 {
        bytes.push(0)?;
    }
    let length = bytes.len();
    Ok(Model {
        bytes,
        frame: from,
        length,
    })
}

/// Puts the heads of IPv4 and UDP before a frame of so many bytes.
fn put_udp_head(bytes: &mut Vec<u8>, length: usize) -> Result<(), AllocError> {
    let size = length.min(2000) as u16 + 8;
    let [low, high] = (size + 20).to_le_bytes();
    bytes.extend_from_slice(&[0x45, 0, high, low, 0, 7, 0, 0, 64, 17, 0, 0])?;
    bytes.extend_from_slice(&[192, 168, 0, 1, 192, 168, 0, 2])?;
    let [low, high] = size.to_le_bytes();
    bytes.extend_from_slice(&[0x88, 0xa4, 0x88, 0xa4, high, low, 0, 0])
}

/// A packet of one of the kinds: mostly of cycles, some to one slave, in UDP, cut short, or of others.
fn made(alloc: Global, chance: &mut Chance) -> Result<Model, AllocError> {
    let kind = chance.below(16);
    let frame = if kind < 10 {
        cycle_frame(chance)
    } else {
        station_frame(chance)
    };
    let carrier = match kind {
        13 => Carrier::Udp,
        15 => Carrier::Other,
        _ => Carrier::Ethernet,
    };
    let mut whole = packet(alloc, chance, &frame, carrier)?;
    if kind == 14 {
        whole.bytes.truncate(40);
    }
    Ok(whole)
}

/// So many packets to copy.
pub(crate) fn models(
    alloc: Global,
    chance: &mut Chance,
    count: u32,
) -> Result<Vec<Model>, AllocError> {
    let mut all = Vec::new(alloc);
    for _ in 0..count {
        all.push(made(alloc, chance)?)?;
    }
    Ok(all)
}
