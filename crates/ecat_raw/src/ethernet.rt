//! A frame on Ethernet (IEEE 802.3, the MAC frame; IEC 61158-4-12, EtherCAT inside an Ethernet frame).

ghost use Rattle.std.specs.Prelude.{◌≡◌, ◌+◌, ◌-◌, ◌≤◌, ◌<◌, IsSome, length, take, drop, slice_index};
ghost use Rattle.std.specs.Option.{option_map};
ghost use Rattle.ec_wire.specs.declared.frame.TheConstants.{MAX_FRAME};
ghost use Rattle.ec_wire.specs.Spelling.{spelling};
ghost use Rattle.ecat_raw.specs.Ethernet.{answer_in, answering, cut, frame_in, header_in, header_of};
ghost use Rattle.ecat_raw.specs.Ethernet.{is_marked, is_tag, marked, packet_of, source_of, type_of};
ghost use Rattle.ecat_raw.specs.Ethernet.{padded, typed, under, untagged};
ghost use Rattle.ecat_raw.specs.Taken.{IsSender, flipped};

use arrayvec::ArrayVec;
use ec_wire::{FrameBuf, MAX_FRAME};
use std::net::{IpAddr, Ipv6Addr, SocketAddr};

/// The source address of what a master sends from its port A.
pub const ADDRESS_A: [u8; 6] = [0x10, 0x52, 0x4D, 0x50, 0x00, 0x0A];

/// The source address of what a master sends from its port B.
pub const ADDRESS_B: [u8; 6] = [0x10, 0x52, 0x4D, 0x50, 0x00, 0x0B];

/// The type of EtherCAT.
pub const ETHERCAT: u16 = 0x88A4;

/// The most bytes of a header: two addresses, two tags and the type.
pub const MOST_HEADER: usize = 22;

/// The most bytes of a packet that goes out.
pub const MOST_PACKET: usize = MOST_HEADER + MAX_FRAME;

/// The least bytes of a packet that goes out, without its check sequence.
const LEAST_PACKET: usize = 60;

/// The destination: every station.
const BROADCAST: [u8; 6] = [0xFF; 6];

/// The type of EtherCAT as it stands in a header.
const ETHERCAT_BYTES: [u8; 2] = [0x88, 0xA4];

/// What a packet is padded with.
const ZEROS: [u8; LEAST_PACKET] = [0; LEAST_PACKET];

/// The protocol of a customer's tag.
const CUSTOMER_TAG: u16 = 0x8100;

/// The protocol of a provider's tag.
const PROVIDER_TAG: u16 = 0x88A8;

/// How many bytes a tag has.
const TAG: usize = 4;

/// How many bytes both addresses have.
const ADDRESSES: usize = 12;

/// Where the source address begins.
const SOURCE: usize = 6;

/// How many bytes a frame's own header has.
const HEADER: usize = 2;

/// The lengths that it can state, 0 and up.
const LENGTHS: u16 = 2048;

/// A header that goes out.
pub(crate) type Header = ArrayVec<u8, MOST_HEADER>;

/// A packet that goes out.
pub type Packet = ArrayVec<u8, MOST_PACKET>;

/// The packet of a frame that goes out from a source address to every station, padded with zeros to 60 bytes.
pub fn packet_of(source: [u8; 6], frame: &[u8]) -> Packet
    requires { length frame.now ≤ MAX_FRAME }
    ensures { result.items ≡ packet_of source frame.now }
{
    under(&header_of(source), frame)
}

/// The header of what goes out from a source address.
pub(crate) fn header_of(source: [u8; 6]) -> Header
    ensures { result.items ≡ header_of source }
{
    let mut header = ArrayVec::new();
    header.try_extend_from_slice(&BROADCAST).unwrap();
    header.try_extend_from_slice(&source).unwrap();
    header.try_extend_from_slice(&ETHERCAT_BYTES).unwrap();
    header
}

/// The packet of a frame under a header, padded with zeros to 60 bytes.
pub(crate) fn under(header: &Header, frame: &[u8]) -> Packet
    requires { length frame.now ≤ MAX_FRAME }
    ensures { result.items ≡ under header.now.items frame.now }
{
    let mut packet = ArrayVec::new();
    packet.try_extend_from_slice(header.as_slice()).unwrap();
    packet.try_extend_from_slice(frame).unwrap();
    pad(&mut packet);
    packet
}

/// Pads a packet with zeros to 60 bytes.
fn pad(packet: &mut Packet)
    ensures { packet.new.items ≡ padded packet.old.items }
{
    let padding = LEAST_PACKET.saturating_sub(packet.len());
    packet.try_extend_from_slice(&ZEROS[..padding]).unwrap();
}

/// The frame in a packet of EtherCAT's type, with at most two tags before the type. Padding is cut where the
/// frame ends by its own header; what ends before that is whole, and is no frame.
pub fn frame_in(packet: &[u8]) -> Option<&[u8]>
    ensures { option_map (λ frame. frame.now) result ≡ frame_in packet.now }
{
    let typed = typed(packet);
    if type_of(typed) != ETHERCAT {
        return None;
    }
    Some(cut(behind(typed, ETHERCAT_BYTES.len())))
}

/// What is put around a frame is taken out again, whatever frame it is, from whatever source address.
pub fn taken_out_again(source: [u8; 6], frame: &FrameBuf)
    ensures { frame_in (packet_of source (spelling frame.now)) ≡ Some (spelling frame.now) }
{
    // For the prover: what is known of every frame.
    let _count = frame.count();
}

/// The frame in a packet that is an answer: it has passed a controller, which sets bit 1 of the first byte of
/// the source address.
pub fn answer_in(packet: &[u8]) -> Option<&[u8]>
    ensures { option_map (λ frame. frame.now) result ≡ answer_in packet.now }
{
    if is_marked(source_of(packet)) {
        frame_in(packet)
    } else {
        None
    }
}

/// The header of a packet: all of it before the frame.
pub(crate) fn header_in(packet: &[u8]) -> &[u8]
    ensures value { result.now ≡ header_in packet.now }
    ensures room { length result.now ≤ MOST_HEADER }
    ensures least { IsSome (frame_in packet.now) → 14 ≤ length result.now }
{
    let payload = behind(typed(packet), ETHERCAT_BYTES.len());
    &packet[..packet.len() - payload.len()]
}

/// The header of the answer to what came under a header: bit 1 of the first byte of the source address is
/// set, as by a controller.
pub(crate) fn answering(header: &[u8]) -> Header
    requires { (7 ≤ length header.now) × (length header.now ≤ MOST_HEADER) }
    ensures { result.items ≡ answering header.now }
{
    let mut answer = ArrayVec::new();
    answer.try_extend_from_slice(&header[..SOURCE]).unwrap();
    answer.push(marked(header[SOURCE]));
    answer.try_extend_from_slice(&header[SOURCE + 1..]).unwrap();
    answer
}

/// A packet from its type on, behind the addresses and at most two tags.
fn typed(packet: &[u8]) -> &[u8]
    ensures { result.now ≡ typed packet.now }
{
    untagged(untagged(behind(packet, ADDRESSES)))
}

/// What follows the addresses, without the tag that stands there, if one does.
fn untagged(rest: &[u8]) -> &[u8]
    ensures { result.now ≡ untagged rest.now }
{
    if is_tag(rest) {
        behind(rest, TAG)
    } else {
        rest
    }
}

/// Does a tag stand there?
fn is_tag(rest: &[u8]) -> bool
    ensures { result ≡ is_tag rest.now }
{
    let protocol = type_of(rest);
    protocol == CUSTOMER_TAG || protocol == PROVIDER_TAG
}

/// The type that stands there, or a tag's protocol; 0 where neither has room.
fn type_of(rest: &[u8]) -> u16
    ensures { result ≡ type_of rest.now }
{
    if rest.len() < ETHERCAT_BYTES.len() {
        return 0;
    }
    u16::from_be_bytes([rest[0], rest[1]])
}

/// The frame in a payload, without padding.
fn cut(payload: &[u8]) -> &[u8]
    ensures { result.now ≡ cut payload.now }
{
    if payload.len() < HEADER {
        return payload;
    }
    let stated = u16::from_le_bytes([payload[0], payload[1]]) % LENGTHS;
    &payload[..payload.len().min(HEADER + usize::from(stated))]
}

/// What stands behind so many bytes, if anything does.
fn behind(bytes: &[u8], count: usize) -> &[u8]
    ensures { result.now ≡ drop count bytes.now }
{
    &bytes[bytes.len().min(count)..]
}

/// The first byte of a packet's source address, 0 where it has none.
fn source_of(packet: &[u8]) -> u8
    ensures { result ≡ source_of packet.now }
{
    byte(packet, SOURCE)
}

/// The byte at a place, 0 behind the last one.
fn byte(bytes: &[u8], at: usize) -> u8
    ensures { result ≡ slice_index bytes.now at }
{
    match bytes.get(at) {
        Some(byte) => *byte,
        None => 0,
    }
}

/// Has a controller passed what has this first byte of its source address?
fn is_marked(byte: u8) -> bool
    ensures { result ≡ is_marked byte }
{
    byte / 2 % 2 == 1
}

/// The first byte of the source address of what a controller has passed.
fn marked(byte: u8) -> u8
    ensures { result ≡ marked byte }
{
    if is_marked(byte) { byte } else { byte + 2 }
}

/// Who sent a packet: its source address as the link-local IPv6 address that an interface with this address
/// forms (RFC 4291, appendix A), and the type of EtherCAT as the port.
pub(crate) fn sender_of(packet: &[u8]) -> SocketAddr
    ensures { IsSender packet.now result }
{
    let mut local = [0xFE, 0x80, 0, 0, 0, 0, 0, 0, 0, 0, 0, 0xFF, 0xFE, 0, 0, 0];
    local[8] = flipped(byte(packet, 6));
    local[9] = byte(packet, 7);
    local[10] = byte(packet, 8);
    local[13] = byte(packet, 9);
    local[14] = byte(packet, 10);
    local[15] = byte(packet, 11);
    SocketAddr::new(IpAddr::V6(Ipv6Addr::from_octets(local)), ETHERCAT)
}

/// A byte with its bit 1 inverted.
fn flipped(byte: u8) -> u8
    ensures { result ≡ flipped byte }
{
    if is_marked(byte) { byte - 2 } else { byte + 2 }
}
