//! What of a packet is EtherCAT.
ghost use Rattle.std.specs.Prelude.{◌≡◌, ◌+◌, ◌≤◌, ◌<◌, ◌^◌, length};
ghost use Rattle.ecat_capture.specs.Ethernet.{LiesWithin, frame_type, ipv4_payload, ipv6_fragment};
ghost use Rattle.ecat_capture.specs.Ethernet.{ipv6_payload, is_ours, is_tag, payload_behind, payload_of};
ghost use Rattle.ecat_capture.specs.Ethernet.{type_at, udp_fragment, udp_payload};
ghost use Rattle.ecat_capture.specs.Links.{behind_type};

use crate::link::Link;
use crate::order::Order;

/// The type of EtherCAT in an Ethernet frame, and its port in UDP.
const ETHERCAT: u16 = 0x88a4;

/// The type of IPv4 in an Ethernet frame.
const IPV4: u16 = 0x0800;

/// The type of IPv6 in an Ethernet frame.
const IPV6: u16 = 0x86dd;

/// The type of a customer's VLAN tag (IEEE 802.1Q).
const TAG: u16 = 0x8100;

/// The type of a service's VLAN tag (IEEE 802.1Q).
const SERVICE_TAG: u16 = 0x88a8;

/// The number of UDP as what IPv4 and IPv6 carry.
const UDP: u8 = 17;

/// The number of a fragment header as what IPv6 carries.
const FRAGMENT: u8 = 44;

/// What of a packet is EtherCAT.
#[derive(Clone, Copy, Debug, PartialEq, Eq)]
pub enum Payload {
    /// The bytes behind type 0x88A4, which may have padding at their end.
    Ethernet {
        /// The place of the first byte in the packet.
        from: usize,
        /// The place behind the last byte.
        to: usize,
    },
    /// The payload of a UDP packet to or from port 34980, as far as it was captured.
    Udp {
        /// The place of the first byte in the packet.
        from: usize,
        /// The place behind the last byte.
        to: usize,
    },
    /// The payload of a UDP packet at other ports, as far as it was captured: whether it is a frame, its
    /// bytes tell alone.
    OtherUdp {
        /// The place of the first byte in the packet.
        from: usize,
        /// The place behind the last byte.
        to: usize,
    },
    /// A piece of a UDP packet that is to or from port 34980, or whose ports are not in this piece.
    Fragment,
    /// The packet was cut short where its type, its addresses or its ports are to stand.
    Short,
    /// The length in an IPv4 or UDP header is too small for the header.
    BadLength,
    /// Nothing.
    Other,
}

/// What of a packet with this header is EtherCAT: the bytes behind type 0x88A4, also behind one or two VLAN
/// tags, or the payload of a whole UDP packet over IPv4, or over IPv6 with no extension header but one of
/// fragments: it is one to or from port 34980, and may be one at other ports.
pub fn payload_of(link: Link, bytes: &[u8]) -> Payload
    ensures value { result ≡ payload_of link bytes.now }
    ensures within { LiesWithin (length bytes.now) result }
{
    let at = type_at(link, bytes);
    payload_behind(at, behind_type(link, at), bytes)
}

/// The type that an EtherCAT header tells: 1 for datagrams, 4 for network variables, 5 for the mailbox
/// gateway; `None` of fewer than two bytes.
pub fn frame_type(payload: &[u8]) -> Option<u8>
    ensures { result ≡ frame_type payload.now }
{
    if payload.len() < 2 {
        None
    } else {
        Some(payload[1] / 16)
    }
}

/// Does a VLAN tag stand at this place?
#[tactic(auto, unfolding(crate::specs::Ethernet::is_tag))]
fn is_tag(at: usize, bytes: &[u8]) -> bool
    requires { at ≤ 22 }
    ensures { result ≡ is_tag at bytes.now }
{
    if bytes.len() < at + 2 {
        return false;
    }
    let tag = Order::Big.half(bytes, at);
    tag == TAG || tag == SERVICE_TAG
}

/// The place of the type of what the packet carries.
#[tactic(auto, unfolding(crate::specs::Ethernet::type_at))]
fn type_at(link: Link, bytes: &[u8]) -> usize
    ensures value { result ≡ type_at link bytes.now }
    ensures near { result ≤ 26 }
{
    let at = link.type_place();
    if !is_tag(at, bytes) {
        return at;
    }
    let next = link.payload_place() + 2;
    if is_tag(next, bytes) { next + 4 } else { next }
}

/// The place behind the type at this place, where what the packet carries begins.
fn behind_type(link: Link, at: usize) -> usize
    requires { at ≤ 26 }
    ensures value { result ≡ behind_type link at }
    ensures behind { at + 2 ≤ result }
    ensures near { result ≤ 28 }
{
    if at == link.type_place() {
        link.payload_place()
    } else {
        at + 2
    }
}

/// What is EtherCAT, by the type at this place, and where what it carries begins.
#[tactic(auto, unfolding(crate::specs::Ethernet::payload_behind))]
fn payload_behind(at: usize, from: usize, bytes: &[u8]) -> Payload
    requires behind { at + 2 ≤ from }
    requires near { from ≤ 28 }
    ensures value { result ≡ payload_behind at from bytes.now }
    ensures within { LiesWithin (length bytes.now) result }
{
    if bytes.len() < from {
        return Payload::Short;
    }
    match Order::Big.half(bytes, at) {
        ETHERCAT => Payload::Ethernet {
            from,
            to: bytes.len(),
        },
        IPV4 => ipv4_payload(from, bytes),
        IPV6 => ipv6_payload(from, bytes),
        _ => Payload::Other,
    }
}

/// What of an IPv4 packet is EtherCAT.
#[tactic(auto, unfolding(crate::specs::Ethernet::ipv4_payload))]
fn ipv4_payload(at: usize, bytes: &[u8]) -> Payload
    requires { at ≤ 28 }
    ensures value { result ≡ ipv4_payload at bytes.now }
    ensures within { LiesWithin (length bytes.now) result }
{
    if bytes.len() < at + 20 {
        return Payload::Short;
    }
    if bytes[at] / 16 != 4 {
        return Payload::Other;
    }
    let words = bytes[at] % 16;
    if words < 5 {
        return Payload::BadLength;
    }
    if bytes[at + 9] != UDP {
        return Payload::Other;
    }
    let behind = at + words as usize * 4;
    let pieces = Order::Big.half(bytes, at + 6);
    if pieces % 0x4000 == 0 {
        udp_payload(behind, bytes)
    } else {
        udp_fragment(pieces % 0x2000 == 0, behind, bytes)
    }
}

/// What of an IPv6 packet is EtherCAT.
#[tactic(auto, unfolding(crate::specs::Ethernet::ipv6_payload))]
fn ipv6_payload(at: usize, bytes: &[u8]) -> Payload
    requires { at ≤ 28 }
    ensures value { result ≡ ipv6_payload at bytes.now }
    ensures within { LiesWithin (length bytes.now) result }
{
    if bytes.len() < at + 40 {
        return Payload::Short;
    }
    if bytes[at] / 16 != 6 {
        return Payload::Other;
    }
    match bytes[at + 6] {
        UDP => udp_payload(at + 40, bytes),
        FRAGMENT => ipv6_fragment(at + 40, bytes),
        _ => Payload::Other,
    }
}

/// What is EtherCAT behind the fragment header of an IPv6 packet.
#[tactic(auto, unfolding(crate::specs::Ethernet::ipv6_fragment))]
fn ipv6_fragment(at: usize, bytes: &[u8]) -> Payload
    requires { at ≤ 68 }
    ensures value { result ≡ ipv6_fragment at bytes.now }
    ensures within { LiesWithin (length bytes.now) result }
{
    if bytes.len() < at + 8 {
        return Payload::Short;
    }
    if bytes[at] != UDP {
        return Payload::Other;
    }
    let pieces = Order::Big.half(bytes, at + 2);
    if pieces / 8 == 0 && pieces % 2 == 0 {
        udp_payload(at + 8, bytes)
    } else {
        udp_fragment(pieces / 8 == 0, at + 8, bytes)
    }
}

/// Is a UDP header to or from EtherCAT's port?
#[tactic(auto, unfolding(crate::specs::Ethernet::is_ours))]
fn is_ours(at: usize, bytes: &[u8]) -> bool
    requires near { at ≤ 1000 }
    requires whole { at + 4 ≤ length bytes.now }
    ensures { result ≡ is_ours at bytes.now }
{
    Order::Big.half(bytes, at) == ETHERCAT || Order::Big.half(bytes, at + 2) == ETHERCAT
}

/// What of a whole UDP packet is EtherCAT.
#[tactic(auto, unfolding(crate::specs::Ethernet::udp_payload))]
fn udp_payload(at: usize, bytes: &[u8]) -> Payload
    requires { at ≤ 1000 }
    ensures value { result ≡ udp_payload at bytes.now }
    ensures within { LiesWithin (length bytes.now) result }
{
    if bytes.len() < at + 8 {
        return Payload::Short;
    }
    let size = usize::from(Order::Big.half(bytes, at + 4));
    let is_ours = is_ours(at, bytes);
    if size < 8 {
        return if is_ours {
            Payload::BadLength
        } else {
            Payload::Other
        };
    }
    let from = at + 8;
    let to = (at + size).min(bytes.len());
    if is_ours {
        Payload::Udp { from, to }
    } else {
        Payload::OtherUdp { from, to }
    }
}

/// What of a piece of a UDP packet is EtherCAT.
#[tactic(auto, unfolding(crate::specs::Ethernet::udp_fragment))]
fn udp_fragment(is_first: bool, at: usize, bytes: &[u8]) -> Payload
    requires { at ≤ 1000 }
    ensures value { result ≡ udp_fragment is_first at bytes.now }
    ensures within { LiesWithin (length bytes.now) result }
{
    if !is_first {
        return Payload::Fragment;
    }
    if bytes.len() < at + 4 {
        return Payload::Short;
    }
    if is_ours(at, bytes) {
        Payload::Fragment
    } else {
        Payload::Other
    }
}
