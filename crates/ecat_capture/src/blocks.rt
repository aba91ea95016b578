//! The blocks of a pcapng file (the PCAP Next Generation file format, general block structure and block
//! types).
ghost use Rattle.std.specs.Prelude.{◌≡◌, ◌+◌, ◌*◌, ◌<◌, ◌≤◌, ◌^◌, IfErr, IfOk, IfSome, None, OnOk, Some};
ghost use Rattle.std.specs.Prelude.{length, slice_get};
ghost use Rattle.ecat_capture.specs.Numbers.{word};
ghost use Rattle.ecat_capture.specs.Pieces.{padded};
ghost use Rattle.ecat_capture.specs.Blocks.{BodyFits, OptionFits, block_order, body_of, enhanced_fields};
ghost use Rattle.ecat_capture.specs.Blocks.{fields_of};
ghost use Rattle.ecat_capture.specs.Blocks.{first_snap_length, interface_body, interface_of, least_length};
ghost use Rattle.ecat_capture.specs.Blocks.{length_fault, magic_order, next_option, obsolete_fields};
ghost use Rattle.ecat_capture.specs.Blocks.{packet_body, packet_fault, packet_from, resolution_of};
ghost use Rattle.ecat_capture.specs.Progress.{IsRefusal};
ghost use Rattle.ecat_capture.specs.Blocks.{section_body, simple_fields, timed};

use crate::fault::CaptureFaultKind;
use crate::link::Link;
use crate::order::Order;
use crate::packet::{Found, Time, per_second_of};

/// The type of a section header, the same number in both orders.
pub(crate) const SECTION_HEADER: u32 = 0x0a0d_0d0a;

/// The type of an interface description.
const INTERFACE_DESCRIPTION: u32 = 1;

/// The type of the obsolete packet block.
const PACKET: u32 = 2;

/// The type of a simple packet block.
const SIMPLE_PACKET: u32 = 3;

/// The type of an enhanced packet block.
const ENHANCED_PACKET: u32 = 6;

/// How many bytes of a block say its type, its length, and a section header's order.
pub(crate) const FRONT_LEN: usize = 12;

/// The greatest length of a block.
const MAX_BLOCK: u32 = 1 << 20;

/// The greatest number of bytes that a packet may store.
pub(crate) const MAX_PACKET: u32 = 1 << 18;

/// How many interfaces a section may describe.
const MAX_INTERFACES: usize = 64;

/// The major version of the format.
const VERSION: u16 = 1;

/// An interface, as a block describes it.
#[derive(Clone, Copy)]
pub(crate) struct Interface {
    /// What its packets begin with, by the number of the link type: 1 for Ethernet.
    pub link_type: u16,
    /// How many bytes of a packet it captures at most, or 0 for any number.
    pub snap_length: u32,
    /// The resolution of its times, as the option `if_tsresol` tells it.
    pub resolution: u8,
}

/// What the fields of a packet's block say.
#[derive(Clone, Copy)]
pub(crate) struct Fields {
    /// The number of the interface in its section, from 0.
    pub interface: u32,
    /// When it was captured, in ticks of the interface's clock.
    pub ticks: Option<u64>,
    /// How many of its bytes are stored.
    pub captured: u32,
    /// How long it was on the wire.
    pub original: u32,
    /// The place of its first byte in the block.
    pub from: usize,
}

/// What a block says.
#[derive(Clone, Copy)]
pub(crate) enum Body {
    /// A section begins, whose numbers have this order.
    Section(Order),
    /// An interface.
    Interface(Interface),
    /// A packet.
    Packet(Found),
    /// Nothing of packets.
    Other,
}

/// What comes next among the options of a block.
#[derive(Clone, Copy)]
pub(crate) enum NextOption {
    /// Nothing more, or an option that does not end.
    End,
    /// The time resolution.
    Resolution(u8),
    /// Another option, of so many bytes with its padding.
    Other(usize),
}

/// The order that a section header's byte-order magic tells, read lowest byte first.
#[tactic(auto, unfolding(crate::specs::Blocks::magic_order))]
fn magic_order(magic: u32) -> Option<Order>
    ensures { result ≡ magic_order magic }
{
    match magic {
        0x1a2b_3c4d => Some(Order::Little),
        0x4d3c_2b1a => Some(Order::Big),
        _ => None,
    }
}

/// The order of a block's numbers, by its first bytes and its section's order.
#[tactic(auto, unfolding(crate::specs::Blocks::block_order))]
pub(crate) fn block_order(section: Order, front: &[u8]) -> Option<Order>
    requires { FRONT_LEN ≤ length front.now }
    ensures { result ≡ block_order section front.now }
{
    if Order::Little.word(front, 0) == SECTION_HEADER {
        magic_order(Order::Little.word(front, 8))
    } else {
        Some(section)
    }
}

/// Says whether a block may have this length.
#[tactic(auto, unfolding(crate::specs::Blocks::length_fault))]
pub(crate) fn check_length(size: u32) -> Result<(), CaptureFaultKind>
    ensures ok { OnOk result (length_fault size ≡ None) }
    ensures err { IfErr result (λ kind. length_fault size ≡ Some kind) }
    ensures refusal { IfErr result IsRefusal }
    ensures some { OnOk result (FRONT_LEN ≤ size) }
{
    if size < FRONT_LEN as u32 {
        return Err(CaptureFaultKind::BlockLength);
    }
    if size % 4 != 0 {
        return Err(CaptureFaultKind::BlockLength);
    }
    if MAX_BLOCK < size {
        return Err(CaptureFaultKind::TooLong);
    }
    Ok(())
}

/// The least length of a block of this type.
#[tactic(auto, unfolding(crate::specs::Blocks::least_length))]
fn least_length(block_type: u32) -> usize
    ensures value { result ≡ least_length block_type }
    ensures least { 12 ≤ result }
{
    match block_type {
        SECTION_HEADER => 28,
        INTERFACE_DESCRIPTION => 20,
        PACKET => 32,
        SIMPLE_PACKET => 16,
        ENHANCED_PACKET => 32,
        _ => 12,
    }
}

/// A length with the bytes that fill it up to a multiple of four.
fn padded(count: usize) -> usize
    requires { count < 2 ^ 63 }
    ensures { result ≡ padded count }
{
    (count + 3) / 4 * 4
}

/// What comes next among options.
#[tactic(auto, unfolding(crate::specs::Blocks::next_option))]
fn next_option(order: Order, rest: &[u8]) -> NextOption
    ensures value { result ≡ next_option order rest.now }
    ensures fits { OptionFits result (length rest.now) }
{
    if rest.len() < 4 {
        return NextOption::End;
    }
    let code = order.half(rest, 0);
    if code == 0 {
        return NextOption::End;
    }
    let length = usize::from(order.half(rest, 2));
    let size = 4 + padded(length);
    if rest.len() < size {
        return NextOption::End;
    }
    if code == 9 && 0 < length {
        return NextOption::Resolution(rest[4]);
    }
    NextOption::Other(size)
}

/// The time resolution that options tell: microseconds where none does.
fn resolution_of(order: Order, options: &[u8]) -> u8
    ensures { result ≡ resolution_of order options.now }
{
    let mut rest = options;
    for _ in 0..options.len() {
        match next_option(order, rest) {
            NextOption::End => return 6,
            NextOption::Resolution(value) => return value,
            NextOption::Other(size) => rest = &rest[size..],
        }
    }
    6
}

/// The interface that a block describes.
#[tactic(auto, unfolding(crate::specs::Blocks::interface_of))]
fn interface_of(order: Order, block: &[u8]) -> Interface
    requires { 20 ≤ length block.now }
    ensures { result ≡ interface_of order block.now }
{
    Interface {
        link_type: order.half(block, 8),
        snap_length: order.word(block, 12),
        resolution: resolution_of(order, &block[16..block.len() - 4]),
    }
}

/// The fields of an enhanced packet block.
fn enhanced_fields(order: Order, block: &[u8]) -> Fields
    requires { 32 ≤ length block.now }
    ensures { result ≡ enhanced_fields order block.now }
{
    Fields {
        interface: order.word(block, 8),
        ticks: Some(ticks(order, block)),
        captured: order.word(block, 20),
        original: order.word(block, 24),
        from: 28,
    }
}

/// The fields of the obsolete packet block.
fn obsolete_fields(order: Order, block: &[u8]) -> Fields
    requires { 32 ≤ length block.now }
    ensures { result ≡ obsolete_fields order block.now }
{
    Fields {
        interface: u32::from(order.half(block, 8)),
        ticks: Some(ticks(order, block)),
        captured: order.word(block, 20),
        original: order.word(block, 24),
        from: 28,
    }
}

/// The fields of a simple packet block, whose interface captures at most so many bytes.
fn simple_fields(order: Order, limit: u32, block: &[u8]) -> Fields
    requires { 16 ≤ length block.now }
    ensures { result ≡ simple_fields order limit block.now }
{
    let original = order.word(block, 8);
    Fields {
        interface: 0,
        ticks: None,
        captured: if limit == 0 {
            original
        } else {
            original.min(limit)
        },
        original,
        from: 12,
    }
}

/// The time of a packet in ticks of its interface's clock: the upper half stands first.
fn ticks(order: Order, block: &[u8]) -> u64
    requires { 32 ≤ length block.now }
    ensures { result ≡ word order 12 block.now * 4294967296 + word order 16 block.now }
{
    (u64::from(order.word(block, 12)) << 32) + u64::from(order.word(block, 16))
}

/// How many bytes of a packet the first interface captures at most.
fn first_snap_length(interfaces: &[Interface]) -> u32
    ensures { result ≡ first_snap_length interfaces.now }
{
    match interfaces {
        [first, ..] => first.snap_length,
        [] => 0,
    }
}

/// The fields of the packet that a block stores, by its type.
#[tactic(auto, unfolding(crate::specs::Blocks::fields_of, crate::specs::Blocks::least_length))]
fn fields_of(order: Order, interfaces: &[Interface], block: &[u8]) -> Option<Fields>
    requires some { 12 ≤ length block.now }
    requires least { least_length (word order 0 block.now) ≤ length block.now }
    ensures value { result ≡ fields_of order interfaces.now block.now }
    ensures near { IfSome result (λ fields. fields.from ≤ 28) }
{
    let fields = match order.word(block, 0) {
        PACKET => obsolete_fields(order, block),
        SIMPLE_PACKET => simple_fields(order, first_snap_length(interfaces), block),
        ENHANCED_PACKET => enhanced_fields(order, block),
        _ => return None,
    };
    Some(fields)
}

/// The interface of a section by its number.
fn interface_at(interfaces: &[Interface], number: u32) -> Option<Interface>
    ensures { result ≡ slice_get interfaces.now number }
{
    interfaces.get(number as usize).copied()
}

/// Says whether a packet may have these fields in a block of this length.
#[tactic(auto, unfolding(crate::specs::Blocks::packet_fault))]
fn check_packet(size: usize, fields: Fields) -> Result<(), CaptureFaultKind>
    requires { fields.from ≤ 28 }
    ensures ok { OnOk result (packet_fault size fields ≡ None) }
    ensures err { IfErr result (λ kind. packet_fault size fields ≡ Some kind) }
    ensures refusal { IfErr result IsRefusal }
    ensures fits { OnOk result (fields.from + fields.captured + 4 ≤ size) }
    ensures few { OnOk result (fields.captured ≤ MAX_PACKET) }
{
    if MAX_PACKET < fields.captured {
        return Err(CaptureFaultKind::TooLong);
    }
    if size < fields.from + padded(fields.captured as usize) + 4 {
        return Err(CaptureFaultKind::Overrun);
    }
    Ok(())
}

/// The time of so many ticks, of which a second has so many, or 0 where they are too fine.
fn timed(ticks: Option<u64>, per_second: u64) -> Result<Option<Time>, CaptureFaultKind>
    requires { per_second ≤ 2 ^ 34 }
    ensures value { result ≡ timed ticks per_second }
    ensures refusal { IfErr result IsRefusal }
{
    let Some(ticks) = ticks else {
        return Ok(None);
    };
    if per_second == 0 {
        return Err(CaptureFaultKind::TimeResolution);
    }
    Ok(Some(Time::of(per_second, ticks)))
}

/// The packet with these fields in a block of this length.
fn packet_from(
    interface: Option<Interface>,
    size: usize,
    fields: Fields,
) -> Result<Found, CaptureFaultKind>
    requires { fields.from ≤ 28 }
    ensures value { result ≡ packet_from interface size fields }
    ensures fits { IfOk result (λ found. found.from + found.captured + 4 ≤ size) }
    ensures refusal { IfErr result IsRefusal }
{
    let Some(interface) = interface else {
        return Err(CaptureFaultKind::Interface);
    };
    let Some(link) = Link::of(u32::from(interface.link_type)) else {
        return Err(CaptureFaultKind::LinkType);
    };
    check_packet(size, fields)?;
    let time = timed(fields.ticks, per_second_of(interface.resolution))?;
    Ok(Found {
        time,
        captured: fields.captured,
        original: fields.original,
        from: fields.from,
        interface: fields.interface,
        link,
    })
}

/// The packet of a block with these fields, or nothing of packets.
fn packet_body(
    interfaces: &[Interface],
    size: usize,
    fields: Option<Fields>,
) -> Result<Body, CaptureFaultKind>
    requires { IfSome fields (λ fields. fields.from ≤ 28) }
    ensures value { result ≡ packet_body interfaces.now size fields }
    ensures fits { IfOk result (λ body. BodyFits body size) }
    ensures refusal { IfErr result IsRefusal }
{
    let Some(fields) = fields else {
        return Ok(Body::Other);
    };
    let found = packet_from(interface_at(interfaces, fields.interface), size, fields)?;
    Ok(Body::Packet(found))
}

/// What a section header says.
fn section_body(order: Order, block: &[u8]) -> Result<Body, CaptureFaultKind>
    requires { 28 ≤ length block.now }
    ensures value { result ≡ section_body order block.now }
    ensures fits { IfOk result (λ body. BodyFits body (length block.now)) }
    ensures refusal { IfErr result IsRefusal }
{
    if order.half(block, 12) == VERSION {
        Ok(Body::Section(order))
    } else {
        Err(CaptureFaultKind::Version)
    }
}

/// What an interface description says, behind others of its section.
fn interface_body(
    order: Order,
    interfaces: &[Interface],
    block: &[u8],
) -> Result<Body, CaptureFaultKind>
    requires { 20 ≤ length block.now }
    ensures value { result ≡ interface_body order interfaces.now block.now }
    ensures fits { IfOk result (λ body. BodyFits body (length block.now)) }
    ensures refusal { IfErr result IsRefusal }
{
    if interfaces.len() < MAX_INTERFACES {
        Ok(Body::Interface(interface_of(order, block)))
    } else {
        Err(CaptureFaultKind::TooManyInterfaces)
    }
}

/// What a whole block says, or what is wrong with it.
#[tactic(auto, unfolding(crate::specs::Blocks::body_of, crate::specs::Blocks::least_length))]
pub(crate) fn body_of(
    order: Order,
    interfaces: &[Interface],
    block: &[u8],
) -> Result<Body, CaptureFaultKind>
    requires { FRONT_LEN ≤ length block.now }
    ensures value { result ≡ body_of order interfaces.now block.now }
    ensures fits { IfOk result (λ body. BodyFits body (length block.now)) }
    ensures refusal { IfErr result IsRefusal }
{
    if order.word(block, block.len() - 4) as usize != block.len() {
        return Err(CaptureFaultKind::BlockLength);
    }
    let block_type = order.word(block, 0);
    if block.len() < least_length(block_type) {
        return Err(CaptureFaultKind::BlockLength);
    }
    if block_type == SECTION_HEADER {
        return section_body(order, block);
    }
    if block_type == INTERFACE_DESCRIPTION {
        return interface_body(order, interfaces, block);
    }
    packet_body(interfaces, block.len(), fields_of(order, interfaces, block))
}
