//! The pieces of a capture, taken from the front of what is ahead.
ghost use Rattle.std.specs.Prelude.{◌≡◌, ◌+◌, ◌≤◌, [], IfErr, IfOk, None, Ok, Some, length};
ghost use Rattle.std.specs.Prelude.{take};
ghost use Rattle.ecat_capture.specs.Numbers.{word};
ghost use Rattle.ecat_capture.specs.Classic.{IsCutRecord, format_of};
ghost use Rattle.ecat_capture.specs.Blocks.{BodyFits, IsCutBlock, block_order, length_fault, section_header};
ghost use Rattle.ecat_capture.specs.Progress.{BlamesAt, BlockIsRefused, Explains, IsBody, IsCutStart};
ghost use Rattle.ecat_capture.specs.Progress.{IsSameStart, RecordIsRefused, StartIsRefused, Takes};
ghost use Rattle.ecat_capture.specs.Progress.{TakesPiece, stored_range};
ghost use Rattle.ecat_capture.specs.declared.capture.Piece.TheVariants.{Block};
ghost use Rattle.ecat_capture.specs.declared.capture.Stage.TheVariants.{Start, Records, Blocks};
ghost use Rattle.ecat_capture.specs.declared.order.Order.TheVariants.{Little};

use crate::blocks::{
    Body, FRONT_LEN, Interface, MAX_PACKET, SECTION_HEADER, block_order, body_of, check_length,
};
use crate::capture::{Piece, Stage};
use crate::classic::{Format, HEAD_LEN, HEADER_LEN, check_header, format_of, record_of};
use crate::fault::CaptureFaultKind;
use crate::order::Order;
use crate::window::{InputFault, Window};
use ecat_source::Source;

/// How many of a packet's stored bytes are given.
const KEPT_PACKET: usize = 65536;

impl From<InputFault> for CaptureFaultKind {
    ghost use Rattle.ecat_capture.specs.Progress.{fault_of};

    ghost from_gives = { λ fault made. made ≡ fault_of fault };

    fn from(fault: InputFault) -> CaptureFaultKind {
        match fault {
            InputFault::Read => CaptureFaultKind::Read,
            InputFault::NoMemory => CaptureFaultKind::NoMemory,
        }
    }
}

/// Takes the piece that comes next at a stage.
pub(crate) fn take_piece<S: Source>(
    stage: Stage,
    interfaces: &[Interface],
    window: &mut Window<S>,
) -> Result<Piece, CaptureFaultKind>
    ensures piece { IfOk result (TakesPiece stage interfaces.now window.old window.new) }
    ensures err { IfErr result (BlamesAt stage interfaces.now window.old window.new) }
    ensures ended { stage ≡ Stage.End → result ≡ Ok Piece.End }
    ensures monotone { window.old.count ≤ window.new.count }
{
    match stage {
        Stage::Start => take_start(window),
        Stage::Records(format) => take_record(format, window),
        Stage::Blocks(order) => take_block(order, interfaces, window),
        Stage::End => Ok(Piece::End),
        Stage::Fault => Err(CaptureFaultKind::Failed),
    }
}

// Takes the header of a classic capture, or the first section header.
fn take_start<S: Source>(window: &mut Window<S>) -> Result<Piece, CaptureFaultKind>
    ensures piece { IfOk result (TakesPiece Start [] window.old window.new) }
    ensures err { IfErr result (Explains IsCutStart StartIsRefused window.old window.new) }
    ensures monotone { window.old.count ≤ window.new.count }
{
    if !window.fill(4)? {
        return Err(CaptureFaultKind::Short);
    }
    let magic = Order::Little.word(window.front(4), 0);
    if magic == SECTION_HEADER {
        return take_section(window);
    }
    match format_of(magic) {
        Some(format) => take_header(format, window),
        None => Err(CaptureFaultKind::NotCapture),
    }
}

// Takes the header of a classic capture, whose first four bytes are loaded.
fn take_header<S: Source>(format: Format, window: &mut Window<S>) -> Result<Piece, CaptureFaultKind>
    requires loaded { 4 ≤ length window.old.loaded }
    requires magic { format_of (word Little 0 (take 4 window.old.loaded)) ≡ Some format }
    ensures piece { IfOk result (TakesPiece Start [] window.old window.new) }
    ensures err { IfErr result (Explains IsCutStart StartIsRefused window.old window.new) }
    ensures monotone { window.old.count ≤ window.new.count }
{
    if !window.fill(HEADER_LEN)? {
        return Err(CaptureFaultKind::Short);
    }
    let header = window.front(HEADER_LEN);
    check_header(format, header)?;
    let linked = format.linked(header);
    window.take(HEADER_LEN, 0, 0);
    Ok(Piece::Header(linked))
}

// Takes a record of a classic capture, if the bytes don't end in front of it.
fn take_record<S: Source>(format: Format, window: &mut Window<S>) -> Result<Piece, CaptureFaultKind>
    ensures piece { IfOk result (TakesPiece (Records format) [] window.old window.new) }
    ensures err { IfErr result (Explains (IsCutRecord format) (RecordIsRefused format)
        window.old window.new) }
    ensures monotone { window.old.count ≤ window.new.count }
{
    if !window.fill(HEAD_LEN)? {
        return if window.len() == 0 {
            Ok(Piece::End)
        } else {
            Err(CaptureFaultKind::Short)
        };
    }
    let captured = format.order.word(window.front(HEAD_LEN), 8);
    if MAX_PACKET < captured {
        return Err(CaptureFaultKind::TooLong);
    }
    take_stored(format, captured as usize, window)
}

// Takes a record whose head is loaded and says that it stores so many bytes.
fn take_stored<S: Source>(
    format: Format,
    captured: usize,
    window: &mut Window<S>,
) -> Result<Piece, CaptureFaultKind>
    requires loaded { 16 ≤ length window.old.loaded }
    requires says { word format.order 8 (take 16 window.old.loaded) ≡ captured }
    requires fits { captured ≤ 262144 }
    ensures piece { IfOk result (TakesPiece (Records format) [] window.old window.new) }
    ensures err { IfErr result (Explains (IsCutRecord format) (RecordIsRefused format)
        window.old window.new) }
    ensures monotone { window.old.count ≤ window.new.count }
{
    let size = HEAD_LEN + captured;
    if !window.fill(size)? {
        return Err(CaptureFaultKind::Short);
    }
    let found = record_of(format, window.front(size));
    window.take(size, HEAD_LEN, HEAD_LEN + captured.min(KEPT_PACKET));
    Ok(Piece::Record(found))
}

// Takes a block, if the bytes don't end in front of it.
fn take_block<S: Source>(
    section: Order,
    interfaces: &[Interface],
    window: &mut Window<S>,
) -> Result<Piece, CaptureFaultKind>
    ensures piece { IfOk result (TakesPiece (Blocks section) interfaces.now window.old window.new) }
    ensures err { IfErr result (Explains (IsCutBlock section) (BlockIsRefused section interfaces.now)
        window.old window.new) }
    ensures monotone { window.old.count ≤ window.new.count }
{
    if !window.fill(FRONT_LEN)? {
        return if window.len() == 0 {
            Ok(Piece::End)
        } else {
            Err(CaptureFaultKind::Short)
        };
    }
    let body = take_loaded(section, interfaces, window)?;
    Ok(Piece::Block(body))
}

// Takes the section header that a capture begins with, whose first four bytes are loaded.
fn take_section<S: Source>(window: &mut Window<S>) -> Result<Piece, CaptureFaultKind>
    requires loaded { 4 ≤ length window.old.loaded }
    requires magic { word Little 0 (take 4 window.old.loaded) ≡ section_header }
    ensures piece { IfOk result (TakesPiece Start [] window.old window.new) }
    ensures err { IfErr result (Explains IsCutStart StartIsRefused window.old window.new) }
    ensures monotone { window.old.count ≤ window.new.count }
{
    if !window.fill(FRONT_LEN)? {
        return Err(CaptureFaultKind::Short);
    }
    let body = take_loaded(Order::Little, &[], window)?;
    Ok(Piece::Block(body))
}

// Takes a block whose first twelve bytes are loaded.
fn take_loaded<S: Source>(
    section: Order,
    interfaces: &[Interface],
    window: &mut Window<S>,
) -> Result<Body, CaptureFaultKind>
    requires { 12 ≤ length window.old.loaded }
    ensures body { IfOk result (λ says. Takes
        (λ front. IsSameStart window.old.loaded front × IsBody section interfaces.now front says)
        (Block says) window.old window.new) }
    ensures err { IfErr result (Explains
        (λ bytes. IsSameStart window.old.loaded bytes × IsCutBlock section bytes)
        (λ kind front. IsSameStart window.old.loaded front
        × BlockIsRefused section interfaces.now kind front)
        window.old window.new) }
    ensures monotone { window.old.count ≤ window.new.count }
{
    let front = window.front(FRONT_LEN);
    let Some(order) = block_order(section, front) else {
        return Err(CaptureFaultKind::ByteOrder);
    };
    let size = order.word(front, 4);
    check_length(size)?;
    take_sized(section, order, interfaces, size as usize, window)
}

// Takes a block whose first twelve bytes are loaded, and say its numbers' order and its length.
fn take_sized<S: Source>(
    section: Order,
    order: Order,
    interfaces: &[Interface],
    size: usize,
    window: &mut Window<S>,
) -> Result<Body, CaptureFaultKind>
    requires loaded { 12 ≤ length window.old.loaded }
    requires order { block_order section (take 12 window.old.loaded) ≡ Some order }
    requires size { word order 4 (take 12 window.old.loaded) ≡ size }
    requires good { length_fault size ≡ None }
    requires some { 12 ≤ size }
    ensures body { IfOk result (λ says. Takes
        (λ front. IsSameStart window.old.loaded front × IsBody section interfaces.now front says)
        (Block says) window.old window.new) }
    ensures err { IfErr result (Explains
        (λ bytes. IsSameStart window.old.loaded bytes × IsCutBlock section bytes)
        (λ kind front. IsSameStart window.old.loaded front
        × BlockIsRefused section interfaces.now kind front)
        window.old window.new) }
    ensures monotone { window.old.count ≤ window.new.count }
{
    if !window.fill(size)? {
        return Err(CaptureFaultKind::Short);
    }
    let body = body_of(order, interfaces, window.front(size))?;
    let range = stored_range(&body, size);
    window.take(size, range.from, range.to);
    Ok(body)
}

/// A run of bytes in a block.
#[derive(Clone, Copy)]
pub(crate) struct ByteRange {
    /// Its first place.
    pub from: usize,
    /// The place behind its last byte.
    pub to: usize,
}

// Where the bytes of a packet lie in a block of this length, if it stores one: the first 65,536 of them.
fn stored_range(body: &Body, size: usize) -> ByteRange
    requires { BodyFits body.now size }
    ensures value { result ≡ stored_range body.now }
    ensures ordered { result.from ≤ result.to }
    ensures within { result.to ≤ size }
{
    match body {
        Body::Packet(found) => ByteRange {
            from: found.from,
            to: found.from + (found.captured as usize).min(KEPT_PACKET),
        },
        Body::Section(_) | Body::Interface(_) | Body::Other => ByteRange { from: 0, to: 0 },
    }
}
