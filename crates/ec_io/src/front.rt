//! The front of a packet, which all kinds have, and how a packet is put together.

ghost use Rattle.std.specs.Prelude.{◌≡◌, ◌+◌, ◌≤◌, ◌↔◌, ◌++◌, ◌∷◌, [], length, drop, IsOk, IfOk};
ghost use Rattle.ec_io.specs.Cycle.{front};
ghost use Rattle.ec_io.specs.Fault.{first_of, front_fault};
ghost use Rattle.ec_io.specs.Text.{text_test};

use crate::fault::{NoRoom, PacketFault};
use crate::layout::{
    FRONT, KIND_AT, LENGTH_AT, LETTERS, LETTERS_AT, MAX_DATA, MAX_TEXT, VERSION, VERSION_AT,
};
use crate::numbers::{u16_at, u32_at};
use byteorder::{ByteOrder, LittleEndian};

/// The first fault of the front of bytes that are to be a packet of a kind, with a head of a size.
#[tactic(auto, unfolding(crate::specs::Fault::front_fault))]
pub(crate) fn front_fault(bytes: &[u8], size: usize, kind: u8) -> Option<PacketFault>
    requires least { FRONT ≤ size }
    requires most { size ≤ MAX_DATA }
    ensures { result ≡ front_fault size kind bytes.now }
{
    if bytes.len() < size {
        return Some(PacketFault::Short);
    }
    if u32_at(bytes, LETTERS_AT) != LETTERS {
        return Some(PacketFault::OtherMagic);
    }
    if bytes[VERSION_AT] != VERSION {
        return Some(PacketFault::OtherVersion(bytes[VERSION_AT]));
    }
    if bytes[KIND_AT] != kind {
        return Some(PacketFault::OtherKind(bytes[KIND_AT]));
    }
    if bytes.len() != size + usize::from(u16_at(bytes, LENGTH_AT)) {
        return Some(PacketFault::Length);
    }
    None
}

/// Writes the front of a packet of a kind that has as many bytes of process data.
pub(crate) fn put_front(head: &mut [u8], kind: u8, count: u16)
    requires { FRONT ≤ length head.old }
    ensures { head.new ≡ front kind count ++ drop FRONT head.old }
{
    LittleEndian::write_u32(head, LETTERS);
    head[VERSION_AT] = VERSION;
    head[KIND_AT] = kind;
    LittleEndian::write_u16(&mut head[LENGTH_AT..], count);
}

/// How many bytes a packet takes that has a head of a size and as many bytes of process data, where there is
/// room for it and its front can say how many they are.
pub(crate) fn packet_size(size: usize, count: usize, room: usize) -> Result<usize, NoRoom>
    requires { size ≤ MAX_DATA }
    ensures value { IfOk result (λ whole. whole ≡ size + count) }
    ensures fits { IsOk result ↔ ((count ≤ MAX_DATA) × (size + count ≤ room)) }
{
    if count > MAX_DATA {
        return Err(NoRoom);
    }
    if room < size + count {
        return Err(NoRoom);
    }
    Ok(size + count)
}

/// How many bytes a packet takes that has a head of a size and as many bytes of text, where there is room for
/// it and they are not more than 1,024.
pub(crate) fn text_size(size: usize, count: usize, room: usize) -> Result<usize, NoRoom>
    requires { size ≤ MAX_DATA }
    ensures value { IfOk result (λ whole. whole ≡ size + count) }
    ensures fits { IsOk result ↔ ((count ≤ MAX_TEXT) × (size + count ≤ room)) }
{
    if count > MAX_TEXT {
        return Err(NoRoom);
    }
    packet_size(size, count, room)
}

/// The fault of bytes that have more than 1,024 bytes of text behind a head of a size.
pub(crate) fn text_fault(bytes: &[u8], size: usize) -> Option<PacketFault>
    requires { size ≤ MAX_DATA }
    ensures { result ≡ first_of (text_test size bytes.now ∷ []) }
{
    if bytes.len() > size + MAX_TEXT {
        Some(PacketFault::LongText)
    } else {
        None
    }
}

/// Writes a head, and what is behind it, to the front of some bytes.
pub(crate) fn put_packet(into: &mut [u8], head: &[u8], behind: &[u8])
    requires { length head.now + length behind.now ≤ length into.old }
    ensures { into.new
        ≡ head.now ++ behind.now ++ drop (length head.now + length behind.now) into.old }
{
    let size = head.len();
    let whole = size + behind.len();
    into[..size].copy_from_slice(head);
    into[size..whole].copy_from_slice(behind);
}
