//! Packets that were cut when they were captured: what of a frame stands there whole, and what is cut.
ghost use Rattle.std.specs.Prelude.{◌≡◌, ◌≤◌, ◌+◌, ◌++◌, drop};
ghost use Rattle.ecat_list.specs.Note.{cut_words};

use crate::address::lead_address;
use crate::row::Row;
use ec_wire::{Command, Form, FrameBuf, MAX_FRAME};

/// The bytes of a frame's header (IEC 61158-4-12, the EtherCAT frame header).
const FRAME_HEADER: usize = 2;

/// The bytes of a datagram's header, and those beside its data: the header and the working counter.
const DATAGRAM_HEADER: usize = 10;

const OVERHEAD: usize = 12;

/// The most datagrams of a frame.
const MOST: usize = 124;

/// Bits 0 to 10 of the length field are the length of the data, and bit 15 says that one more follows.
const LENGTH: u16 = 0x07ff;

const MORE: u16 = 0x8000;

/// The datagrams of a frame that were captured whole.
#[derive(Clone, Copy)]
struct Front {
    /// How many bytes they are with the frame's header.
    end: usize,
    /// Where the last of them begins.
    last: usize,
}

/// A datagram that was cut behind its header.
#[derive(Clone, Copy)]
pub(crate) struct CutDatagram {
    command: Command,
    address: u32,
    length: u16,
}

impl CutDatagram {
    /// The datagram in which the bytes of a frame are cut, if its header is there.
    pub(crate) fn of(bytes: &[u8]) -> Option<CutDatagram> {
        let at = match front_of(bytes) {
            Some(front) => front.end,
            None => FRAME_HEADER,
        };
        let head = bytes.get(at..at.saturating_add(DATAGRAM_HEADER))?;
        let [code, _, a, b, c, d, low, high, ..] = head else {
            return None;
        };
        Some(CutDatagram {
            command: Command::from_code(*code)?,
            address: u32::from_le_bytes([*a, *b, *c, *d]),
            length: u16::from_le_bytes([*low, *high]) & LENGTH,
        })
    }

    /// Puts in front in which datagram a packet is cut.
    pub(crate) fn lead(&self, row: &mut Row)
        requires { 64 ≤ row.old.from }
        ensures at { row.old.from ≤ row.new.from + 64 }
        ensures written { drop row.new.from row.new.bytes
            ≡ cut_words self.now ++ drop row.old.from row.old.bytes }
    {
        row.lead_bytes(b" bytes");
        row.lead_decimal(u64::from(self.length));
        row.lead_byte(b' ');
        lead_address(row, self.command, self.address);
        row.lead_byte(b' ');
        row.lead_bytes(self.command.name().as_bytes());
        row.lead_bytes(b" in ");
    }
}

/// The length field of the datagram that begins at a place, if it is there.
fn length_field(bytes: &[u8], at: usize) -> Option<u16> {
    let low = bytes.get(at.saturating_add(6))?;
    let high = bytes.get(at.saturating_add(7))?;
    Some(u16::from_le_bytes([*low, *high]))
}

/// The datagrams that stand whole at the front of the bytes of a frame, if one does.
fn front_of(bytes: &[u8]) -> Option<Front> {
    let mut front = None;
    let mut at = FRAME_HEADER;
    for _datagram in 0..MOST {
        let Some(field) = length_field(bytes, at) else {
            break;
        };
        let size = OVERHEAD + usize::from(field & LENGTH);
        let end = at.saturating_add(size);
        if bytes.len() < end {
            break;
        }
        front = Some(Front { end, last: at });
        if field & MORE == 0 {
            break;
        }
        at = end;
    }
    front
}

/// Makes a frame the datagrams that stand whole at the front of the bytes of another one, which is cut behind
/// them. Is there one? Else the frame stays.
pub(crate) fn refill_front(frame: &mut FrameBuf, bytes: &[u8]) -> bool {
    let Some(front) = front_of(bytes) else {
        return false;
    };
    let mut whole = [0; MAX_FRAME];
    let count = front.end.min(bytes.len()).min(MAX_FRAME);
    whole[..count].copy_from_slice(&bytes[..count]);
    let [low, high] = (count.saturating_sub(FRAME_HEADER) as u16).to_le_bytes();
    whole[0] = low;
    whole[1] = 0x10 | high;
    let more = front.last.saturating_add(7);
    if more < MAX_FRAME {
        whole[more] &= 0x7f;
    }
    frame.refill(&whole[..count], Form::Udp).is_ok()
}
