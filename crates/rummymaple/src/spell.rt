//! The frame of some items, spelt into the caller's room.

ghost use Rattle.std.specs.Prelude.{◌≡◌, ◌<◌, ◌≤◌, ◌+◌, ◌*◌, ◌++◌, ℕ, List, None, length, drop, map};
ghost use Rattle.ec_line.specs.Answered.{sent_of};
ghost use Rattle.ec_map.specs.Item.{datagram_of};
ghost use Rattle.ec_master.specs.Cut.{frame_at};
ghost use Rattle.ec_wire.specs.Spelling.{datagram, bit_of, spelling};
ghost use Rattle.rummymaple.specs.Cut.{IsCarried};
ghost use Rattle.rummymaple.specs.Items.{asked, refusal, AreTaken};
ghost use Rattle.rummymaple.specs.Join.{IsPut};
ghost use Rattle.rummymaple.specs.Room.{IsWritten};

use crate::cut::Carried;
use crate::item::{Item, MAX_ITEMS};
use crate::layout::{HEADER, OVERHEAD};
use crate::room::put;
use ec_wire::MAX_DATA;

/// The type of EtherCAT commands, in its place in a frame's header.
const COMMANDS: u16 = 1 << 12;

/// The more bit of a datagram's length field.
const MORE: u16 = 1 << 15;

impl Item {
    /// The length field of its datagram, which does not circulate; `more` says that another one follows.
    fn length_field(&self, more: bool) -> u16
        requires { self.now.length ≤ MAX_DATA }
        ensures { result ≡ self.now.length + 32768 * bit_of more }
    {
        self.length + MORE * u16::from(more)
    }

    /// Puts its datagram, with `k` as index, into the room that is written up to `at`, and says up to where
    /// it is written then; `more` says that another datagram follows.
    fn put_datagram(&self, image: &[u8], k: usize, more: bool, room: &mut [u8], at: usize) -> usize
        requires taken { refusal (length image.now) self.now ≡ None }
        requires number { k < MAX_ITEMS }
        requires fits { at + (OVERHEAD + self.now.length) ≤ length room.old }
        ensures written { (written before : List ℕ) → IsWritten written before at room.old
            → IsWritten (written ++ datagram more (datagram_of (asked image.now self.now) k)) before
            result room.new }
        ensures end { result ≡ at + (OVERHEAD + self.now.length) }
        ensures size { length room.new ≡ length room.old }
    {
        let address_at = put(room, at, &[self.kind().command().code(), k as u8]);
        let length_at = put(room, address_at, &self.wire_address().to_le_bytes());
        let irq_at = put(room, length_at, &self.length_field(more).to_le_bytes());
        let data_at = put(room, irq_at, &[0, 0]);
        let counter_at = put(room, data_at, self.data(image));
        put(room, counter_at, &self.sent.to_le_bytes())
    }
}

/// A frame's header: the length of all datagrams, and the type of EtherCAT commands.
fn header_field(length: usize) -> u16
    requires { length < 2048 }
    ensures { result ≡ length + 4096 }
{
    length as u16 + COMMANDS
}

/// Puts the frame of the items that are carried from `first` on at the front of the room.
pub(crate) fn put_items(
    items: &[Item],
    image: &[u8],
    first: usize,
    carried: &Carried,
    room: &mut [u8],
)
    requires numbers { length items.now ≤ MAX_ITEMS }
    requires taken { AreTaken (length image.now) items.now }
    requires carried { IsCarried items.now image.now first carried.now }
    requires fits { HEADER + carried.now.bytes ≤ length room.old }
    ensures { IsPut (spelling (sent_of (frame_at first (map (asked image.now) items.now)))) room.old
        (HEADER + carried.now.bytes) room.new }
{
    let end = first + carried.items;
    let mut at = put(room, 0, &header_field(carried.bytes).to_le_bytes());
    for k in first..end {
        at = items[k].put_datagram(image, k, k + 1 < end, room, at);
    }
}
