//! The frames in which items go out.

ghost use Rattle.std.specs.Prelude.{◌≡◌, ◌<◌, ◌≤◌, map, length};
ghost use Rattle.ec_line.specs.Answered.{sent_of};
ghost use Rattle.ec_master.specs.Cut.{frame_at};
ghost use Rattle.rummymaple.specs.Items.{asked, AreTaken};
ghost use Rattle.rummymaple.specs.Frame.{IsFrame, IsPutFrame, frame_answer};
ghost use Rattle.rummymaple.specs.declared.frame.FrameEnd.{FrameEnd};
ghost use Rattle.rummymaple.specs.declared.item.Item.{Item};

use crate::cut::carried_from;
use crate::item::{Item, MAX_ITEMS, first_refused};
use crate::layout::HEADER;
use crate::numbers::Code;
use crate::spell::put_items;

/// How the making of a frame ended.
#[derive(Clone, Copy)]
pub enum FrameEnd {
    /// The frame is made.
    Made {
        /// How many items it carries.
        items: usize,
        /// How many bytes it has.
        bytes: usize,
    },
    /// It does not fit the room for it.
    NoRoom,
    /// There are more than `MAX_ITEMS` items.
    TooMany,
    /// There is no item with the number at which it is to begin.
    NoItem,
    /// An item is not taken: its number, and why.
    Refused(usize, Code),
}

/// How the making of a frame ended, in numbers: `struct rmp_framed` of the header.
#[repr(C)]
#[derive(Clone, Copy)]
pub struct FrameAnswer {
    /// How many bytes of the frame were written.
    pub bytes: usize,
    /// How many items it carries.
    pub items: usize,
    /// The number of an item that is not taken.
    pub at: usize,
    /// How it ended.
    pub code: u32,
}

/// Makes the frame that begins with the item at `first`, in the room: no byte of it stands anywhere before.
fn make_frame(items: &[Item], image: &[u8], first: usize, room: &mut [u8]) -> FrameEnd
    requires inside { first < length items.now }
    requires numbers { length items.now ≤ MAX_ITEMS }
    requires taken { AreTaken (length image.now) items.now }
    ensures { IsPutFrame (sent_of (frame_at first (map (asked image.now) items.now)))
        room.old result room.new }
{
    let carried = carried_from(items, first);
    let bytes = HEADER + carried.bytes;
    if room.len() < bytes {
        return FrameEnd::NoRoom;
    }
    put_items(items, image, first, &carried, room);
    FrameEnd::Made {
        items: carried.items,
        bytes,
    }
}

/// Makes the frame that begins with the item at `first`, where all items are taken.
pub(crate) fn frame_end(items: &[Item], image: &[u8], first: usize, room: &mut [u8]) -> FrameEnd
    ensures { IsFrame items.now image.now first room.old result room.new }
{
    if items.len() > MAX_ITEMS {
        return FrameEnd::TooMany;
    }
    if first >= items.len() {
        return FrameEnd::NoItem;
    }
    match first_refused(items, image.len()) {
        Some(refused) => FrameEnd::Refused(refused.at, refused.why),
        None => make_frame(items, image, first, room),
    }
}

impl FrameEnd {
    /// The end in numbers.
    pub(crate) fn answer(self) -> FrameAnswer
        ensures { result ≡ frame_answer self }
    {
        let (bytes, items, at, code) = match self {
            FrameEnd::Made { items, bytes } => (bytes, items, 0, Code::Good),
            FrameEnd::NoRoom => (0, 0, 0, Code::NoRoom),
            FrameEnd::TooMany => (0, 0, 0, Code::TooMany),
            FrameEnd::NoItem => (0, 0, 0, Code::NoItem),
            FrameEnd::Refused(at, why) => (0, 0, at, why),
        };
        FrameAnswer {
            bytes,
            items,
            at,
            code: code.number(),
        }
    }
}

/// Puts the frame that begins with the item at `first` at the front of `room`, and says how many items it
/// carries: as many from there on as fit, each with its number as index and its data from the image. Any
/// other end leaves `room` as it is.
#[unsafe(no_mangle)]
pub extern "C" fn rmp_frame(
    items: &[Item],
    image: &[u8],
    first: usize,
    room: &mut [u8],
) -> FrameAnswer
    ensures { (end : FrameEnd) × (result ≡ frame_answer end)
        × IsFrame items.now image.now first room.old end room.new }
{
    frame_end(items, image, first, room).answer()
}
