//! The data of a joined frame, put into the process image.

ghost use Rattle.std.specs.Prelude.{◌≡◌};
ghost use Rattle.rummymaple.specs.Judge.{IsStoredFrame, IsStored, store_answer};
ghost use Rattle.rummymaple.specs.declared.store.StoreEnd.{StoreEnd};

use crate::answered::{first_other, store_items};
use crate::item::{Item, first_refused};
use crate::judge::ItemAnswer;
use crate::numbers::Code;
use crate::packet::blank;
use ec_wire::{Form, FrameBuf, WireFault};

/// How the storing of a joined frame ended.
#[derive(Clone, Copy)]
pub enum StoreEnd {
    /// The data of the items that read stand in the image.
    Stored,
    /// An item is not taken: its number, and why.
    Refused(usize, Code),
    /// This datagram is the first that is not the answer of its item.
    Other(usize),
    /// What is said to be joined is no frame.
    NotJoined(WireFault),
}

impl StoreEnd {
    /// The end in numbers.
    fn answer(self) -> ItemAnswer
        ensures { result ≡ store_answer self }
    {
        let (at, code) = match self {
            StoreEnd::Stored => (0, Code::Good),
            StoreEnd::Refused(at, why) => (at, why),
            StoreEnd::Other(j) => (j, Code::OtherItem),
            StoreEnd::NotJoined(fault) => (fault.at, Code::NotJoined),
        };
        ItemAnswer {
            at,
            code: code.number(),
        }
    }
}

/// Stores the data of a frame that answers the items from `first` on.
fn store_frame(items: &[Item], first: usize, frame: &FrameBuf, image: &mut [u8]) -> StoreEnd
    ensures { IsStoredFrame items.now first frame.now image.old result image.new }
{
    if let Some(refused) = first_refused(items, image.len()) {
        return StoreEnd::Refused(refused.at, refused.why);
    }
    if let Some(j) = first_other(items, first, frame) {
        return StoreEnd::Other(j);
    }
    store_items(items, first, frame, image);
    StoreEnd::Stored
}

/// Stores the data of the frame that the bytes spell.
fn store(items: &[Item], first: usize, joined: &[u8], image: &mut [u8]) -> StoreEnd
    ensures { IsStored items.now first joined.now image.old result image.new }
{
    let mut frame = blank();
    match frame.refill(joined, Form::Udp) {
        Ok(()) => store_frame(items, first, &frame, image),
        Err(fault) => StoreEnd::NotJoined(fault),
    }
}

/// Puts the data of a joined frame, whose datagrams answer the items from `first` on, into the image: of each
/// item that reads, in their order. All else of the image stays, and so does all of it at any other end.
#[unsafe(no_mangle)]
pub extern "C" fn rmp_store(
    items: &[Item],
    first: usize,
    joined: &[u8],
    image: &mut [u8],
) -> ItemAnswer
    ensures { (end : StoreEnd) × (result ≡ store_answer end)
        × IsStored items.now first joined.now image.old end image.new }
{
    store(items, first, joined, image).answer()
}
