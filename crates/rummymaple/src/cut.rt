//! As many items as one frame holds.

ghost use Rattle.std.specs.Prelude.{◌≡◌, ◌<◌, ◌≤◌, ◌+◌, ℕ, List, length};
ghost use Rattle.rummymaple.specs.Cut.{IsCarried};
ghost use Rattle.rummymaple.specs.Items.{AreTaken};

use crate::item::Item;
use crate::layout::OVERHEAD;
use ec_wire::MAX_LENGTH;

/// What one frame carries.
#[derive(Drop)]
pub(crate) struct Carried {
    /// How many items.
    pub(crate) items: usize,
    /// How many bytes their datagrams take.
    pub(crate) bytes: usize,
}

impl Item {
    /// How many bytes its datagram takes.
    pub(crate) fn wire_length(&self) -> usize
        ensures length { result ≡ OVERHEAD + self.now.length }
        ensures most { result ≤ OVERHEAD + 65535 }
    {
        OVERHEAD + usize::from(self.length)
    }
}

/// What the frame carries that begins with the item at `first`: as many from there on as fit.
pub(crate) fn carried_from(items: &[Item], first: usize) -> Carried
    requires { first < length items.now }
    ensures { (image : List ℕ) → AreTaken (length image) items.now
        → IsCarried items.now image first result }
{
    let mut bytes = items[first].wire_length();
    for k in first + 1..items.len() {
        let more = bytes + items[k].wire_length();
        if more > MAX_LENGTH {
            return Carried {
                items: k - first,
                bytes,
            };
        }
        bytes = more;
    }
    Carried {
        items: items.len() - first,
        bytes,
    }
}
