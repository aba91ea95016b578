//! What a scan of items must know of one.

ghost use Rattle.std.specs.Prelude.{◌≡◌, length};
ghost use Rattle.ec_map.specs.Item.{ItemRecord};

use crate::item::Item;
use ec_wire::Kind;

/// An item by what it asks, whatever its data: its kind, its address and how many bytes it has. Contracts see
/// the item that asks it.
pub trait Asking {
    /// The item that asks it.
    ghost item: { Self → ItemRecord };

    /// What it asks.
    fn kind(&self) -> Kind
        ensures { result ≡ (item self.now).kind };

    /// Its address, as of [`Item::new`].
    fn address(&self) -> u32
        ensures { result ≡ (item self.now).address };

    /// How many data bytes it has.
    fn count(&self) -> u16
        ensures { result ≡ length (item self.now).payload };
}

/// A master's item asks what it was made to ask.
impl Asking for Item {
    ghost item = { λ i. i };

    fn kind(&self) -> Kind {
        Item::kind(self)
    }

    fn address(&self) -> u32 {
        Item::address(self)
    }

    fn count(&self) -> u16 {
        self.len() as u16
    }
}
