//! What is asked of the kinds of items, and why there is no item.

ghost use Rattle.std.specs.Prelude.{◌≡◌, ◌≤◌};
ghost use Rattle.ec_wire.specs.declared.datagram.TheConstants.{MAX_DATA};
ghost use Rattle.ec_map.specs.Item.{is_logical, is_broadcast, is_in_range};

use ec_regs::registers::{LOGICAL_BYTES, MEMORY_SIZE, PROCESS_MEMORY};
use ec_wire::{Kind, ado_of};

/// Why there is no such item.
#[derive(Clone, Copy, PartialEq, Eq, Debug)]
pub enum ItemFault {
    /// The item has no data, or more than 1,486 bytes.
    BadLength,
    /// The item reaches past the logical range, a broadcast read past the registers, or an addressed item
    /// past the memory.
    BadRange,
}

/// Is an item of the kind a read, a write or an exchange of the logical image?
pub(crate) fn is_logical(kind: Kind) -> bool
    ensures { result ≡ is_logical kind }
{
    matches!(kind, Kind::Lrd | Kind::Lwr | Kind::Lrw)
}

/// Is an item of the kind a broadcast read?
pub(crate) fn is_broadcast(kind: Kind) -> bool
    ensures { result ≡ is_broadcast kind }
{
    matches!(kind, Kind::Brd)
}

/// Do that many bytes exist from an address on?
pub(crate) fn is_in_range(kind: Kind, address: u32, length: usize) -> bool
    requires { length ≤ MAX_DATA }
    ensures { result ≡ is_in_range kind address length }
{
    let length = length as u64;
    match kind {
        Kind::Lrd | Kind::Lwr | Kind::Lrw => u64::from(address) + length <= LOGICAL_BYTES,
        Kind::Brd => u64::from(address) + length <= u64::from(PROCESS_MEMORY),
        Kind::Fprd | Kind::Fpwr => u64::from(ado_of(address)) + length <= u64::from(MEMORY_SIZE),
    }
}
