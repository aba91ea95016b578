//! What a line adds to the working counter of an item.

ghost use Rattle.std.specs.Prelude.{◌≡◌, ◌≤◌};
ghost use Rattle.ec_check.specs.Line.{controllers_by};
ghost use Rattle.ec_map.specs.Share.{share, expected_of};

use crate::item::Item;
use ec_check::Mapped;

/// What the line adds to the working counter of the item, modulo 65,536, whether it is fit or not: of each
/// slave 1 where it reads or writes bits of the item, in an exchange 1 and 2; 1 of each slave for a broadcast
/// read; and 1 where an addressed item is served.
pub fn expected<S: Mapped>(line: &[S], item: &Item) -> u16
    ensures { result ≡ expected_of (controllers_by S.controller line.now) item.now }
{
    let mut total = 0u16;
    for slave in line {
        total = total.wrapping_add(share(slave, item));
    }
    total
}

/// What a slave adds to the working counter of the item.
fn share<S: Mapped>(slave: &S, item: &Item) -> u16
    ensures value { result ≡ share item.now (S.controller slave.now) }
    ensures bound { result ≤ 3 }
{
    slave.gain(item.kind(), item.wire_address(), item.len() as u16)
}
