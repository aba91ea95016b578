//! Whom a datagram addresses: the controller that finds ADP 0, the one whose station address is the ADP, or
//! all of them (IEC 61158-4-12, address modes).

ghost use Rattle.std.specs.Prelude.{◌≡◌, ◌+◌, ◌*◌, ◌%◌, ◌<◌, length, slice_set};
ghost use Rattle.ec_wire.specs.Datagram.{nth, adp, ado};
ghost use Rattle.ec_esc.specs.Pass.{is_addressed};

use crate::controller::Controller;
use ec_wire::{Addressing, FrameBuf, adp_of};

/// Counts the ADP of the datagram at `k` up, modulo 65536; all else stays.
pub(crate) fn count_up(frame: &mut FrameBuf, k: usize)
    requires { k < length frame.old }
    ensures { frame.new
        ≡ slice_set frame.old k (record (nth frame.old k) {
          address = (adp (nth frame.old k) + 1) % 65536 +
              65536 * ado (nth frame.old k);
        }) }
{
    let adp = frame.adp(k);
    frame.set_adp(k, adp.wrapping_add(1));
}

impl Controller {
    /// Does the datagram at `k`, whose command addresses so, address the controller?
    pub(crate) fn is_addressed(&self, addressing: Addressing, frame: &FrameBuf, k: usize) -> bool
        requires { k < length frame.now }
        ensures { result ≡ is_addressed addressing self.now (nth frame.now k).address }
    {
        self.is_named(addressing, frame.address(k))
    }

    /// Does an address name the controller, in a command that addresses so?
    pub(crate) fn is_named(&self, addressing: Addressing, address: u32) -> bool
        ensures { result ≡ is_addressed addressing self.now address }
    {
        match addressing {
            Addressing::Nobody => false,
            Addressing::AutoIncrement => adp_of(address) == 0,
            Addressing::ConfiguredStation => adp_of(address) == self.station(),
            Addressing::All | Addressing::Logical => true,
        }
    }
}
