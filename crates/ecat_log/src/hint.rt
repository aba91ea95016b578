//! What bytes look like that are no frame in the UDP form.

ghost use Rattle.std.specs.Prelude.{◌≡◌, true, false};
ghost use Rattle.ecat_log.specs.Hints.{HasEtherType, IsEthernet, IsPadded, Looks};

use ec_wire::{Form, FrameBuf};

/// Where the ethertype of an Ethernet frame lies.
const ETHERTYPE: usize = 12;

/// Where its payload begins.
const PAYLOAD: usize = 14;

/// What bytes look like that are no frame in the UDP form.
#[derive(Clone, Copy, PartialEq, Eq, Debug)]
pub enum Hint {
    /// A frame, and more bytes behind it: as an Ethernet frame's payload, which may be padded.
    Padded,
    /// A whole Ethernet frame, its addresses and ethertype in front.
    Ethernet,
    /// Neither.
    Neither,
}

/// What the bytes look like.
pub fn hint_of(bytes: &[u8]) -> Hint
    ensures { Looks result bytes.now }
{
    if is_padded(bytes) {
        return Hint::Padded;
    }
    if is_ethernet(bytes) {
        return Hint::Ethernet;
    }
    Hint::Neither
}

/// Do the bytes begin with a frame?
fn is_padded(bytes: &[u8]) -> bool
    ensures yes { result ≡ true → IsPadded bytes.now }
    ensures no { result ≡ false → IsPadded bytes.now → ⊥ }
{
    match FrameBuf::read(bytes, Form::Ethernet) {
        Ok(_) => true,
        Err(_) => false,
    }
}

/// Are the bytes an Ethernet frame with a frame as its payload?
fn is_ethernet(bytes: &[u8]) -> bool
    ensures yes { result ≡ true → IsEthernet bytes.now }
    ensures no { result ≡ false → IsEthernet bytes.now → ⊥ }
{
    if !has_ethertype(bytes) {
        return false;
    }
    is_padded(&bytes[PAYLOAD..])
}

/// Has an Ethernet frame EtherCAT's ethertype?
fn has_ethertype(bytes: &[u8]) -> bool
    ensures yes { result ≡ true → HasEtherType bytes.now }
    ensures no { result ≡ false → HasEtherType bytes.now → ⊥ }
{
    if bytes.len() < PAYLOAD {
        return false;
    }
    bytes[ETHERTYPE] == 0x88 && bytes[ETHERTYPE + 1] == 0xa4
}
