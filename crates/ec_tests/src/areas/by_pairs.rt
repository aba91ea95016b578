//! Reads and writes through FMMUs bit by bit: slow and plain, to compare with.

use ec_areas::{is_readable, is_writable};
use ec_regs::{Fmmu, PlannedSyncMan};

/// How many bits the logical range has.
const LOGICAL_BITS: u64 = 0x8_0000_0000;

/// A bit of some bytes, 0 past their end.
fn bit(bytes: &[u8], at: usize) -> bool {
    match bytes.get(at / 8) {
        Some(byte) => *byte >> (at % 8) & 1 == 1,
        None => false,
    }
}

/// The bytes with one bit replaced.
fn put_bit(bytes: &mut [u8], at: usize, value: bool) {
    if at / 8 < bytes.len() {
        let mask = 1u8 << (at % 8);
        let byte = bytes[at / 8];
        bytes[at / 8] = if value { byte | mask } else { byte & !mask };
    }
}

/// The physical bit that an FMMU pairs with data bit `i` of a datagram at the logical byte `address`.
fn partner(fmmu: &Fmmu, address: u32, i: usize) -> Option<u32> {
    let logical = 8 * u64::from(address) + (i % 256) as u64;
    if logical < LOGICAL_BITS {
        fmmu.physical_of(logical)
    } else {
        None
    }
}

/// Fills the first `bits` data bits, fewer than 256, that a read reaches, and says whether there is one.
pub(crate) fn read_by_pairs(
    managers: &[PlannedSyncMan],
    fmmus: &[Fmmu],
    memory: &[u8],
    address: u32,
    into: &mut [u8],
    bits: usize,
) -> bool {
    let mut served = false;
    for i in 0..bits {
        for fmmu in fmmus {
            if let Some(physical) = partner(fmmu, address, i) {
                if fmmu.reads() && is_readable(managers, physical / 8) {
                    put_bit(into, i, bit(memory, physical as usize));
                    served = true;
                }
            }
        }
    }
    served
}

/// Writes the first `bits` data bits, fewer than 256, to the bytes of the memory from `first` on, and says
/// whether one of them goes anywhere.
pub(crate) fn write_by_pairs(
    managers: &[PlannedSyncMan],
    fmmus: &[Fmmu],
    memory: &mut [u8],
    first: u32,
    address: u32,
    payload: &[u8],
    bits: usize,
) -> bool {
    let mut served = false;
    for fmmu in fmmus {
        for i in 0..bits {
            if let Some(physical) = partner(fmmu, address, i) {
                if fmmu.writes() && is_writable(managers, physical / 8) {
                    let at = physical.saturating_sub(first.saturating_mul(8));
                    put_bit(memory, at as usize, bit(payload, i));
                    served = true;
                }
            }
        }
    }
    served
}

/// Does a write of the first `bits` data bits, fewer than 256, reach a bit of the byte at an address?
pub(crate) fn reaches_by_pairs(
    managers: &[PlannedSyncMan],
    fmmus: &[Fmmu],
    address: u32,
    bits: usize,
    byte: u32,
) -> bool {
    let mut reached = false;
    for fmmu in fmmus {
        for i in 0..bits {
            if let Some(physical) = partner(fmmu, address, i) {
                if physical / 8 == byte && fmmu.writes() && is_writable(managers, byte) {
                    reached = true;
                }
            }
        }
    }
    reached
}
