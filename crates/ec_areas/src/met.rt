//! The run of bits that an FMMU and the data of a logical command share (IEC 61158-4-12, FMMU).

ghost use Rattle.std.specs.Prelude.{◌≡◌, ◌+◌, ◌*◌, ◌<◌, ℕ};
ghost use Rattle.std.specs.Option.{IfSome};
ghost use Rattle.ec_areas.specs.Met.{IsRunOf, physical_at, number_at, physical_in, data_in};

use ec_regs::PlannedFmmu;
use ec_regs::registers::{LOGICAL_BITS, LOGICAL_BYTES};

/// How many bits a byte has.
const BYTE: u64 = 8;

/// Data bits and the physical bits with which an FMMU pairs them, one after the other.
#[derive(Clone, Copy)]
pub(crate) struct Run {
    /// The first data bit.
    pub(crate) at: usize,
    /// The physical bit of the first data bit.
    pub(crate) physical: usize,
    /// How many bits there are.
    pub(crate) count: usize,
}

/// The run that an FMMU shares with `bytes` bytes of data, of which the first stands at the logical byte
/// `address`; `None` where it pairs none of their bits.
pub(crate) fn run_met(fmmu: &PlannedFmmu, address: u32, bytes: usize) -> Option<Run>
    ensures inside { IfSome result (IsRunOf (8 * bytes)) }
    ensures physical { (i : ℕ) → i < 8 * bytes
        → physical_in result i ≡ physical_at fmmu.now (8 * address + i) }
    ensures data { (p : ℕ) → data_in result p ≡ number_at (8 * address) (8 * bytes) fmmu.now p }
{
    // Bits past the logical range have no pair, so data that reach further are cut there.
    let from = BYTE * u64::from(address);
    let to = LOGICAL_BITS.min(from + BYTE * LOGICAL_BYTES.min(bytes as u64));
    let first = fmmu.first_logical();
    let start = first.max(from);
    let end = to.min(first + u64::from(fmmu.mapped_bits()));
    if end <= start {
        return None;
    }
    Some(Run {
        at: (start - from) as usize,
        physical: fmmu.first_physical() as usize + (start - first) as usize,
        count: (end - start) as usize,
    })
}
