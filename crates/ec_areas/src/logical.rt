//! What FMMUs let the master read (IEC 61158-4-12, FMMU).

ghost use Rattle.std.specs.Prelude.{◌≡◌, ◌+◌, ◌*◌, ◌/◌, ◌<◌, length};
ghost use Rattle.ec_regs.specs.Bits.{with_bits};
ghost use Rattle.ec_regs.specs.declared.registers.TheConstants.{MEMORY_SIZE};
ghost use Rattle.ec_areas.specs.Logical.{read_place, read_map, read_places, names, reads_some};
ghost use Rattle.ec_areas.specs.Logical.{IsReadable, NamesPairs};
ghost use Rattle.ec_areas.specs.Met.{IsRunOf, readable_in};

use crate::areas::is_readable;
use crate::met::{Run, run_met};
use crate::reach::are_readable;
use ec_regs::bits::copy_bits;
use ec_regs::{PlannedFmmu, PlannedSyncMan};

/// How many bits a byte has.
const BYTE: usize = 8;

/// Copies what may be read of a run to the data, byte by byte of the memory, and says whether there is such a
/// byte.
fn read_cut_run(managers: &[PlannedSyncMan], run: Run, memory: &[u8], into: &mut [u8]) -> bool
    requires size { length memory.now ≡ MEMORY_SIZE }
    requires run { IsRunOf (8 * length into.old) run }
    ensures bits { into.new ≡ with_bits into.old memory.now (readable_in managers.now run) }
    ensures served { result ≡ names (readable_in managers.now run) (8 * length into.old) }
{
    let mut served = false;
    let mut done = 0;
    while done < run.count {
        let physical = run.physical + done;
        let bits = (BYTE - physical % BYTE).min(run.count - done);
        if is_readable(managers, (physical / BYTE) as u32) {
            copy_bits(into, run.at + done, memory, physical, bits);
            served = true;
        }
        done += bits;
    }
    served
}

/// Copies what may be read of a run to the data, and says whether there is any.
fn read_run(managers: &[PlannedSyncMan], run: Run, memory: &[u8], into: &mut [u8]) -> bool
    requires size { length memory.now ≡ MEMORY_SIZE }
    requires run { IsRunOf (8 * length into.old) run }
    ensures bits { into.new ≡ with_bits into.old memory.now (readable_in managers.now run) }
    ensures served { result ≡ names (readable_in managers.now run) (8 * length into.old) }
{
    let last = (run.physical + run.count - 1) / BYTE;
    if !are_readable(managers, (run.physical / BYTE) as u32, last as u32) {
        return read_cut_run(managers, run, memory, into);
    }
    copy_bits(into, run.at, memory, run.physical, run.count);
    true
}

/// Fills the bits of the data that a read through one FMMU reaches, and says whether there is one.
fn read_through(
    managers: &[PlannedSyncMan],
    fmmu: &PlannedFmmu,
    memory: &[u8],
    address: u32,
    into: &mut [u8],
) -> bool
    requires { length memory.now ≡ MEMORY_SIZE }
    ensures bits { into.new
        ≡ with_bits into.old memory.now (λ i. read_place managers.now fmmu.now (8 * address + i)) }
    ensures served { result
        ≡ names (λ i. read_place managers.now fmmu.now (8 * address + i)) (8 * length into.old) }
{
    if !fmmu.reads() {
        return false;
    }
    match run_met(fmmu, address, into.len()) {
        Some(run) => read_run(managers, run, memory, into),
        None => false,
    }
}

/// Fills the bits of the data that a read reaches from the memory, and says whether there is one.
/// The first data byte stands at the logical byte `address`.
pub fn read_mapped(
    managers: &[PlannedSyncMan],
    fmmus: &[PlannedFmmu],
    memory: &[u8],
    address: u32,
    into: &mut [u8],
) -> bool
    requires { length memory.now ≡ MEMORY_SIZE }
    ensures bits { into.new
        ≡ with_bits into.old memory.now (read_places managers.now fmmus.now (8 * address)) }
    ensures served { result ≡ reads_some managers.now fmmus.now (8 * address) (8 * length into.old) }

    // A bit has a place exactly where an FMMU has a readable pair with it: the place of such a pair.
    ensures pair { NamesPairs (read_map managers.now fmmus.now) (IsReadable managers.now fmmus.now) }
{
    let mut served = false;
    for fmmu in fmmus {
        if read_through(managers, fmmu, memory, address, into) {
            served = true;
        }
    }
    served
}
