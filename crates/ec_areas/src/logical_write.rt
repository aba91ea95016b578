//! Writes through FMMUs (IEC 61158-4-12, FMMU).

ghost use Rattle.std.specs.Prelude.{◌≡◌, ◌+◌, ◌*◌, ◌<◌, length};
ghost use Rattle.ec_regs.specs.Bits.{AreBytes, with_bits};
ghost use Rattle.ec_areas.specs.Logical.{write_target, write_place, write_map, target_map, writes_some};
ghost use Rattle.ec_areas.specs.Logical.{number_within, names, IsWritable, NamesPairs};
ghost use Rattle.ec_areas.specs.Met.{IsRunOf, target_in, writable_in};

use crate::areas::is_writable;
use crate::met::{Run, run_met};
use crate::reach::are_writable;
use ec_regs::{Memory, PlannedFmmu, PlannedSyncMan};

/// How many bits a byte has.
const BYTE: usize = 8;

/// Writes the data of a run where it may be written, byte by byte of the memory, and says whether there is
/// such a byte.
fn write_cut_run(managers: &[PlannedSyncMan], run: Run, memory: &mut Memory, payload: &[u8]) -> bool
    requires bytes { AreBytes memory.old }
    requires run { IsRunOf (8 * length payload.now) run }
    ensures bits { memory.new ≡ with_bits memory.old payload.now (writable_in managers.now run) }
    ensures served { result ≡ names (target_in managers.now run) (8 * length payload.now) }
{
    let mut served = false;
    let mut done = 0;
    while done < run.count {
        let physical = run.physical + done;
        let bits = (BYTE - physical % BYTE).min(run.count - done);
        if is_writable(managers, (physical / BYTE) as u32) {
            memory.copy_bits(physical, payload, run.at + done, bits);
            served = true;
        }
        done += bits;
    }
    served
}

/// Writes the data of a run where it may be written, and says whether there is such a bit.
fn write_run(managers: &[PlannedSyncMan], run: Run, memory: &mut Memory, payload: &[u8]) -> bool
    requires bytes { AreBytes memory.old }
    requires run { IsRunOf (8 * length payload.now) run }
    ensures bits { memory.new ≡ with_bits memory.old payload.now (writable_in managers.now run) }
    ensures served { result ≡ names (target_in managers.now run) (8 * length payload.now) }
{
    let last = (run.physical + run.count - 1) / BYTE;
    if !are_writable(managers, (run.physical / BYTE) as u32, last as u32) {
        return write_cut_run(managers, run, memory, payload);
    }
    memory.copy_bits(run.physical, payload, run.at, run.count);
    true
}

/// Writes the data to the physical bits of one FMMU, and says whether there is such a bit; all else stays.
/// The first data byte stands at the logical byte `address`.
fn write_through(
    managers: &[PlannedSyncMan],
    fmmu: &PlannedFmmu,
    memory: &mut Memory,
    address: u32,
    payload: &[u8],
) -> bool
    requires { AreBytes memory.old }
    ensures bits { memory.new ≡ with_bits memory.old payload.now
        (λ p. number_within (8 * address) (8 * length payload.now) (write_place managers.now fmmu.now p)) }
    ensures served { result
        ≡ names (λ i. write_target managers.now fmmu.now (8 * address + i)) (8 * length payload.now) }
{
    if !fmmu.writes() {
        return false;
    }
    match run_met(fmmu, address, payload.len()) {
        Some(run) => write_run(managers, run, memory, payload),
        None => false,
    }
}

/// Writes the data to the physical bits of all FMMUs, of which a later one prevails, and says whether there
/// is such a bit; all else stays. The first data byte stands at the logical byte `address`.
pub fn write_mapped(
    managers: &[PlannedSyncMan],
    fmmus: &[PlannedFmmu],
    memory: &mut Memory,
    address: u32,
    payload: &[u8],
) -> bool
    requires { AreBytes memory.old }
    ensures bits { memory.new ≡ with_bits memory.old payload.now
        (write_map managers.now fmmus.now (8 * address) (8 * length payload.now)) }
    ensures served { result ≡ writes_some managers.now fmmus.now (8 * address) (8 * length payload.now) }

    // A bit goes somewhere exactly where an FMMU has a writable pair with it: to the place of such a pair.
    // A physical bit takes data where one of the bits is paired with it.
    ensures target { NamesPairs (target_map managers.now fmmus.now) (IsWritable managers.now fmmus.now) }
    ensures source { NamesPairs (write_map managers.now fmmus.now (8 * address) (8 * length payload.now))
        (λ p i. (i < 8 * length payload.now) × IsWritable managers.now fmmus.now (8 * address + i) p) }
{
    let mut served = false;
    for fmmu in fmmus {
        if write_through(managers, fmmu, memory, address, payload) {
            served = true;
        }
    }
    served
}
