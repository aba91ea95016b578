//! Whether FMMUs name a bit of some logical bytes, for a read or for a write: what the working counter of a
//! logical command hangs on (IEC 61158-4-12, FMMU).

ghost use Rattle.std.specs.Prelude.{◌≡◌, ◌↔◌, ◌+◌, ◌-◌, ◌*◌, ◌^◌, ◌<◌, ◌≤◌, ℕ, true};
ghost use Rattle.std.specs.List.{list_any};
ghost use Rattle.ec_areas.specs.Logical.{read_place, write_target, names, reads_some, writes_some};
ghost use Rattle.ec_areas.specs.Logical.{IsReadable, IsWritable, IsPairWithin};
ghost use Rattle.ec_areas.specs.Areas.{is_readable, is_writable};
ghost use Rattle.ec_areas.specs.Ranges.{some_address};
ghost use Rattle.ec_areas.specs.Met.{readable_in, target_in};

use crate::areas::{is_readable, is_writable};
use crate::met::{Run, run_met};
use ec_regs::{PlannedFmmu, PlannedSyncMan};

/// How many bits a byte has.
const BYTE: usize = 8;

/// May one of the bytes from `first` up to, but not with, `end` be read?
#[tactic(auto, unfolding(crate::specs::Ranges::some_address))]
fn some_readable(managers: &[PlannedSyncMan], first: u32, end: u32) -> bool
    ensures { result ≡ some_address (is_readable managers.now) first (end - first) }
{
    (first..end).any(|byte| is_readable(managers, byte))
}

/// May one of the bytes from `first` up to, but not with, `end` be written?
#[tactic(auto, unfolding(crate::specs::Ranges::some_address))]
fn some_writable(managers: &[PlannedSyncMan], first: u32, end: u32) -> bool
    ensures { result ≡ some_address (is_writable managers.now) first (end - first) }
{
    (first..end).any(|byte| is_writable(managers, byte))
}

/// May a byte with physical bits of the run be read?
fn reads_run(managers: &[PlannedSyncMan], run: Run) -> bool
    requires some { 0 < run.count }
    requires fits { run.physical + run.count < 2 ^ 21 }
    ensures { (bits : ℕ) → run.at + run.count ≤ bits → result ≡ names (readable_in managers.now run) bits }
{
    some_readable(
        managers,
        (run.physical / BYTE) as u32,
        ((run.physical + run.count - 1) / BYTE + 1) as u32,
    )
}

/// May a byte with physical bits of the run be written?
fn writes_run(managers: &[PlannedSyncMan], run: Run) -> bool
    requires some { 0 < run.count }
    requires fits { run.physical + run.count < 2 ^ 21 }
    ensures { (bits : ℕ) → run.at + run.count ≤ bits → result ≡ names (target_in managers.now run) bits }
{
    some_writable(
        managers,
        (run.physical / BYTE) as u32,
        ((run.physical + run.count - 1) / BYTE + 1) as u32,
    )
}

/// Has the FMMU a readable pair whose logical bit lies in the `bytes` bytes from an address on?
fn reads_through(
    managers: &[PlannedSyncMan],
    fmmu: &PlannedFmmu,
    address: u32,
    bytes: usize,
) -> bool
    ensures { result ≡ names (λ i. read_place managers.now fmmu.now (8 * address + i)) (8 * bytes) }
{
    if !fmmu.reads() {
        return false;
    }
    match run_met(fmmu, address, bytes) {
        Some(run) => reads_run(managers, run),
        None => false,
    }
}

/// Has the FMMU a writable pair whose logical bit lies in the `bytes` bytes from an address on?
fn writes_through(
    managers: &[PlannedSyncMan],
    fmmu: &PlannedFmmu,
    address: u32,
    bytes: usize,
) -> bool
    ensures { result ≡ names (λ i. write_target managers.now fmmu.now (8 * address + i)) (8 * bytes) }
{
    if !fmmu.writes() {
        return false;
    }
    match run_met(fmmu, address, bytes) {
        Some(run) => writes_run(managers, run),
        None => false,
    }
}

/// Has one of the FMMUs such a readable pair?
fn one_reads(managers: &[PlannedSyncMan], fmmus: &[PlannedFmmu], address: u32, bytes: usize) -> bool
    ensures { result
        ≡ list_any (λ f. names (λ i. read_place managers.now f (8 * address + i)) (8 * bytes)) fmmus.now }
{
    fmmus
        .iter()
        .any(|fmmu| reads_through(managers, fmmu, address, bytes))
}

/// Would a read of `bytes` bytes from the logical byte `address` on be served: has some FMMU a readable pair
/// whose logical bit lies in them?
pub fn reads_some(
    managers: &[PlannedSyncMan],
    fmmus: &[PlannedFmmu],
    address: u32,
    bytes: usize,
) -> bool
    ensures served { result ≡ reads_some managers.now fmmus.now (8 * address) (8 * bytes) }
    ensures pair { (result ≡ true) ↔ ((l p : ℕ)
        × IsPairWithin (IsReadable managers.now fmmus.now) (8 * address) (8 * bytes) l p) }
{
    one_reads(managers, fmmus, address, bytes)
}

/// Has one of the FMMUs such a writable pair?
fn one_writes(
    managers: &[PlannedSyncMan],
    fmmus: &[PlannedFmmu],
    address: u32,
    bytes: usize,
) -> bool
    ensures { result
        ≡ list_any (λ f. names (λ i. write_target managers.now f (8 * address + i)) (8 * bytes)) fmmus.now }
{
    fmmus
        .iter()
        .any(|fmmu| writes_through(managers, fmmu, address, bytes))
}

/// Would a write of `bytes` bytes from the logical byte `address` on be served: has some FMMU a writable pair
/// whose logical bit lies in them?
pub fn writes_some(
    managers: &[PlannedSyncMan],
    fmmus: &[PlannedFmmu],
    address: u32,
    bytes: usize,
) -> bool
    ensures served { result ≡ writes_some managers.now fmmus.now (8 * address) (8 * bytes) }
    ensures pair { (result ≡ true) ↔ ((l p : ℕ)
        × IsPairWithin (IsWritable managers.now fmmus.now) (8 * address) (8 * bytes) l p) }
{
    one_writes(managers, fmmus, address, bytes)
}
