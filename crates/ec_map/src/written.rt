//! Which bytes of a slave an item writes.

ghost use Rattle.std.specs.Prelude.{◌≡◌, ◌↔◌, ◌+◌, ◌*◌, ◌<◌, ◌≤◌, ◌^◌, ℕ, true, length};
ghost use Rattle.ec_regs.specs.declared.registers.TheConstants.{FMMU_COUNT, MEMORY_SIZE};
ghost use Rattle.ec_check.specs.Line.{controllers_by};
ghost use Rattle.ec_wire.specs.declared.kind.Kind.TheVariants.{Fpwr};
ghost use Rattle.ec_map.specs.Covered.{asks};
ghost use Rattle.ec_map.specs.Written.{WritesSome, WritesRun, WritesRuns};
ghost use Rattle.ec_map.specs.Written.{MapsRun, PairsRuns, ShareByte};
ghost use Rattle.ec_map.specs.declared.covered.Way.TheVariants.{Writes};

use crate::asking::Asking;
use crate::line::{fmmu_of, station_of};
use ec_check::Mapped;
use ec_regs::registers::FMMU_COUNT;
use ec_regs::{AddressRange, Fmmu};
use ec_wire::{Kind, ado_of, adp_of};

/// Neighbouring bits, by their numbers.
#[derive(Clone, Copy, PartialEq, Eq, Debug)]
pub(crate) struct BitRun {
    /// The first bit.
    pub(crate) from: u64,
    /// The bit behind the last one.
    pub(crate) to: u64,
}

/// The bits of neighbouring bytes of a memory.
fn bits_of(bytes: AddressRange) -> BitRun
    ensures { result ≡ record { from = 8 * bytes.first; to = 8 * (bytes.first + bytes.count) } }
{
    let first = u64::from(bytes.first);
    BitRun {
        from: 8 * first,
        to: 8 * (first + u64::from(bytes.count)),
    }
}

/// Does the item write one of the bytes, of which there are some?
pub(crate) fn writes_some<S: Mapped, I: Asking>(
    line: &[S],
    slave: usize,
    item: &I,
    bytes: AddressRange,
) -> bool
    requires slave { slave < length line.now }
    requires some { 1 ≤ bytes.count }
    ensures { (result ≡ true)
        ↔ WritesSome (controllers_by S.controller line.now) slave bytes.first bytes.count
        (I.item item.now) }
{
    match item.kind() {
        Kind::Lwr | Kind::Lrw => writes_mapped(line, slave, item, bytes),
        Kind::Fpwr => writes_named(line, slave, item, bytes),
        Kind::Lrd | Kind::Brd | Kind::Fprd => false,
    }
}

/// Does the logical item write one of the bytes through FMMUs of the slave?
fn writes_mapped<S: Mapped, I: Asking>(
    line: &[S],
    slave: usize,
    item: &I,
    bytes: AddressRange,
) -> bool
    requires slave { slave < length line.now }
    requires kind { asks Writes (I.item item.now).kind ≡ true }
    ensures { (result ≡ true)
        ↔ WritesSome (controllers_by S.controller line.now) slave bytes.first bytes.count
        (I.item item.now) }
{
    let first = 8 * u64::from(item.address());
    let logical = BitRun {
        from: first,
        to: first + 8 * u64::from(item.count()),
    };
    pairs_runs(line, slave, logical, bits_of(bytes))
}

/// Does the write to a station write one of the bytes?
fn writes_named<S: Mapped, I: Asking>(
    line: &[S],
    slave: usize,
    item: &I,
    bytes: AddressRange,
) -> bool
    requires slave { slave < length line.now }
    requires some { 1 ≤ bytes.count }
    requires kind { (I.item item.now).kind ≡ Fpwr }
    ensures { (result ≡ true)
        ↔ WritesSome (controllers_by S.controller line.now) slave bytes.first bytes.count
        (I.item item.now) }
{
    let range = AddressRange {
        first: ado_of(item.address()),
        count: item.count(),
    };
    station_of(line, slave) == adp_of(item.address()) && share_a_byte(bytes, range)
}

/// Do two ranges share a byte, where the first one has some?
fn share_a_byte(bytes: AddressRange, range: AddressRange) -> bool
    requires { 1 ≤ bytes.count }
    ensures { (result ≡ true) ↔ ShareByte bytes range }
{
    range.count > 0 && bytes.meets(&range)
}

/// Does an FMMU for writing of the slave map one of the bytes?
pub(crate) fn maps_some<S: Mapped>(line: &[S], slave: usize, bytes: AddressRange) -> bool
    requires { slave < length line.now }
    ensures { (result ≡ true) ↔ MapsRun (controllers_by S.controller line.now) slave bytes.first bytes.count }
{
    let physical = bits_of(bytes);
    for number in 0..FMMU_COUNT {
        if maps_run(&fmmu_of(line, slave, number), physical) {
            return true;
        }
    }
    false
}

/// Is the FMMU for writing, and does it map one of the physical bits?
fn maps_run(fmmu: &Fmmu, physical: BitRun) -> bool
    ensures { (result ≡ true) ↔ WritesRun fmmu.now physical }
{
    let first = u64::from(fmmu.first_physical());
    let from = physical.from.saturating_sub(first);
    let to = u64::from(fmmu.mapped_bits()).min(physical.to.saturating_sub(first));
    fmmu.writes() && from < to
}

/// Does an FMMU for writing of the slave pair a logical bit of the one run with a physical bit of the other?
fn pairs_runs<S: Mapped>(line: &[S], slave: usize, logical: BitRun, physical: BitRun) -> bool
    requires { slave < length line.now }
    ensures { (result ≡ true) ↔ PairsRuns (controllers_by S.controller line.now) slave logical physical }
{
    for number in 0..FMMU_COUNT {
        if pairs_through(&fmmu_of(line, slave, number), logical, physical) {
            return true;
        }
    }
    false
}

/// Is the FMMU for writing, and does it pair a logical bit of the one run with a physical bit of the other?
fn pairs_through(fmmu: &Fmmu, logical: BitRun, physical: BitRun) -> bool
    ensures { (result ≡ true) ↔ WritesRuns fmmu.now logical physical }
{
    let first_logical = fmmu.first_logical();
    let first_physical = u64::from(fmmu.first_physical());
    let from = (logical.from.saturating_sub(first_logical)).max(
        physical.from.saturating_sub(first_physical),
    );
    let to = u64::from(fmmu.mapped_bits())
        .min(logical.to.saturating_sub(first_logical))
        .min(physical.to.saturating_sub(first_physical));
    fmmu.writes() && from < to
}
