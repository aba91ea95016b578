//! Which mapped bits of a line no item of a cycle asks for.

ghost use Rattle.std.specs.Prelude.{◌≡◌, ◌*◌, ◌+◌, ◌<◌, ◌≤◌, ℕ, true, false, [], ◌∷◌, length};
ghost use Rattle.std.specs.Prelude.{IfNone, IfSome, MatchOption};
ghost use Rattle.ec_regs.specs.Pairs.{pair_count, first_logical};
ghost use Rattle.ec_regs.specs.declared.registers.TheConstants.{FMMU_COUNT};
ghost use Rattle.ec_check.specs.Line.{controllers_by, fmmu_of};
ghost use Rattle.ec_check.specs.Order.{IsBefore, IsLowest};
ghost use Rattle.ec_check.specs.Rules.{MapsLogical};
ghost use Rattle.ec_map.specs.First.{Answers};
ghost use Rattle.ec_map.specs.Item.{items_by};
ghost use Rattle.ec_map.specs.Covered.{goes, asks, asks_bit, is_asked, IsGap, IsCovered, gap_numbers};
ghost use Rattle.ec_map.specs.Covered.{way_number};

use crate::asking::Asking;
use crate::item::Item;
use crate::line::fmmu_of;
use ec_check::Mapped;
use ec_regs::Fmmu;
use ec_regs::registers::FMMU_COUNT;
use ec_wire::Kind;

/// A way between the master's image and a slave's memory.
#[derive(Clone, Copy, PartialEq, Eq, Debug)]
pub enum Way {
    /// The master reads.
    Reads,
    /// The master writes.
    Writes,
}

/// A logical bit that an FMMU maps and no item of a cycle asks for (IEC 61158-4-12, FMMU). Slaves and FMMUs
/// are numbered from 0.
#[derive(Clone, Copy, PartialEq, Eq, Debug)]
pub struct Gap {
    /// The slave on which the FMMU stands.
    pub slave: usize,
    /// The number of the FMMU.
    pub fmmu: usize,
    /// Does the master read or write through the FMMU?
    pub way: Way,
    /// The logical bit, 8 * byte address + bit.
    pub bit: u64,
}

/// The first logical bit that an FMMU of the line maps and no item asks for: that of the first slave, of its
/// first FMMU, and the lowest one. A bit through which the master reads is asked for by a logical read or
/// exchange, one through which it writes by a logical write or exchange; of an FMMU of both ways reads come
/// first. `None` says that each mapped bit is asked for. It goes from the end of one item to that of the
/// next.
pub fn first_gap<S: Mapped, I: Asking>(line: &[S], items: &[I]) -> Option<Gap>
    ensures gap { IfSome result
        (IsGap (controllers_by S.controller line.now) (items_by I.item items.now)) }
    ensures first { IfSome result (λ gap. (other : Gap)
        → IsGap (controllers_by S.controller line.now) (items_by I.item items.now) other
        → ¬ IsBefore (gap_numbers other) (gap_numbers gap)) }
    ensures covered { IfNone result
        (IsCovered (controllers_by S.controller line.now) (items_by I.item items.now)) }
{
    for slave in 0..line.len() {
        match gap_of_slave(line, items, slave) {
            Some(gap) => return Some(gap),
            None => {}
        }
    }
    None
}

/// The first logical bit that an FMMU of the line maps and no item asks for, as [`first_gap`] says it, of a
/// master's items.
pub fn first_uncovered<S: Mapped>(line: &[S], items: &[Item]) -> Option<Gap>
    ensures gap { IfSome result (IsGap (controllers_by S.controller line.now) items.now) }
    ensures first { IfSome result (λ gap. (other : Gap)
        → IsGap (controllers_by S.controller line.now) items.now other
        → ¬ IsBefore (gap_numbers other) (gap_numbers gap)) }
    ensures covered { IfNone result (IsCovered (controllers_by S.controller line.now) items.now) }
{
    first_gap(line, items)
}

/// The first gap of a slave.
fn gap_of_slave<S: Mapped, I: Asking>(line: &[S], items: &[I], slave: usize) -> Option<Gap>
    requires { slave < length line.now }
    ensures { Answers gap_numbers
        (IsGap (controllers_by S.controller line.now) (items_by I.item items.now)) (slave ∷ []) result }
{
    for fmmu in 0..FMMU_COUNT {
        match gap_of_fmmu(line, items, slave, fmmu) {
            Some(gap) => return Some(gap),
            None => {}
        }
    }
    None
}

/// The first gap of an FMMU: of its reads, and then of its writes.
fn gap_of_fmmu<S: Mapped, I: Asking>(
    line: &[S],
    items: &[I],
    slave: usize,
    fmmu: usize,
) -> Option<Gap>
    requires slave { slave < length line.now }
    requires fmmu { fmmu < FMMU_COUNT }
    ensures { Answers gap_numbers
        (IsGap (controllers_by S.controller line.now) (items_by I.item items.now))
        (slave ∷ fmmu ∷ []) result }
{
    match gap_of_way(line, items, slave, fmmu, Way::Reads) {
        Some(gap) => Some(gap),
        None => gap_of_way(line, items, slave, fmmu, Way::Writes),
    }
}

/// The first gap of an FMMU on one way.
fn gap_of_way<S: Mapped, I: Asking>(
    line: &[S],
    items: &[I],
    slave: usize,
    fmmu: usize,
    way: Way,
) -> Option<Gap>
    requires slave { slave < length line.now }
    requires fmmu { fmmu < FMMU_COUNT }
    ensures { Answers gap_numbers
        (IsGap (controllers_by S.controller line.now) (items_by I.item items.now))
        (slave ∷ fmmu ∷ way_number way ∷ []) result }
{
    let record = fmmu_of(line, slave, fmmu);
    if !goes(way, &record) {
        return None;
    }
    match lowest_gap(&record, items, way) {
        None => None,
        Some(bit) => Some(Gap {
            slave,
            fmmu,
            way,
            bit,
        }),
    }
}

/// Does the master read, or write, through the FMMU?
fn goes(way: Way, fmmu: &Fmmu) -> bool
    ensures { result ≡ goes way fmmu.now }
{
    match way {
        Way::Reads => fmmu.reads(),
        Way::Writes => fmmu.writes(),
    }
}

/// The lowest logical bit that the FMMU maps and no item asks for.
fn lowest_gap<I: Asking>(fmmu: &Fmmu, items: &[I], way: Way) -> Option<u64>
    ensures { IsLowest
        (λ l. MapsLogical fmmu.now l × (is_asked way l (items_by I.item items.now) ≡ false)) result }
{
    let from = fmmu.first_logical();
    lowest_unasked(items, way, from, from + u64::from(fmmu.mapped_bits()))
}

/// The lowest logical bit, from one on and below another, that no item asks for.
fn lowest_unasked<I: Asking>(items: &[I], way: Way, from: u64, to: u64) -> Option<u64>
    ensures { IsLowest
        (λ l. (from ≤ l) × (l < to) × (is_asked way l (items_by I.item items.now) ≡ false)) result }
{
    let mut bit = from;
    while bit < to {
        match asked_until(items, way, bit) {
            Some(end) => bit = end,
            None => return Some(bit),
        }
    }
    None
}

/// Where an item ends that asks for the bit, in bits; each from this one up to there is asked for.
fn asked_until<I: Asking>(items: &[I], way: Way, bit: u64) -> Option<u64>
    ensures { MatchOption result (is_asked way bit (items_by I.item items.now) ≡ false)
        (λ end. (bit < end)
        × ((l : ℕ) → bit ≤ l → l < end → is_asked way l (items_by I.item items.now) ≡ true)) }
{
    for item in items {
        if asks_bit(item, way, bit) {
            return Some(end_of(item));
        }
    }
    None
}

/// Does the item read, or write, the logical bit?
fn asks_bit<I: Asking>(item: &I, way: Way, bit: u64) -> bool
    ensures { result ≡ asks_bit way bit (I.item item.now) }
{
    let first = 8 * u64::from(item.address());
    asks(way, item.kind()) && first <= bit && bit - first < 8 * u64::from(item.count())
}

/// The bit behind a logical item's last one.
fn end_of<I: Asking>(item: &I) -> u64
    ensures { result ≡ 8 * ((I.item item.now).address + length (I.item item.now).payload) }
{
    8 * (u64::from(item.address()) + u64::from(item.count()))
}

/// Does an item of the kind read, or write, the logical image?
fn asks(way: Way, kind: Kind) -> bool
    ensures { result ≡ asks way kind }
{
    match way {
        Way::Reads => matches!(kind, Kind::Lrd | Kind::Lrw),
        Way::Writes => matches!(kind, Kind::Lwr | Kind::Lrw),
    }
}
