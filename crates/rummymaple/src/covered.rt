//! Do the items of a cycle ask for all that a line maps, by the slaves' records alone?

ghost use Rattle.std.specs.Prelude.{◌≡◌, MatchOption};
ghost use Rattle.ec_map.specs.Covered.{way_number};
ghost use Rattle.rummymaple.specs.Asked.{request, request_fault, AreItems, IsFirstNone, IsGapEnd};
ghost use Rattle.rummymaple.specs.Asked.{gap_answer};
ghost use Rattle.rummymaple.specs.declared.covered.GapEnd.{GapEnd};

use crate::item::{Item, Refused, is_in_range, kind_of};
use crate::numbers::Code;
use ec_check::Records;
use ec_map::{Asking, Gap, Way, first_gap};
use ec_wire::{Kind, MAX_DATA};

/// How the search for a bit that no item asks for ended.
#[derive(Clone, Copy)]
pub enum GapEnd {
    /// Each bit that is mapped is asked for.
    Covered,
    /// This is the first that is not.
    Uncovered(Gap),
    /// This item is none.
    NoItem(usize, Code),
}

/// The first bit that is mapped and that no item asks for, in numbers: `struct rmp_gap` of the header.
#[repr(C)]
#[derive(Clone, Copy)]
pub struct GapAnswer {
    /// The slave of the FMMU, or the item that is none.
    pub at: usize,
    /// The number of the FMMU.
    pub fmmu: usize,
    /// The logical bit, 8 * byte + bit.
    pub bit: u64,
    /// 0 where the master reads through the FMMU, 1 where it writes.
    pub way: u32,
    /// How it ended: good where each bit is asked for, else that one is not, or why an item is none.
    pub code: u32,
}

impl GapEnd {
    /// The end in numbers.
    fn answer(self) -> GapAnswer
        ensures { result ≡ gap_answer self }
    {
        let (at, fmmu, bit, way, code) = match self {
            GapEnd::Covered => (0, 0, 0, 0, Code::Good),
            GapEnd::Uncovered(gap) => (
                gap.slave,
                gap.fmmu,
                gap.bit,
                way_number(gap.way),
                Code::NotAsked,
            ),
            GapEnd::NoItem(at, why) => (at, 0, 0, 0, why),
        };
        GapAnswer {
            at,
            fmmu,
            bit,
            way,
            code: code.number(),
        }
    }
}

/// The number of a way.
fn way_number(way: Way) -> u32
    ensures { result ≡ way_number way }
{
    match way {
        Way::Reads => 0,
        Way::Writes => 1,
    }
}

/// An item asks what it asks, whatever its data.
impl Asking for Item {
    ghost item = { request };

    fn kind(&self) -> Kind {
        Item::kind(self)
    }

    fn address(&self) -> u32 {
        self.address
    }

    fn count(&self) -> u16 {
        self.length
    }
}

/// Why there is no item that asks it.
fn request_fault(item: &Item) -> Option<Code>
    ensures { result ≡ request_fault item.now }
{
    let Some(kind) = kind_of(item.kind) else {
        return Some(Code::BadKind);
    };
    if item.length == 0 || usize::from(item.length) > MAX_DATA {
        return Some(Code::BadLength);
    }
    if !is_in_range(kind, item.address, item.length) {
        return Some(Code::BadRange);
    }
    None
}

/// The first item that is none.
pub(crate) fn first_none(items: &[Item]) -> Option<Refused>
    ensures { MatchOption result (AreItems items.now) (λ none. IsFirstNone items.now none.at none.why) }
{
    for k in 0..items.len() {
        if let Some(why) = request_fault(&items[k]) {
            return Some(Refused { at: k, why });
        }
    }
    None
}

/// Searches for a bit that no item asks for.
fn gap(line: &[Records], items: &[Item]) -> GapEnd
    ensures { IsGapEnd line.now items.now result }
{
    if let Some(none) = first_none(items) {
        return GapEnd::NoItem(none.at, none.why);
    }
    match first_gap(line, items) {
        Some(gap) => GapEnd::Uncovered(gap),
        None => GapEnd::Covered,
    }
}

/// Says whether the items ask for each logical bit that a line of slaves with these records maps: a bit
/// through which the master reads by a logical read or exchange, one through which it writes by a logical
/// write or exchange; else the first that is not asked for is named, by the slave and the number of its FMMU.
#[unsafe(no_mangle)]
pub extern "C" fn rmp_covered(line: &[Records], items: &[Item]) -> GapAnswer
    ensures { (end : GapEnd) × (result ≡ gap_answer end) × IsGapEnd line.now items.now end }
{
    gap(line, items).answer()
}
