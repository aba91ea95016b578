//! Do the items of a cycle hand each area of outputs that a line maps to its application, by the slaves'
//! records alone?

ghost use Rattle.std.specs.Prelude.{◌≡◌};
ghost use Rattle.rummymaple.specs.Shown.{left_by, why_code, IsShownEnd, shown_answer};
ghost use Rattle.rummymaple.specs.declared.shown.ShownEnd.{ShownEnd};

use crate::covered::first_none;
use crate::item::Item;
use crate::numbers::Code;
use ec_check::Records;
use ec_map::{NotShown, WhyNotShown, first_area_not_shown};

/// How the search for an area that is not shown whole ended.
#[derive(Clone, Copy)]
pub enum ShownEnd {
    /// Each mapped area of outputs is shown whole.
    Shown,
    /// This is the first that is not.
    Unshown(NotShown),
    /// This item is none.
    NoItem(usize, Code),
}

/// The first mapped area of outputs that is not shown whole, in numbers: `struct rmp_not_shown` of the
/// header.
#[repr(C)]
#[derive(Clone, Copy)]
pub struct ShownAnswer {
    /// The slave of the area, or the item that is none.
    pub at: usize,
    /// The number of the area's sync manager.
    pub sync_manager: usize,
    /// The item that writes a byte of the area and not its last one, where there is one.
    pub item: usize,
    /// How it ended: good where each area is shown whole, else why one is not, or why an item is none.
    pub code: u32,
}

/// The item by which an area is left; 0 where no item completes it.
fn left_by(why: WhyNotShown) -> usize
    ensures { result ≡ left_by why }
{
    match why {
        WhyNotShown::LeftBy { item } => item,
        WhyNotShown::NeverCompleted => 0,
    }
}

/// The code of why an area is not shown whole.
fn why_code(why: WhyNotShown) -> Code
    ensures { result ≡ why_code why }
{
    match why {
        WhyNotShown::LeftBy { .. } => Code::LeftBy,
        WhyNotShown::NeverCompleted => Code::NeverCompleted,
    }
}

impl ShownEnd {
    /// The end in numbers.
    fn answer(self) -> ShownAnswer
        ensures { result ≡ shown_answer self }
    {
        let (at, sync_manager, item, code) = match self {
            ShownEnd::Shown => (0, 0, 0, Code::Good),
            ShownEnd::Unshown(found) => (
                found.slave,
                found.sync_manager,
                left_by(found.why),
                why_code(found.why),
            ),
            ShownEnd::NoItem(at, why) => (at, 0, 0, why),
        };
        ShownAnswer {
            at,
            sync_manager,
            item,
            code: code.number(),
        }
    }
}

/// Searches for a mapped area of outputs that is not shown whole.
fn unshown(line: &[Records], items: &[Item]) -> ShownEnd
    ensures { IsShownEnd line.now items.now result }
{
    if let Some(none) = first_none(items) {
        return ShownEnd::NoItem(none.at, none.why);
    }
    match first_area_not_shown(line, items) {
        Some(found) => ShownEnd::Unshown(found),
        None => ShownEnd::Shown,
    }
}

/// Says whether the items hand each area of outputs that a line of slaves with these records maps to its
/// application: a controller hands it on when the last byte is written, so each item that writes a byte of
/// the area is to write the last one too, and one item is to write it; else the first area that is not shown
/// so is named, by the slave and the number of its sync manager, and the item that leaves it.
#[unsafe(no_mangle)]
pub extern "C" fn rmp_shown(line: &[Records], items: &[Item]) -> ShownAnswer
    ensures { (end : ShownEnd) × (result ≡ shown_answer end) × IsShownEnd line.now items.now end }
{
    unshown(line, items).answer()
}
