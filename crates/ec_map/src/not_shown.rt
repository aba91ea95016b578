//! Which areas of outputs of a line the items of a cycle do not hand to their applications.

ghost use Rattle.std.specs.Prelude.{◌≡◌, ◌↔◌, ◌+◌, ◌-◌, ◌<◌, ◌≤◌, ℕ, true, [], ◌∷◌, length};
ghost use Rattle.std.specs.Prelude.{IfNone, IfSome, MatchOption, IsTrue, IsFalse};
ghost use Rattle.ec_regs.specs.SyncMan.{guards_outputs};
ghost use Rattle.ec_regs.specs.declared.registers.TheConstants.{SYNC_MANAGER_COUNT, MEMORY_SIZE};
ghost use Rattle.ec_areas.specs.Showing.{last_byte};
ghost use Rattle.ec_check.specs.Line.{controllers_by, sync_manager_of};
ghost use Rattle.ec_check.specs.Order.{IsBefore, IsLowest};
ghost use Rattle.ec_map.specs.First.{Answers, IsFirst};
ghost use Rattle.ec_map.specs.Item.{items_by};
ghost use Rattle.ec_map.specs.NotShown.{IsNotShown, AreShown, not_shown_numbers, IsMappedArea, IsWhy};
ghost use Rattle.ec_map.specs.NotShown.{why_numbers, Leaves, LeavesBytes, WritesBytes};

use crate::asking::Asking;
use crate::item::Item;
use crate::line::sync_manager_of;
use crate::written::{maps_some, writes_some};
use ec_check::Mapped;
use ec_regs::registers::SYNC_MANAGER_COUNT;
use ec_regs::{AddressRange, SyncMan};

/// Why the application of a slave is not shown what the master writes.
#[derive(Clone, Copy, PartialEq, Eq, Debug)]
pub enum WhyNotShown {
    /// An item writes a byte of the area and not its last one.
    LeftBy {
        /// The number of the item, from 0.
        item: usize,
    },
    /// No item writes the last byte of the area.
    NeverCompleted,
}

/// An area of outputs that FMMUs map and that is not shown whole (IEC 61158-4-12, sync manager, buffered
/// mode). Slaves and sync managers are numbered from 0.
#[derive(Clone, Copy, PartialEq, Eq, Debug)]
pub struct NotShown {
    /// The slave.
    pub slave: usize,
    /// The sync manager of the area.
    pub sync_manager: usize,
    /// Why it is not shown.
    pub why: WhyNotShown,
}

/// The first area of outputs, of the first slave and its first sync manager, that FMMUs for writing map and
/// that an item writes without its last byte, or else whose last byte no item writes: a controller hands an
/// area to its application when the last byte is written. `None` says that each item which writes such an
/// area completes it, and that one does.
pub fn first_area_not_shown<S: Mapped, I: Asking>(line: &[S], items: &[I]) -> Option<NotShown>
    ensures not_shown { IfSome result
        (IsNotShown (controllers_by S.controller line.now) (items_by I.item items.now)) }
    ensures first { IfSome result (λ found. (other : NotShown)
        → IsNotShown (controllers_by S.controller line.now) (items_by I.item items.now) other
        → ¬ IsBefore (not_shown_numbers other) (not_shown_numbers found)) }
    ensures shown { IfNone result
        (AreShown (controllers_by S.controller line.now) (items_by I.item items.now)) }
{
    for slave in 0..line.len() {
        match not_shown_of_slave(line, items, slave) {
            Some(found) => return Some(found),
            None => {}
        }
    }
    None
}

/// The first area of outputs that is mapped and not shown whole, as [`first_area_not_shown`] says it, of a
/// master's items.
pub fn first_not_shown<S: Mapped>(line: &[S], items: &[Item]) -> Option<NotShown>
    ensures not_shown { IfSome result (IsNotShown (controllers_by S.controller line.now) items.now) }
    ensures first { IfSome result (λ found. (other : NotShown)
        → IsNotShown (controllers_by S.controller line.now) items.now other
        → ¬ IsBefore (not_shown_numbers other) (not_shown_numbers found)) }
    ensures shown { IfNone result (AreShown (controllers_by S.controller line.now) items.now) }
{
    first_area_not_shown(line, items)
}

/// The first area of a slave.
fn not_shown_of_slave<S: Mapped, I: Asking>(
    line: &[S],
    items: &[I],
    slave: usize,
) -> Option<NotShown>
    requires { slave < length line.now }
    ensures { Answers not_shown_numbers
        (IsNotShown (controllers_by S.controller line.now) (items_by I.item items.now)) (slave ∷ []) result }
{
    for number in 0..SYNC_MANAGER_COUNT {
        match not_shown_of_area(line, items, slave, number) {
            Some(found) => return Some(found),
            None => {}
        }
    }
    None
}

/// An area of a slave, if it is not shown.
fn not_shown_of_area<S: Mapped, I: Asking>(
    line: &[S],
    items: &[I],
    slave: usize,
    sync_manager: usize,
) -> Option<NotShown>
    requires slave { slave < length line.now }
    requires number { sync_manager < SYNC_MANAGER_COUNT }
    ensures { Answers not_shown_numbers
        (IsNotShown (controllers_by S.controller line.now) (items_by I.item items.now))
        (slave ∷ sync_manager ∷ []) result }
{
    if !is_mapped_area(line, slave, sync_manager) {
        return None;
    }
    match why_not_shown(line, items, slave, sync_manager) {
        None => None,
        Some(why) => Some(NotShown {
            slave,
            sync_manager,
            why,
        }),
    }
}

/// Is the area one of outputs that FMMUs for writing map?
fn is_mapped_area<S: Mapped>(line: &[S], slave: usize, number: usize) -> bool
    requires slave { slave < length line.now }
    requires number { number < SYNC_MANAGER_COUNT }
    ensures { (result ≡ true) ↔ IsMappedArea (controllers_by S.controller line.now) slave number }
{
    let manager = sync_manager_of(line, slave, number);
    manager.guards_outputs() && maps_some(line, slave, manager.area())
}

/// Why an area of outputs is not shown, if it is not.
fn why_not_shown<S: Mapped, I: Asking>(
    line: &[S],
    items: &[I],
    slave: usize,
    number: usize,
) -> Option<WhyNotShown>
    requires slave { slave < length line.now }
    requires number { number < SYNC_MANAGER_COUNT }
    requires outputs { guards_outputs
        (sync_manager_of (controllers_by S.controller line.now) slave number) ≡ true }
    ensures { MatchOption result
        ((why : WhyNotShown)
        → ¬ IsWhy (controllers_by S.controller line.now) (items_by I.item items.now) slave number why)
        (IsFirst why_numbers
        (IsWhy (controllers_by S.controller line.now) (items_by I.item items.now) slave number)) }
{
    let manager = sync_manager_of(line, slave, number);
    let last = last_byte(&manager);
    match first_left(line, items, slave, manager.area(), last) {
        Some(item) => Some(WhyNotShown::LeftBy { item }),
        None => {
            if is_written(line, items, slave, last) {
                None
            } else {
                Some(WhyNotShown::NeverCompleted)
            }
        }
    }
}

/// The last byte of an area that has one.
fn last_byte(manager: &SyncMan) -> AddressRange
    requires some { 1 ≤ manager.now.length }
    requires end { manager.now.start + manager.now.length ≤ MEMORY_SIZE }
    ensures { result ≡ record { first = last_byte manager.now; count = 1 } }
{
    AddressRange {
        first: manager.start + manager.length - 1,
        count: 1,
    }
}

/// The first item that writes one of some bytes of the slave, and none of others.
fn first_left<S: Mapped, I: Asking>(
    line: &[S],
    items: &[I],
    slave: usize,
    area: AddressRange,
    last: AddressRange,
) -> Option<usize>
    requires slave { slave < length line.now }
    requires area { 1 ≤ area.count }
    requires last { 1 ≤ last.count }
    ensures { IsLowest
        (LeavesBytes (controllers_by S.controller line.now) (items_by I.item items.now) slave area last)
        result }
{
    for k in 0..items.len() {
        if leaves(line, &items[k], slave, area, last) {
            return Some(k);
        }
    }
    None
}

/// Does the item write one of some bytes of the slave, and none of others?
fn leaves<S: Mapped, I: Asking>(
    line: &[S],
    item: &I,
    slave: usize,
    area: AddressRange,
    last: AddressRange,
) -> bool
    requires slave { slave < length line.now }
    requires area { 1 ≤ area.count }
    requires last { 1 ≤ last.count }
    ensures { (result ≡ true)
        ↔ Leaves (controllers_by S.controller line.now) slave area last (I.item item.now) }
{
    writes_some(line, slave, item, area) && !writes_some(line, slave, item, last)
}

/// Does an item write one of these bytes of the slave?
fn is_written<S: Mapped, I: Asking>(
    line: &[S],
    items: &[I],
    slave: usize,
    bytes: AddressRange,
) -> bool
    requires slave { slave < length line.now }
    requires some { 1 ≤ bytes.count }
    ensures yes { IsTrue result
        → (k : ℕ)
        × WritesBytes (controllers_by S.controller line.now) (items_by I.item items.now) slave bytes k }
    ensures no { IsFalse result
        → (k : ℕ)
        → ¬ WritesBytes (controllers_by S.controller line.now) (items_by I.item items.now) slave bytes k }
{
    for k in 0..items.len() {
        if writes_some(line, slave, &items[k], bytes) {
            return true;
        }
    }
    false
}
