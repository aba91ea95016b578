//! The range of addresses that a physical command reaches, and what of it the sync managers let it read and
//! write (IEC 61158-4-12, physical memory access, sync manager and mailbox).

ghost use Rattle.std.specs.Prelude.{◌≡◌, ◌+◌, ◌≤◌, ◌<◌, ◌&&◌, ◌||◌, not, ℕ, List, IsTrue, count_by, position};
ghost use Rattle.std.specs.Prelude.{if◌then◌else◌, length};
ghost use Rattle.std.specs.Option.{IfSome};
ghost use Rattle.ec_regs.specs.declared.registers.TheConstants.{MEMORY_SIZE, PROCESS_MEMORY};
ghost use Rattle.ec_areas.specs.Records.{sync_managers_of};
ghost use Rattle.std.specs.List.{list_any};
ghost use Rattle.ec_regs.specs.AddressRange.{within};
ghost use Rattle.ec_regs.specs.declared.address_range.AddressRange.{AddressRange};
ghost use Rattle.ec_regs.specs.SyncMan.{is_mailbox, master_reads, master_writes};
ghost use Rattle.ec_areas.specs.Ranges.{is_range, overlaps, meets, meets_hidden, meets_locked};
ghost use Rattle.ec_areas.specs.Ranges.{meets_one};
ghost use Rattle.ec_areas.specs.Ranges.{is_area, gives_mail, takes_mail, emptied_by, filled_by};
ghost use Rattle.ec_areas.specs.Ranges.{serves_physical_read, serves_physical_write, is_in_sync_manager};
ghost use Rattle.ec_areas.specs.Ranges.{is_writable_field, takes_writes, some_address, writable_ranges};
ghost use Rattle.ec_areas.specs.Ranges.{has_sii, is_of_device, IsOnArrival};

use ec_regs::registers::{
    AL_CONTROL, CONTROLLER_TYPE, DL_CONTROL, ERROR_COUNTERS, ERROR_COUNTERS_SIZE, EVENT_MASK,
    FMMU_BASE, FMMU_COUNT, FMMU_SIZE, MEMORY_SIZE, PDI_WATCHDOG, PROCESS_DATA_WATCHDOG,
    PROCESS_MEMORY, PROCESS_MEMORY_SIZE, SII_BASE, SII_SIZE, STATION_ADDRESS,
    SYNC_MANAGER_ACTIVATE, SYNC_MANAGER_BASE, SYNC_MANAGER_COUNT, SYNC_MANAGER_SIZE,
    SYNC_MANAGER_STATUS, WATCHDOG_DIVIDER,
};
use ec_regs::{AddressRange, PlannedSyncMan, SyncManagers};

/// Where the status byte stands in a sync manager's record.
const STATUS_OFFSET: u32 = SYNC_MANAGER_STATUS as u32;

/// Where the activate byte stands in it.
const ACTIVATE_OFFSET: u32 = SYNC_MANAGER_ACTIVATE as u32;

/// How many bytes the station address and AL control have each.
const WORD: u16 = 2;

/// What the master may always write: the station address, AL control, the FMMUs, and process memory.
const WRITABLE: [AddressRange; 4] = [
    AddressRange {
        first: STATION_ADDRESS,
        count: WORD,
    },
    AddressRange {
        first: AL_CONTROL,
        count: WORD,
    },
    AddressRange {
        first: FMMU_BASE,
        count: FMMU_SIZE * FMMU_COUNT as u16,
    },
    AddressRange {
        first: PROCESS_MEMORY,
        count: PROCESS_MEMORY_SIZE,
    },
];

/// What the master may write beside of a controller that has a slave information interface: DL control, the
/// mask of its events, the counters of errors at its ports, the divider and both times of its watchdogs, and
/// the registers of that interface.
const OF_DEVICE: [AddressRange; 7] = [
    AddressRange {
        first: DL_CONTROL,
        count: 2 * WORD,
    },
    AddressRange {
        first: EVENT_MASK,
        count: WORD,
    },
    AddressRange {
        first: ERROR_COUNTERS,
        count: ERROR_COUNTERS_SIZE,
    },
    AddressRange {
        first: WATCHDOG_DIVIDER,
        count: WORD,
    },
    AddressRange {
        first: PDI_WATCHDOG,
        count: WORD,
    },
    AddressRange {
        first: PROCESS_DATA_WATCHDOG,
        count: WORD,
    },
    AddressRange {
        first: SII_BASE,
        count: SII_SIZE,
    },
];

/// The records of the sync managers.
const SYNC_MANAGERS: AddressRange = AddressRange {
    first: SYNC_MANAGER_BASE,
    count: SYNC_MANAGER_SIZE * SYNC_MANAGER_COUNT as u16,
};

/// Are there bytes in the range, and do all of them lie in the memory?
fn is_range(range: AddressRange) -> bool
    ensures value { result ≡ is_range range.first range.count }
    ensures inside { IsTrue result → range.first + range.count ≤ MEMORY_SIZE }
{
    range.count >= 1 && u32::from(range.first) + u32::from(range.count) <= u32::from(MEMORY_SIZE)
}

/// Does the range end before process memory? Then it meets no area, since they all lie there: a command that
/// reaches registers, as most do, need ask no sync manager.
fn ends_before_areas(range: AddressRange) -> bool
    ensures { IsTrue result → range.first + range.count ≤ PROCESS_MEMORY }
{
    u32::from(range.first) + u32::from(range.count) <= u32::from(PROCESS_MEMORY)
}

/// Does the range share a byte with the area that the sync manager's record tells?
fn overlaps(manager: &PlannedSyncMan, range: AddressRange) -> bool
    ensures { result ≡ overlaps manager.now range.first range.count }
{
    manager.area().meets(&range)
}

/// Does the range share a byte with the area of the sync manager?
#[tactic(auto, unfolding(crate::specs::Ranges::meets))]
fn meets(manager: &PlannedSyncMan, range: AddressRange) -> bool
    ensures { result ≡ meets manager.now range.first range.count }
{
    manager.is_active() && overlaps(manager, range)
}

/// Does the range share a byte with the area, and is the area kept from reads?
#[tactic(auto, unfolding(crate::specs::Ranges::meets))]
fn meets_kept_from_reads(manager: &PlannedSyncMan, range: AddressRange) -> bool
    ensures { result
        ≡ (meets manager.now range.first range.count
        && (is_mailbox manager.now || master_writes manager.now)) }
{
    manager.keeps_reads_off() && overlaps(manager, range)
}

/// Does the range share a byte with the area, and is the area kept from writes?
#[tactic(auto, unfolding(crate::specs::Ranges::meets))]
fn meets_kept_from_writes(manager: &PlannedSyncMan, range: AddressRange) -> bool
    ensures { result
        ≡ (meets manager.now range.first range.count
        && (is_mailbox manager.now || master_reads manager.now)) }
{
    manager.keeps_writes_off() && overlaps(manager, range)
}

/// Does the range share a byte with an area that is kept from reads?
pub(crate) fn meets_hidden(managers: &[PlannedSyncMan], range: AddressRange) -> bool
    ensures { result ≡ meets_hidden managers.now range.first range.count }
{
    if ends_before_areas(range) {
        return false;
    }
    managers
        .iter()
        .any(|manager| meets_kept_from_reads(manager, range))
}

/// Does the range share a byte with an area that is kept from writes?
pub(crate) fn meets_locked(managers: &[PlannedSyncMan], range: AddressRange) -> bool
    ensures { result ≡ meets_locked managers.now range.first range.count }
{
    if ends_before_areas(range) {
        return false;
    }
    managers
        .iter()
        .any(|manager| meets_kept_from_writes(manager, range))
}

/// With how many areas does the range share a byte?
fn areas_met(managers: &[PlannedSyncMan], range: AddressRange) -> usize
    ensures { result ≡ count_by (λ s. meets s range.first range.count) managers.now }
{
    managers
        .iter()
        .filter(|manager| meets(manager, range))
        .count()
}

/// Does the range meet one area alone?
fn meets_one(managers: &[PlannedSyncMan], range: AddressRange) -> bool
    ensures { result ≡ meets_one managers.now range.first range.count }
{
    areas_met(managers, range) == 1
}

/// Is the range the whole area of the sync manager?
fn is_area(manager: &PlannedSyncMan, range: AddressRange) -> bool
    ensures { result ≡ is_area manager.now range.first range.count }
{
    manager.is_active() && manager.area() == range
}

/// Does a read of the range take the mail of this sync manager?
#[tactic(auto, unfolding(crate::specs::Ranges::gives_mail))]
fn gives_mail(manager: &PlannedSyncMan, range: AddressRange) -> bool
    ensures { result ≡ gives_mail range.first range.count manager.now }
{
    let record = manager.manager();
    is_area(manager, range) && record.is_mailbox() && record.master_reads() && record.is_full()
}

/// Does a write of the range put mail into this sync manager's mailbox?
#[tactic(auto, unfolding(crate::specs::Ranges::takes_mail))]
fn takes_mail(manager: &PlannedSyncMan, range: AddressRange) -> bool
    ensures { result ≡ takes_mail range.first range.count manager.now }
{
    let record = manager.manager();
    is_area(manager, range) && record.is_mailbox() && record.master_writes() && !record.is_full()
}

/// The number of the first sync manager that gives its mail to a read of the range.
fn first_giver(managers: &[PlannedSyncMan], range: AddressRange) -> Option<usize>
    ensures { result ≡ position (gives_mail range.first range.count) managers.now }
{
    managers
        .iter()
        .position(|manager| gives_mail(manager, range))
}

/// The number of the first sync manager that takes the mail of a write of the range.
fn first_taker(managers: &[PlannedSyncMan], range: AddressRange) -> Option<usize>
    ensures { result ≡ position (takes_mail range.first range.count) managers.now }
{
    managers
        .iter()
        .position(|manager| takes_mail(manager, range))
}

/// The number of a sync manager whose area is the range, where the range meets that area alone. Few ranges
/// are an area, so those that they meet are counted last.
fn if_alone(
    managers: &[PlannedSyncMan],
    range: AddressRange,
    number: Option<usize>,
) -> Option<usize>
    ensures { result ≡ (if meets_one managers.now range.first range.count then number else None) }
{
    if number.is_some() && meets_one(managers, range) {
        number
    } else {
        None
    }
}

/// The number of the sync manager whose mailbox a read of the range empties.
#[tactic(auto, unfolding(crate::specs::Ranges::emptied_by))]
pub fn emptied_by(managers: &[PlannedSyncMan], range: AddressRange) -> Option<usize>
    ensures { result ≡ emptied_by managers.now range.first range.count }
{
    if ends_before_areas(range) {
        return None;
    }
    if_alone(managers, range, first_giver(managers, range))
}

/// The number of the sync manager whose mailbox a write of the range fills.
#[tactic(auto, unfolding(crate::specs::Ranges::filled_by))]
pub fn filled_by(managers: &[PlannedSyncMan], range: AddressRange) -> Option<usize>
    ensures { result ≡ filled_by managers.now range.first range.count }
{
    if ends_before_areas(range) {
        return None;
    }
    if_alone(managers, range, first_taker(managers, range))
}

/// Is a read of the range served: of bytes that no area keeps from reads, or of a whole mailbox?
pub fn serves_physical_read(managers: &[PlannedSyncMan], range: AddressRange) -> bool
    ensures value { result ≡ serves_physical_read managers.now range.first range.count }
    ensures inside { IsTrue result → range.first + range.count ≤ MEMORY_SIZE }
{
    is_range(range) && (!meets_hidden(managers, range) || emptied_by(managers, range).is_some())
}

/// May the master write the byte of a sync manager's record at an address: its activate byte, or its start,
/// length and control bytes while it is not active? The records are those on arrival.
fn sync_manager_takes(managers: &SyncManagers, address: u32) -> bool
    ensures { (memory : List ℕ) → managers.now ≡ sync_managers_of memory → result
        ≡ (is_in_sync_manager address && is_writable_field memory address) }
{
    if !SYNC_MANAGERS.contains(address) {
        return false;
    }
    let place = address - u32::from(SYNC_MANAGER_BASE);
    let manager = &managers[(place / u32::from(SYNC_MANAGER_SIZE)) as usize];
    let offset = place % u32::from(SYNC_MANAGER_SIZE);
    offset == ACTIVATE_OFFSET || offset < STATUS_OFFSET && !manager.is_active()
}

/// May the master always write the byte at an address?
fn is_always_writable(address: u32) -> bool
    ensures { result ≡ list_any (λ (r : AddressRange). within r.first r.count address) writable_ranges }
{
    WRITABLE.iter().any(|range| range.contains(address))
}

/// Has the controller with this memory a slave information interface?
pub fn has_sii(memory: &[u8]) -> bool
    requires { length memory.now ≡ MEMORY_SIZE }
    ensures { result ≡ has_sii memory.now }
{
    memory[CONTROLLER_TYPE as usize] != 0
}

/// Does a device take what is written to the byte at an address, beside what every controller takes?
fn is_of_device(address: u32) -> bool
    ensures { result ≡ is_of_device address }
{
    OF_DEVICE.iter().any(|range| range.contains(address))
}

/// May the master write the byte at an address beside those that it may always write, if the controller has
/// a slave information interface?
fn device_takes(sii: bool, address: u32) -> bool
    ensures { result ≡ (is_of_device address && sii) }
{
    sii && is_of_device(address)
}

/// Does the byte at an address take what a physical command writes? The records are those on arrival, and so
/// is whether there is a slave information interface.
#[tactic(auto, unfolding(crate::specs::Ranges::takes_writes))]
pub fn takes_writes(managers: &SyncManagers, sii: bool, address: u32) -> bool
    ensures { (memory : List ℕ) → IsOnArrival memory managers.now sii → result
        ≡ takes_writes memory address }
{
    is_always_writable(address)
        || device_takes(sii, address)
        || sync_manager_takes(managers, address)
}

/// Does one byte of the range take what a physical command writes? The records are those on arrival.
fn some_byte_takes_writes(managers: &SyncManagers, sii: bool, range: AddressRange) -> bool
    ensures { (memory : List ℕ) → IsOnArrival memory managers.now sii → result
        ≡ some_address (takes_writes memory) range.first range.count }
{
    for place in 0..range.count {
        if takes_writes(managers, sii, u32::from(range.first) + u32::from(place)) {
            return true;
        }
    }
    false
}

/// Has the range bytes that take a write, and no area that is kept from writes? The records are those on
/// arrival.
fn is_open_to_writes(managers: &SyncManagers, sii: bool, range: AddressRange) -> bool
    ensures { (memory : List ℕ) → IsOnArrival memory managers.now sii → result
        ≡ (not (meets_locked managers.now range.first range.count)
        && some_address (takes_writes memory) range.first range.count) }
{
    !meets_locked(managers, range) && some_byte_takes_writes(managers, sii, range)
}

/// Is a write of the range served: of bytes that no area keeps from writes and of which one takes it, or of a
/// whole mailbox? The records are those on arrival.
pub fn serves_physical_write(managers: &SyncManagers, sii: bool, range: AddressRange) -> bool
    ensures value { (memory : List ℕ) → IsOnArrival memory managers.now sii → result
        ≡ serves_physical_write memory managers.now range.first range.count }
    ensures inside { IsTrue result → range.first + range.count ≤ MEMORY_SIZE }
{
    is_range(range)
        && (is_open_to_writes(managers, sii, range) || filled_by(managers, range).is_some())
}
