//! The write of a range of addresses by a physical command (IEC 61158-4-12, physical memory access). It
//! leaves more than the bytes that it wrote: the status of sync managers that it switched or filled, the
//! shown bytes, and the mark that AL control was written (IEC 61158-4-12, sync manager).

ghost use Rattle.std.specs.Prelude.{◌≡◌, ◌+◌, ◌*◌, ◌/◌, ◌-◌, ◌≤◌, ◌<◌, ◌&&◌, ◌||◌, not, ℕ, List, length};
ghost use Rattle.std.specs.Prelude.{if◌then◌else◌, slice_set, Some, None};
ghost use Rattle.ec_regs.specs.Bits.{with_bits, AreBytes};
ghost use Rattle.ec_regs.specs.declared.registers.TheConstants.{MEMORY_SIZE, AL_CONTROL};
ghost use Rattle.ec_regs.specs.SyncMan.{is_active};
ghost use Rattle.ec_areas.specs.Records.{sync_managers_of};
ghost use Rattle.ec_regs.specs.AddressRange.{within};
ghost use Rattle.ec_areas.specs.Ranges.{takes_writes, filled_by, has_sii, IsOnArrival};
ghost use Rattle.ec_areas.specs.Showing.{last_byte};
ghost use Rattle.ec_esc.specs.Writing.{settled, shown_after, with_filled};
ghost use Rattle.ec_esc.specs.Pass.{is_written, range_sources, written_places, range_taken, written_by};

use crate::controller::Controller;
use crate::mailbox::fill_mailbox;
use crate::planned::PlannedMemory;
use crate::process::are_bytes;
use ec_areas::{filled_by, last_byte, takes_writes, told_of_each};
use ec_regs::registers::{AL_CONTROL, SYNC_MANAGER_COUNT};
use ec_regs::{AddressRange, Memory, PlannedSyncMan, SyncManagers, status_address};

/// The status of a sync manager that was switched on or off.
const EMPTY: u8 = 0x00;

/// The records of the sync managers on arrival.
fn arrived_records(memory: &PlannedMemory) -> SyncManagers
    ensures value { result ≡ sync_managers_of memory.now }
    ensures bytes { AreBytes memory.now }
    ensures size { length memory.now ≡ MEMORY_SIZE }
{
    are_bytes(memory.bytes());
    *memory.managers()
}

/// Writes the byte at an address where it takes writes by the records on arrival; all else stays.
fn write_byte(memory: &mut Memory, managers: &SyncManagers, sii: bool, address: u16, byte: u8)
    requires inside { address < MEMORY_SIZE }
    requires records { (arrived : List ℕ) × IsOnArrival arrived managers.now sii }
    ensures { (arrived : List ℕ) → IsOnArrival arrived managers.now sii → memory.new
        ≡ (if takes_writes arrived address then slice_set memory.old address byte else memory.old) }
{
    if takes_writes(managers, sii, u32::from(address)) {
        memory.set_byte(address, byte);
    }
}

/// Writes the data from an address on, as far as the bytes there take writes by the records on arrival.
pub(crate) fn write_run(
    memory: &mut Memory,
    managers: &SyncManagers,
    sii: bool,
    from: u16,
    payload: &[u8],
)
    requires size { length memory.old ≡ MEMORY_SIZE }
    requires bytes { AreBytes memory.old }
    requires records { IsOnArrival memory.old managers.now sii }
    requires inside { from + length payload.now ≤ MEMORY_SIZE }
    ensures size { length memory.new ≡ MEMORY_SIZE }
    ensures written { memory.new
        ≡ with_bits memory.old payload.now (written_places memory.old from (length payload.now)) }
{
    for (place, byte) in payload.iter().enumerate() {
        write_byte(memory, managers, sii, from + place as u16, *byte);
    }
}

/// Writes the data from an address on as `write_run` does, and fills it with the bytes that stood there.
pub(crate) fn swap_run(
    memory: &mut Memory,
    managers: &SyncManagers,
    sii: bool,
    from: u16,
    payload: &mut [u8],
)
    requires size { length memory.old ≡ MEMORY_SIZE }
    requires bytes { AreBytes memory.old }
    requires records { IsOnArrival memory.old managers.now sii }
    requires inside { from + length payload.old ≤ MEMORY_SIZE }
    ensures size { length memory.new ≡ MEMORY_SIZE }
    ensures written { memory.new
        ≡ with_bits memory.old payload.old (written_places memory.old from (length payload.old)) }
    ensures read { payload.new ≡ with_bits payload.old memory.old (range_sources from) }
{
    for place in 0..payload.len() {
        let address = from + place as u16;
        let found = memory.byte(address);
        write_byte(memory, managers, sii, address, payload[place]);
        payload[place] = found;
    }
}

/// Was a sync manager switched on or off?
fn is_switched(before: &PlannedSyncMan, after: &PlannedSyncMan) -> bool
    ensures { result ≡ (if is_active before.now then not (is_active after.now) else is_active after.now) }
{
    before.is_active() != after.is_active()
}

/// Clears the status of each sync manager that a write switched on or off; all else stays. The records are
/// those on arrival.
fn settle(memory: &mut PlannedMemory, before: &SyncManagers)
    ensures value { (arrived : List ℕ) → before.now ≡ sync_managers_of arrived → memory.new
        ≡ settled arrived memory.old }
    ensures size { length memory.new ≡ MEMORY_SIZE }
{
    let managers = *memory.managers();
    let after = &managers[..];
    for number in 0..SYNC_MANAGER_COUNT {
        if is_switched(&before[number], &after[number]) {
            memory.set_byte(status_address(number), EMPTY);
        }
    }
}

/// As many bytes from an address on as there are data.
fn range_of(from: u16, payload: &[u8]) -> AddressRange
    requires { from + length payload.now ≤ MEMORY_SIZE }
    ensures { result ≡ record { first = from; count = length payload.now } }
{
    AddressRange {
        first: from,
        count: payload.len() as u16,
    }
}

/// Is the last byte of an area among the written ones of the range? The records are those on arrival.
fn last_byte_written(
    before: &SyncManagers,
    sii: bool,
    area: &PlannedSyncMan,
    range: AddressRange,
) -> bool
    ensures { (arrived : List ℕ) → IsOnArrival arrived before.now sii → result
        ≡ is_written arrived range.first range.count (last_byte area.now) }
{
    let last = last_byte(area);
    range.contains(last) && takes_writes(before, sii, last)
}

impl Controller {
    /// Shows the areas that a write of the range hands over. The records are those on arrival.
    fn show_range(&mut self, before: &SyncManagers, sii: bool, range: AddressRange)
        ensures { (arrived : List ℕ) → IsOnArrival arrived before.now sii → self.new
            ≡ record self.old {
              shown = shown_after (is_written arrived range.first range.count) before.now
                  (sync_managers_of self.old.memory) self.old.memory self.old.shown;
            } }
    {
        let after = *self.memory.managers();
        let reached = told_of_each(&after, |area| last_byte_written(before, sii, area, range));
        self.show_written(before, &after, &reached);
    }

    /// Fills the mailbox that a write of the range fills, if it fills one; all else stays. The records are
    /// those on arrival.
    fn fill_range(&mut self, before: &SyncManagers, range: AddressRange)
        ensures { self.new ≡ record self.old
            { memory = with_filled (filled_by before.now range.first range.count) self.old.memory } }
    {
        match filled_by(before, range) {
            Some(number) => fill_mailbox(&mut self.memory, number),
            None => {}
        }
    }

    /// Marks that AL control was written, where its first byte lies in the range; all else stays.
    fn mark_range(&mut self, range: AddressRange)
        ensures { self.new
            ≡ record self.old { written = self.old.written || within range.first range.count AL_CONTROL } }
    {
        if range.contains(u32::from(AL_CONTROL)) {
            self.written = true;
        }
    }

    /// What is left to do once the bytes of the range were written: statuses, shown bytes, mail and mark.
    /// The records are those on arrival.
    fn finish_write(&mut self, before: &SyncManagers, sii: bool, range: AddressRange)
        ensures { (arrived : List ℕ) → IsOnArrival arrived before.now sii
            → self.new ≡ record {
              memory = with_filled (filled_by before.now range.first range.count)
                  (settled arrived self.old.memory);
              shown = shown_after (is_written arrived range.first range.count) before.now
                  (sync_managers_of (settled arrived self.old.memory))
                  (settled arrived self.old.memory) self.old.shown;
              written = self.old.written || within range.first range.count AL_CONTROL;
            } }
    {
        settle(&mut self.memory, before);
        self.show_range(before, sii, range);
        self.fill_range(before, range);
        self.mark_range(range);
    }

    /// A write of the data from an address on that is served, with all that it leaves.
    pub(crate) fn write_range(&mut self, from: u16, payload: &[u8])
        requires { from + length payload.now ≤ MEMORY_SIZE }
        ensures { (n : ℕ) → self.new
            ≡ written_by (range_taken n self.old from (length payload.now)) payload.now self.old }
    {
        let before = arrived_records(&self.memory);
        let sii = self.memory.has_sii();
        self.memory.write_run(&before, sii, from, payload);
        self.finish_write(&before, sii, range_of(from, payload));
    }

    /// A write of the data from an address on that is served, with all that it leaves; the data are filled
    /// with the bytes that stood there.
    pub(crate) fn swap_range(&mut self, from: u16, payload: &mut [u8])
        requires { from + length payload.old ≤ MEMORY_SIZE }
        ensures state { (n : ℕ) → self.new
            ≡ written_by (range_taken n self.old from (length payload.old)) payload.old self.old }
        ensures read { payload.new ≡ with_bits payload.old self.old.memory (range_sources from) }
    {
        let before = arrived_records(&self.memory);
        let sii = self.memory.has_sii();
        self.memory.swap_run(&before, sii, from, payload);
        self.finish_write(&before, sii, range_of(from, payload));
    }
}
