//! What the FMMUs reach all together (IEC 61158-4-12, FMMU): found when the next frame comes, where a record
//! was written, so that a datagram that reaches none of them costs little; and what they read and write.

ghost use Rattle.std.specs.Prelude.{◌≡◌, ◌+◌, ◌*◌, ◌<◌, ◌≤◌, ◌&&◌, ◌⊎◌, IsTrue, false, length};
ghost use Rattle.ec_regs.specs.Bits.{AreBytes, with_bits};
ghost use Rattle.ec_regs.specs.declared.registers.TheConstants.{MEMORY_SIZE, PROCESS_MEMORY};
ghost use Rattle.ec_regs.specs.declared.registers.TheConstants.{FMMU_COUNT, SYNC_MANAGER_COUNT};
ghost use Rattle.ec_regs.specs.SyncMan.{guards_outputs};
ghost use Rattle.ec_areas.specs.Apart.{are_apart};
ghost use Rattle.ec_areas.specs.Extent.{mapped_count};
ghost use Rattle.ec_areas.specs.Logical.{read_places, reads_some, writes_some};
ghost use Rattle.ec_areas.specs.Logical.{write_map, target_places, names};
ghost use Rattle.ec_areas.specs.Records.{fmmus_of, sync_manager_at, sync_managers_of};
ghost use Rattle.ec_areas.specs.Showing.{last_byte};
ghost use Rattle.ec_esc.specs.Reached.{AreUsed};
ghost use Rattle.ec_esc.specs.Writing.{reaches_byte};

use crate::planned::PlannedMemory;
use crate::process::are_bytes;
use ec_areas::{are_apart, extent_of, read_mapped, write_mapped, writes_outputs};
use ec_regs::PlannedFmmu;
use ec_regs::registers::FMMU_COUNT;

impl PlannedMemory {
    /// Finds what the FMMUs reach all together, where a record was written since it was found last.
    pub(crate) fn survey(&mut self)
        ensures { self.new ≡ self.old }
    {
        if !self.is_surveyed {
            self.extent = extent_of(&self.fmmus);
            self.is_surveyed = true;
        }
    }

    /// Does the master write through no FMMU any bit of the `count` bytes from the logical byte `address` on?
    /// Most slaves on a line are asked so by most writes; a look at the hull of what is written tells it.
    pub(crate) fn writes_elsewhere(&self, address: u32, count: usize) -> bool
        ensures { IsTrue result → writes_some (sync_managers_of self.now) (fmmus_of self.now)
            (8 * address) (8 * count) ≡ false }
    {
        self.is_surveyed && self.extent.writes.misses(address, count)
    }

    /// Does the master read through no FMMU any bit of the `count` bytes from the logical byte `address` on?
    fn reads_elsewhere(&self, address: u32, count: usize) -> bool
        ensures { IsTrue result → reads_some (sync_managers_of self.now) (fmmus_of self.now)
            (8 * address) (8 * count) ≡ false }
    {
        self.is_surveyed && self.extent.reads.misses(address, count)
    }

    /// How many FMMUs need be looked at: those up to the last that maps a bit, or all.
    fn used_count(&self) -> usize
        ensures count { (result ≡ mapped_count (fmmus_of self.now)) ⊎ (result ≡ FMMU_COUNT) }
        ensures limit { result ≤ FMMU_COUNT }
    {
        if self.is_surveyed {
            self.extent.count
        } else {
            FMMU_COUNT
        }
    }

    /// The FMMUs that need be looked at.
    fn used_fmmus(&self) -> &[PlannedFmmu]
        ensures { AreUsed (fmmus_of self.now) result.now }
    {
        let count = self.used_count();
        &self.fmmus[..count]
    }

    /// Has no FMMU for reading a physical bit in common with one for writing?
    pub(crate) fn is_apart(&self) -> bool
        ensures { result ≡ are_apart (fmmus_of self.now) }
    {
        if self.is_surveyed {
            self.extent.is_apart
        } else {
            are_apart(&self.fmmus)
        }
    }

    /// Does the sync manager with a number guard outputs, and does a write of `count` bytes at the logical
    /// byte `address` reach the last of their bytes? Then they are handed over to the application.
    pub(crate) fn hands_over(&self, number: usize, address: u32, count: usize) -> bool
        requires { number < SYNC_MANAGER_COUNT }
        ensures value { result ≡ (guards_outputs (sync_manager_at self.now number)
            && reaches_byte self.now address count (last_byte (sync_manager_at self.now number))) }
        ensures from { IsTrue result → PROCESS_MEMORY ≤ (sync_manager_at self.now number).start }
        ensures to { IsTrue result → (sync_manager_at self.now number).start
            + (sync_manager_at self.now number).length ≤ MEMORY_SIZE }
    {
        let managers = &self.managers[..];
        writes_outputs(
            managers,
            self.used_fmmus(),
            address,
            count,
            &managers[number],
        )
    }

    /// Fills the bits of the data that a read reaches, and says whether there is one; all others stay. The
    /// first data byte stands at the logical byte `address`.
    pub(crate) fn read_mapped(&self, address: u32, into: &mut [u8]) -> bool
        ensures bits { into.new ≡ with_bits into.old self.now
            (read_places (sync_managers_of self.now) (fmmus_of self.now) (8 * address)) }
        ensures served { result ≡ reads_some
            (sync_managers_of self.now) (fmmus_of self.now) (8 * address) (8 * length into.old) }
    {
        are_bytes(into);
        if self.reads_elsewhere(address, into.len()) {
            return false;
        }
        let memory = self.memory.bytes();
        read_mapped(&self.managers, self.used_fmmus(), memory, address, into)
    }

    /// Writes the data to the physical bits of all FMMUs, of which a later one prevails, and says whether
    /// there is such a bit; all else stays. The first data byte stands at the logical byte `address`. FMMUs
    /// reach no register, so the records stay as they were decoded.
    pub(crate) fn write_mapped(&mut self, address: u32, payload: &[u8]) -> bool
        requires { AreBytes self.old }
        ensures bits { self.new ≡ with_bits self.old payload.now (write_map
            (sync_managers_of self.old) (fmmus_of self.old) (8 * address) (8 * length payload.now)) }
        ensures served { result ≡ names (target_places
            (sync_managers_of self.old) (fmmus_of self.old) (8 * address)) (8 * length payload.now) }
        ensures size { length self.new ≡ MEMORY_SIZE }
    {
        let count = self.used_count();
        let fmmus = &self.fmmus[..count];
        write_mapped(&self.managers, fmmus, &mut self.memory, address, payload)
    }
}
