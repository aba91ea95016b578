//! What the application's side reads of a controller.

ghost use Rattle.std.specs.Prelude.{◌≡◌, ◌+◌, ◌-◌, ◌<◌, ◌≤◌, length, slice_range};
ghost use Rattle.ec_regs.specs.declared.registers.TheConstants.{FMMU_COUNT, SYNC_MANAGER_COUNT};
ghost use Rattle.ec_regs.specs.declared.registers.TheConstants.{STATION_ADDRESS, PROCESS_MEMORY, MEMORY_SIZE};
ghost use Rattle.ec_esc.specs.State.{IsController, word_at};
ghost use Rattle.ec_areas.specs.Records.{fmmu_at, sync_manager_at};

use crate::controller::Controller;
use crate::process::are_bytes;
use ec_regs::registers::{PROCESS_MEMORY, STATION_ADDRESS};
use ec_regs::{Fmmu, SyncMan};

impl Controller {
    /// The station address, by which FP commands name the slave (IEC 61158-4-12, station address). (Its
    /// clause `controller` is what a proof knows of every controller.)
    pub fn station(&self) -> u16
        ensures value { result ≡ word_at self.now.memory STATION_ADDRESS }
        ensures controller { IsController self.now }
    {
        are_bytes(self.memory.bytes());
        are_bytes(self.shown.as_slice());
        self.word(STATION_ADDRESS)
    }

    /// The record of an FMMU, 0 to 7, as it stands in the memory.
    pub fn fmmu(&self, i: usize) -> Fmmu
        requires { i < FMMU_COUNT }
        ensures { result ≡ fmmu_at self.now.memory i }
    {
        self.memory.fmmus()[i].fmmu()
    }

    /// The record of a sync manager as it stands in the memory.
    pub fn syncman(&self, i: usize) -> SyncMan
        requires { i < SYNC_MANAGER_COUNT }
        ensures { result ≡ sync_manager_at self.now.memory i }
    {
        self.memory.managers()[i].manager()
    }

    /// The memory's bytes from an address on.
    pub fn bytes(&self, address: u16, count: u16) -> &[u8]
        requires { address + count ≤ MEMORY_SIZE }
        ensures value { result.now ≡ slice_range self.now.memory address (address + count) }
        ensures count { length result.now ≡ count }
    {
        let from = address as usize;
        &self.memory.bytes()[from..from + count as usize]
    }

    /// The bytes that the application sees from an address of process memory on.
    pub fn shown_bytes(&self, address: u16, count: u16) -> &[u8]
        requires from { PROCESS_MEMORY ≤ address }
        requires to { address + count ≤ MEMORY_SIZE }
        ensures value { result.now ≡ slice_range self.now.shown
            (address - PROCESS_MEMORY) (address - PROCESS_MEMORY + count) }
        ensures count { length result.now ≡ count }
    {
        let from = (address - PROCESS_MEMORY) as usize;
        &self.shown[from..from + count as usize]
    }
}
