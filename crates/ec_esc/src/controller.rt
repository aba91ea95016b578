//! The controller: its state, and the calls from the application's side.

ghost use Rattle.std.specs.Prelude.{◌≡◌, ◌+◌, ◌-◌, ◌<◌, ◌≤◌, ℕ, IfOk, length, slice_index};
ghost use Rattle.ec_regs.specs.declared.registers.TheConstants.{FMMU_COUNT, SYNC_MANAGER_COUNT};
ghost use Rattle.ec_regs.specs.declared.registers.TheConstants.{PROCESS_MEMORY, MEMORY_SIZE};

use crate::planned::PlannedMemory;
use ec_regs::registers::{
    FMMU_BASE, FMMU_SIZE, PROCESS_MEMORY, PROCESS_MEMORY_SIZE, STATION_ADDRESS, SYNC_MANAGER_BASE,
    SYNC_MANAGER_SIZE,
};
use ec_regs::{Fmmu, NoMemory, SyncMan};
use std::alloc::{AllocError, Global};
use std::marker::Model;

/// One slave controller. Contracts see its memory by address, the shown bytes (what the application sees of
/// process memory) and whether AL control was written since the application last looked.
#[derive(Drop)]
pub struct Controller {
    pub(crate) memory: PlannedMemory,
    pub(crate) shown: Vec<u8>,
    pub(crate) written: bool,
}

impl Model for Controller {
    ghost use Rattle.std.specs.Prelude.{◌≡◌, length};
    ghost use Rattle.ec_regs.specs.declared.registers.TheConstants.{MEMORY_SIZE, PROCESS_MEMORY_SIZE};
    ghost use Rattle.ec_esc.specs.State.{ControllerState};

    ghost Value = { ControllerState };

    ghost view = { λ c. record { memory = c.memory; shown = c.shown.items; written = c.written } };

    ghost invariant = { λ c. (length c.memory ≡ MEMORY_SIZE) × (length c.shown.items ≡ PROCESS_MEMORY_SIZE) };
}

/// A vector of `count` zeros.
fn zeros(alloc: Global, count: usize) -> Result<Vec<u8>, AllocError>
    ensures size { IfOk result (λ v. length v.items ≡ count) }
    ensures zero { IfOk result (λ v. (k : ℕ) → slice_index v.items k ≡ 0) }
{
    vec![in alloc; 0; count]
}

impl Controller {
    ghost use Rattle.ec_esc.specs.State.{IsFresh, with_area_shown, with_fmmu, with_sync_manager, with_bytes};

    /// A controller with this station address, in Init; all else of it is 0. It fails only where the
    /// allocator has no room for its 20,480 bytes.
    pub fn new(alloc: Global, station: u16) -> Result<Controller, NoMemory>
        ensures { IfOk result (IsFresh station) }
    {
        let mut memory = PlannedMemory::new(alloc)?;
        memory.set_byte(STATION_ADDRESS + 1, (station / 256) as u8);
        memory.set_byte(STATION_ADDRESS, (station % 256) as u8);
        Ok(Controller {
            memory,
            shown: zeros(alloc, PROCESS_MEMORY_SIZE as usize)?,
            written: false,
        })
    }

    /// The memory's byte at an address.
    pub fn byte(&self, address: u16) -> u8
        requires { address < MEMORY_SIZE }
        ensures { result ≡ slice_index self.now.memory address }
    {
        self.memory.byte(address)
    }

    /// The byte that the application sees at an address of process memory.
    pub fn shown(&self, address: u16) -> u8
        requires from { PROCESS_MEMORY ≤ address }
        requires to { address < MEMORY_SIZE }
        ensures { result ≡ slice_index self.now.shown (address - PROCESS_MEMORY) }
    {
        self.shown[(address - PROCESS_MEMORY) as usize]
    }

    /// Sets the record of an FMMU, and leaves all else.
    pub fn set_fmmu(&mut self, i: usize, fmmu: &Fmmu)
        requires { i < FMMU_COUNT }
        ensures { self.new ≡ with_fmmu self.old i fmmu.now }
    {
        self.memory
            .load(FMMU_BASE + FMMU_SIZE * i as u16, &fmmu.write());
    }

    /// Shows the area of a sync manager as it stands in the memory; all else stays.
    pub(crate) fn show_area(&mut self, manager: &SyncMan)
        requires from { PROCESS_MEMORY ≤ manager.now.start }
        requires to { manager.now.start + manager.now.length ≤ MEMORY_SIZE }
        ensures { self.new ≡ record self.old {
          shown = with_area_shown manager.now self.old.memory self.old.shown;
        } }
    {
        let from = manager.start as usize;
        let size = manager.length as usize;
        let place = from - PROCESS_MEMORY as usize;
        let area = &self.memory.bytes()[from..from + size];
        self.shown[place..place + size].copy_from_slice(area);
    }

    /// Sets the record of a sync manager with status 0. Where it is active then, its area is shown as it
    /// stands in the memory; all else stays.
    pub fn set_syncman(&mut self, i: usize, manager: &SyncMan)
        requires { i < SYNC_MANAGER_COUNT }
        ensures { self.new ≡ with_sync_manager self.old i (record manager.now { status = 0 }) }
    {
        let empty = SyncMan {
            status: 0,
            ..*manager
        };
        let at = SYNC_MANAGER_BASE + SYNC_MANAGER_SIZE * i as u16;
        self.memory.load(at, &empty.write());
        if empty.is_active() {
            self.show_area(&empty);
        }
    }

    /// Writes bytes to process memory from an address on, and shows them; all else stays. No bytes may be
    /// written at any address.
    pub fn load(&mut self, address: u16, bytes: &[u8])
        requires from { 0 < length bytes.now → PROCESS_MEMORY ≤ address }
        requires to { 0 < length bytes.now → address + length bytes.now ≤ MEMORY_SIZE }
        ensures { self.new ≡ with_bytes self.old address bytes.now }
    {
        if bytes.is_empty() {
            return;
        }
        self.memory.load(address, bytes);
        let place = (address - PROCESS_MEMORY) as usize;
        self.shown[place..place + bytes.len()].copy_from_slice(bytes);
    }
}
