//! A controller's memory with the records in it decoded (IEC 61158-4-12, register layout). Each datagram asks
//! for FMMUs and sync managers, so a record is decoded once: when a byte of it changes. AL status is written
//! as a status alone, so it always names a state.

ghost use Rattle.std.specs.Prelude.{◌≡◌, ◌≢◌, ◌==◌, ◌+◌, ◌%◌, ◌<◌, ◌≤◌, ℕ, List, [], ◌∷◌};
ghost use Rattle.std.specs.Prelude.{IfOk, Some, true, false, if◌then◌else◌, length};
ghost use Rattle.std.specs.Prelude.{slice_index, slice_set};
ghost use Rattle.ec_regs.specs.Al.{state_of, status_byte, status_of};
ghost use Rattle.ec_regs.specs.Bits.{AreBytes, with_bits};
ghost use Rattle.ec_regs.specs.declared.registers.TheConstants.{AL_STATUS, MEMORY_SIZE};
ghost use Rattle.ec_areas.specs.Ranges.{has_sii, IsOnArrival};
ghost use Rattle.ec_areas.specs.Records.{fmmus_of, sync_managers_of};
ghost use Rattle.ec_esc.specs.Pass.{range_sources, written_places};
ghost use Rattle.ec_esc.specs.State.{with_run};

use crate::renewal::{renew_fmmus, renew_managers};
use crate::writing::{swap_run, write_run};
use ec_areas::{Extent, extent_of, fmmus_of, has_sii, sync_managers_of};
use ec_regs::registers::AL_STATUS;
use ec_regs::{AddressRange, AlState, AlStatus, Fmmus, Memory, NoMemory, SyncManagers};
use std::alloc::Global;
use std::marker::Model;

/// The memory of a controller and the records in it. Contracts see the list of its bytes.
#[derive(Drop)]
pub(crate) struct PlannedMemory {
    pub(crate) memory: Memory,
    pub(crate) fmmus: Fmmus,
    pub(crate) managers: SyncManagers,
    pub(crate) extent: Extent,
    /// Is the extent that of the FMMUs? It may not be once a byte of a record was written.
    pub(crate) is_surveyed: bool,
}

impl Model for PlannedMemory {
    ghost use Rattle.std.specs.Prelude.{ℕ, List};
    ghost use Rattle.ec_esc.specs.Planned.{IsPlanned};

    ghost Value = { List ℕ };

    ghost view = { λ m. m.memory };

    ghost invariant = { λ m. IsPlanned m.memory m.fmmus m.extent m.is_surveyed m.managers };
}

impl PlannedMemory {
    /// A memory whose AL status is Init, and whose other bytes are 0. It fails only where the allocator has
    /// no room for it.
    pub(crate) fn new(alloc: Global) -> Result<PlannedMemory, NoMemory>
        ensures size { IfOk result (λ m. length m ≡ MEMORY_SIZE) }
        ensures bytes { IfOk result (λ m. (address : ℕ)
            → slice_index m address ≡ (if address == AL_STATUS then 1 else 0)) }
    {
        let mut memory = Memory::new(alloc)?;
        memory.set_byte(AL_STATUS, AlState::Init.code());
        let fmmus = fmmus_of(memory.bytes());
        let managers = sync_managers_of(memory.bytes());
        let extent = extent_of(&fmmus);
        Ok(PlannedMemory {
            memory,
            fmmus,
            managers,
            extent,
            is_surveyed: true,
        })
    }

    /// The byte at an address.
    pub(crate) fn byte(&self, address: u16) -> u8
        requires { address < MEMORY_SIZE }
        ensures { result ≡ slice_index self.now address }
    {
        self.memory.byte(address)
    }

    /// All bytes, by address.
    pub(crate) fn bytes(&self) -> &[u8]
        ensures value { result.now ≡ self.now }
        ensures size { length self.now ≡ MEMORY_SIZE }
    {
        self.memory.bytes()
    }

    /// All FMMUs, by number.
    pub(crate) fn fmmus(&self) -> &Fmmus
        ensures { result.now ≡ fmmus_of self.now }
    {
        &self.fmmus
    }

    /// All sync managers, by number.
    pub(crate) fn managers(&self) -> &SyncManagers
        ensures value { result.now ≡ sync_managers_of self.now }
        ensures size { length self.now ≡ MEMORY_SIZE }
    {
        &self.managers
    }

    /// Has the controller a slave information interface?
    pub(crate) fn has_sii(&self) -> bool
        ensures { result ≡ has_sii self.now }
    {
        has_sii(self.memory.bytes())
    }

    /// AL status, which names a state.
    pub(crate) fn al_status(&self) -> AlStatus
        ensures value { result ≡ status_of (slice_index self.now AL_STATUS) }
        ensures named { state_of (slice_index self.now AL_STATUS % 16) ≡ Some result.state }
    {
        AlStatus::of_byte(self.memory.byte(AL_STATUS))
    }

    /// Sets AL status, whose high byte becomes 0; all else stays.
    pub(crate) fn set_al_status(&mut self, status: AlStatus)
        ensures value { self.new ≡ with_run self.old AL_STATUS (status_byte status ∷ 0 ∷ []) }
        ensures size { length self.new ≡ MEMORY_SIZE }
    {
        self.memory.load(AL_STATUS, &[status.byte(), 0]);
    }

    /// Writes the byte at an address, which is not that of AL status; all others stay.
    pub(crate) fn set_byte(&mut self, address: u16, value: u8)
        requires inside { address < MEMORY_SIZE }
        requires apart { address ≢ AL_STATUS }
        ensures value { self.new ≡ slice_set self.old address value }
        ensures size { length self.new ≡ MEMORY_SIZE }
    {
        self.memory.set_byte(address, value);
        let written = AddressRange {
            first: address,
            count: 1,
        };
        let bytes = self.memory.bytes();
        renew_fmmus(&mut self.fmmus, &mut self.is_surveyed, bytes, written);
        renew_managers(&mut self.managers, bytes, written);
    }

    /// Writes a run of bytes from an address behind AL status on; all others stay.
    pub(crate) fn load(&mut self, address: u16, bytes: &[u8])
        requires inside { address + length bytes.now ≤ MEMORY_SIZE }
        requires behind { AL_STATUS < address }
        ensures value { self.new ≡ with_run self.old address bytes.now }
        ensures size { length self.new ≡ MEMORY_SIZE }
    {
        self.memory.load(address, bytes);
        let written = AddressRange {
            first: address,
            count: bytes.len() as u16,
        };
        let bytes = self.memory.bytes();
        renew_fmmus(&mut self.fmmus, &mut self.is_surveyed, bytes, written);
        renew_managers(&mut self.managers, bytes, written);
    }

    /// Writes a run of bytes from an address on that ends before AL status; all others stay.
    pub(crate) fn load_before(&mut self, address: u16, bytes: &[u8])
        requires { address + length bytes.now ≤ AL_STATUS }
        ensures value { self.new ≡ with_run self.old address bytes.now }
        ensures size { length self.new ≡ MEMORY_SIZE }
    {
        self.memory.load(address, bytes);
        let written = AddressRange {
            first: address,
            count: bytes.len() as u16,
        };
        let bytes = self.memory.bytes();
        renew_fmmus(&mut self.fmmus, &mut self.is_surveyed, bytes, written);
        renew_managers(&mut self.managers, bytes, written);
    }

    /// Writes the data from an address on, as far as the bytes there take writes by the records on arrival.
    /// Records of which a byte was written are decoded once, behind the last byte.
    pub(crate) fn write_run(
        &mut self,
        managers: &SyncManagers,
        sii: bool,
        from: u16,
        payload: &[u8],
    )
        requires size { length self.old ≡ MEMORY_SIZE }
        requires bytes { AreBytes self.old }
        requires records { IsOnArrival self.old managers.now sii }
        requires inside { from + length payload.now ≤ MEMORY_SIZE }
        ensures size { length self.new ≡ MEMORY_SIZE }
        ensures written { self.new
            ≡ with_bits self.old payload.now (written_places self.old from (length payload.now)) }
    {
        write_run(&mut self.memory, managers, sii, from, payload);
        let written = AddressRange {
            first: from,
            count: payload.len() as u16,
        };
        let bytes = self.memory.bytes();
        renew_fmmus(&mut self.fmmus, &mut self.is_surveyed, bytes, written);
        renew_managers(&mut self.managers, bytes, written);
    }

    /// Writes the data from an address on as `write_run` does, and fills it with the bytes that stood there.
    pub(crate) fn swap_run(
        &mut self,
        managers: &SyncManagers,
        sii: bool,
        from: u16,
        payload: &mut [u8],
    )
        requires size { length self.old ≡ MEMORY_SIZE }
        requires bytes { AreBytes self.old }
        requires records { IsOnArrival self.old managers.now sii }
        requires inside { from + length payload.old ≤ MEMORY_SIZE }
        ensures size { length self.new ≡ MEMORY_SIZE }
        ensures written { self.new
            ≡ with_bits self.old payload.old (written_places self.old from (length payload.old)) }
        ensures read { payload.new ≡ with_bits payload.old self.old (range_sources from) }
    {
        let written = AddressRange {
            first: from,
            count: payload.len() as u16,
        };
        swap_run(&mut self.memory, managers, sii, from, payload);
        let bytes = self.memory.bytes();
        renew_fmmus(&mut self.fmmus, &mut self.is_surveyed, bytes, written);
        renew_managers(&mut self.managers, bytes, written);
    }
}
