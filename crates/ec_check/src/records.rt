//! A slave by its station address and its records alone.

ghost use Rattle.ec_areas.specs.Ranges.{has_sii};
ghost use Rattle.std.specs.Prelude.{◌≡◌, ◌==◌, ◌<◌, ◌≤◌, ◌+◌, ◌*◌, ◌&&◌, length, take, drop};
ghost use Rattle.ec_regs.specs.Bits.{AreBytes};
ghost use Rattle.ec_regs.specs.Fmmu.{fmmu_bytes, fmmu_of};
ghost use Rattle.ec_regs.specs.SyncMan.{sync_man_bytes, sync_man_of};
ghost use Rattle.ec_regs.specs.declared.registers.TheConstants.{FMMU_COUNT, FMMU_SIZE, STATION_ADDRESS};
ghost use Rattle.ec_regs.specs.declared.registers.TheConstants.{SYNC_MANAGER_COUNT, SYNC_MANAGER_SIZE};
ghost use Rattle.ec_wire.specs.Command.{addressing, reads, writes};
ghost use Rattle.ec_wire.specs.Datagram.{ado_of, adp_of};
ghost use Rattle.ec_wire.specs.Kind.{command_of};
ghost use Rattle.ec_areas.specs.Records.{fmmu_at, fmmus_of, sync_manager_at, sync_managers_of};
ghost use Rattle.ec_esc.specs.Pass.{serves_read, serves_write, serves_range_read, serves_range_write};
ghost use Rattle.ec_esc.specs.Pass.{serves_reading, serves_writing};
ghost use Rattle.ec_esc.specs.State.{IsController, with_run, word_at};
ghost use Rattle.ec_check.specs.Records.{controller_with, memory_of};
ghost use Rattle.ec_check.specs.declared.records.TheConstants.{FMMU_BYTES, SYNC_MANAGER_BYTES};

use crate::mapped::Mapped;
use ec_areas::{reads_some, serves_physical_read, serves_physical_write, writes_some};
use ec_esc::gained;
use ec_regs::registers::{FMMU_SIZE, SYNC_MANAGER_SIZE};
use ec_regs::{AddressRange, Fmmu, Fmmus, PlannedFmmu, PlannedSyncMan, SyncMan, SyncManagers};
use ec_wire::{Kind, ado_of, adp_of};

/// The bytes of a slave's FMMU records.
pub const FMMU_BYTES: usize = 128;

/// The bytes of its sync manager records.
pub const SYNC_MANAGER_BYTES: usize = 64;

/// What a slave is mapped by, as a master writes it or reads it back (IEC 61158-4-12): `struct rmp_records`
/// of the header.
#[repr(C)]
#[derive(Clone, Copy)]
pub struct Records {
    /// The station address, which the slave has at 0x0010.
    pub station: u16,
    /// The eight FMMU records of 16 bytes each, which it has from 0x0600 on.
    pub fmmus: [u8; FMMU_BYTES],
    /// The eight sync manager records of 8 bytes each, which it has from 0x0800 on.
    pub sync_managers: [u8; SYNC_MANAGER_BYTES],
}

/// Does nothing; its clause is what a proof knows of the elements of a slice of bytes.
fn are_bytes(bytes: &[u8])
    ensures { AreBytes bytes.now }
{
    // For the prover: the elements of a slice that is read are bytes.
    let _length = bytes.len();
}

/// Does nothing; its clauses are what a proof knows of a slave's records.
fn are_records(station: u16, fmmus: &[u8; FMMU_BYTES], sync_managers: &[u8; SYNC_MANAGER_BYTES])
    ensures station { station < 65536 }
    ensures fmmus { AreBytes fmmus.now }
    ensures fmmu_bytes { length fmmus.now ≡ FMMU_BYTES }
    ensures sync_managers { AreBytes sync_managers.now }
    ensures sync_manager_bytes { length sync_managers.now ≡ SYNC_MANAGER_BYTES }
{
    are_bytes(fmmus);
    are_bytes(sync_managers);
}

/// The FMMU with a number, of their bytes.
fn fmmu_in(bytes: &[u8; FMMU_BYTES], number: usize) -> Fmmu
    requires { number < FMMU_COUNT }
    ensures { result ≡ fmmu_of (take FMMU_SIZE (drop (FMMU_SIZE * number) bytes.now)) }
{
    let at = FMMU_SIZE as usize * number;
    Fmmu::read(bytes[at..at + FMMU_SIZE as usize].try_into().unwrap())
}

/// The sync manager with a number, of their bytes.
fn sync_manager_in(bytes: &[u8; SYNC_MANAGER_BYTES], number: usize) -> SyncMan
    requires { number < SYNC_MANAGER_COUNT }
    ensures { result ≡ sync_man_of (take SYNC_MANAGER_SIZE (drop (SYNC_MANAGER_SIZE * number) bytes.now)) }
{
    let at = SYNC_MANAGER_SIZE as usize * number;
    SyncMan::read(
        bytes[at..at + SYNC_MANAGER_SIZE as usize]
            .try_into()
            .unwrap(),
    )
}

/// Writes a run to some bytes from a place on; all others stay.
fn put(bytes: &mut [u8], at: usize, run: &[u8])
    requires { at + length run.now ≤ length bytes.old }
    ensures { bytes.new ≡ with_run bytes.old at run.now }
{
    bytes[at..at + run.len()].copy_from_slice(run);
}

impl Records {
    ghost use Rattle.std.specs.Prelude.{replicate};

    /// The records of a slave with this station address that maps nothing.
    pub fn of_station(station: u16) -> Records
        ensures { result ≡ record {
          station = station;
          fmmus = replicate FMMU_BYTES 0;
          sync_managers = replicate SYNC_MANAGER_BYTES 0;
        } }
    {
        Records {
            station,
            fmmus: [0; FMMU_BYTES],
            sync_managers: [0; SYNC_MANAGER_BYTES],
        }
    }

    /// Sets the record of an FMMU, and leaves all else.
    pub fn set_fmmu(&mut self, number: usize, fmmu: &Fmmu)
        requires { number < FMMU_COUNT }
        ensures { self.new ≡ record self.old {
          fmmus = with_run self.old.fmmus (FMMU_SIZE * number) (fmmu_bytes fmmu.now);
        } }
    {
        put(&mut self.fmmus, FMMU_SIZE as usize * number, &fmmu.write());
    }

    /// Sets the record of a sync manager with status 0, and leaves all else.
    pub fn set_syncman(&mut self, number: usize, manager: &SyncMan)
        requires { number < SYNC_MANAGER_COUNT }
        ensures { self.new ≡ record self.old {
          sync_managers = with_run self.old.sync_managers (SYNC_MANAGER_SIZE * number)
              (sync_man_bytes (record manager.now { status = 0 }));
        } }
    {
        let empty = SyncMan {
            status: 0,
            ..*manager
        };
        let at = SYNC_MANAGER_SIZE as usize * number;
        put(&mut self.sync_managers, at, &empty.write());
    }

    /// The station address, and that the records are those of a controller.
    fn named(&self) -> u16
        ensures value { result ≡ word_at (memory_of self.now) STATION_ADDRESS }
        ensures controller { IsController (controller_with self.now) }
    {
        are_records(self.station, &self.fmmus, &self.sync_managers);
        self.station
    }

    /// The FMMU with a number.
    fn fmmu_numbered(&self, number: usize) -> Fmmu
        requires { number < FMMU_COUNT }
        ensures { result ≡ fmmu_at (memory_of self.now) number }
    {
        are_records(self.station, &self.fmmus, &self.sync_managers);
        fmmu_in(&self.fmmus, number)
    }

    /// The sync manager with a number.
    fn sync_manager_numbered(&self, number: usize) -> SyncMan
        requires { number < SYNC_MANAGER_COUNT }
        ensures { result ≡ sync_manager_at (memory_of self.now) number }
    {
        are_records(self.station, &self.fmmus, &self.sync_managers);
        sync_manager_in(&self.sync_managers, number)
    }

    /// All FMMUs, by number.
    #[tactic(auto, unfolding(ec_areas::specs::Records::fmmus_of))]
    fn fmmus(&self) -> Fmmus
        ensures { result ≡ fmmus_of (memory_of self.now) }
    {
        [
            PlannedFmmu::new(self.fmmu_numbered(0)),
            PlannedFmmu::new(self.fmmu_numbered(1)),
            PlannedFmmu::new(self.fmmu_numbered(2)),
            PlannedFmmu::new(self.fmmu_numbered(3)),
            PlannedFmmu::new(self.fmmu_numbered(4)),
            PlannedFmmu::new(self.fmmu_numbered(5)),
            PlannedFmmu::new(self.fmmu_numbered(6)),
            PlannedFmmu::new(self.fmmu_numbered(7)),
        ]
    }

    /// All sync managers, by number.
    #[tactic(auto, unfolding(ec_areas::specs::Records::sync_managers_of))]
    fn sync_managers(&self) -> SyncManagers
        ensures { result ≡ sync_managers_of (memory_of self.now) }
    {
        [
            PlannedSyncMan::new(self.sync_manager_numbered(0)),
            PlannedSyncMan::new(self.sync_manager_numbered(1)),
            PlannedSyncMan::new(self.sync_manager_numbered(2)),
            PlannedSyncMan::new(self.sync_manager_numbered(3)),
            PlannedSyncMan::new(self.sync_manager_numbered(4)),
            PlannedSyncMan::new(self.sync_manager_numbered(5)),
            PlannedSyncMan::new(self.sync_manager_numbered(6)),
            PlannedSyncMan::new(self.sync_manager_numbered(7)),
        ]
    }

    /// Does a logical read of so many bytes read a bit of the slave?
    fn reads_bits(&self, address: u32, count: u16) -> bool
        ensures { result ≡ serves_read (controller_with self.now) address count }
    {
        reads_some(&self.sync_managers(), &self.fmmus(), address, count.into())
    }

    /// Does a logical write of so many bytes write one?
    fn writes_bits(&self, address: u32, count: u16) -> bool
        ensures { result ≡ serves_write (controller_with self.now) address count }
    {
        writes_some(&self.sync_managers(), &self.fmmus(), address, count.into())
    }

    /// Is a read of so many bytes of the memory served?
    fn serves_read(&self, address: u32, count: u16) -> bool
        ensures { result ≡ serves_range_read (controller_with self.now) (ado_of address) count }
    {
        let range = AddressRange {
            first: ado_of(address),
            count,
        };
        serves_physical_read(&self.sync_managers(), range)
    }

    /// Has the controller a slave information interface? One of which the records alone are known has none.
    #[tactic(auto, unfolding(crate::specs::Records::memory_of))]
    fn has_sii(&self) -> bool
        ensures { result ≡ has_sii (memory_of self.now) }
    {
        false
    }

    /// Is a write of so many bytes served?
    fn serves_write(&self, address: u32, count: u16) -> bool
        ensures { result ≡ serves_range_write (controller_with self.now) (ado_of address) count }
    {
        let range = AddressRange {
            first: ado_of(address),
            count,
        };
        serves_physical_write(&self.sync_managers(), self.has_sii(), range)
    }

    /// Does the address of a datagram name the slave's station?
    fn is_named(&self, address: u32) -> bool
        ensures { result ≡ (adp_of address == word_at (memory_of self.now) STATION_ADDRESS) }
    {
        adp_of(address) == self.named()
    }

    /// Does an item of this kind read, and is its read served?
    fn reads_at(&self, kind: Kind, address: u32, count: u16) -> bool
        ensures { result
            ≡ (reads (command_of kind)
            && serves_reading (addressing (command_of kind)) (controller_with self.now) address count) }
    {
        match kind {
            Kind::Lrd | Kind::Lrw => self.reads_bits(address, count),
            Kind::Brd => self.serves_read(address, count),
            Kind::Fprd => self.is_named(address) && self.serves_read(address, count),
            Kind::Lwr | Kind::Fpwr => false,
        }
    }

    /// Does an item of this kind write, and is its write served?
    fn writes_at(&self, kind: Kind, address: u32, count: u16) -> bool
        ensures { result
            ≡ (writes (command_of kind)
            && serves_writing (addressing (command_of kind)) (controller_with self.now) address count) }
    {
        match kind {
            Kind::Lwr | Kind::Lrw => self.writes_bits(address, count),
            Kind::Fpwr => self.is_named(address) && self.serves_write(address, count),
            Kind::Lrd | Kind::Brd | Kind::Fprd => false,
        }
    }
}

/// A slave's records are mapped as the controller that has them.
impl Mapped for Records {
    ghost controller = { controller_with };

    fn station(&self) -> u16 {
        self.named()
    }

    fn fmmu(&self, number: usize) -> Fmmu {
        self.fmmu_numbered(number)
    }

    fn sync_manager(&self, number: usize) -> SyncMan {
        self.sync_manager_numbered(number)
    }

    fn gain(&self, kind: Kind, address: u32, count: u16) -> u16 {
        let is_read = self.reads_at(kind, address, count);
        let is_written = self.writes_at(kind, address, count);
        gained(kind.command(), is_read, is_written)
    }
}
