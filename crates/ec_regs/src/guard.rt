//! What a sync manager keeps off its area: its record read once, in the form that datagrams use (IEC
//! 61158-4-12, sync manager entity).

ghost use Rattle.std.specs.Prelude.{◌≡◌, ◌+◌, ◌≤◌, IsTrue};
ghost use Rattle.ec_regs.specs.declared.registers.TheConstants.{PROCESS_MEMORY, MEMORY_SIZE};

use crate::address_range::AddressRange;
use crate::registers::SYNC_MANAGER_COUNT;
use crate::sync_man::SyncMan;
use std::marker::Model;

/// What a sync manager does with its area; nothing where it is not active.
#[derive(Clone, Copy, Debug, PartialEq, Eq)]
pub struct Guard {
    /// Does the sync manager guard an area?
    pub is_active: bool,
    /// Is the area kept from reads: a mailbox, or an area that the master writes?
    pub keeps_reads_off: bool,
    /// Is the area kept from writes: a mailbox, or an area that the master reads?
    pub keeps_writes_off: bool,
    /// Is the area a buffered one that the master writes?
    pub guards_outputs: bool,
}

impl SyncMan {
    ghost use Rattle.ec_regs.specs.Guard.{guard_of};

    /// What the record says of its area.
    pub fn guard(&self) -> Guard
        ensures { result ≡ guard_of self.now }
    {
        let is_active = self.is_active();
        Guard {
            is_active,
            keeps_reads_off: is_active && (self.is_mailbox() || self.master_writes()),
            keeps_writes_off: is_active && (self.is_mailbox() || self.master_reads()),
            guards_outputs: self.guards_outputs(),
        }
    }
}

/// A sync manager with what it says of its area, made when the record is written and used by each datagram
/// that comes by. Contracts see the record.
#[derive(Clone, Copy, Debug)]
pub struct PlannedSyncMan {
    manager: SyncMan,
    guard: Guard,
}

/// The sync managers of a controller, by number.
pub type SyncManagers = [PlannedSyncMan; SYNC_MANAGER_COUNT];

impl Model for PlannedSyncMan {
    ghost use Rattle.std.specs.Prelude.{◌≡◌};
    ghost use Rattle.ec_regs.specs.declared.sync_man.SyncMan.{SyncMan};
    ghost use Rattle.ec_regs.specs.Guard.{guard_of};

    ghost Value = { SyncMan };

    ghost view = { λ planned. planned.manager };

    ghost invariant = { λ planned. planned.guard ≡ guard_of planned.manager };

    ghost inverse = { λ s. record { manager = s; guard = guard_of s } };

    ghost use Rattle.std.proofs.Common.{ap, sym};

    ghost inverse_ok = { λ planned is.
        ap (λ guard. record { manager = planned.manager; guard = guard }) (sym is) };
}

impl PlannedSyncMan {
    ghost use Rattle.ec_regs.specs.Guard.{keeps_reads_off, keeps_writes_off};
    ghost use Rattle.ec_regs.specs.SyncMan.{is_active, guards_outputs};

    /// The record with what it says of its area.
    pub fn new(manager: SyncMan) -> PlannedSyncMan
        ensures { result ≡ manager }
    {
        PlannedSyncMan {
            manager,
            guard: manager.guard(),
        }
    }

    /// The record.
    pub fn manager(&self) -> SyncMan
        ensures { result ≡ self.now }
    {
        self.manager
    }

    /// The first address of the sync manager's area.
    pub fn start(&self) -> u16
        ensures { result ≡ self.now.start }
    {
        self.manager.start
    }

    /// How many bytes the sync manager's area has.
    pub fn length(&self) -> u16
        ensures { result ≡ self.now.length }
    {
        self.manager.length
    }

    /// The bytes of the sync manager's area, whether it is active or not.
    pub fn area(&self) -> AddressRange
        ensures { result ≡ record { first = self.now.start; count = self.now.length } }
    {
        self.manager.area()
    }

    /// Does the sync manager guard an area (see `SyncMan::is_active`)?
    pub fn is_active(&self) -> bool
        ensures value { result ≡ is_active self.now }
    {
        self.guard.is_active
    }

    /// Does the sync manager guard an area that is kept from reads: a mailbox, or one that the master writes?
    pub fn keeps_reads_off(&self) -> bool
        ensures { result ≡ keeps_reads_off self.now }
    {
        self.guard.keeps_reads_off
    }

    /// Does the sync manager guard an area that is kept from writes: a mailbox, or one that the master reads?
    pub fn keeps_writes_off(&self) -> bool
        ensures { result ≡ keeps_writes_off self.now }
    {
        self.guard.keeps_writes_off
    }

    /// Does the sync manager guard outputs, a buffered area that the master writes?
    pub fn guards_outputs(&self) -> bool
        ensures { result ≡ guards_outputs self.now }
    {
        self.guard.guards_outputs
    }
}
