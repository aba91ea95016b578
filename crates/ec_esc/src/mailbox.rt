//! A mailbox is filled and emptied: bit 3 of its sync manager's status byte (IEC 61158-4-12, sync manager,
//! mailbox mode).

ghost use Rattle.std.specs.Prelude.{◌≡◌, ◌<◌, Some, length};
ghost use Rattle.ec_regs.specs.declared.registers.TheConstants.{SYNC_MANAGER_COUNT};
ghost use Rattle.ec_regs.specs.declared.registers.TheConstants.{MEMORY_SIZE};
ghost use Rattle.ec_esc.specs.Writing.{with_emptied, with_filled};

use crate::controller::Controller;
use crate::planned::PlannedMemory;
use ec_regs::{MAILBOX_FULL, status_address};

/// Fills the mailbox of the sync manager with a number; all else stays.
pub(crate) fn fill_mailbox(memory: &mut PlannedMemory, number: usize)
    requires { number < SYNC_MANAGER_COUNT }
    ensures value { memory.new ≡ with_filled (Some number) memory.old }
    ensures size { length memory.new ≡ MEMORY_SIZE }
{
    let at = status_address(number);
    let status = memory.byte(at);
    memory.set_byte(at, status | MAILBOX_FULL);
}

impl Controller {
    /// Marks the mailbox of a sync manager empty; all else stays.
    pub(crate) fn mark_empty(&mut self, sm: usize)
        requires { sm < SYNC_MANAGER_COUNT }
        ensures { self.new ≡ record self.old { memory = with_emptied (Some sm) self.old.memory } }
    {
        let at = status_address(sm);
        let status = self.byte(at);
        self.memory.set_byte(at, status & !MAILBOX_FULL);
    }

    /// Marks the mailbox of a sync manager full; all else stays.
    pub(crate) fn mark_full(&mut self, sm: usize)
        requires { sm < SYNC_MANAGER_COUNT }
        ensures { self.new ≡ record self.old { memory = with_filled (Some sm) self.old.memory } }
    {
        fill_mailbox(&mut self.memory, sm);
    }
}
