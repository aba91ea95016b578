//! What the application is shown after a write (IEC 61158-4-12, sync manager, buffered mode).

ghost use Rattle.std.specs.Prelude.{◌≡◌, ◌+◌, ◌≤◌, ℕ, Bool, IsTrue};
ghost use Rattle.ec_regs.specs.declared.registers.TheConstants.{PROCESS_MEMORY, MEMORY_SIZE};
ghost use Rattle.ec_areas.specs.Showing.{SaysOfLastBytes};
ghost use Rattle.ec_esc.specs.Writing.{hands_over, shown_after};

use crate::controller::Controller;
use ec_regs::registers::SYNC_MANAGER_COUNT;
use ec_regs::{PlannedSyncMan, SyncManagers};

/// Is an area shown anew after a write: it became active, or it is buffered, the master writes it, and its
/// last byte was written?
fn hands_over(before: &PlannedSyncMan, after: &PlannedSyncMan, is_last_written: bool) -> bool
    ensures value { result ≡ hands_over (λ _. is_last_written) before.now after.now }
    ensures from { IsTrue result → PROCESS_MEMORY ≤ after.now.start }
    ensures to { IsTrue result → after.now.start + after.now.length ≤ MEMORY_SIZE }
{
    if !after.is_active() {
        return false;
    }
    !before.is_active() || is_last_written && after.guards_outputs()
}

impl Controller {
    /// Shows each area that is handed over after a write, as it stands in the memory: the sync managers as
    /// they were, as they are now, and whether the last byte of each area was written, by number.
    pub(crate) fn show_written(
        &mut self,
        before: &SyncManagers,
        after: &SyncManagers,
        last_written: &[bool; SYNC_MANAGER_COUNT],
    )
        ensures { (is_written : ℕ → Bool) → SaysOfLastBytes is_written after.now last_written.now
            → self.new ≡ record self.old {
              shown = shown_after is_written before.now after.now self.old.memory self.old.shown;
            } }
    {
        // The sizes of memory and shown bytes are known of a controller of which a field is read.
        let _memory = &self.memory;
        for i in 0..SYNC_MANAGER_COUNT {
            let area = &after[i];
            if hands_over(&before[i], area, last_written[i]) {
                self.show_area(&area.manager());
            }
        }
    }
}
