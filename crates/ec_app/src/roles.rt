//! What the sync managers of a slave are for (IEC 61158-4-12, sync manager; IEC 61158-6-12, AL management).

ghost use Rattle.std.specs.Prelude.{◌≡◌};
ghost use Rattle.ec_areas.specs.Ranges.{meets};
ghost use Rattle.ec_app.specs.Roles.{is_request_mailbox, is_answer_mailbox, fits_outputs, fits_inputs};

use ec_regs::SyncMan;

/// The sync manager of the mailbox that the master writes.
pub const REQUEST_MAILBOX: usize = 0;

/// The sync manager of the mailbox that the master reads.
pub const ANSWER_MAILBOX: usize = 1;

/// The sync manager of the outputs.
pub const OUTPUTS: usize = 2;

/// The sync manager of the inputs.
pub const INPUTS: usize = 3;

/// Does the sync manager guard a mailbox that the master writes?
pub fn is_request_mailbox(manager: &SyncMan) -> bool
    ensures { result ≡ is_request_mailbox manager.now }
{
    manager.is_active() && manager.is_mailbox() && manager.master_writes()
}

/// Does the sync manager guard a mailbox that the master reads?
pub fn is_answer_mailbox(manager: &SyncMan) -> bool
    ensures { result ≡ is_answer_mailbox manager.now }
{
    manager.is_active() && manager.is_mailbox() && manager.master_reads()
}

/// Does the first guard an area, and does the second's start and length share a byte with it?
#[tactic(auto, unfolding(ec_areas::specs::Ranges::meets))]
pub fn areas_meet(first: &SyncMan, second: &SyncMan) -> bool
    ensures { result ≡ meets first.now second.now.start second.now.length }
{
    first.is_active() && first.area().meets(&second.area())
}

/// Does the sync manager guard outputs of this length, or nothing where the length is 0?
pub fn fits_outputs(manager: &SyncMan, length: u16) -> bool
    ensures { result ≡ fits_outputs manager.now length }
{
    if length == 0 {
        !manager.is_active()
    } else {
        manager.guards_outputs() && manager.length == length
    }
}

/// Does the sync manager guard inputs of this length, or nothing where the length is 0?
pub fn fits_inputs(manager: &SyncMan, length: u16) -> bool
    ensures { result ≡ fits_inputs manager.now length }
{
    if length == 0 {
        !manager.is_active()
    } else {
        manager.guards_inputs() && manager.length == length
    }
}
