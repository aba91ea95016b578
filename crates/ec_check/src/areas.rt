//! No two active areas of a slave share a byte.

ghost use Rattle.std.specs.Prelude.{◌≡◌, ◌<◌, ◌≤◌, [], ◌∷◌, IsTrue, length};
ghost use Rattle.ec_regs.specs.declared.registers.TheConstants.{SYNC_MANAGER_COUNT};
ghost use Rattle.ec_regs.specs.declared.registers.TheConstants.{MEMORY_SIZE};
ghost use Rattle.ec_check.specs.Fit.{areas_meet_rule};
ghost use Rattle.ec_check.specs.Line.{controllers_by};
ghost use Rattle.ec_check.specs.Order.{IsLowest};
ghost use Rattle.ec_check.specs.Rules.{IsInArea};
ghost use Rattle.ec_check.specs.Search.{Answers};

use crate::fault::MapFault;
use crate::line::sync_manager_of;
use crate::mapped::Mapped;
use ec_regs::SyncMan;
use ec_regs::registers::SYNC_MANAGER_COUNT;

/// Areas of all slaves.
pub(crate) fn meeting_areas<S: Mapped>(line: &[S]) -> Result<(), MapFault>
    ensures { Answers (areas_meet_rule ∷ []) (controllers_by S.controller line.now) result }
{
    for slave in 0..line.len() {
        areas_of(line, slave)?;
    }
    Ok(())
}

/// Areas of one slave.
fn areas_of<S: Mapped>(line: &[S], slave: usize) -> Result<(), MapFault>
    requires { slave < length line.now }
    ensures { Answers (areas_meet_rule ∷ slave ∷ []) (controllers_by S.controller line.now) result }
{
    for number in 0..SYNC_MANAGER_COUNT {
        areas_met_by(line, slave, number)?;
    }
    Ok(())
}

/// One area and the later ones of its slave.
fn areas_met_by<S: Mapped>(line: &[S], slave: usize, number: usize) -> Result<(), MapFault>
    requires slave { slave < length line.now }
    requires number { number < SYNC_MANAGER_COUNT }
    ensures { Answers (areas_meet_rule ∷ slave ∷ number ∷ []) (controllers_by S.controller line.now) result }
{
    for later_number in number + 1..SYNC_MANAGER_COUNT {
        compare_areas(line, slave, number, later_number)?;
    }
    Ok(())
}

/// Do these two areas of a slave share a byte?
fn compare_areas<S: Mapped>(
    line: &[S],
    slave: usize,
    number: usize,
    later_number: usize,
) -> Result<(), MapFault>
    requires slave { slave < length line.now }
    requires order { number < later_number }
    requires number { later_number < SYNC_MANAGER_COUNT }
    ensures { Answers (areas_meet_rule ∷ slave ∷ number ∷ later_number ∷ [])
        (controllers_by S.controller line.now) result }
{
    let first = sync_manager_of(line, slave, number);
    let second = sync_manager_of(line, slave, later_number);
    match lowest_shared_address(&first, &second) {
        None => Ok(()),
        Some(address) => Err(MapFault::AreasMeet {
            slave,
            sync_manager: number,
            later_sync_manager: later_number,
            address,
        }),
    }
}

/// The lowest address of both areas.
fn lowest_shared_address(first: &SyncMan, second: &SyncMan) -> Option<u16>
    ensures { IsLowest (λ a. IsInArea first.now a × IsInArea second.now a) result }
{
    if !first.is_active() || !second.is_active() {
        return None;
    }
    let lowest = first.start.max(second.start);
    let shared = lowest < first.start + first.length && lowest < second.start + second.length;
    shared.then_some(lowest)
}
