//! Each FMMU lies in one area of its kind.

ghost use Rattle.std.specs.Prelude.{◌≡◌, ◌<◌, ◌≤◌, ◌+◌, ◌-◌, ◌/◌, [], ◌∷◌, IsTrue, length, MatchOption};
ghost use Rattle.ec_regs.specs.declared.registers.TheConstants.{FMMU_COUNT};
ghost use Rattle.ec_regs.specs.Pairs.{first_physical, pair_count};
ghost use Rattle.ec_check.specs.Fit.{areas_meet_rule, outside_area_rule};
ghost use Rattle.ec_check.specs.Line.{controllers_by, fmmu_of};
ghost use Rattle.ec_check.specs.Rules.{suits, IsAreaEnd, HasNoArea};
ghost use Rattle.ec_check.specs.Runs.{holds_first_byte, begins_at_mail_status};
ghost use Rattle.ec_regs.specs.declared.registers.TheConstants.{MEMORY_SIZE};
ghost use Rattle.ec_check.specs.Search.{Answers, HasNone};

use crate::fault::MapFault;
use crate::line::{fmmu_of, sync_manager_of};
use crate::mapped::Mapped;
use ec_regs::registers::{ANSWER_MAILBOX_STATUS, FMMU_COUNT, SYNC_MANAGER_COUNT};
use ec_regs::{Fmmu, SyncMan};

/// FMMUs of all slaves. No two areas of a slave share a byte.
pub(crate) fn fmmus_outside<S: Mapped>(line: &[S]) -> Result<(), MapFault>
    requires { HasNone (areas_meet_rule ∷ []) (controllers_by S.controller line.now) }
    ensures { Answers (outside_area_rule ∷ []) (controllers_by S.controller line.now) result }
{
    for slave in 0..line.len() {
        outside_of(line, slave)?;
    }
    Ok(())
}

/// FMMUs of one slave.
fn outside_of<S: Mapped>(line: &[S], slave: usize) -> Result<(), MapFault>
    requires slave { slave < length line.now }
    requires areas { HasNone (areas_meet_rule ∷ []) (controllers_by S.controller line.now) }
    ensures { Answers (outside_area_rule ∷ slave ∷ []) (controllers_by S.controller line.now) result }
{
    for fmmu in 0..FMMU_COUNT {
        place_fmmu(line, slave, fmmu)?;
    }
    Ok(())
}

/// Does this FMMU lie in one area of its kind?
fn place_fmmu<S: Mapped>(line: &[S], slave: usize, fmmu: usize) -> Result<(), MapFault>
    requires slave { slave < length line.now }
    requires fmmu { fmmu < FMMU_COUNT }
    requires areas { HasNone (areas_meet_rule ∷ []) (controllers_by S.controller line.now) }
    ensures { Answers (outside_area_rule ∷ slave ∷ fmmu ∷ []) (controllers_by S.controller line.now) result }
{
    let record = fmmu_of(line, slave, fmmu);
    if record.mapped_bits() == 0 {
        return Ok(());
    }
    let last = last_byte(&record);
    match end_of_area(line, slave, &record) {
        None => Err(MapFault::OutsideArea {
            slave,
            fmmu,
            address: record.physical,
        }),
        Some(end) if last < u32::from(end) => Ok(()),
        Some(end) => Err(MapFault::OutsideArea {
            slave,
            fmmu,
            address: end,
        }),
    }
}

/// The address of the last byte that an FMMU maps.
fn last_byte(fmmu: &Fmmu) -> u32
    requires { 0 < pair_count fmmu.now }
    ensures { result ≡ (first_physical fmmu.now + pair_count fmmu.now - 1) / 8 }
{
    (fmmu.first_physical() + fmmu.mapped_bits() - 1) / 8
}

/// The first address behind the area of the FMMU's kind that holds its first byte.
fn end_of_area<S: Mapped>(line: &[S], slave: usize, fmmu: &Fmmu) -> Option<u16>
    requires slave { slave < length line.now }
    requires some_bit { 0 < pair_count fmmu.now }
    ensures { MatchOption result (HasNoArea (controllers_by S.controller line.now) slave fmmu.now)
        (IsAreaEnd (controllers_by S.controller line.now) slave fmmu.now) }
{
    for number in 0..SYNC_MANAGER_COUNT {
        let manager = sync_manager_of(line, slave, number);
        if holds_first_byte(&manager, fmmu) {
            return Some(manager.start + manager.length);
        }
    }
    if begins_at_mail_status(fmmu) {
        return Some(ANSWER_MAILBOX_STATUS + 1);
    }
    None
}

/// Does the sync manager guard an area of the FMMU's kind that holds the FMMU's first byte?
fn holds_first_byte(manager: &SyncMan, fmmu: &Fmmu) -> bool
    ensures value { result ≡ holds_first_byte manager.now fmmu.now }
    ensures end { IsTrue result → manager.now.start + manager.now.length ≤ MEMORY_SIZE }
{
    suits(manager, fmmu)
        && manager.start <= fmmu.physical
        && u32::from(fmmu.physical) < u32::from(manager.start) + u32::from(manager.length)
}

/// Does the FMMU read, from the byte on that tells of waiting mail?
fn begins_at_mail_status(fmmu: &Fmmu) -> bool
    ensures { result ≡ begins_at_mail_status fmmu.now }
{
    fmmu.reads() && fmmu.physical == ANSWER_MAILBOX_STATUS
}

/// Does the sync manager guard an area of the FMMU's kind: active, buffered, and of its direction?
fn suits(manager: &SyncMan, fmmu: &Fmmu) -> bool
    ensures value { result ≡ suits manager.now fmmu.now }
    ensures end { IsTrue result → manager.now.start + manager.now.length ≤ MEMORY_SIZE }
{
    let direction = if fmmu.reads() {
        manager.master_reads()
    } else {
        manager.master_writes()
    };
    manager.is_active() && manager.is_buffered() && direction
}
