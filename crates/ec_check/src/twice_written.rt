//! No two FMMUs of a slave write one physical bit.

ghost use Rattle.std.specs.Prelude.{◌≡◌, ◌<◌, [], ◌∷◌, length};
ghost use Rattle.ec_regs.specs.declared.registers.TheConstants.{FMMU_COUNT};
ghost use Rattle.ec_check.specs.Fit.{twice_written_rule};
ghost use Rattle.ec_check.specs.Line.{controllers_by};
ghost use Rattle.ec_check.specs.Search.{Answers};

use crate::fault::MapFault;
use crate::line::fmmu_of;
use crate::mapped::Mapped;
use crate::runs::lowest_shared_physical;
use ec_regs::registers::FMMU_COUNT;

/// FMMUs of all slaves.
pub(crate) fn bits_written_twice<S: Mapped>(line: &[S]) -> Result<(), MapFault>
    ensures { Answers (twice_written_rule ∷ []) (controllers_by S.controller line.now) result }
{
    for slave in 0..line.len() {
        written_twice_in(line, slave)?;
    }
    Ok(())
}

/// FMMUs of one slave.
fn written_twice_in<S: Mapped>(line: &[S], slave: usize) -> Result<(), MapFault>
    requires { slave < length line.now }
    ensures { Answers (twice_written_rule ∷ slave ∷ []) (controllers_by S.controller line.now) result }
{
    for fmmu in 0..FMMU_COUNT {
        written_again(line, slave, fmmu)?;
    }
    Ok(())
}

/// One FMMU and the later ones of its slave.
fn written_again<S: Mapped>(line: &[S], slave: usize, fmmu: usize) -> Result<(), MapFault>
    requires slave { slave < length line.now }
    requires fmmu { fmmu < FMMU_COUNT }
    ensures { Answers (twice_written_rule ∷ slave ∷ fmmu ∷ []) (controllers_by S.controller line.now) result }
{
    for later_fmmu in fmmu + 1..FMMU_COUNT {
        compare_written(line, slave, fmmu, later_fmmu)?;
    }
    Ok(())
}

/// Do these two FMMUs of a slave write one physical bit?
fn compare_written<S: Mapped>(
    line: &[S],
    slave: usize,
    fmmu: usize,
    later_fmmu: usize,
) -> Result<(), MapFault>
    requires slave { slave < length line.now }
    requires order { fmmu < later_fmmu }
    requires fmmu { later_fmmu < FMMU_COUNT }
    ensures { Answers (twice_written_rule ∷ slave ∷ fmmu ∷ later_fmmu ∷ [])
        (controllers_by S.controller line.now) result }
{
    let first = fmmu_of(line, slave, fmmu);
    let second = fmmu_of(line, slave, later_fmmu);
    if !first.writes() {
        return Ok(());
    }
    if !second.writes() {
        return Ok(());
    }
    match lowest_shared_physical(&first, &second) {
        None => Ok(()),
        Some(bit) => Err(MapFault::TwiceWritten {
            slave,
            fmmu,
            later_fmmu,
            bit,
        }),
    }
}
