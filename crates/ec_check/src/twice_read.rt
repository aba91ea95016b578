//! No two FMMUs of the line read one logical bit.

ghost use Rattle.std.specs.Prelude.{◌≡◌, ◌<◌, ◌≤◌, ℕ, [], ◌∷◌, true, length};
ghost use Rattle.ec_regs.specs.declared.registers.TheConstants.{FMMU_COUNT};
ghost use Rattle.ec_regs.specs.Pairs.{reads};
ghost use Rattle.ec_check.specs.Fit.{twice_read_rule};
ghost use Rattle.ec_check.specs.Line.{controllers_by, HasFmmu, StandsOn};
ghost use Rattle.ec_check.specs.Order.{IsBefore};
ghost use Rattle.ec_check.specs.Search.{Answers};

use crate::fault::MapFault;
use crate::hulls::reads_on_one_side;
use crate::line::{Standing, fmmu_of, standing_at};
use crate::mapped::Mapped;
use crate::runs::lowest_shared_logical;
use ec_regs::registers::FMMU_COUNT;

/// FMMUs of all slaves. Those of most lines read in the order of their bits, and no two need be compared.
pub(crate) fn bits_read_twice<S: Mapped>(line: &[S]) -> Result<(), MapFault>
    ensures { Answers (twice_read_rule ∷ []) (controllers_by S.controller line.now) result }
{
    if reads_on_one_side(line) {
        return Ok(());
    }
    for slave in 0..line.len() {
        read_twice_by(line, slave)?;
    }
    Ok(())
}

/// FMMUs of one slave, and the later ones of the line.
fn read_twice_by<S: Mapped>(line: &[S], slave: usize) -> Result<(), MapFault>
    requires { slave < length line.now }
    ensures { Answers (twice_read_rule ∷ slave ∷ []) (controllers_by S.controller line.now) result }
{
    for fmmu in 0..FMMU_COUNT {
        read_again(line, &standing_at(line, slave, fmmu))?;
    }
    Ok(())
}

/// One FMMU, and the later ones of the line.
fn read_again<S: Mapped>(line: &[S], first: &Standing) -> Result<(), MapFault>
    requires { StandsOn (controllers_by S.controller line.now) first.now }
    ensures { Answers (twice_read_rule ∷ first.now.slave ∷ first.now.number ∷ [])
        (controllers_by S.controller line.now) result }
{
    if !first.record.reads() {
        return Ok(());
    }
    for later_slave in first.slave..line.len() {
        read_again_by(line, first, later_slave)?;
    }
    Ok(())
}

/// One FMMU, and the later ones of one slave.
fn read_again_by<S: Mapped>(
    line: &[S],
    first: &Standing,
    later_slave: usize,
) -> Result<(), MapFault>
    requires first { StandsOn (controllers_by S.controller line.now) first.now }
    requires order { first.now.slave ≤ later_slave }
    requires there { later_slave < length line.now }
    requires for_reading { reads first.now.record ≡ true }
    ensures { Answers (twice_read_rule ∷ first.now.slave ∷ first.now.number ∷ later_slave ∷ [])
        (controllers_by S.controller line.now) result }
{
    for later_fmmu in first_after(first, later_slave)..FMMU_COUNT {
        compare_read(line, first, later_slave, later_fmmu)?;
    }
    Ok(())
}

/// The first FMMU of a slave that comes after one of the same slave or of an earlier one.
fn first_after(first: &Standing, later_slave: usize) -> usize
    requires order { first.now.slave ≤ later_slave }
    requires number { first.now.number < FMMU_COUNT }
    ensures before { (n : ℕ) → n < result
        → ¬ IsBefore (first.now.slave ∷ first.now.number ∷ []) (later_slave ∷ n ∷ []) }
    ensures after { (n : ℕ) → result ≤ n
        → IsBefore (first.now.slave ∷ first.now.number ∷ []) (later_slave ∷ n ∷ []) }
{
    if later_slave == first.slave {
        first.number + 1
    } else {
        0
    }
}

/// Do these two FMMUs read one logical bit?
fn compare_read<S: Mapped>(
    line: &[S],
    first: &Standing,
    later_slave: usize,
    later_fmmu: usize,
) -> Result<(), MapFault>
    requires first { StandsOn (controllers_by S.controller line.now) first.now }
    requires order { IsBefore (first.now.slave ∷ first.now.number ∷ []) (later_slave ∷ later_fmmu ∷ []) }
    requires second { HasFmmu (controllers_by S.controller line.now) later_slave later_fmmu }
    requires for_reading { reads first.now.record ≡ true }
    ensures { Answers (twice_read_rule ∷ first.now.slave ∷ first.now.number ∷ later_slave ∷ later_fmmu ∷ [])
        (controllers_by S.controller line.now) result }
{
    let second = fmmu_of(line, later_slave, later_fmmu);
    if !second.reads() {
        return Ok(());
    }
    match lowest_shared_logical(first, &second) {
        None => Ok(()),
        Some(bit) => Err(MapFault::TwiceRead {
            slave: first.slave,
            fmmu: first.number,
            later_slave,
            later_fmmu,
            bit,
        }),
    }
}
