//! Each active FMMU reads or writes, and maps bits that exist.

ghost use Rattle.std.specs.Prelude.{◌≡◌, ◌<◌, [], ◌∷◌, length};
ghost use Rattle.ec_regs.specs.declared.registers.TheConstants.{FMMU_COUNT};
ghost use Rattle.ec_check.specs.Fit.{bad_fmmu_rule};
ghost use Rattle.ec_check.specs.Line.{controllers_by};
ghost use Rattle.ec_check.specs.Search.{Answers};
ghost use Rattle.ec_check.specs.Runs.{is_good};

use crate::fault::MapFault;
use crate::line::fmmu_of;
use crate::mapped::Mapped;
use ec_regs::Fmmu;
use ec_regs::registers::{FMMU_COUNT, LOGICAL_BITS, MEMORY_SIZE};

/// How many bits the memory has.
const MEMORY_BITS: u32 = 8 * MEMORY_SIZE as u32;

/// Bad FMMUs of all slaves.
pub(crate) fn bad_fmmus<S: Mapped>(line: &[S]) -> Result<(), MapFault>
    ensures { Answers (bad_fmmu_rule ∷ []) (controllers_by S.controller line.now) result }
{
    for slave in 0..line.len() {
        bad_fmmus_of(line, slave)?;
    }
    Ok(())
}

/// Bad FMMUs of one slave.
fn bad_fmmus_of<S: Mapped>(line: &[S], slave: usize) -> Result<(), MapFault>
    requires { slave < length line.now }
    ensures { Answers (bad_fmmu_rule ∷ slave ∷ []) (controllers_by S.controller line.now) result }
{
    for fmmu in 0..FMMU_COUNT {
        test_fmmu(line, slave, fmmu)?;
    }
    Ok(())
}

/// Is this FMMU bad?
fn test_fmmu<S: Mapped>(line: &[S], slave: usize, fmmu: usize) -> Result<(), MapFault>
    requires slave { slave < length line.now }
    requires fmmu { fmmu < FMMU_COUNT }
    ensures { Answers (bad_fmmu_rule ∷ slave ∷ fmmu ∷ []) (controllers_by S.controller line.now) result }
{
    let record = fmmu_of(line, slave, fmmu);
    if !record.is_switched_on() {
        return Ok(());
    }
    if !is_good(&record) {
        return Err(MapFault::BadFmmu { slave, fmmu });
    }
    Ok(())
}

/// Does the FMMU read or write and not both, does it map a bit, and do all of its bits exist? One with a bit
/// field above 7 maps none.
fn is_good(fmmu: &Fmmu) -> bool
    ensures { result ≡ is_good fmmu.now }
{
    let bits = fmmu.mapped_bits();
    fmmu.has_one_type()
        && bits >= 1
        && fmmu.first_logical() + u64::from(bits) <= LOGICAL_BITS
        && fmmu.first_physical() + bits <= MEMORY_BITS
}
