//! No logical bit is read from one slave and written to another.

ghost use Rattle.std.specs.Prelude.{◌≡◌, ◌≢◌, ◌<◌, [], ◌∷◌, true, length};
ghost use Rattle.ec_regs.specs.Pairs.{reads};
ghost use Rattle.ec_check.specs.Fit.{read_and_written_rule};
ghost use Rattle.ec_check.specs.Line.{controllers_by, HasFmmu, StandsOn};
ghost use Rattle.ec_check.specs.Search.{Answers};

use crate::fault::MapFault;
use crate::hulls::exchanges_on_one_side;
use crate::line::{Standing, fmmu_of, standing_at};
use crate::mapped::Mapped;
use crate::runs::lowest_shared_logical;
use ec_regs::registers::FMMU_COUNT;

/// FMMUs that read, of all slaves. On most lines one pass tells that none reads what another slave writes.
pub(crate) fn bits_read_and_written<S: Mapped>(line: &[S]) -> Result<(), MapFault>
    ensures { Answers (read_and_written_rule ∷ []) (controllers_by S.controller line.now) result }
{
    if exchanges_on_one_side(line) {
        return Ok(());
    }
    for reader in 0..line.len() {
        written_elsewhere(line, reader)?;
    }
    Ok(())
}

/// FMMUs that read, of one slave.
fn written_elsewhere<S: Mapped>(line: &[S], reader: usize) -> Result<(), MapFault>
    requires { reader < length line.now }
    ensures { Answers (read_and_written_rule ∷ reader ∷ []) (controllers_by S.controller line.now) result }
{
    for reader_fmmu in 0..FMMU_COUNT {
        written_by_others(line, &standing_at(line, reader, reader_fmmu))?;
    }
    Ok(())
}

/// One FMMU that reads, and those of the other slaves that write.
fn written_by_others<S: Mapped>(line: &[S], reader: &Standing) -> Result<(), MapFault>
    requires { StandsOn (controllers_by S.controller line.now) reader.now }
    ensures { Answers (read_and_written_rule ∷ reader.now.slave ∷ reader.now.number ∷ [])
        (controllers_by S.controller line.now) result }
{
    if !reader.record.reads() {
        return Ok(());
    }
    for writer in 0..line.len() {
        written_by(line, reader, writer)?;
    }
    Ok(())
}

/// One FMMU that reads, and those of one slave that write. A slave may read and write the same bit.
fn written_by<S: Mapped>(line: &[S], reader: &Standing, writer: usize) -> Result<(), MapFault>
    requires reader { StandsOn (controllers_by S.controller line.now) reader.now }
    requires there { writer < length line.now }
    requires for_reading { reads reader.now.record ≡ true }
    ensures { Answers (read_and_written_rule ∷ reader.now.slave ∷ reader.now.number ∷ writer ∷ [])
        (controllers_by S.controller line.now) result }
{
    if writer == reader.slave {
        return Ok(());
    }
    for writer_fmmu in 0..FMMU_COUNT {
        compare_crossed(line, reader, writer, writer_fmmu)?;
    }
    Ok(())
}

/// Does the one FMMU read a logical bit that the other writes?
fn compare_crossed<S: Mapped>(
    line: &[S],
    reader: &Standing,
    writer: usize,
    writer_fmmu: usize,
) -> Result<(), MapFault>
    requires reader { StandsOn (controllers_by S.controller line.now) reader.now }
    requires apart { reader.now.slave ≢ writer }
    requires writer { HasFmmu (controllers_by S.controller line.now) writer writer_fmmu }
    requires for_reading { reads reader.now.record ≡ true }
    ensures { Answers
        (read_and_written_rule ∷ reader.now.slave ∷ reader.now.number ∷ writer ∷ writer_fmmu ∷ [])
        (controllers_by S.controller line.now) result }
{
    let second = fmmu_of(line, writer, writer_fmmu);
    if !second.writes() {
        return Ok(());
    }
    match lowest_shared_logical(reader, &second) {
        None => Ok(()),
        Some(bit) => Err(MapFault::ReadAndWritten {
            reader: reader.slave,
            reader_fmmu: reader.number,
            writer,
            writer_fmmu,
            bit,
        }),
    }
}
