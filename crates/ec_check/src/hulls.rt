//! Lines of which one pass tells that no logical bit is read twice, or read and written.

ghost use Rattle.std.specs.Prelude.{◌≡◌, ◌↔◌, ◌<◌, ◌+◌, true, IsTrue, MatchOption, length};
ghost use Rattle.ec_check.specs.Hulls.{IsHullOf, EachReadsOnOneSide, EachExchangesOnOneSide, IsReadSoFar};
ghost use Rattle.ec_check.specs.Hulls.{AreHulls, IsExchangedSoFar};
ghost use Rattle.ec_check.specs.Line.{controllers_by, HasFmmu};
ghost use Rattle.ec_check.specs.Rules.{MapsLogical};

use crate::line::fmmu_of;
use crate::mapped::Mapped;
use ec_areas::LogicalHull;
use ec_regs::Fmmu;
use ec_regs::registers::FMMU_COUNT;

/// The hull of what is read, and that of what is written.
#[derive(Clone, Copy)]
pub(crate) struct Exchanged {
    /// What is read.
    pub(crate) read: LogicalHull,
    /// What is written.
    pub(crate) written: LogicalHull,
}

/// The hull of no bits, which lies apart from every other and widens none.
fn of_no_bits() -> LogicalHull
    ensures { IsHullOf (λ l. ⊥) result }
{
    LogicalHull {
        first: u64::MAX,
        end: 0,
    }
}

/// The hull of the bits that an FMMU maps where it counts, and else that of no bits.
fn hull_if(counts: bool, fmmu: &Fmmu) -> LogicalHull
    ensures { IsHullOf (λ l. (counts ≡ true) × MapsLogical fmmu.now l) result }
{
    if !counts {
        return of_no_bits();
    }
    let bits = fmmu.mapped_bits();
    if bits == 0 {
        return of_no_bits();
    }
    let first = fmmu.first_logical();
    LogicalHull {
        first,
        end: first + u64::from(bits),
    }
}

/// Does each FMMU read on one side of all that those before it read? Then no bit is read twice, and no two
/// FMMUs need be compared.
pub(crate) fn reads_on_one_side<S: Mapped>(line: &[S]) -> bool
    ensures { IsTrue result ↔ EachReadsOnOneSide (controllers_by S.controller line.now) }
{
    let mut read = of_no_bits();
    for slave in 0..line.len() {
        match with_reads_of(line, slave, read) {
            Some(more) => read = more,
            None => return false,
        }
    }
    true
}

/// The hull of what earlier slaves and this one read, if each of its FMMUs reads on one side.
fn with_reads_of<S: Mapped>(line: &[S], slave: usize, earlier: LogicalHull) -> Option<LogicalHull>
    requires there { slave < length line.now }
    requires earlier { IsReadSoFar (controllers_by S.controller line.now) slave 0 earlier }
    ensures { MatchOption result (¬ EachReadsOnOneSide (controllers_by S.controller line.now))
        (IsReadSoFar (controllers_by S.controller line.now) (slave + 1) 0) }
{
    let mut read = earlier;
    for number in 0..FMMU_COUNT {
        match with_read(line, slave, number, read) {
            Some(more) => read = more,
            None => return None,
        }
    }
    Some(read)
}

/// The hull of what is read so far and through one FMMU, if that reads on one side.
fn with_read<S: Mapped>(
    line: &[S],
    slave: usize,
    number: usize,
    read: LogicalHull,
) -> Option<LogicalHull>
    requires there { HasFmmu (controllers_by S.controller line.now) slave number }
    requires so_far { IsReadSoFar (controllers_by S.controller line.now) slave number read }
    ensures { MatchOption result (¬ EachReadsOnOneSide (controllers_by S.controller line.now))
        (IsReadSoFar (controllers_by S.controller line.now) slave (number + 1)) }
{
    let record = fmmu_of(line, slave, number);
    let more = hull_if(record.reads(), &record);
    if !read.is_apart(more) {
        return None;
    }
    Some(read.with(more))
}

/// Does each FMMU read on one side of all that earlier slaves write, and write on one side of all that they
/// read? Then no bit is read from one slave and written to another, and no two FMMUs need be compared.
pub(crate) fn exchanges_on_one_side<S: Mapped>(line: &[S]) -> bool
    ensures { IsTrue result ↔ EachExchangesOnOneSide (controllers_by S.controller line.now) }
{
    let mut hulls = Exchanged {
        read: of_no_bits(),
        written: of_no_bits(),
    };
    for slave in 0..line.len() {
        match with_slave(line, slave, &hulls) {
            Some(more) => hulls = more,
            None => return false,
        }
    }
    true
}

/// The hulls of what earlier slaves and this one exchange, if each of its FMMUs does it on one side.
fn with_slave<S: Mapped>(line: &[S], slave: usize, earlier: &Exchanged) -> Option<Exchanged>
    requires there { slave < length line.now }
    requires earlier { IsExchangedSoFar (controllers_by S.controller line.now) slave 0 earlier.now }
    ensures { MatchOption result (¬ EachExchangesOnOneSide (controllers_by S.controller line.now))
        (IsExchangedSoFar (controllers_by S.controller line.now) (slave + 1) 0) }
{
    let mut hulls = *earlier;
    for number in 0..FMMU_COUNT {
        match with_fmmu(line, slave, number, earlier, &hulls) {
            Some(more) => hulls = more,
            None => return None,
        }
    }
    Some(hulls)
}

/// The hulls of what is exchanged so far and through one FMMU, if that lies on one side of what earlier
/// slaves exchange. (A slave may read and write the same bit.)
fn with_fmmu<S: Mapped>(
    line: &[S],
    slave: usize,
    number: usize,
    earlier: &Exchanged,
    hulls: &Exchanged,
) -> Option<Exchanged>
    requires there { HasFmmu (controllers_by S.controller line.now) slave number }
    requires earlier { AreHulls (controllers_by S.controller line.now) slave 0 earlier.now }
    requires so_far { IsExchangedSoFar (controllers_by S.controller line.now) slave number hulls.now }
    ensures { MatchOption result (¬ EachExchangesOnOneSide (controllers_by S.controller line.now))
        (IsExchangedSoFar (controllers_by S.controller line.now) slave (number + 1)) }
{
    let record = fmmu_of(line, slave, number);
    let read = hull_if(record.reads(), &record);
    if !earlier.written.is_apart(read) {
        return None;
    }
    let written = hull_if(record.writes(), &record);
    if !earlier.read.is_apart(written) {
        return None;
    }
    Some(Exchanged {
        read: hulls.read.with(read),
        written: hulls.written.with(written),
    })
}
