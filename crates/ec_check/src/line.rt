//! What a line is mapped by: the stations, FMMUs and sync managers of its slaves.

ghost use Rattle.std.specs.Prelude.{◌≡◌, ◌<◌, length};
ghost use Rattle.ec_regs.specs.declared.registers.TheConstants.{FMMU_COUNT, SYNC_MANAGER_COUNT};
ghost use Rattle.ec_check.specs.Line.{controllers_by, station_of, fmmu_of, sync_manager_of, StandsOn};

use crate::mapped::Mapped;
use ec_regs::{Fmmu, SyncMan};

/// An FMMU, with the slave and the number under which it stands on a line.
#[derive(Clone, Copy, Debug, PartialEq, Eq)]
pub(crate) struct Standing {
    /// The slave on which the FMMU stands.
    pub(crate) slave: usize,
    /// The number of the FMMU, below `FMMU_COUNT`.
    pub(crate) number: usize,
    /// The FMMU.
    pub(crate) record: Fmmu,
    /// How many bits it maps.
    pub(crate) bits: u32,
}

/// The station address of a slave.
pub(crate) fn station_of<S: Mapped>(line: &[S], slave: usize) -> u16
    requires { slave < length line.now }
    ensures { result ≡ station_of (controllers_by S.controller line.now) slave }
{
    line[slave].station()
}

/// An FMMU of a slave, by its number.
pub(crate) fn fmmu_of<S: Mapped>(line: &[S], slave: usize, number: usize) -> Fmmu
    requires slave { slave < length line.now }
    requires number { number < FMMU_COUNT }
    ensures { result ≡ fmmu_of (controllers_by S.controller line.now) slave number }
{
    line[slave].fmmu(number)
}

/// An FMMU of a slave, by its number, with both numbers.
pub(crate) fn standing_at<S: Mapped>(line: &[S], slave: usize, number: usize) -> Standing
    requires slave { slave < length line.now }
    requires number { number < FMMU_COUNT }
    ensures stands { StandsOn (controllers_by S.controller line.now) result }
    ensures slave { result.slave ≡ slave }
    ensures number { result.number ≡ number }
{
    let record = fmmu_of(line, slave, number);
    Standing {
        slave,
        number,
        record,
        bits: record.mapped_bits(),
    }
}

/// A sync manager of a slave, by its number.
pub(crate) fn sync_manager_of<S: Mapped>(line: &[S], slave: usize, number: usize) -> SyncMan
    requires slave { slave < length line.now }
    requires number { number < SYNC_MANAGER_COUNT }
    ensures { result ≡ sync_manager_of (controllers_by S.controller line.now) slave number }
{
    line[slave].sync_manager(number)
}
