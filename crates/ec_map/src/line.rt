//! The stations, FMMUs and sync managers of a line of slaves.

ghost use Rattle.std.specs.Prelude.{◌≡◌, ◌<◌, length};
ghost use Rattle.ec_regs.specs.declared.registers.TheConstants.{FMMU_COUNT, SYNC_MANAGER_COUNT};
ghost use Rattle.ec_check.specs.Line.{controllers_by, fmmu_of, station_of, sync_manager_of};

use ec_check::Mapped;
use ec_regs::{Fmmu, SyncMan};

/// The station address of a slave.
pub(crate) fn station_of<S: Mapped>(line: &[S], slave: usize) -> u16
    requires { slave < length line.now }
    ensures { result ≡ station_of (controllers_by S.controller line.now) slave }
{
    line[slave].station()
}

/// An FMMU of a slave, by its number.
pub(crate) fn fmmu_of<S: Mapped>(line: &[S], slave: usize, number: usize) -> Fmmu
    requires slave { slave < length line.now }
    requires number { number < FMMU_COUNT }
    ensures { result ≡ fmmu_of (controllers_by S.controller line.now) slave number }
{
    line[slave].fmmu(number)
}

/// A sync manager of a slave, by its number.
pub(crate) fn sync_manager_of<S: Mapped>(line: &[S], slave: usize, number: usize) -> SyncMan
    requires slave { slave < length line.now }
    requires number { number < SYNC_MANAGER_COUNT }
    ensures { result ≡ sync_manager_of (controllers_by S.controller line.now) slave number }
{
    line[slave].sync_manager(number)
}
