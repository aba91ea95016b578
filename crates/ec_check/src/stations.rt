//! No two slaves have one station address.

ghost use Rattle.std.specs.Prelude.{◌<◌, [], ◌∷◌, length};
ghost use Rattle.ec_check.specs.Fit.{twin_station_rule};
ghost use Rattle.ec_check.specs.Line.{controllers_by};
ghost use Rattle.ec_check.specs.Search.{Answers};

use crate::fault::MapFault;
use crate::line::station_of;
use crate::mapped::Mapped;

/// Twins of all slaves.
pub(crate) fn twin_stations<S: Mapped>(line: &[S]) -> Result<(), MapFault>
    ensures { Answers (twin_station_rule ∷ []) (controllers_by S.controller line.now) result }
{
    for slave in 0..line.len() {
        twins_of(line, slave)?;
    }
    Ok(())
}

/// Twins of one slave among the later ones.
fn twins_of<S: Mapped>(line: &[S], slave: usize) -> Result<(), MapFault>
    requires { slave < length line.now }
    ensures { Answers (twin_station_rule ∷ slave ∷ []) (controllers_by S.controller line.now) result }
{
    for later_slave in slave + 1..line.len() {
        compare_stations(line, slave, later_slave)?;
    }
    Ok(())
}

/// Are these two slaves twins?
fn compare_stations<S: Mapped>(line: &[S], slave: usize, later_slave: usize) -> Result<(), MapFault>
    requires order { slave < later_slave }
    requires there { later_slave < length line.now }
    ensures { Answers (twin_station_rule ∷ slave ∷ later_slave ∷ [])
        (controllers_by S.controller line.now) result }
{
    if station_of(line, slave) == station_of(line, later_slave) {
        return Err(MapFault::TwinStation { slave, later_slave });
    }
    Ok(())
}
