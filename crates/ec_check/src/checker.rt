//! All rules, one after the other.

ghost use Rattle.std.specs.Prelude.{OnOk, IfErr};
ghost use Rattle.std.specs.List.{AllByRecursion};
ghost use Rattle.ec_esc.specs.State.{IsController};
ghost use Rattle.ec_check.specs.Line.{controllers_by};
ghost use Rattle.ec_check.specs.Fit.{IsFit, IsFirstFault};

use crate::areas::meeting_areas;
use crate::crossed::bits_read_and_written;
use crate::fault::MapFault;
use crate::fmmus::bad_fmmus;
use crate::mapped::Mapped;
use crate::outside::fmmus_outside;
use crate::stations::twin_stations;
use crate::twice_read::bits_read_twice;
use crate::twice_written::bits_written_twice;

/// Is the line mapped as a cycle needs it? If not, the first fault: that of the first rule that is broken, of
/// the smallest numbers from left to right, and of the lowest address or bit. Only active FMMUs and active
/// areas count. (Its clause `controllers` is what a proof knows of every line.)
pub fn check<S: Mapped>(line: &[S]) -> Result<(), MapFault>
    ensures accepted { OnOk result (IsFit (controllers_by S.controller line.now)) }
    ensures refused { IfErr result (IsFirstFault (controllers_by S.controller line.now)) }
    ensures controllers { AllByRecursion IsController (controllers_by S.controller line.now) }
{
    are_controllers(line);
    test_rules(line)
}

/// Tests all rules in their order.
fn test_rules<S: Mapped>(line: &[S]) -> Result<(), MapFault>
    ensures accepted { OnOk result (IsFit (controllers_by S.controller line.now)) }
    ensures refused { IfErr result (IsFirstFault (controllers_by S.controller line.now)) }
{
    twin_stations(line)?;
    bad_fmmus(line)?;
    meeting_areas(line)?;
    fmmus_outside(line)?;
    bits_written_twice(line)?;
    bits_read_twice(line)?;
    bits_read_and_written(line)
}

/// Does nothing; its clause is what a proof knows of every line: each slave has a controller.
pub fn are_controllers<S: Mapped>(line: &[S])
    ensures { AllByRecursion IsController (controllers_by S.controller line.now) }
{
    for slave in 0..line.len() {
        // For the prover: one whose station is read is a controller.
        let _station = line[slave].station();
    }
}
