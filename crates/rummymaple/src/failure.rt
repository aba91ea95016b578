//! Why a question to a slave has no result, in plain numbers.

ghost use Rattle.std.specs.Prelude.{◌≡◌};
ghost use Rattle.rummymaple.specs.Failure.{failure_code, failure_number};

use crate::numbers::Code;
use ec_services::MasterFault;

/// The code of a fault. The cable's and the ports' own faults are none of a turn: they have the codes of an
/// answer that tells nothing, and of none.
pub(crate) fn failure_code(fault: MasterFault) -> Code
    ensures { result ≡ failure_code fault }
{
    match fault {
        MasterFault::NoSlave => Code::NoSlave,
        MasterFault::Refused(_) => Code::Refused,
        MasterFault::Abort(_) => Code::Aborted,
        MasterFault::NoAnswer | MasterFault::Port => Code::NoAnswer,
        MasterFault::BadAnswer | MasterFault::Broken => Code::BadAnswer,
        MasterFault::Stranger => Code::Stranger,
    }
}

/// The number that it tells: an AL status code, or the code of an abort; else 0.
pub(crate) fn failure_number(fault: MasterFault) -> u32
    ensures { result ≡ failure_number fault }
{
    match fault {
        MasterFault::Refused(code) => u32::from(code),
        MasterFault::Abort(code) => code,
        _ => 0,
    }
}
