//! Why a command on the line of a scene ends before its output does.

ghost use Rattle.std.specs.Prelude.{◌≡◌};
ghost use Rattle.ecat_setup.specs.Failures.{failed_cycle};
ghost use Rattle.ecat_setup.specs.declared.failure.LineFailure.TheVariants.{Output, Port, Scene};

use ec_master::{CycleFault, PortFault};
use ecat_scene::SceneFault;
use std::io;

/// Why a command on the line of a scene ends before its output does.
#[derive(Drop)]
pub enum LineFailure {
    /// A read of the source failed.
    Read,
    /// Memory ran out.
    NoMemory,
    /// The scene is refused.
    Scene(SceneFault),
    /// There are more slaves than a ring may have, or more items than a work; no scene has as many.
    TooMany,
    /// The scene has actions or weathers, for which there are no packets.
    Actions,
    /// The output failed.
    Output,
    /// A frame came back that is none of those sent; no ring makes one.
    Stranger,
    /// A send or a receive failed.
    Port,
}

impl From<SceneFault> for LineFailure {
    fn from(fault: SceneFault) -> LineFailure
        ensures { result ≡ Scene fault }
    {
        LineFailure::Scene(fault)
    }
}

impl From<io::Error> for LineFailure {
    fn from(_error: io::Error) -> LineFailure
        ensures { result ≡ Output }
    {
        LineFailure::Output
    }
}

impl From<PortFault> for LineFailure {
    fn from(_fault: PortFault) -> LineFailure
        ensures { result ≡ Port }
    {
        LineFailure::Port
    }
}

impl From<CycleFault> for LineFailure {
    fn from(fault: CycleFault) -> LineFailure
        ensures { result ≡ failed_cycle fault }
    {
        match fault {
            CycleFault::Port => LineFailure::Port,
            CycleFault::Stranger => LineFailure::Stranger,
        }
    }
}
