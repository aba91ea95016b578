//! A look at the state of one slave.

ghost use Rattle.std.specs.Prelude.{◌≡◌};
ghost use Rattle.ec_turns.specs.Look.{IsLook, IsLookFrame};

use crate::held::HeldPorts;
use ec_ring::Came;
use ec_run::{Seen, look_at};
use ec_services::MasterFault;
use ec_wire::FrameBuf;

/// The frame by which AL status is read of the slave with a station address.
pub fn frame_of_look(station: u16) -> Option<FrameBuf>
    ensures { IsLookFrame station result }
{
    let mut held = HeldPorts::silent();
    let _seen = look_at(&mut held, station);
    held.into_sent()
}

/// What is seen of that slave by what came back of the frame; `Stranger` where a copy is of another one.
pub fn look_in(station: u16, came: Came) -> Result<Seen, MasterFault>
    ensures { IsLook station came result }
{
    let mut held = HeldPorts::giving(came);
    look_at(&mut held, station)
}
