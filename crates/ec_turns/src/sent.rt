//! The frame that goes out in a turn.

ghost use Rattle.std.specs.Prelude.{◌≡◌};
ghost use Rattle.ec_turns.specs.Sent.{IsServiceFrame, IsStartFrame};
ghost use Rattle.ec_turns.specs.Start.{HasPeer};

use crate::held::HeldPorts;
use crate::plan::Plan;
use crate::start::Start;
use ec_acyclic::Talk;
use ec_run::Wanted;
use ec_wire::FrameBuf;

/// The frame that goes out in the next turn of a service; nothing where it ends without one.
pub fn frame_of_service(talk: Talk) -> Option<FrameBuf>
    ensures { IsServiceFrame talk result }
{
    let mut held = HeldPorts::silent();
    let _turn = talk.turn(&mut held);
    held.into_sent()
}

impl Start {
    /// The frame that goes out in the next turn, with the slave at the start's place, which is to be told
    /// this.
    pub fn frame(self, plan: Plan, wanted: &Wanted) -> Option<FrameBuf>
        requires { HasPeer self }
        ensures { IsStartFrame plan wanted.now self result }
    {
        let mut held = HeldPorts::silent();
        let _turn = self.turn(&mut held, plan, wanted);
        held.into_sent()
    }
}
