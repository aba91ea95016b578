//! A turn of a service: one frame at the most, behind a cycle.

ghost use Rattle.std.specs.Prelude.{◌≡◌, ◌≤◌};
ghost use Rattle.ec_acyclic.specs.Next.{HasPeer};
ghost use Rattle.ec_acyclic.specs.Turn.{IsServiceTurn, turn_of};

use crate::next::Reply;
use crate::service::Answer;
use crate::talk::{MORE_TRIES, Talk};
use ec_master::Ports;
use ec_services::MasterFault;

/// How far a service is behind a turn.
#[derive(Drop)]
pub enum Turn {
    /// There is another turn.
    Goes(Talk),
    /// It was the last one: the slave's answer, or why it has none.
    Ended(Result<Answer, MasterFault>),
}

impl Talk {
    /// Takes the next turn of a service: one frame goes out, or none where the service ends without one. It
    /// takes no memory.
    ///
    /// It is `NoSlave` without a trip where an object is asked for of a slave without mailboxes, and
    /// `NoAnswer` without one where no trip is left. A trip that fails is `Port`, and a copy of another frame
    /// `Stranger`. A question that came back with the working counter 0 is asked again, ten times in a row
    /// at the most, and then it is `NoSlave`; `BadAnswer`: it counted more than 1, or the answer is none to
    /// what was asked. `Refused`: the slave's error bit is set behind a request for a state, with its AL
    /// status code. `Abort`: the slave ended a transfer; a reading or writing that came to no answer may have
    /// been done all the same ([`ec_services::download_surely`]).
    pub fn turn<P: Ports>(self, ports: &mut P) -> Turn
        ensures turn { IsServiceTurn P.trips ports.old self result ports.new }
        ensures never_lower { P.failed ports.old ≤ P.failed ports.new }
    {
        match self.given_up() {
            Some(fault) => Turn::Ended(Err(fault)),
            None => {
                let reply = self.next.ask(ports, self.station);
                self.behind(reply)
            }
        }
    }

    /// How far it is behind a question that was answered so.
    fn behind(self, reply: Reply) -> Turn
        requires { HasPeer self.station reply.next }
        ensures { result ≡ turn_of self reply }
    {
        let trips = self.trips.saturating_sub(1);
        match reply.told {
            Ok(Some(answer)) => Turn::Ended(Ok(answer)),
            Ok(None) => Turn::Goes(Talk {
                next: reply.next,
                unanswered: 0,
                trips,
                ..self
            }),
            Err(MasterFault::NoSlave) if self.unanswered < MORE_TRIES => Turn::Goes(Talk {
                next: reply.next,
                unanswered: self.unanswered + 1,
                trips,
                ..self
            }),
            Err(fault) => Turn::Ended(Err(fault)),
        }
    }
}
