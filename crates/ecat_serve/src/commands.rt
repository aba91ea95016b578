//! A line that is served, and worked on between its rounds by somebody who gives a command a line.

ghost use Rattle.std.specs.Prelude.{◌≡◌, ◌+◌, ◌-◌, ◌^◌, ◌<◌, ◌≤◌, IfOk};
ghost use Rattle.ecat_serve.specs.Commands.{IsCommanded, ServesCommanded};
ghost use Rattle.ecat_serve.specs.Ends.{calls_of};
ghost use Rattle.ecat_serve.specs.Rounds.{serving};

use crate::disturbed::{Disturb, Disturbance};
use crate::ends::{Console, Ends};
use crate::lines::{InputLine, LINE_ROOM};
use crate::served::{Counts, Served};
use crate::watch::Watch;
use ec_ring::{Port, PortFault};

/// Somebody who does to a line what he is told between two of its rounds.
pub trait Desk {
    /// Does what a line of input asks, or none of it; `None` is a line that is too long. He is told how many
    /// packets came so far, and answers how the service goes on.
    fn take(&mut self, served: &mut Served, came: Counts, line: Option<&[u8]>) -> Onward
        ensures { IsCommanded served.old served.new };
}

/// How a service goes on behind a line of input.
#[derive(Clone, Copy, PartialEq, Eq, Debug)]
pub enum Onward {
    /// It ends.
    Ends,
    /// It goes on.
    Goes,
    /// It goes on, and something befalls so many more of the copies that leave an end.
    Disturbed(Port, Disturbance, u32),
}

impl Served {
    /// Serves packets as `serve_watched` does, and between two of them takes the cables that are pulled and
    /// the lines that come: where the ends say that something else is to be looked at first. It ends behind a
    /// line that ends it, or where there is none, since no more is to come; once so many packets have come;
    /// and at the first call of the ends that fails. The answer is how many packets have come in.
    pub fn serve_commanded<E: Ends + Console + Disturb, V: Watch, D: Desk>(
        &mut self,
        ends: &mut E,
        most: u64,
        watch: &mut V,
        desk: &mut D,
    ) -> Result<Counts, PortFault>
        ensures serves { ServesCommanded (calls_of E.Ends.receives E.Ends.sends) most (2 ^ 64 - 1)
            (record { frames = 0; dropped = 0 }) (serving self.old ends.old) result
            (serving self.new ends.new) }
        ensures counted { IfOk result (λ counts. counts.frames + counts.dropped ≤ most) }
    {
        let mut counts = Counts::none();
        for _command in 0..u64::MAX {
            let left = most.saturating_sub(counts.packets());
            counts = self.serve_on(ends, left, counts, watch)?;
            if most <= counts.packets() {
                return Ok(counts);
            }
            if !see_to(self, ends, watch, desk, counts) {
                return Ok(counts);
            }
        }
        Ok(counts)
    }
}

/// Sees to what is to be looked at between two packets: a cable that was pulled or plugged in, or else a line
/// that came. Does the service go on? Not where none came.
fn see_to<E: Console + Disturb, V: Watch, D: Desk>(
    served: &mut Served,
    ends: &mut E,
    watch: &mut V,
    desk: &mut D,
    came: Counts,
) -> bool
    ensures { IsCommanded served.old served.new }
{
    match ends.take_cable() {
        Some(cable) => {
            let link = served.put_cable(cable);
            watch.cable(cable, link);
            true
        }
        None => take_line(served, ends, desk, came),
    }
}

/// Takes a line that came, and does what it asks. Does the service go on? Not where none came.
fn take_line<E: Console + Disturb, D: Desk>(
    served: &mut Served,
    ends: &mut E,
    desk: &mut D,
    came: Counts,
) -> bool
    ensures { IsCommanded served.old served.new }
{
    let mut room = [0; LINE_ROOM];
    let onward = match ends.take_line(&mut room) {
        None => Onward::Ends,
        Some(InputLine::Long) => desk.take(served, came, None),
        Some(InputLine::Whole(count)) => desk.take(served, came, Some(&room[..count])),
    };
    match onward {
        Onward::Ends => false,
        Onward::Goes => true,
        Onward::Disturbed(at, disturbance, count) => {
            ends.disturb(at, disturbance, count);
            true
        }
    }
}
