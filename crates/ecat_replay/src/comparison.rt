//! Trips of a capture on a line: each goes to it once more, and what comes back is compared.

ghost use Rattle.std.specs.Prelude.{◌≡◌, ◌<◌, OnOk, length};
ghost use Rattle.ec_wire.specs.Datagram.{nth};
ghost use Rattle.ecat_trips.specs.Alike.{own_count};
ghost use Rattle.ecat_replay.specs.Comparing.{difference_by, outcome_of};

use crate::difference::{Answer, Difference, unanswered};
use crate::findings::Findings;
use crate::part::Part;
use crate::player::Player;
use crate::tally::{Outcome, Tally};
use ec_wire::FrameBuf;
use ecat_serve::Served;
use ecat_trips::{Kept, Trip, own_count};
use std::alloc::{AllocError, Global};
use std::marker::Model;

/// A line, and what was found of its answers so far.
#[derive(Drop)]
pub(crate) struct Comparison {
    pub player: Player,
    pub findings: Findings,
    pub tally: Tally,
}

impl Model for Comparison {
    ghost use Rattle.ecat_replay.specs.Comparing.{ComparisonState};

    ghost Value = { ComparisonState };

    ghost view = { λ c. record { line = c.player; findings = c.findings; tally = c.tally } };
}

/// How a datagram of this part is counted.
fn outcome_of(part: &Part, difference: &Option<Difference>) -> Outcome
    ensures { result ≡ outcome_of part.now difference.now }
{
    match difference {
        None => Outcome::Alike,
        Some(_) if part.is_clock() => Outcome::OfClocks,
        Some(_) => Outcome::Other,
    }
}

impl Comparison {
    ghost use Rattle.ecat_replay.specs.Comparing.{AreCompared, IsCompared, compared, compared_at};
    ghost use Rattle.ecat_replay.specs.Comparing.{compared_first};
    ghost use Rattle.ecat_replay.specs.Findings.{none_found};
    ghost use Rattle.ecat_replay.specs.Tallies.{nothing_sent};

    /// Nothing was sent yet to this line.
    pub(crate) fn new(alloc: Global, served: Served) -> Comparison
        ensures { result ≡ record { line = served; findings = none_found; tally = nothing_sent } }
    {
        Comparison {
            player: Player::new(served),
            findings: Findings::new(alloc),
            tally: Tally::none(),
        }
    }

    /// Sends what trips sent to the line once more, the last one of them first, and compares.
    pub(crate) fn play_all(&mut self, trips: &[Kept]) -> Result<(), AllocError>
        ensures { OnOk result (AreCompared trips.now self.old self.new) }
    {
        for played in 0..trips.len() {
            self.play(trips[trips.len() - 1 - played].trip())?;
        }
        Ok(())
    }

    /// Sends what a trip sent to the line once more, and compares what comes back with what came back of the
    /// trip.
    pub(crate) fn play(&mut self, trip: &Trip) -> Result<(), AllocError>
        ensures { OnOk result (IsCompared trip.now self.old self.new) }
    {
        let here = self.player.play(&trip.sent.frame, trip.second.is_some());
        self.tally.count_frame(trip.came.is_some());
        match &trip.came {
            None => Ok(()),
            Some(came) => self.compare(trip, came.frame(), &here),
        }
    }

    /// Compares the answers to each of the frame's own datagrams.
    fn compare(
        &mut self,
        trip: &Trip,
        there: &FrameBuf,
        here: &Option<FrameBuf>,
    ) -> Result<(), AllocError>
        ensures { OnOk result (self.new
            ≡ compared_first (own_count trip.now.sent.frame) trip.now there.now here.now self.old) }
    {
        for k in 0..own_count(&trip.sent.frame) {
            self.compare_at(trip, there, here, k)?;
        }
        Ok(())
    }

    /// Compares the answers to the datagram at `k`.
    #[tactic(auto, unfolding(crate::specs::Comparing::compared_at))]
    fn compare_at(
        &mut self,
        trip: &Trip,
        there: &FrameBuf,
        here: &Option<FrameBuf>,
        k: usize,
    ) -> Result<(), AllocError>
        requires { k < length trip.now.sent.frame }
        ensures { OnOk result (self.new ≡ compared_at trip.now there.now here.now k self.old) }
    {
        let part = Part::of(&trip.sent.frame, k);
        let difference = difference_by(&self.player, &trip.sent.frame, there, here, k);
        self.note(part, difference, trip.first.number)
    }

    /// Notes how a datagram was answered that was sent with this packet.
    fn note(
        &mut self,
        part: Part,
        difference: Option<Difference>,
        packet: u64,
    ) -> Result<(), AllocError>
        ensures { OnOk result (self.new ≡ compared part difference packet self.old) }
    {
        self.tally.count(outcome_of(&part, &difference));
        match difference {
            Some(difference) if !part.is_clock() => self.findings.take(part, difference, packet),
            _ => Ok(()),
        }
    }
}

/// How a line answered the datagram at `k` of a frame otherwise than the capture has it, if it did.
fn difference_by(
    player: &Player,
    sent: &FrameBuf,
    there: &FrameBuf,
    here: &Option<FrameBuf>,
    k: usize,
) -> Option<Difference>
    requires { k < length sent.now }
    ensures { result ≡ difference_by player.now.ring.slaves sent.now there.now here.now k }
{
    let Some(here) = here else {
        return unanswered(sent, there, k);
    };
    let part = Part::of(sent, k);
    let mailbox = player.mailbox_of(&part);
    Answer { sent, there, here }.difference(k, &part, mailbox)
}
