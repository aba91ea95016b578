//! The packets of a capture, one after the other.

ghost use Rattle.std.specs.Prelude.{◌≡◌, [], IfOk, OnOk};
ghost use Rattle.ecat_replay.specs.Replaying.{is_taken};

use crate::comparison::Comparison;
use crate::player::Player;
use crate::tally::Tally;
use ec_wire::FrameBuf;
use ecat_serve::Served;
use ecat_trips::{Fate, Marks, Outline, Step, Trips};
use std::alloc::{AllocError, Global};
use std::marker::Model;

/// A capture that is sent to a line once more, and what was found so far.
#[derive(Drop)]
pub struct Replay {
    trips: Trips,
    pub(crate) comparison: Comparison,
}

impl Model for Replay {
    ghost use Rattle.ecat_replay.specs.Replaying.{ReplayState};

    ghost Value = { ReplayState };

    ghost view = { λ r. record { trips = r.trips; comparison = r.comparison } };
}

/// Is a packet taken by what happened?
fn is_taken(step: &Step) -> bool
    ensures { result ≡ is_taken step.now }
{
    match step {
        Step::Ended(_) => false,
        Step::Taken(_, _) => true,
    }
}

impl Replay {
    ghost use Rattle.ecat_replay.specs.Comparing.{AreCompared};
    ghost use Rattle.ecat_replay.specs.Findings.{none_found};
    ghost use Rattle.ecat_replay.specs.Replaying.{Happens, Takes};
    ghost use Rattle.ecat_replay.specs.Tallies.{nothing_sent};
    ghost use Rattle.ecat_trips.specs.Steps.{step};

    /// Nothing was sent yet to this line.
    pub fn new(alloc: Global, served: Served) -> Result<Replay, AllocError>
        ensures { IfOk result (λ replay. replay ≡ record {
          trips = record { on_the_way = []; lost = [] };
          comparison = record { line = served; findings = none_found; tally = nothing_sent };
        }) }
    {
        Ok(Replay {
            trips: Trips::new(alloc)?,
            comparison: Comparison::new(alloc, served),
        })
    }

    /// How many there were so far.
    pub fn tally(&self) -> &Tally
        ensures { result.now ≡ self.now.comparison.tally }
    {
        &self.comparison.tally
    }

    /// The line.
    pub(crate) fn player(&self) -> &Player
        ensures { result.now ≡ self.now.comparison.line }
    {
        &self.comparison.player
    }

    /// Takes the next packet of the capture: a frame that was sent goes to the line once what came back of it
    /// is known, in the order in which they were sent.
    pub fn take(
        &mut self,
        marks: &Marks,
        packet: &Outline,
        frame: &FrameBuf,
    ) -> Result<(), AllocError>
        ensures { OnOk result (Takes marks.now packet.now frame.now self.old self.new) }
    {
        for _turn in 0..u64::MAX {
            if self.go_on(marks, packet, frame)? {
                break;
            }
        }
        Ok(())
    }

    /// Takes the next thing that happens by a packet, and says whether that is taken by now.
    fn go_on(
        &mut self,
        marks: &Marks,
        packet: &Outline,
        frame: &FrameBuf,
    ) -> Result<bool, AllocError>
        ensures taken { IfOk result (λ taken.
            taken ≡ is_taken (step marks.now packet.now frame.now self.old.trips).step) }
        ensures happens { OnOk result (Happens marks.now packet.now frame.now self.old self.new) }
    {
        let step = self.trips.take(marks, packet, frame)?;
        self.comparison.follow(&step)?;
        let taken = is_taken(&step);
        self.trips.reuse(step);
        Ok(taken)
    }

    /// Takes what is on the way where the capture ends.
    pub fn end(&mut self) -> Result<(), AllocError>
        ensures { OnOk result
            (AreCompared self.old.trips.on_the_way self.old.comparison self.new.comparison) }
    {
        let Replay { trips, comparison } = self;
        comparison.play_all(trips.trips())
    }
}

impl Comparison {
    ghost use Rattle.ecat_replay.specs.Replaying.{Follows, FollowsFate};

    /// Takes what happened by a packet.
    fn follow(&mut self, step: &Step) -> Result<(), AllocError>
        ensures { OnOk result (Follows step.now self.old self.new) }
    {
        match step {
            Step::Ended(kept) => self.play(kept.trip()),
            Step::Taken(_, fate) => self.follow_fate(fate),
        }
    }

    /// Takes a packet by what it is.
    fn follow_fate(&mut self, fate: &Fate) -> Result<(), AllocError>
        ensures { OnOk result (FollowsFate fate.now self.old self.new) }
    {
        match fate {
            Fate::Closes(kept) | Fate::Replaces(kept) => self.play(kept.trip()),
            Fate::Late => {
                self.tally.count_late();
                Ok(())
            }
            Fate::Stray => {
                self.tally.count_stray();
                Ok(())
            }
            Fate::Begins | Fate::Second(_) | Fate::Back(_) => Ok(()),
        }
    }
}
