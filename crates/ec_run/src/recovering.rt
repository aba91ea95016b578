//! A slave that is being brought to Op again.

ghost use Rattle.std.specs.Prelude.{◌≡◌, IfSome, length};
ghost use Rattle.ec_services.specs.Mailbox.{IsPeer};
ghost use Rattle.ec_services.specs.declared.surely.Progress.{Progress as ProgressState};
ghost use Rattle.ec_run.specs.Recovering.{progress_of, resumed};

use crate::recovery::Seen;
use crate::step::Step;
use ec_services::Progress;
use std::marker::Model;

/// A slave that is being brought to Op again, turn by turn. In a turn one frame goes out: a state is asked
/// for in one turn, and in each one behind it AL status is read once, until the slave is there; a record is
/// written in one and read back in the next; and a startup object is written a trip at a time.
#[derive(Drop)]
pub struct Recovery {
    /// Its place on the line, the first one's being 0.
    pub(crate) place: u16,
    /// What was seen of it before.
    pub(crate) seen: Seen,
    /// The steps that are left.
    pub(crate) steps: &'static [Step],
    /// How often the slave was asked in the first of them for what it has not come to yet.
    pub(crate) asked: u32,
    /// How often no slave answered in that one.
    pub(crate) unanswered: u32,
    /// How far the startup object is that is being written, if one is.
    pub(crate) written: Option<Progress>,
    /// How often AL status is read at the most for a state that the slave is asked for.
    pub(crate) reads: u32,
}

impl Model for Recovery {
    ghost use Rattle.std.specs.Prelude.{IfSome};
    ghost use Rattle.ec_services.specs.Mailbox.{IsPeer};
    ghost use Rattle.ec_services.specs.declared.surely.Progress.{Progress as ProgressState};
    ghost use Rattle.ec_run.specs.Recovering.{RecoveryState};

    ghost Value = { RecoveryState };

    ghost view = { λ r. record {
      place = r.place;
      seen = r.seen;
      steps = r.steps.now;
      asked = r.asked;
      unanswered = r.unanswered;
      written = r.written;
      reads = r.reads;
    } };

    ghost invariant = { λ r. IfSome r.written (λ (p : ProgressState). IsPeer p.peer) };
}

/// How far a step with a slave is, turn by turn.
#[derive(Clone, Copy)]
pub struct StepProgress {
    /// How often the slave was asked for what it has not come to yet.
    pub asked: u32,
    /// How often no slave answered.
    pub unanswered: u32,
    /// How far the startup object is that is being written, if one is.
    pub written: Option<Progress>,
}

impl Recovery {
    /// A slave at a place, of which this was seen, that is being brought through these steps, the first of
    /// which is so far: for who keeps that himself between turns. AL status is read so often at the most for
    /// a state.
    pub fn resumed(
        place: u16,
        seen: Seen,
        steps: &'static [Step],
        first: StepProgress,
        reads: u32,
    ) -> Recovery
        requires { IfSome first.written (λ (p : ProgressState). IsPeer p.peer) }
        ensures { result ≡ resumed place seen steps.now first reads }
    {
        Recovery {
            place,
            seen,
            steps,
            asked: first.asked,
            unanswered: first.unanswered,
            written: first.written,
            reads,
        }
    }

    /// How many steps are left.
    pub fn left(&self) -> usize
        ensures { result ≡ length self.now.steps }
    {
        self.steps.len()
    }

    /// How far the first of them is.
    pub fn progress(&self) -> StepProgress
        ensures is { result ≡ progress_of self.now }
        ensures peer { IfSome result.written (λ (p : ProgressState). IsPeer p.peer) }
    {
        StepProgress {
            asked: self.asked,
            unanswered: self.unanswered,
            written: self.written,
        }
    }

    /// The place of the slave.
    pub fn place(&self) -> u16
        ensures { result ≡ self.now.place }
    {
        self.place
    }
}
