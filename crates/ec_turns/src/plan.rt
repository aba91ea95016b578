//! What a start does, in its order.

ghost use Rattle.std.specs.Prelude.{◌≡◌};
ghost use Rattle.ec_turns.specs.Plan.{before_or_all, end_of, first_of, gap_of, number_of, stage_after};
ghost use Rattle.ec_turns.specs.Plan.{steps_of};

use ec_run::{ALL_STEPS, Phase, Step};

/// A stage of a start: each is done with every slave before the next one begins (IEC 61158-6-12, AL state
/// machine).
#[derive(Clone, Copy, PartialEq, Eq, Debug)]
pub enum Stage {
    /// The slaves are counted.
    Count,
    /// Those behind a broken link are given their station addresses.
    Behind,
    /// All slaves are given their station addresses; over a broken link those before it.
    Stations,
    /// Init: errors that stand are acknowledged.
    Init,
    /// The mailboxes are set, and Pre-Op is asked for.
    PreOp,
    /// The startup objects are written, the areas of process data and the FMMUs are set, and Safe-Op is asked
    /// for.
    SafeOp,
    /// Op is asked for.
    Op,
}

impl Stage {
    /// Its number, in the order of the stages from 0 on.
    pub fn number(self) -> u32
        ensures { result ≡ number_of self }
    {
        self as u32
    }
}

/// What a start is to do.
#[derive(Clone, Copy, PartialEq, Eq, Debug)]
pub struct Plan {
    /// How many slaves the line has.
    pub slaves: u16,
    /// The link that is down, where one is: 0 is that before the first slave.
    pub down: Option<u16>,
    /// The last stage.
    pub last: Stage,
}

/// The step of a slave behind a broken link, as if the line began there.
const BEHIND: [Step; 1] = [Step::StationBehind(0)];

/// The step of a slave that is told by its place.
const STATION: [Step; 1] = [Step::Station];

/// The step of a slave before a broken link.
const BEFORE: [Step; 1] = [Step::StationBefore];

/// The stage behind another one, over a link between two slaves that is down or not.
pub(crate) fn stage_after(stage: Stage, has_gap: bool) -> Stage
    ensures { result ≡ stage_after has_gap stage }
{
    match stage {
        Stage::Count if has_gap => Stage::Behind,
        Stage::Count | Stage::Behind => Stage::Stations,
        Stage::Stations => Stage::Init,
        Stage::Init => Stage::PreOp,
        Stage::PreOp => Stage::SafeOp,
        Stage::SafeOp | Stage::Op => Stage::Op,
    }
}

impl Plan {
    /// The link between two slaves that is down, where one is.
    pub(crate) fn gap(&self) -> Option<u16>
        ensures { result ≡ gap_of self.now }
    {
        match self.down {
            Some(link) if 0 < link && link < self.slaves => Some(link),
            _ => None,
        }
    }

    /// The steps of a stage with each of its slaves.
    pub(crate) fn steps(&self, stage: Stage) -> &'static [Step]
        ensures { result.now ≡ steps_of (gap_of self.now) stage }
    {
        match stage {
            Stage::Count => &[],
            Stage::Behind => &BEHIND,
            Stage::Stations => self.station_steps(),
            Stage::Init => Phase::Init.steps(),
            Stage::PreOp => Phase::PreOp.steps(),
            Stage::SafeOp => &ALL_STEPS[5..36],
            Stage::Op => Phase::Op.steps(),
        }
    }

    /// The steps by which a slave that is not behind a broken link is given its station address.
    fn station_steps(&self) -> &'static [Step]
        ensures { result.now ≡ before_or_all (gap_of self.now) }
    {
        match self.gap() {
            Some(_) => &BEFORE,
            None => &STATION,
        }
    }

    /// The place of the first slave of a stage.
    pub(crate) fn first(&self, stage: Stage) -> u16
        ensures { result ≡ first_of (gap_of self.now) stage }
    {
        match (stage, self.gap()) {
            (Stage::Behind, Some(link)) => link,
            _ => 0,
        }
    }

    /// The place behind its last slave.
    pub(crate) fn end(&self, stage: Stage) -> u16
        ensures { result ≡ end_of self.now.slaves (gap_of self.now) stage }
    {
        match (stage, self.gap()) {
            (Stage::Stations, Some(link)) => link,
            _ => self.slaves,
        }
    }
}
