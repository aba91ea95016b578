//! What is told of what bad trips lack.

ghost use Rattle.std.specs.Prelude.{◌≡◌, ◌++◌, IfOk, OnOk, filter};
ghost use Rattle.std.specs.List.{count_by};
ghost use Rattle.ecat_judge.specs.Answer.{IsAnswer, any_fits, any_two_fit, fits_with, is_explained};
ghost use Rattle.ecat_judge.specs.Answer.{is_told, named, one_slave};

use crate::candidates::Candidates;
use crate::evidence::Evidence;
use crate::share::Missing;
use std::alloc::{AllocError, Global};

/// How much of each class is told, and whether more may be missing.
#[derive(Clone, Copy, PartialEq, Eq, Debug)]
pub struct Answer {
    /// How many slaves alone.
    pub slaves: usize,
    /// How many runs of neighbours.
    pub neighbours: usize,
    /// How many halves of slaves that do not fit whole.
    pub halves: usize,
    /// Do two slaves that are no neighbours fit as well?
    pub more: bool,
}

/// One slave alone.
fn one_slave(slave: usize) -> Missing
    ensures { result ≡ one_slave slave }
{
    Missing::Slaves(slave, slave.saturating_add(1))
}

/// Puts what is told of these.
fn put_told(
    names: &mut Vec<Missing>,
    evidence: &Evidence,
    candidates: &[Missing],
) -> Result<(), AllocError>
    ensures { OnOk result (names.new.items ≡ names.old.items
        ++ filter (is_told evidence.now) candidates.now) }
{
    for missing in candidates {
        if evidence.is_told(*missing) {
            names.push(*missing)?;
        }
    }
    Ok(())
}

impl Evidence {
    /// Is this told: does it fit, and is it no half of a slave that fits whole?
    pub fn is_told(&self, missing: Missing) -> bool
        ensures { result ≡ is_told self.now missing }
    {
        match missing {
            Missing::Slaves(_, _) => self.fits(missing),
            Missing::Inputs(slave) => self.fits(missing) && !self.fits(one_slave(slave)),
            Missing::Outputs(slave) => self.fits(missing) && !self.fits(one_slave(slave)),
            Missing::Two(_, _) => self.fits(missing),
        }
    }

    /// Does any of these fit?
    fn any_fits(&self, candidates: &[Missing]) -> bool
        ensures { result ≡ any_fits self.now candidates.now }
    {
        candidates.iter().any(|missing| self.fits(*missing))
    }

    /// Does anything fit that has a name?
    pub fn is_explained(&self, candidates: &Candidates) -> bool
        ensures { result ≡ is_explained self.now candidates.now }
    {
        self.any_fits(candidates.slaves.as_slice())
            || self.any_fits(candidates.neighbours.as_slice())
            || self.any_fits(candidates.halves.as_slice())
    }

    /// How many of these are told.
    fn count(&self, candidates: &[Missing]) -> usize
        ensures { result ≡ count_by (is_told self.now) candidates.now }
    {
        candidates
            .iter()
            .filter(|missing| self.is_told(**missing))
            .count()
    }

    /// Does a slave fit together with one in front of it that is no neighbour?
    fn fits_with(&self, other: usize) -> bool
        ensures { result ≡ fits_with self.now other }
    {
        for one in 0..other.saturating_sub(1) {
            if self.fits_two(one, other) {
                return true;
            }
        }
        false
    }

    /// Do two of so many slaves fit that are no neighbours?
    fn any_two_fit(&self, slaves: usize) -> bool
        ensures { result ≡ any_two_fit self.now slaves }
    {
        for other in 0..slaves {
            if self.fits_with(other) {
                return true;
            }
        }
        false
    }

    /// How much of each class is told of a line of so many slaves, and whether two of them fit as well that
    /// are no neighbours.
    pub fn answer(&self, candidates: &Candidates, slaves: usize) -> Answer
        ensures { IsAnswer self.now candidates.now slaves result }
    {
        Answer {
            slaves: self.count(candidates.slaves.as_slice()),
            neighbours: self.count(candidates.neighbours.as_slice()),
            halves: self.count(candidates.halves.as_slice()),
            more: self.any_two_fit(slaves),
        }
    }

    /// What is told of some candidates, by name.
    pub fn names(&self, alloc: Global, candidates: &[Missing]) -> Result<Vec<Missing>, AllocError>
        ensures { IfOk result (λ names. names.items ≡ filter (is_told self.now) candidates.now) }
    {
        let mut names = Vec::new(alloc);
        put_told(&mut names, self, candidates)?;
        Ok(names)
    }

    /// All that is told, by name: slaves, then neighbours, then halves.
    pub fn all_names(
        &self,
        alloc: Global,
        candidates: &Candidates,
    ) -> Result<Vec<Missing>, AllocError>
        ensures { IfOk result (λ names. names.items ≡ filter (is_told self.now) (named candidates.now)) }
    {
        let mut names = Vec::new(alloc);
        put_told(&mut names, self, candidates.slaves.as_slice())?;
        put_told(&mut names, self, candidates.neighbours.as_slice())?;
        put_told(&mut names, self, candidates.halves.as_slice())?;
        Ok(names)
    }
}

impl Answer {
    /// How much is told in all.
    pub fn total(&self) -> usize {
        self.slaves
            .saturating_add(self.neighbours)
            .saturating_add(self.halves)
    }
}
