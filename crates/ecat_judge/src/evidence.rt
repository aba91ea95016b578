//! What bad trips tell of what was missing, and whether something missing fits to it.

ghost use Rattle.std.specs.Prelude.{◌≡◌, ◌<◌, false, length, slice_index_or};
ghost use Rattle.std.specs.List.{list_all};
ghost use Rattle.ecat_judge.specs.declared.share.Missing.TheVariants.{Two};
ghost use Rattle.ecat_judge.specs.Evidence.{explains, fits, has_size, is_seen_at, was_seen};

use crate::share::{Missing, Share, lacks, two_lack};

/// An item, as bad trips had it.
#[derive(Drop)]
pub struct Row {
    /// What each slave adds to its counter.
    pub shares: Vec<Share>,
    /// How far its counter was short; `None` where no bad trip had the item.
    pub short: Option<u16>,
}

/// What bad trips that share one cause tell.
#[derive(Drop)]
pub struct Evidence {
    /// Each item.
    pub rows: Vec<Row>,
    /// Of each slave, whether a bit that it reads came back changed.
    pub passed: Vec<bool>,
    /// How many slaves were gone, where an ADP tells.
    pub gone: Option<u16>,
}

impl Row {
    /// Is the item as short as it is where this is missing?
    fn explains(&self, missing: Missing) -> bool
        ensures { result ≡ explains missing self.now }
    {
        match self.short {
            None => true,
            Some(short) => lacks(self.shares.as_slice(), missing, short),
        }
    }

    /// Is the item as short as it is where two slaves are missing?
    fn explains_two(&self, one: usize, other: usize) -> bool
        requires { one < other }
        ensures { result ≡ explains (Two one other) self.now }
    {
        match self.short {
            None => true,
            Some(short) => two_lack(self.shares.as_slice(), one, other, short),
        }
    }
}

/// Was the slave at a place seen?
fn is_seen(passed: &[bool], place: usize) -> bool
    ensures { result ≡ slice_index_or passed.now place false }
{
    match passed.get(place) {
        Some(seen) => *seen,
        None => false,
    }
}

/// Was one of the slaves at two places seen?
fn two_seen(passed: &[bool], one: usize, other: usize) -> bool
    ensures { result ≡ was_seen (Two one other) passed.now }
{
    is_seen(passed, one) || is_seen(passed, other)
}

/// Is the slave at a place one whose inputs are missing, and did it change a bit that it reads?
fn is_seen_at(passed: &[bool], missing: Missing, place: usize) -> bool
    requires { place < length passed.now }
    ensures { result ≡ is_seen_at missing passed.now place }
{
    passed[place] && missing.has_inputs_of(place)
}

/// Did a slave whose inputs are missing change a bit that it reads?
fn was_seen(passed: &[bool], missing: Missing) -> bool
    ensures { result ≡ was_seen missing passed.now }
{
    for place in 0..passed.len() {
        if is_seen_at(passed, missing, place) {
            return true;
        }
    }
    false
}

/// Are so many slaves gone where this is missing?
fn has_size(missing: Missing, gone: Option<u16>) -> bool
    ensures { result ≡ has_size missing gone }
{
    match gone {
        None => true,
        Some(gone) => match missing {
            Missing::Slaves(from, to) => to.saturating_sub(from) == usize::from(gone),
            Missing::Inputs(_) => gone == 0,
            Missing::Outputs(_) => gone == 0,
            Missing::Two(_, _) => gone == 2,
        },
    }
}

impl Evidence {
    /// Does this fit as what is missing: each item that a bad trip had is short by just what lacks of it, no
    /// bit that it would read came back changed, and as many slaves are gone as an ADP tells?
    pub fn fits(&self, missing: Missing) -> bool
        ensures { result ≡ fits missing self.now }
    {
        has_size(missing, self.gone)
            && !was_seen(self.passed.as_slice(), missing)
            && self.are_explained(missing)
    }

    /// Is each item as short as it is where this is missing?
    fn are_explained(&self, missing: Missing) -> bool
        ensures { result ≡ list_all (explains missing) self.now.rows.items }
    {
        self.rows.iter().all(|row| row.explains(missing))
    }
    /// Is each item as short as it is where two slaves are missing?
    fn are_explained_by_two(&self, one: usize, other: usize) -> bool
        requires { one < other }
        ensures { result ≡ list_all (explains (Two one other)) self.now.rows.items }
    {
        self.rows.iter().all(|row| row.explains_two(one, other))
    }

    /// Do two slaves fit? It costs no walk along the line.
    pub(crate) fn fits_two(&self, one: usize, other: usize) -> bool
        requires { one < other }
        ensures { result ≡ fits (Two one other) self.now }
    {
        has_size(Missing::Two(one, other), self.gone)
            && !two_seen(self.passed.as_slice(), one, other)
            && self.are_explained_by_two(one, other)
    }
}
