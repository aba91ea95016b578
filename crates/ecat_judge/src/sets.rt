//! How many sets of slaves fit the item that is short most.

use crate::evidence::{Evidence, Row};

/// How many slaves are told apart by their shares, and one more.
const WIDTH: usize = 257;

/// From so many sets on they are not counted further.
pub(crate) const MOST_SETS: u64 = 1_000_001;

/// How many slaves that may be missing have each share.
#[derive(Clone, Copy)]
struct Kinds {
    /// The number of slaves by their shares, 0 to 3.
    count: [usize; 4],
}

/// The numbers of ways to take each number of things.
type Ways = [u64; WIDTH];

/// The item that is short most, the first one where several are.
fn shortest(rows: &[Row]) -> Option<usize> {
    let mut found = None;
    let mut most = 0;
    for (place, row) in rows.iter().enumerate() {
        if let Some(short) = row.short
            && most < short
        {
            most = short;
            found = Some(place);
        }
    }
    found
}

/// How many slaves that changed no bit have each share in an item.
fn kinds_of(row: &Row, passed: &[bool]) -> Kinds {
    let mut kinds = Kinds { count: [0; 4] };
    for (share, passed) in row.shares.iter().zip(passed.iter()) {
        let whole = usize::from(share.whole());
        if !*passed && let Some(count) = kinds.count.get_mut(whole) {
            *count = count.saturating_add(1);
        }
    }
    kinds
}

/// The ways of one thing more.
fn one_more(ways: &Ways) -> Ways {
    let mut more = *ways;
    for k in 1..WIDTH {
        more[k] = ways[k].saturating_add(ways[k - 1]).min(MOST_SETS);
    }
    more
}

/// In how many ways each number of so many things can be taken.
fn ways_of(things: usize) -> Ways {
    let mut ways = [0u64; WIDTH];
    ways[0] = 1;
    for _ in 0..things.min(WIDTH - 1) {
        ways = one_more(&ways);
    }
    ways
}

/// In how many ways a number can be taken; of one past the width 0.
fn at(ways: &Ways, number: usize) -> u64 {
    match ways.get(number) {
        Some(ways) => *ways,
        None => 0,
    }
}

/// The ways of several choices, one after the other.
fn product(a: u64, b: u64) -> u64 {
    a.saturating_mul(b).min(MOST_SETS)
}

/// What is looked for: the ways by shares, how far the item is short, and how many slaves are gone.
#[derive(Clone, Copy)]
struct Wanted {
    ways: [Ways; 4],
    short: usize,
    gone: Option<usize>,
}

impl Wanted {
    /// In how many ways slaves with a share of 0 make up what is gone, where so many others are missing.
    /// Where it is not known how many are gone, they are left out.
    fn idle(&self, others: usize) -> u64 {
        match self.gone {
            None => 1,
            Some(gone) => match gone.checked_sub(others) {
                None => 0,
                Some(idle) => at(&self.ways[0], idle),
            },
        }
    }

    /// In how many ways so many slaves with a share of 3, and so many with one of 2, are among the missing.
    fn with(&self, threes: usize, twos: usize) -> u64 {
        let lent = threes
            .saturating_mul(3)
            .saturating_add(twos.saturating_mul(2));
        match self.short.checked_sub(lent) {
            None => 0,
            Some(ones) => {
                let others = threes.saturating_add(twos).saturating_add(ones);
                let some = product(at(&self.ways[3], threes), at(&self.ways[2], twos));
                product(product(some, at(&self.ways[1], ones)), self.idle(others))
            }
        }
    }

    /// In how many ways so many slaves with a share of 3 are among the missing.
    fn with_threes(&self, threes: usize) -> u64 {
        let mut sets = 0u64;
        for twos in 0..WIDTH {
            sets = sets.saturating_add(self.with(threes, twos)).min(MOST_SETS);
        }
        sets
    }

    /// How many sets there are.
    fn sets(&self) -> u64 {
        let mut sets = 0u64;
        for threes in 0..WIDTH {
            sets = sets.saturating_add(self.with_threes(threes)).min(MOST_SETS);
        }
        sets
    }
}

/// How many sets of slaves that changed no bit make the item that is short most as short as it is, up to
/// 1,000,001. Where no ADP tells how many slaves are gone, those without a share in it are left out.
pub(crate) fn sets_of(evidence: &Evidence) -> u64 {
    let Some(place) = shortest(evidence.rows.as_slice()) else {
        return 0;
    };
    let Some(row) = evidence.rows.get(place) else {
        return 0;
    };
    let kinds = kinds_of(row, evidence.passed.as_slice());
    let short = match row.short {
        Some(short) => usize::from(short),
        None => 0,
    };
    let wanted = Wanted {
        ways: [
            ways_of(kinds.count[0]),
            ways_of(kinds.count[1]),
            ways_of(kinds.count[2]),
            ways_of(kinds.count[3]),
        ],
        short,
        gone: evidence.gone.map(usize::from),
    };
    wanted.sets()
}
