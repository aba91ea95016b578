//! How long something takes that is done again and again.

ghost use Rattle.std.specs.Prelude.{◌<◌};

use ecat_text::Lines;
use std::io::{self, Write};

/// Where times are counted: one place for each microsecond below 16, and eight for each doubling above.
const PLACES: usize = 496;

/// Times below this one have a place each.
const EXACT: u64 = 16;

/// How many places a doubling has.
const EACH: usize = 8;

/// Times in microseconds: the least, the mean and the greatest, and within which 50, 90, 99 and 99.9 of
/// 100 lie, to an eighth.
#[derive(Drop)]
pub(crate) struct Spread {
    least: u64,
    greatest: u64,
    sum: u64,
    count: u64,
    places: [u64; PLACES],
}

impl Spread {
    /// Of no time.
    pub(crate) fn none() -> Spread {
        Spread {
            least: u64::MAX,
            greatest: 0,
            sum: 0,
            count: 0,
            places: [0; PLACES],
        }
    }

    /// Is it of no time?
    pub(crate) fn is_empty(&self) -> bool {
        self.count == 0
    }

    /// Takes one time more.
    pub(crate) fn take(&mut self, took: u64) {
        self.least = self.least.min(took);
        self.greatest = self.greatest.max(took);
        self.sum = self.sum.saturating_add(took);
        self.count = self.count.saturating_add(1);
        let place = place_of(took);
        self.places[place] = self.places[place].saturating_add(1);
    }

    /// Within what so many of a thousand times lie.
    fn within(&self, thousandths: u64) -> u64 {
        let whole = (self.count / 1000).saturating_mul(thousandths);
        let rest = (self.count % 1000).saturating_mul(thousandths);
        let wanted = whole.saturating_add(rest.div_ceil(1000));
        let mut seen = 0u64;
        for (place, count) in self.places.iter().enumerate() {
            seen = seen.saturating_add(*count);
            if seen >= wanted {
                return greatest_of(place).min(self.greatest);
            }
        }
        self.greatest
    }

    /// The least and the greatest of these times, if there are any.
    pub(crate) fn range(&self) -> Option<(u64, u64)> {
        if self.count == 0 {
            None
        } else {
            Some((self.least, self.greatest))
        }
    }

    /// How many of these times lie below one, which is 16 or 16 doubled some times.
    pub(crate) fn below(&self, time: u64) -> u64 {
        let mut count = 0u64;
        for of_place in self.places.iter().take(place_of(time)) {
            count = count.saturating_add(*of_place);
        }
        count
    }

    /// Puts these times, if there are any, and answers whether there are.
    pub(crate) fn put<W: Write>(&self, name: &str, lines: &mut Lines<'_, W>) -> io::Result<bool> {
        if self.count == 0 {
            return Ok(false);
        }
        let mean = self.sum / self.count;
        let least = self.least;
        let greatest = self.greatest;
        lines.text(name)?;
        lines.text(format_args!(" least {least} mean {mean} greatest {greatest} microseconds"))?;
        lines.text(format_args!(", 50% within {}", self.within(500)))?;
        lines.text(format_args!(", 90% {}", self.within(900)))?;
        lines.text(format_args!(", 99% {}", self.within(990)))?;
        lines.text(format_args!(", 99.9% {}", self.within(999)))?;
        Ok(true)
    }
}

/// The place of a time.
fn place_of(took: u64) -> usize
    ensures { result < PLACES }
{
    let mut rest = took;
    let mut place = 0usize;
    for _doubling in 0..60 {
        if rest < EXACT {
            break;
        }
        rest /= 2;
        place = place.saturating_add(EACH);
    }
    let last = rest.min(EXACT - 1) as usize;
    place.saturating_add(last).min(PLACES - 1)
}

/// The greatest time of a place.
fn greatest_of(place: usize) -> u64 {
    if place < 2 * EACH {
        return place as u64;
    }
    let mut past = (place % EACH + EACH + 1) as u64;
    for _doubling in 1..place / EACH {
        past = past.saturating_mul(2);
    }
    past.saturating_sub(1)
}
