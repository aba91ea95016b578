//! The slave that is seen to between two cycles.

ghost use Rattle.std.specs.Prelude.{◌≡◌, ◌<◌, IfSome, Some, length, slice_get, false, true};

use ec_run::{Recovery, Wanted};

/// How many slaves are asked at a time though all is well.
const FEW: usize = 1;

/// Who is seen to behind the next cycle.
#[derive(Drop)]
pub(crate) enum Care {
    /// Nobody but who is found by a look along the line, where one is due.
    Nobody,
    /// The slave at this place, which may have left Op; so many looks found nobody there.
    LooksAt(u16, u32),
    /// A slave that is being brought to Op again.
    Brings(Recovery),
}

impl Care {
    /// Who is seen to behind the last cycle: nobody is brought to Op any more, but told.
    pub(crate) fn at_the_end(self) -> Care {
        match self {
            Care::Brings(recovery) => Care::LooksAt(recovery.place(), 0),
            care => care,
        }
    }
}

/// From which place on the line is looked along next.
#[derive(Clone, Copy)]
pub(crate) struct Next {
    place: usize,
    /// Whether the last cycle ended well.
    was_well: bool,
}

impl Next {
    /// From the first slave on.
    pub(crate) fn first() -> Next {
        Next {
            place: 0,
            was_well: true,
        }
    }

    /// Behind a cycle that ended well, or not. Behind the first one that did not, the line is looked along
    /// from its first slave on, so that who has left Op is found by as few frames as can ask all slaves.
    pub(crate) fn behind_cycle(self, is_well: bool) -> Next
        ensures begins { self.was_well ≡ true → is_well ≡ false → result.place ≡ 0 }
        ensures goes_on { self.was_well ≡ false → result.place ≡ self.place }
        ensures waits { is_well ≡ true → result.place ≡ self.place }
        ensures was_well { result.was_well ≡ is_well }
    {
        let begins = self.was_well && !is_well;
        Next {
            place: if begins { 0 } else { self.place },
            was_well: is_well,
        }
    }

    /// The place, on a line of so many slaves, if it has any.
    pub(crate) fn on(self, slaves: usize) -> Option<usize>
        ensures { IfSome result (λ place. place < slaves) }
    {
        if self.place < slaves {
            return Some(self.place);
        }
        if slaves == 0 { None } else { Some(0) }
    }

    /// From behind so many slaves from a place on.
    pub(crate) fn behind(self, place: usize, asked: usize) -> Next
        ensures { result.was_well ≡ self.was_well }
    {
        Next {
            place: place.saturating_add(asked),
            was_well: self.was_well,
        }
    }
}

/// How many slaves a look along the line asks: as many as one frame does where some slave may have left Op.
pub(crate) fn most_asked(all_well: bool) -> usize {
    if all_well { FEW } else { usize::MAX }
}

/// What the slave of a line at a place is to be told, if it has one there.
pub(crate) fn wanted_at(line: &[Wanted], place: u16) -> Option<&Wanted>
    ensures { IfSome result (λ wanted. slice_get line.now place ≡ Some wanted.now) }
{
    let at = usize::from(place);
    if at < line.len() {
        Some(&line[at])
    } else {
        None
    }
}
