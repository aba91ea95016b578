//! With which addresses the packets of a capture come.

ghost use Rattle.std.specs.Prelude.{◌≡◌, ◌<◌, ◌++◌, ◌∷◌, [], List, length, map, count_by};
ghost use Rattle.std.specs.List.{list_any};
ghost use Rattle.ecat_trips.specs.declared.packet.Source.{Source};
ghost use Rattle.ecat_trips.specs.Bases.{AreBasesOf, is_both, is_of, is_plain, noted, two_ports};

use crate::packet::Source;
use arrayvec::ArrayVec;

/// How many bases are told apart; further ones are passed over.
pub const MAX_BASES: usize = 64;

/// A base, and how it occurs.
#[derive(Clone, Copy, Debug, Default, PartialEq, Eq)]
pub struct Base {
    /// The address without the mark.
    pub base: u64,
    /// Does it occur without the mark?
    pub plain: bool,
    /// Does it occur with the mark?
    pub marked: bool,
}

impl Base {
    /// Notes one source more, if it is of this base.
    fn note(&mut self, source: Source)
        ensures { self.new ≡ noted source self.old }
    {
        if self.base == source.base {
            self.plain = self.plain || !source.marked;
            self.marked = self.marked || source.marked;
        }
    }

    /// Does it occur with the mark and without?
    fn is_both(&self) -> bool
        ensures { result ≡ is_both self.now }
    {
        self.plain && self.marked
    }

    /// Does it occur without the mark alone?
    fn is_plain(&self) -> bool
        ensures { result ≡ is_plain self.now }
    {
        self.plain && !self.marked
    }
}

/// The bases of the packets of a capture, as far as they were taken: up to 64.
#[derive(Drop)]
pub struct Bases {
    /// The bases, in the order in which they came first.
    pub told: ArrayVec<Base, MAX_BASES>,
}

impl Bases {
    /// Of no packet.
    pub fn new() -> Bases
        ensures { AreBasesOf [] result.told.items }
    {
        Bases {
            told: ArrayVec::new(),
        }
    }

    /// Takes the source of one packet more.
    pub fn take(&mut self, source: Source)
        ensures { (all : List Source) → AreBasesOf all self.old.told.items
            → AreBasesOf (all ++ source ∷ []) self.new.told.items }
    {
        if self.tells(source.base) {
            note_each(self.told.as_mut_slice(), source);
        } else if !self.told.is_full() {
            self.told.push(Base {
                base: source.base,
                plain: !source.marked,
                marked: source.marked,
            });
        }
    }

    /// Is a base told?
    fn tells(&self, base: u64) -> bool
        ensures { result ≡ list_any (is_of base) self.now.told.items }
    {
        self.told.iter().any(|entry| entry.base == base)
    }

    /// How many bases occur with the mark and without.
    fn marking(&self) -> usize
        ensures { result ≡ count_by is_both self.now.told.items }
    {
        self.told.iter().filter(|entry| entry.is_both()).count()
    }

    /// Does some base occur without the mark alone?
    fn some_plain(&self) -> bool
        ensures { result ≡ list_any is_plain self.now.told.items }
    {
        self.told.iter().any(|entry| entry.is_plain())
    }

    /// Has the master two ports? So it has where two bases occur with the mark and without, or one does and
    /// another occurs without the mark.
    pub fn two_ports(&self) -> bool
        ensures { result ≡ two_ports self.now.told.items }
    {
        let marking = self.marking();
        2 <= marking || marking == 1 && self.some_plain()
    }
}

/// Notes a source where its base stands.
fn note_each(told: &mut [Base], source: Source)
    ensures { told.new ≡ map (noted source) told.old }
{
    for entry in told.iter_mut() {
        entry.note(source);
    }
}
