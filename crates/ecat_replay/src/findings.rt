//! The differences that were found, each kind of them once.

ghost use Rattle.std.specs.Prelude.{◌≡◌, ◌<◌, ◌++◌, [], ◌∷◌, IfSome, OnErr, OnOk, length, position};
ghost use Rattle.std.specs.Prelude.{slice_index_or, slice_set};

use crate::difference::{Difference, Kind};
use crate::part::Part;
use std::alloc::{AllocError, Global};
use std::marker::Model;

/// How many kinds of differences are told apart.
pub(crate) const MOST_FINDINGS: usize = 512;

/// A kind of difference: of one part of the line, and in one thing.
#[derive(Clone, Copy)]
pub(crate) struct Finding {
    /// Of which part of the line.
    pub part: Part,
    /// The first such difference.
    pub difference: Difference,
    /// The packet in which it was sent what was answered so.
    pub packet: u64,
    /// How often there was one.
    pub times: u64,
}

impl Finding {
    ghost use Rattle.ecat_replay.specs.Findings.{is_of};

    /// Is a difference one of this kind? The bytes of one part are one kind.
    fn is_of(&self, part: &Part, kind: Kind) -> bool
        ensures { result ≡ is_of part.now kind self.now }
    {
        self.part.is_same(part) && self.difference.kind.is_same(kind)
    }
}

/// The kinds of differences, in the order in which they were found.
#[derive(Drop)]
pub(crate) struct Findings {
    all: Vec<Finding>,
    /// How many differences there were of kinds that are not told apart any more.
    pub more: u64,
}

impl Model for Findings {
    ghost use Rattle.ecat_replay.specs.Findings.{FindingsState};

    ghost Value = { FindingsState };

    ghost view = { λ f. record { all = f.all.items; more = f.more } };
}

impl Findings {
    ghost use Rattle.ecat_replay.specs.declared.findings.Finding.{Finding};
    ghost use Rattle.ecat_replay.specs.Findings.{first_found, found, is_of, none_found, once_more};

    /// None was found.
    pub(crate) fn new(alloc: Global) -> Findings
        ensures { result ≡ none_found }
    {
        Findings {
            all: Vec::new(alloc),
            more: 0,
        }
    }

    /// Those that are told apart.
    pub(crate) fn all(&self) -> &[Finding]
        ensures { result.now ≡ self.now.all }
    {
        self.all.as_slice()
    }

    /// The place of a kind of difference, if it was found before.
    fn place_of(&self, part: &Part, kind: Kind) -> Option<usize>
        ensures value { result ≡ position (is_of part.now kind) self.now.all }
        ensures within { IfSome result (λ i. i < length self.now.all) }
    {
        self.all.iter().position(|one| one.is_of(part, kind))
    }

    /// One more difference of the kind at a place.
    fn count_at(&mut self, i: usize)
        requires { i < length self.old.all }
        ensures { (f : Finding) → self.new ≡ record self.old {
          all = slice_set self.old.all i (once_more (slice_index_or self.old.all i f));
        } }
    {
        self.all[i].times = self.all[i].times.saturating_add(1);
    }

    /// The first difference of a kind.
    fn add(&mut self, part: Part, difference: Difference, packet: u64) -> Result<(), AllocError>
        ensures added { OnOk result (self.new ≡ record self.old {
          all = self.old.all ++ first_found part difference packet ∷ [];
        }) }
        ensures kept { OnErr result (self.new ≡ self.old) }
    {
        self.all.push(Finding {
            part,
            difference,
            packet,
            times: 1,
        })?;
        Ok(())
    }

    /// Takes a difference, of what was sent in this packet: one more of its kind, which keeps the first one;
    /// or the first of a kind. Where memory is refused, nothing has changed.
    #[tactic(auto, unfolding(crate::specs::Findings::found))]
    pub(crate) fn take(
        &mut self,
        part: Part,
        difference: Difference,
        packet: u64,
    ) -> Result<(), AllocError>
        ensures found { OnOk result (self.new ≡ found part difference packet self.old) }
        ensures kept { OnErr result (self.new ≡ self.old) }
    {
        match self.place_of(&part, difference.kind) {
            Some(i) => {
                self.count_at(i);
                Ok(())
            }
            None if self.all.len() < MOST_FINDINGS => self.add(part, difference, packet),
            None => {
                self.more = self.more.saturating_add(1);
                Ok(())
            }
        }
    }
}
