//! Where the cable is broken, by any number of copies.

ghost use Rattle.std.specs.Prelude.{◌≡◌, ℕ, ◌↔◌};
ghost use Rattle.ec_ring.specs.declared.links.Links.{Links};
ghost use Rattle.ec_diag.specs.Join.{CanCome, with_heard, with_told};
ghost use Rattle.ec_diag.specs.Located.{Tells, between, with_first, with_last, with_whole};
ghost use Rattle.ec_diag.specs.Told.{Knows};

use crate::heard::Heard;
use crate::told::Told;

/// Where the cable of a line is broken, as far as the copies tell that came back. Links are numbered from 0,
/// before the first slave, to the number of slaves, behind the last one.
#[derive(Clone, Copy, PartialEq, Eq, Debug)]
pub enum Located {
    /// Nothing is known: no copy told anything.
    Unknown,
    /// All links are up.
    Whole,
    /// This link is down, and no other.
    One(usize),
    /// Both links are down, and none before the first one or behind the second one. Of those between them
    /// nothing is known.
    Between(usize, usize),
    /// This link is down, and none before it. Of those behind it nothing is known.
    First(usize),
    /// This link is down, and none behind it. Of those before it nothing is known.
    Last(usize),
    /// No one set of links gives these copies: the links changed meanwhile, a copy is a stranger, or the
    /// line has another number of slaves.
    Changed,
}

impl Located {
    /// What is known by what one copy more told, on a line of so many slaves. Copies may come in any order,
    /// of any frames, and more than once.
    pub fn and(self, slaves: usize, told: Told) -> Located
        ensures exact { (links : Links) → (Tells self links slaves × Knows told links slaves)
            ↔ Tells result links slaves }
        ensures value { result ≡ with_told slaves self told }
    {
        self.and_told(slaves, told)
    }

    /// What is known by one copy more, on a line of so many slaves. A copy that is lost tells nothing.
    pub fn and_heard(self, slaves: usize, heard: Option<Heard>) -> Located
        ensures exact { (links : Links) → (Tells self links slaves × CanCome links slaves heard)
            ↔ Tells result links slaves }
        ensures value { result ≡ with_heard slaves self heard }
    {
        self.and_copy(slaves, heard)
    }

    /// What is known by one copy more, by the table.
    fn and_copy(self, slaves: usize, heard: Option<Heard>) -> Located
        ensures { result ≡ with_heard slaves self heard }
    {
        match heard {
            Some(copy) => self.and_told(slaves, copy.tells(slaves)),
            None => self,
        }
    }

    /// What is known by what one copy more told, by the table.
    fn and_told(self, slaves: usize, told: Told) -> Located
        ensures { result ≡ with_told slaves self told }
    {
        match told {
            Told::Whole => self.and_whole(),
            Told::First(k) => self.and_first(slaves, k),
            Told::Last(k) => self.and_last(k),
            Told::Never => Located::Changed,
        }
    }

    /// What is known where all links are up besides.
    fn and_whole(self) -> Located
        ensures { result ≡ with_whole self }
    {
        match self {
            Located::Unknown | Located::Whole => Located::Whole,
            _ => Located::Changed,
        }
    }

    /// What is known where the first link that is down is `k` besides.
    pub(crate) fn and_first(self, slaves: usize, k: usize) -> Located
        ensures { result ≡ with_first slaves k self }
    {
        match self {
            Located::Unknown if k == slaves => Located::One(k),
            Located::Unknown => Located::First(k),
            Located::One(j) if j == k => self,
            Located::First(j) if j == k => self,
            Located::Between(p, _) if p == k => self,
            Located::Last(q) => between(k, q),
            _ => Located::Changed,
        }
    }

    /// What is known where the last link that is down is `k` besides.
    pub(crate) fn and_last(self, k: usize) -> Located
        ensures { result ≡ with_last k self }
    {
        match self {
            Located::Unknown if k == 0 => Located::One(k),
            Located::Unknown => Located::Last(k),
            Located::One(j) if j == k => self,
            Located::Last(j) if j == k => self,
            Located::Between(_, q) if q == k => self,
            Located::First(p) => between(p, k),
            _ => Located::Changed,
        }
    }
}

/// What is known where the first link that is down is `p`, and the last one `q`.
pub(crate) fn between(p: usize, q: usize) -> Located
    ensures { result ≡ between p q }
{
    if p == q {
        Located::One(p)
    } else if p < q {
        Located::Between(p, q)
    } else {
        Located::Changed
    }
}
