//! Which slaves no copy reaches.

ghost use Rattle.std.specs.Prelude.{◌≡◌, ℕ};
ghost use Rattle.ec_ring.specs.declared.links.Links.{Links};
ghost use Rattle.ec_diag.specs.CutOff.{Cuts, cut_off_of};
ghost use Rattle.ec_diag.specs.Located.{Tells};

use crate::located::Located;

/// Which slaves of a line no copy of a frame reaches, as far as is known. Slaves are numbered by their places
/// on the line, from 0.
#[derive(Clone, Copy, PartialEq, Eq, Debug)]
pub enum CutOff {
    /// Each slave is reached.
    Nobody,
    /// The slaves from the first of these places to the second, both among them, and no others.
    Places(usize, usize),
    /// Those before this place are reached; of those from it on nothing is known.
    PerhapsFrom(usize),
    /// Those from this place on are reached; of those before it nothing is known.
    PerhapsBelow(usize),
    /// Nothing is known of any slave.
    NotTold,
}

impl Located {
    /// Which slaves are cut off: no copy reaches them over links that are up.
    pub fn cut_off(self) -> CutOff
        ensures tells { (links : Links) (n : ℕ) → Tells self links n → Cuts result links n }
        ensures value { result ≡ cut_off_of self }
    {
        self.cut()
    }

    /// Which slaves are cut off, by the table.
    fn cut(self) -> CutOff
        ensures { result ≡ cut_off_of self }
    {
        match self {
            Located::Whole | Located::One(_) => CutOff::Nobody,
            Located::Between(p, q) if p < q => CutOff::Places(p, q - 1),
            Located::First(k) => CutOff::PerhapsFrom(k),
            Located::Last(k) => CutOff::PerhapsBelow(k),
            _ => CutOff::NotTold,
        }
    }
}
