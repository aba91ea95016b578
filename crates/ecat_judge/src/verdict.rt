//! Whether the counters of a trip are those that the line gives.

ghost use Rattle.std.specs.Prelude.{◌≡◌};
ghost use Rattle.std.specs.List.{list_all};
ghost use Rattle.ecat_judge.specs.Verdict.{counts_well, is_good, short, standing};

/// The counter of a datagram that came back.
#[derive(Clone, Copy, PartialEq, Eq, Debug)]
pub struct Counted {
    /// Which item it is.
    pub item: usize,
    /// How far the counter moved.
    pub moved: u16,
    /// How far it moves where all slaves of the line take part.
    pub expected: u16,
}

/// How a counter stands to the one that the line gives.
#[derive(Clone, Copy, PartialEq, Eq, Debug)]
pub enum Standing {
    /// It is that one.
    Good,
    /// It is less.
    Short,
    /// It is more.
    Over,
}

impl Counted {
    /// Is the counter the one that the line gives?
    pub fn is_good(&self) -> bool
        ensures { result ≡ counts_well self.now }
    {
        self.moved == self.expected
    }

    /// How far it is short of that.
    pub fn short(&self) -> u16
        ensures { result ≡ short self.now }
    {
        self.expected.saturating_sub(self.moved)
    }

    /// How it stands to that.
    pub fn standing(&self) -> Standing
        ensures { result ≡ standing self.now }
    {
        if self.moved == self.expected {
            Standing::Good
        } else if self.moved < self.expected {
            Standing::Short
        } else {
            Standing::Over
        }
    }
}

/// Is a trip with these counters good: is each the one that the line gives?
pub fn is_good(counters: &[Counted]) -> bool
    ensures { result ≡ is_good counters.now }
{
    counters.iter().all(|counted| counted.is_good())
}
