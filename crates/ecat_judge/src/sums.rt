//! How often an item was sent, and what became of it.

ghost use Rattle.std.specs.Prelude.{◌≡◌};
ghost use Rattle.ecat_judge.specs.Sums.{all_good, counted};

/// What became of a datagram of an item.
#[derive(Clone, Copy, PartialEq, Eq, Debug)]
pub enum Outcome {
    /// It came back with the counter that the line gives.
    Good,
    /// It came back with less.
    Short,
    /// It came back with more.
    Over,
    /// It did not come back.
    Lost,
    /// It was on the way when the capture ended.
    OnTheWay,
    /// It came back, late or of nothing that was sent.
    Unpaired,
}

/// How often the datagrams of an item were sent, and what became of them, each number up to 2^64 - 1.
#[derive(Clone, Copy, Debug, Default, PartialEq, Eq)]
pub struct Sums {
    /// Those that were sent.
    pub sent: u64,
    /// Those that came back with the counter that the line gives.
    pub good: u64,
    /// With less.
    pub short: u64,
    /// With more.
    pub over: u64,
    /// Those that did not come back.
    pub lost: u64,
    /// Those that were on the way when the capture ended.
    pub on_the_way: u64,
    /// Those that came back late, or of nothing that was sent.
    pub unpaired: u64,
}

impl Sums {
    /// Counts one more datagram.
    pub fn count(&mut self, outcome: Outcome)
        ensures { self.new ≡ counted outcome self.old }
    {
        match outcome {
            Outcome::Good => self.good = self.good.saturating_add(1),
            Outcome::Short => self.short = self.short.saturating_add(1),
            Outcome::Over => self.over = self.over.saturating_add(1),
            Outcome::Lost => self.lost = self.lost.saturating_add(1),
            Outcome::OnTheWay => self.on_the_way = self.on_the_way.saturating_add(1),
            Outcome::Unpaired => {
                self.unpaired = self.unpaired.saturating_add(1);
                return;
            }
        }
        self.sent = self.sent.saturating_add(1);
    }

    /// Was some datagram good, and none short, over or lost?
    pub fn is_good(&self) -> bool
        ensures { result ≡ all_good self.now }
    {
        0 < self.good && self.short == 0 && self.over == 0 && self.lost == 0
    }
}
