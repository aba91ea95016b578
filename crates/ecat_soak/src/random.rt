//! Numbers that look drawn by lot, the same in each run.

/// What the numbers of a run begin with.
pub(crate) const SEED: u64 = 0x2545_F491_4F6C_DD1D;

/// A generator of such numbers: the last one with three shifts of itself (xorshift).
#[derive(Clone, Copy)]
pub(crate) struct Random {
    last: u64,
}

impl Random {
    /// The numbers that follow a seed, which is not to be 0.
    pub(crate) fn new(seed: u64) -> Random {
        Random { last: seed }
    }

    /// The next number.
    pub(crate) fn draw(&mut self) -> u64 {
        let mut next = self.last;
        next ^= next << 13;
        next ^= next >> 7;
        next ^= next << 17;
        self.last = next;
        next
    }
}
