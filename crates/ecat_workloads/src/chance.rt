//! Numbers that look drawn by lot, the same in each run.

ghost use Rattle.std.specs.Prelude.{◌<◌};

/// A generator of such numbers (SplitMix64).
#[derive(Clone, Copy)]
pub(crate) struct Chance {
    state: u64,
}

impl Chance {
    /// The numbers of a seed.
    pub(crate) fn new(seed: u32) -> Chance {
        Chance {
            state: u64::from(seed),
        }
    }

    /// The next number.
    pub(crate) fn draw(&mut self) -> u64 {
        self.state = self.state.wrapping_add(0x9E37_79B9_7F4A_7C15);
        let once = (self.state ^ self.state >> 30).wrapping_mul(0xBF58_476D_1CE4_E5B9);
        let twice = (once ^ once >> 27).wrapping_mul(0x94D0_49BB_1331_11EB);
        twice ^ twice >> 31
    }

    /// The next number, below a bound.
    pub(crate) fn below(&mut self, bound: u32) -> u32
        requires { 0 < bound }
        ensures { result < bound }
    {
        (self.draw() % u64::from(bound)) as u32
    }
}
