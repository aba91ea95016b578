//! Numbers that look drawn by lot, the same in each run, by which tests make what they try.

ghost use Rattle.std.specs.Prelude.{◌<◌};

/// A generator of such numbers (SplitMix64).
#[derive(Clone, Copy)]
pub(crate) struct Chance {
    state: u64,
}

impl Chance {
    /// The numbers of a seed.
    pub(crate) fn new(seed: u64) -> Chance {
        Chance { state: seed }
    }

    /// The next number.
    pub(crate) fn draw(&mut self) -> u64 {
        self.state = self.state.wrapping_add(0x9E37_79B9_7F4A_7C15);
        let once = (self.state ^ self.state >> 30).wrapping_mul(0xBF58_476D_1CE4_E5B9);
        let twice = (once ^ once >> 27).wrapping_mul(0x94D0_49BB_1331_11EB);
        twice ^ twice >> 31
    }

    /// The next number, below a bound.
    pub(crate) fn below(&mut self, bound: u32) -> u32
        requires { 0 < bound }
        ensures { result < bound }
    {
        (self.draw() % u64::from(bound)) as u32
    }

    /// One of these numbers; 0 where there is none.
    pub(crate) fn one_of(&mut self, numbers: &[u32]) -> u32 {
        let count = (numbers.len() as u64).max(1);
        match numbers.get((self.draw() % count) as usize) {
            Some(number) => *number,
            None => 0,
        }
    }

    /// One of these numbers, of 16 bits.
    pub(crate) fn word(&mut self, numbers: &[u32]) -> u16 {
        self.one_of(numbers).min(0xffff) as u16
    }

    /// One of these numbers, of 8 bits.
    pub(crate) fn byte(&mut self, numbers: &[u32]) -> u8 {
        self.one_of(numbers).min(0xff) as u8
    }
}
