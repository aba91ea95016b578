//! The numbers of trips, and of their copies.

ghost use Rattle.std.specs.Prelude.{◌≡◌, ◌+◌, ◌/◌, ◌%◌, ◌<◌, ◌^◌};
ghost use Rattle.ec_number.specs.Number.{number_a, number_b};

/// How many numbers of trips there are: 2 to the 63rd.
const TRIPS: u64 = 1 << 63;

/// The number of a trip, of 63 bits. Each of its two copies has a number of its own, of 64.
#[derive(Clone, Copy, PartialEq, Eq, Debug)]
pub struct Trip {
    /// The number of the trip, below 2 to the 63rd.
    pub number: u64,
    pub ghost in_range: { number < 2 ^ 63 },
}

impl Trip {
    /// The trip with the low 63 bits of a number.
    pub fn of(number: u64) -> Trip
        ensures { result.number ≡ number % 2 ^ 63 }
    {
        Trip {
            number: number % TRIPS,
        }
    }

    /// The trip of which a copy has a number.
    pub fn of_copy(number: u64) -> Trip
        ensures { result.number ≡ number / 2 }
    {
        Trip { number: number / 2 }
    }

    /// The next trip; the first one comes behind the last.
    pub fn next(self) -> Trip
        ensures { result.number ≡ (self.number + 1) % 2 ^ 63 }
    {
        Trip {
            number: (self.number + 1) % TRIPS,
        }
    }

    /// The number of its copy A.
    pub fn a(self) -> u64
        ensures { result ≡ number_a self.number }
    {
        2 * self.number
    }

    /// The number of its copy B.
    pub fn b(self) -> u64
        ensures { result ≡ number_b self.number }
    {
        2 * self.number + 1
    }
}
