//! Copies of earlier trips that come later than their trips, and frames of others.

ghost use Rattle.std.specs.Prelude.{◌≡◌, ◌+◌, ◌-◌, ◌^◌, min, None, Some};
ghost use Rattle.ec_ring.specs.Late.{older};

/// The copies of earlier trips that came since it was last asked, later than their trips. Such a copy may
/// have passed slaves after the frames of later trips did. Beside them, the frames of others that came.
#[derive(Clone, Copy, PartialEq, Eq, Debug)]
pub struct LateCopies {
    /// How many there were.
    pub count: u64,
    /// The oldest trip of which one came, counted from the first trip of these ports, which is 0; `None`
    /// where none came.
    pub oldest: Option<u64>,
    /// How many frames came that are of no trip of these ports: another master speaks on the line, or did.
    pub strangers: u64,
}

impl LateCopies {
    /// None.
    pub fn none() -> LateCopies
        ensures { result ≡ record { count = 0; oldest = None; strangers = 0 } }
    {
        LateCopies {
            count: 0,
            oldest: None,
            strangers: 0,
        }
    }

    /// With a copy more, of this trip.
    pub fn with(self, trip: u64) -> LateCopies
        ensures { result ≡ record {
          count = min (self.count + 1) (2 ^ 64 - 1);
          oldest = Some (older self.oldest trip);
          strangers = self.strangers;
        } }
    {
        let oldest = match self.oldest {
            Some(oldest) => oldest.min(trip),
            None => trip,
        };
        LateCopies {
            count: self.count.saturating_add(1),
            oldest: Some(oldest),
            strangers: self.strangers,
        }
    }

    /// With a frame more that is of no trip of these ports.
    pub fn with_stranger(self) -> LateCopies
        ensures { result ≡ record {
          count = self.count;
          oldest = self.oldest;
          strangers = min (self.strangers + 1) (2 ^ 64 - 1);
        } }
    {
        LateCopies {
            count: self.count,
            oldest: self.oldest,
            strangers: self.strangers.saturating_add(1),
        }
    }
}
