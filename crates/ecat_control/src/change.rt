//! A change of outputs: which bytes, or bits of them, go where.

ghost use Rattle.std.specs.Prelude.{◌≡◌, []};
ghost use Rattle.ecat_control.specs.Changes.{bytes_of};

use arrayvec::ArrayVec;

/// The most places of a change.
pub const MOST_PLACES: usize = 64;

/// The most bytes of a change: as many as a line of 1,024 characters can have.
pub const MOST_BYTES: usize = 512;

/// Bits that follow each other in bytes.
#[derive(Clone, Copy, PartialEq, Eq, Default, Debug)]
pub struct Run {
    /// The first one, from 0: bit 0 is the lowest one of the first byte.
    pub first: usize,
    /// How many there are.
    pub count: usize,
}

/// A place of a change: where bytes go, and which of the change's.
#[derive(Clone, Copy, PartialEq, Eq, Default, Debug)]
pub struct Place {
    /// The number of an item of the scene, the first one's being 0.
    pub item: usize,
    /// Behind how many of its bytes they go.
    pub offset: usize,
    /// Behind how many of the change's bytes these stand.
    pub from: usize,
    /// How many there are.
    pub count: usize,
    /// Which of their bits go there, each to the same bit; `None` for all.
    pub run: Option<Run>,
}

/// A change of outputs: its places, of which each has bytes of the change.
#[derive(Drop)]
pub struct Change {
    /// The places, in their order.
    pub places: ArrayVec<Place, MOST_PLACES>,
    /// The bytes of all places, one behind the other.
    pub bytes: ArrayVec<u8, MOST_BYTES>,
}

impl Change {
    /// Of no place.
    pub fn none() -> Change
        ensures places { result.places.items ≡ [] }
        ensures bytes { result.bytes.items ≡ [] }
    {
        Change {
            places: ArrayVec::new(),
            bytes: ArrayVec::new(),
        }
    }

    /// Forgets its places.
    pub fn clear(&mut self)
        ensures places { self.new.places.items ≡ [] }
        ensures bytes { self.new.bytes.items ≡ [] }
    {
        self.places.clear();
        self.bytes.clear();
    }
}

/// The bytes of a place, among those of its change, as far as they go.
pub(crate) fn bytes_of(place: Place, bytes: &[u8]) -> &[u8]
    ensures { result.now ≡ bytes_of place bytes.now }
{
    let rest = &bytes[place.from.min(bytes.len())..];
    &rest[..place.count.min(rest.len())]
}
