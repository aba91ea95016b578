//! Which packets are copies of earlier trips, and which are of others.

ghost use Rattle.std.specs.Prelude.{◌≡◌};
ghost use Rattle.ecat_remote.specs.Late.{is_stranger, late_trip};

use ec_number::Trip;

/// How many numbers of trips there are: 2 to the 63rd.
const TRIPS: u64 = 1 << 63;

/// The trip of which a copy has this number, counted from the first one as 0, of ports that have made so many
/// trips and whose next one this is; `None` where it is of the last trip, or of no trip of these ports.
pub(crate) fn late_trip(next: Trip, made: u64, number: u64) -> Option<u64>
    ensures { result ≡ late_trip next.number made number }
{
    let ago = (next.number + TRIPS - number / 2) % TRIPS;
    if ago >= 2 && ago <= made {
        Some(made - ago)
    } else {
        None
    }
}

/// Is this the number of a trip of others: of none that ports have made which made so many and whose next one
/// this is?
pub(crate) fn is_stranger(next: Trip, made: u64, number: u64) -> bool
    ensures { result ≡ is_stranger next.number made number }
{
    let ago = (next.number + TRIPS - number / 2) % TRIPS;
    !(ago >= 1 && ago <= made)
}
