//! A time as a date, in UTC.

ghost use Rattle.std.specs.Prelude.{◌≡◌, ◌++◌, List, OnOk, ℕ};
ghost use Rattle.ecat_list.specs.Dates.{digits_of};
ghost use Rattle.ecat_stamps.specs.Stamps.{IsDate};

use ecat_stamps::date_of;
use std::alloc::AllocError;

/// How many digits stand behind the point of a second.
pub(crate) fn digits_of(fine: bool) -> u8
    ensures { result ≡ digits_of fine }
{
    if fine { 9 } else { 6 }
}

/// Puts a time since the epoch as date and time of day in UTC, to the microsecond, or to the nanosecond.
pub(crate) fn put_date(text: &mut Vec<u8>, nanoseconds: u64, fine: bool) -> Result<(), AllocError>
    ensures { OnOk result ((date : List ℕ) × IsDate nanoseconds (digits_of fine) date
        × (text.new.items ≡ text.old.items ++ date)) }
{
    text.extend_from_slice(date_of(nanoseconds, digits_of(fine)).as_str().as_bytes())
}
