//! A time as ISO 8601 writes it.

ghost use Rattle.std.specs.Prelude.{◌≡◌, pos};
ghost use Rattle.ecat_stamps.specs.Stamps.{IsDate, IsStamp};

use arrayvec::ArrayString;
use jiff_core::Timestamp;
use jiff_fmt::temporal::DateTimePrinter;

/// How many bytes a stamp has at the most.
pub(crate) const STAMP: usize = 34;

/// How many digits a second of it has behind the point.
const MILLISECONDS: u8 = 3;

/// A time, nanoseconds since 1970, as ISO 8601 writes it: date and time of day in UTC, with so many digits of
/// the second behind the point, 1 to 9, that it has begun (`2026-12-01T04:16:03.123456Z` with six).
pub fn date_of(nanoseconds: u64, digits: u8) -> ArrayString<33>
    ensures { IsDate nanoseconds digits result.bytes }
{
    DateTimePrinter::new()
        .precision(Some(digits))
        .timestamp_text(time_of(nanoseconds))
}

/// The time that lies so many nanoseconds behind the beginning of 1970.
fn time_of(nanoseconds: u64) -> Timestamp
    ensures { result.nanosecond ≡ pos nanoseconds }
{
    match Timestamp::from_nanosecond(i128::from(nanoseconds)) {
        Ok(time) => time,
        Err(_) => Timestamp::UNIX_EPOCH,
    }
}

/// The stamp of a time: to the millisecond that has begun, and a space (`2026-12-01T04:16:03.123Z `).
pub fn stamp_of(nanoseconds: u64) -> ArrayString<STAMP>
    ensures { IsStamp nanoseconds result.bytes }
{
    let date = date_of(nanoseconds, MILLISECONDS);
    let mut stamp = ArrayString::new();
    stamp.push_str(date.as_str());
    stamp.push(' ');
    stamp
}
