#![tactic(auto)]
//! Lines that begin with the time of the clock, so that whoever reads them knows of each when it was written.
//!
//! - [`Utc`]: what time it is, by a clock that is asked for it once and has gone on since.
//! - [`date_of`]: a time as ISO 8601 writes it, and [`stamp_of`], to the millisecond and with a space.
//! - [`Stamped`]: a writer over another one that puts the time before each line, as long as it is to.
//!
//! One use, as in the test `each_line_begins_with_the_time`; `rt` is what `main` is given, `out` a writer:
//!
//! ```text
//! let utc = Some(Utc::begin(&rt)?);
//! let are_put = Cell::new(true);
//! let mut lines = Stamped::new(&mut out, &utc, &are_put);
//! lines.write_all(b"slaves 3\nring whole\n")?;
//! ```
//!
//! ```text
//! 2026-12-01T04:16:03.123Z slaves 3
//! 2026-12-01T04:16:03.123Z ring whole
//! ```
//!
//! What is promised: a time is written as that day of the Gregorian calendar, and that time of the day, which
//! lie so many nanoseconds behind the beginning of 1970 (`date_of`, `stamp_of`, by `specs/Stamps.antt`).
//! Of lines with a clock, of private functions: at once go out no more bytes than those of one line
//! (`count`), with the stamp before them where that line begins there and is to have one, else without
//! (`written`), and no time is before the last one (`never_falls`). It takes no memory.
//!
//! What time a clock says is up to the system.

mod line;
mod stamp;
mod utc;
mod writer;

pub use stamp::{date_of, stamp_of};
pub use utc::Utc;
pub use writer::Stamped;

#[cfg(test)]
mod tests;
