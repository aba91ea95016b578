#![tactic(auto)]
//! Writers whose readers may stop: who writes goes on, and lines or records that nobody takes are left out
//! and counted.
//!
//! - `Unblocking`: a writer over another one and its reader. While it is not patient no write waits.
//! - `Records`: the same of records, of which each comes in one write.
//! - `Reader`: who says whether a write would be taken at once, and `Behind`: the one at the other end of a
//!   descriptor, as the system knows it.
//! - `Screen`: a terminal that is opened once more, so that no write to it waits (`never_waits`).
//! - `Gap`: which of the bytes that come are left out, so that it is whole lines, and how many were.
//!
//! One use, which the test `lines_that_nobody_takes_are_counted` tries; `out` is a writer, `rt` what `main`
//! is given:
//!
//! ```text
//! let patient = Cell::new(false);
//! let reader = Behind(rt.stdout().as_raw_fd());
//! let mut lines = Unblocking::new(&mut out, reader, AT_ONCE, &patient);
//! lines.write_all(b"cycle 0 good\n")?;
//! let left_out = lines.left_out();
//! ```
//!
//! What is promised: what is left out ends with the end of a line, and each line of which something was left
//! out is counted once (`Gap`, `passed` in `specs/Gaps.antt`). It takes no memory.
//!
//! What a system says of a descriptor, and that a write is taken behind that, is up to it.

mod gap;
mod reader;
mod records;
mod terminal;
mod writer;

pub use gap::Gap;
pub use reader::{Behind, Reader};
pub use records::Records;
pub use terminal::{Screen, never_waits};
pub use writer::{AT_ONCE, Unblocking};

#[cfg(test)]
mod tests;
