//! Lines that are mapped as a cycle needs it, and lines that break a rule: rows of `data/check.rows`, but for
//! the use on the crate's page.

mod door;
mod line;
