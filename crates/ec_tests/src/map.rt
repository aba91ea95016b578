//! Items, where they may go, and what a line adds to their counters: rows of `data/map.rows`, but for the use
//! on the crate's page.

mod door;
mod line;
