//! Frames over lines of slaves: what no row of `data/ring.rows` is.

mod by_hand;
mod door;
mod limit;
mod line;
mod weather;
