//! Frames: what no row of `data/wire.rows` is.

mod door;
mod largest;
