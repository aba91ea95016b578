//! Copies joined: what no row of `data/merge.rows` is.

mod bytes;
mod door;
mod merge;
