//! Captures block by block, long packets, reads that fail, and memory that runs out.

mod blocks;
mod classic;
mod door;
mod sources;
