//! The calls of a cycle, its turns, numbers, the search for a broken link and the check of a mapping, with
//! the bytes written out by hand.

mod asserts;
mod cable;
mod door;
mod mapping;
mod numbers;
mod turns;
