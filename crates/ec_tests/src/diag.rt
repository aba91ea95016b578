//! Copies that came back, with what they tell written out by hand.

mod copies;
mod door;
mod frames;
mod line;
mod single;
mod two;
