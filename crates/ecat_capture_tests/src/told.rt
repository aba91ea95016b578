//! Tests of what a capture tells of a line (`ecat_told`): the use on the crate's page, and a table of
//! datagrams with what is told behind each, byte by byte, worked out by hand.

mod door;
mod play;
mod writes;
