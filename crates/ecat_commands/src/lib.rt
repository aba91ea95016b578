//! The commands of the program `ecat` and their words, as its command line is defined to `clap`.
//!
//! `line` builds the whole definition; its contract says which one, in clap's words, command by command
//! (`specs/Commands.antt`). `ecat_args` reads words by it. What a command's help tells is in `help`, and has
//! no contract.
#![tactic(auto)]

mod commands;
mod help;

pub use commands::line;
