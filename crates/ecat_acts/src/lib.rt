#![tactic(auto)]
//! The commands over what the program has opened: a scene that was read or a capture as a source, sockets and
//! interfaces, an input and a clock; and why a command ended, on standard error and as its exit status.
//!
//! - [`on_scene`](on_scene::on_scene) does a command on a scene: by [`act`](act::act) where it needs nothing
//!   else; else a master by `mastering` on the `course` of its scene, and by `controlling` where lines of its
//!   input speak to it, what a line somewhere else is asked by `asking`, a service by `serving`. `remote`
//!   says how a line elsewhere is reached, `udp` opens sockets for a cycle, `images` and `eeproms` read
//!   files, and `tape` makes those that are written;
//! - `through` asks the master that runs on a line by its door, where a second one would break its cycles;
//! - [`act_list`](listing::act_list) and [`act_show`](show::act_show) go through a capture, `learning` tells
//!   how `learn` ended, `judging` judges a capture by a scene or by the line that it shows, and `replaying`
//!   sends what its master sent to the line of a scene; [`sii_by`](sii::sii_by) prints an EEPROM;
//! - `piped` is an output that its reader may close, `patience` says when a master waits for who reads what
//!   it writes, which is not while its cycles run, and `answering` tells answers to commands from the lines
//!   that it writes of its own;
//! - [`report`](failure::report) tells a [`Failure`](failure::Failure) by its fixed line, and `hints` what
//!   helps a person behind it; `kinds` is what a file is that was refused.
//!
//! The exit status of each failure, which failure it is where sockets could not be opened, what a master and
//! a scan do by their words, and the words of a fault of packet sockets are proved (`specs/`); what is
//! opened in which order, and all other lines, are tried by tests.

pub mod act;
mod answering;
mod asked;
pub mod asking;
pub mod console;
mod controlling;
mod course;
mod eeproms;
pub mod failure;
mod finding;
pub mod hints;
mod images;
pub mod judging;
pub mod kinds;
pub mod learning;
pub mod listing;
mod mastering;
pub mod on_scene;
mod patience;
mod piped;
mod progress;
mod raw;
mod remote;
pub mod replaying;
mod serving;
pub mod show;
pub mod sii;
mod tape;
mod through;
pub mod udp;
