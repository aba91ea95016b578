#![tactic(auto)]
//! Scenes: the plain text that describes a line of slaves and what is done with it.
//!
//! A line of slaves takes dozens of register writes to set up; a scene says them in a dozen lines that a
//! person reads. [`Scene::read`] takes the whole text and answers a [`Scene`], plain data from which the
//! program builds its slaves, or the first faulty line with what is wrong in it. One use, which
//! `scene/door.rt` of `ecat_master_tests` tries:
//!
//! ```text
//! let text = b"slave 0x1001\nsm 3 0x1100 1 read\nlrd 0x10000 00\nlink 1 down";
//! match Scene::read(rt.alloc(), text) {
//!     Ok(scene) => {
//!         assert_eq!(rt; scene.slaves.len(), 1);
//!         assert_eq!(rt; scene.items.len(), 1);
//!         assert_eq!(rt; scene.links_down.as_slice(), [1].as_slice());
//!     }
//!     Err(fault) => assert_eq!(rt; fault, SceneFault::NoMemory),
//! }
//! ```
//!
//! What is promised: any bytes are taken; `TooLong` comes exactly of more than 65,536 bytes; and what is
//! answered is in the ranges that its types state, the numbers of FMMUs and sync managers below 8, and loaded
//! bytes inside the process memory. A text of lines that describe slaves and items is read as exactly what
//! these lines do, one after the other, up to the first that is at fault (`specs/Deeds.antt`); of the words
//! `mirror`, `count`, `link`, `frame`, `step` and `weather` less is said. What is written of a number, of a
//! thing, of a line and of a whole text is read as it was ([`numbers_read_back`], [`things_read_back`],
//! [`lines_read_back`], [`scenes_read_back`]).
//!
//! - `scene`: what a scene is; `fault`: what can be wrong with its text.
//! - `reader`: the lines in their order; `slave_lines`, `device_lines`, `work_lines`, `signal_lines`: what
//!   each of them says; `last_slave`: what the lines of a slave do to it.
//! - `bench`: the commands by which a line is worked on while it is served, a line of text each.
//! - `edition`: texts of the second edition as texts of the first.
//! - `words`, `numbers`: the words of a line, and the numbers and rows of bytes among them.
//! - `written`: lines that are written. [`put_line`] and its like put exactly the words of a line behind a
//!   text (`specs/Lines.antt`).
//!
//! What helps a person with the text of a scene is `ecat_lint`, which reads lines by the same words.

mod bench;
mod device_lines;
mod edition;
mod fault;
mod last_slave;
mod numbers;
mod reader;
mod scene;
mod signal_lines;
mod slave_lines;
mod words;
mod work_lines;
mod written;

pub use bench::{BenchCommand, CommandFault, SlaveName};
pub use edition::to_first_edition;
pub use fault::{LineFault, SceneFault, Stop};
pub use numbers::{number, numbers_read_back, test_bytes};
pub use scene::{
    Action, FmmuSetting, Load, MAX_ACTIONS, MAX_EEPROM, MAX_ITEMS, MAX_NAME, MAX_PDO_ENTRIES,
    MAX_SIGNAL_NAME, MAX_SIGNALS, MAX_SLAVES, MAX_STARTUP, MAX_TEXT, MAX_WEATHERS, Scene, ScenePdo,
    ScenePdoEntry, SceneSlave, SceneWeather, Setting, SiiBytes, SlaveKind, StartupObject,
    SyncManSetting,
};
pub use signal_lines::test_signal_name;
pub use slave_lines::{control_of, object_of, startup_of, sync_man_of};
pub use words::{is_text, put_words, text_of, words_of};
pub use written::{
    AreaKind, SceneLine, Through, lines_read_back, put_item, put_line, put_row, put_startup,
    scenes_read_back, things_read_back,
};
