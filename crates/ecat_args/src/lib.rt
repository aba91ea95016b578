//! The arguments of the program `ecat`, read by `clap`:
//!
//! ```text
//! ecat show FILE
//! ecat list FILE [--csv] [--faults] [--stats] [--index] [--json]
//! ecat learn FILE [--at PACKET] [--asked] [--data]
//! ecat judge FILE [SCENE] [--csv] [--limit LINES] [--clock CLOCK] [--json]
//! ecat check SCENE [--json]
//! ecat cover SCENE [--json]
//! ecat lint SCENE [--json]
//! ecat where SCENE [--at AT] [--raw RAW] [--through THROUGH] [--json]
//! ecat run SCENE [--judge] [--pcap PCAP] [--force]
//! ecat sweep SCENE
//! ecat sdo SCENE STATION INDEX SUB [VALUE] [--surely] [--once] [--at AT] [--raw RAW] [--through THROUGH]
//! ecat udp SCENE [--port P] [--judge] [--pcap PCAP] [--force]
//! ecat serve SCENE [--port P] [--packets N] [--bind ADDRESS] [--forever] [--control] [--log] [--plain]
//!     [--set-up] [--sii FOLDER] [--raw RAW] [--pcap PCAP] [--force] [--json]
//! ecat master SCENE [--at AT] [--raw RAW] [--cycles N] [--until-end] [--every MICROSECONDS] [--busy]
//!     [--limit LIMIT] [--late LATE] [--outputs OUTPUTS] [--log LOG] [--log-images] [--log-or-stop]
//!     [--clock CLOCK] [--progress PROGRESS] [--json] [--io IO] [--io-open] [--io-stale CYCLES]
//!     [--io-rest REST] [--control] [--stop] [--recover] [--tries TRIES] [--leave STATE] [--pcap PCAP]
//!     [--force]
//! ecat scan [--at AT] [--raw RAW] [--through THROUGH] [--limit LIMIT] [--late LATE] [--scene SCENE]
//!     [--force] [--json]
//! ecat sii FILE [PLACE] [--write WRITE] [--force]
//! ecat vectors
//! ```
//!
//! A number is decimal digits, or `0x` and hexadecimal digits of either case. `VALUE` is `0x` and exactly 2,
//! 4 or 8 hexadecimal digits, which give its size. `ADDRESS` is an IPv4 address, as 127.0.0.1. `AT` is where
//! a line lies, `HOST:PORT` of its end A or those of both ends with a comma between them; `RAW` are the
//! descriptors of packet sockets, one or two; `THROUGH` is the `HOST:PORT` of a master's `--io`; `STATE` is
//! the name of a state. These are handed on as they stand.
//!
//! A use, which the test `words_are_read_as_the_page_shows` tries; `rt` is what `main` is given:
//!
//! ```text
//! let alloc = rt.alloc();
//! let words = ["ecat", "serve", "a.scene", "--packets", "100"];
//! let text = match Args::read(alloc, &words) {
//!     Ok(Args::Scene { path, command: SceneCommand::Serve { port, .. } }) => {
//!         format!(in alloc; "{path} on {port}")
//!     }
//!     Ok(_) => format!(in alloc; "another command"),
//!     Err(ArgsFault::Line(error)) => format!(in alloc; "{error}"),
//!     Err(ArgsFault::BadNumber) => format!(in alloc; "a bad number"),
//!     Err(ArgsFault::NoMemory) => format!(in alloc; "no memory"),
//! };
//! ```
//!
//! The text is `a.scene on 34980`.
//!
//! [`Args`] splits the commands by what they open first: a capture, the scene of a file, or nothing.
//! `Args::read` answers exactly the command that clap's own definition of the line gives for the
//! words, and each fault where that definition or a number's range is not met. Only the texts of
//! help and of errors have no contract.
#![tactic(auto)]

mod args;
mod commands;
mod explain;
mod number;

pub use args::{Args, ArgsFault};
pub use commands::{CaptureCommand, MasterWords, ScanWords, SceneCommand, SiiWords};
pub use explain::{BadWord, bad_word};
pub use number::Value;
