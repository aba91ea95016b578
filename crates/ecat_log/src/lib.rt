#![tactic(auto)]
//! The log of a line that is served: a line of text for each packet, over any writer.
//!
//! ```text
//! speaker A 127.0.0.1:40000
//! packet 0 A size 16 frame BRD adp 0000 ado 0130 length 2 counter 0>1 left A
//! packet 1 A size 17 dropped Trailing at 16 padded
//! ```
//!
//! A packet has its number, from 0 on, the end where it came in and its size. A frame has its datagrams,
//! each with its command, its address and length, and its counter as it came and as it arrived, `-` where it
//! arrived nowhere; and then `left A`, `lost at A` where a copy was to be lost, `nobody at A` where nobody
//! has spoken, or `left nowhere`. A packet that was dropped has the first fault and its place, and `padded`
//! where a frame stands in front of more bytes, or `ethernet` where it is a whole Ethernet frame. Before the
//! frame of somebody who was not the last to speak at its end, a line tells who he is. A cable that is really
//! pulled has a line too (`end B: no carrier: link 5 down`), which `Cables` writes alone.
//!
//! One use, which the test `a_line_for_each_packet` tries:
//!
//! ```text
//! let mut log = Log::new(&mut out);
//! let counts = served.serve_watched(&mut ends, 3, &mut log)?;
//! ```
//!
//! What is promised: the words of each part of a line (`specs/Texts.antt`), and what a packet looks like that
//! was dropped (`hint_of`, `Looks`). A log takes no memory, and a fault of its writer is passed over.

pub mod hint;
pub mod log;
pub mod texts;

pub use hint::Hint;
pub use log::{Cables, Log};
