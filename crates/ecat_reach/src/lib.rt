#![tactic(auto)]
//! How a line that lies somewhere else is reached, by UDP or at packet sockets, and a master's two ports to
//! it: one type of them, whichever way the words of a command say.
//!
//! ```text
//! let mut recorder = unrecorded();
//! let ports = open_ports(&rt, Reach::At("127.0.0.1:34980,127.0.0.1:34981"), 20_000, &mut recorder)?;
//! ```
//!
//! That a carrier which is one of two does what that one does is proved (`EitherCarrier`): what is known of
//! trips over each is known of it. What the system answers is tried by the commands that open ports.

pub mod carrier;
pub mod ports;

pub use carrier::EitherCarrier;
pub use ports::{AnyPorts, Reach, ReachFault, open_ports};
