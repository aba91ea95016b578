//! A line that is served, in memory, where a call may fail; and ends at real sockets, whose input fails.

/// A packet in memory: the end, who is there by his number, and the name of its bytes.
macro_rules! packet {
    ($at:ident $peer:literal $spelling:ident) => {
        Packet {
            at: Port::$at,
            peer: $peer,
            spelling: Spelling::$spelling,
        }
    };
}

mod cables;
mod commands;
mod disturbed;
mod faults;
mod line;
mod memory;
mod packets;
mod reads;
