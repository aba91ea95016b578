//! Cycles over packets: in memory, where a call may fail, and over real sockets.

mod cycles;
mod exchange;
mod faults;
mod memory;
mod outside;
mod packets;
mod real;
mod sockets;
