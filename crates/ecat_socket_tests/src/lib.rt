#![tactic(auto)]
//! Tests of ports and of lines over packets, in memory, where a call may fail, and over real sockets, by
//! public calls alone: `udp` of `ecat_udp`, `remote` of `ecat_remote`, `serve` of `ecat_serve` and, of its
//! cables, of `ecat_log`. What a served line answers to packets and commands, and what is logged of them, is
//! tried by `cases/`.

#[cfg(test)]
mod asserts;
#[cfg(test)]
mod remote;
#[cfg(test)]
mod serve;
#[cfg(test)]
mod udp;
