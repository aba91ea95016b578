#![tactic(auto)]
//! Tests over damaged bytes: frames and mails that are cut short, changed in a byte, or made at random.
//!
//! What the proofs say of all bytes, that a reader takes exactly what spells a frame and a slave stays in its
//! invariant, is here seen to happen: each answer is counted, and the counts are compared with those of an
//! independent model of the formats.
//!
//! - `broadcast`: a frame of one datagram, read, joined with what was sent, and passed through a slave.
//! - `twelve`: a frame with twelve commands, read and passed through a slave.
//! - `upload`: a mail, read, and put into a slave's mailbox.
//! - `made`: frames of a seeded generator, on their way over a ring of five slaves.

#[cfg(test)]
mod broadcast;
#[cfg(test)]
mod made;
#[cfg(test)]
mod slave;
#[cfg(test)]
mod twelve;
#[cfg(test)]
mod upload;
