//! Transfers over ports at which copies are lost at trips of one's choice, and the use on the crate's page;
//! and services turn by turn (`ec_acyclic`), over the same ports; and a start-up by turns (`ec_turns`).
//! What services send, and what answers come to, are rows of `data/services.rows`.

mod acyclic;
mod door;
mod line;
mod peer;
mod storm;
mod surely;
mod turns;
