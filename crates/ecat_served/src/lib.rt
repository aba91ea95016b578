#![tactic(auto)]
//! That a line which is served as `ecat serve` does it keeps the premise of the laws on lines that move: so
//! what a Good of a master on such a line says needs no premise on how its slaves move.
//!
//! A good cycle is of one moment of each slave where its application, between the passages of the cycle's
//! copies, does only what an application may (`ec_line::moving`, `ec_master::moments`); that is asked of
//! visits of each slave, of which a line knows nothing. Here a line is what its packets make of it: one comes
//! in after the other, each walks as far as the links go while no slave acts, and between them each slave
//! acts (`specs/History.antt`). Laws alone, each the contract of a function that does nothing:
//!
//! - histories are put end to end and cut, and what the slaves of `ecat_serve` do behind a packet may lie
//!   between two ([`histories_go_on`]);
//! - a packet that `ecat_serve` answers is one more of a history, and one that it drops is none of it
//!   ([`serving_makes_a_history`]);
//! - a trip on such a line is one over a line that moves, whichever copy came first, or came at all
//!   ([`a_trip_on_a_served_line`]); and so is a cycle ([`a_cycle_on_a_served_line`]);
//! - over a net that gives whatever it will, where what bears a number of a trip is what the line made of one
//!   of its copies, the end of a cycle says what it says of a line that moves ([`a_good_on_a_served_line`]).
//!
//! Between the copies of a trip there may be packets of others, as long as each is quiet: it leaves each
//! slave as its application might have, so it writes no output and no mapping. Trips follow one another: a
//! copy that comes to the line behind one of a later trip counts as a packet of others, and has to be quiet.
//!
//! What the contracts speak of stands in specs/: `History` (packets), `Trips` (which packets are a trip),
//! `Cycles`, `Network` (numbers, and what was taken), `Acting` and `Serving` (what `ecat_serve` does).

mod promises;

pub use promises::{
    a_cycle_on_a_served_line, a_good_on_a_served_line, a_trip_on_a_served_line, histories_go_on,
    serving_makes_a_history,
};
