//! Station addresses and transfers over rings of simulated slaves, by the laws of them. What else is asked of
//! such rings is rows of `data/over_ring.rows`.

mod line;
mod stations;
mod transfers;
