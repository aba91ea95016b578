//! What the master reads and writes through FMMUs: each small one against a walk over its bits. The worked
//! examples are rows of `data/areas.rows`.

mod by_pairs;
mod examples;
mod small_fmmus;
