//! Works, the frames that they are cut into, and their cycles: rows of `data/master.rows`, but for the use on
//! the crate's page.

mod door;
mod many;
