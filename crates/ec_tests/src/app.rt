//! A slave: what no row of `data/app.rows` is.

mod door;
