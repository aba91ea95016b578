//! The use on the page of `ecat_trips`.

mod play;
