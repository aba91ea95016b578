//! Cycles one after the other, and the outputs that they send.

mod images;
mod sent;
