//! What the commands print and answer over lines, outputs and readers that fail. A test accepts want of
//! memory as an answer, so that each allocation can be made to fail in turn.

mod failing;
mod packets;
mod showing;
