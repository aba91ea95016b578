//! What the commands answer over scenes in place whose reads or writes fail. A test accepts want of memory as
//! an answer, so that each allocation can be made to fail in turn.

mod failing;
