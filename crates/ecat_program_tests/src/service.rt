//! A line that is served, over ends that fail. A test accepts want of memory as an answer.

mod serving;
