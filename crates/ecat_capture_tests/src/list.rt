//! What is listed of captures where outputs and sources fail. A test accepts want of memory as an answer, so
//! that each allocation can be made to fail in turn.

mod ends;
mod lines;
mod samples;
mod stats;

use ecat_list::{Asked, Form};
use std::io::Cursor;

/// Room for what a listing of a test prints.
const ROOM: usize = 2048;

/// What was written to a cursor over an array.
fn written(cursor: &Cursor<[u8; ROOM]>) -> &str {
    let count = cursor.position().min(ROOM as u64) as usize;
    str::from_utf8(&cursor.get_ref()[..count]).unwrap_or("no text")
}

/// A listing in this form.
fn asked(form: Form) -> Asked {
    Asked {
        form,
        live: false,
        progress: false,
    }
}
