//! Scenes that are taken, and lines that are written. A test accepts want of memory as an answer, so that
//! each allocation can be made to fail in turn.

use crate::asserts::assert_same;
use ecat_scene::{Scene, SceneFault};
use shown::shown;
use std::alloc::{AllocError, Global};
use std::process::Abort;

mod bench;
mod door;
mod edition;
mod limits;
mod shown;
mod takes;
mod written;

/// The scene of a text, unless memory ran out.
fn taken(rt: &(impl AllocGlobal + Abort), text: &[u8]) -> Option<Scene> {
    match Scene::read(rt.alloc(), text) {
        Ok(scene) => Some(scene),
        Err(fault) => {
            assert_same(rt, fault, SceneFault::NoMemory);
            None
        }
    }
}

/// The two sides of a row, a line of a table: a text, up to a blank and a bar, and what is wanted of it.
fn sides<'a>(rt: &impl Abort, row: &'a str) -> (&'a str, &'a str) {
    let (text, wanted) = row.split_once('|').expect(rt, "a bar");
    (text.strip_suffix(" ").unwrap_or(text), wanted.trim())
}

/// The bytes of a text of a row, in which `/` ends a line.
fn lines_of(alloc: Global, text: &str) -> Result<Vec<u8>, AllocError> {
    let mut bytes = Vec::new(alloc);
    for byte in text.as_bytes() {
        bytes.push(if *byte == b'/' { b'\n' } else { *byte })?;
    }
    Ok(bytes)
}

/// What the scene of a text holds, or why the text is refused, unless memory ran out.
fn told(alloc: Global, text: &[u8]) -> Option<String> {
    match Scene::read(alloc, text) {
        Ok(scene) => shown(alloc, &scene).ok(),
        Err(SceneFault::NoMemory) => None,
        Err(fault) => format!(in alloc; "{fault}").ok(),
    }
}

/// Asserts of each row that what stands behind its bar is told of its text.
fn assert_rows(rt: &impl Abort, alloc: Global, rows: &str) {
    for row in rows.split('\n') {
        let (text, wanted) = sides(rt, row);
        let Ok(bytes) = lines_of(alloc, text) else {
            return;
        };
        if let Some(found) = told(alloc, &bytes) {
            assert!(rt; found.as_str() == wanted, "{row}: {found}");
        }
    }
}
