//! `ecat lint`: what a scene says that is accepted and yet seldom meant.

use ecat_lint::odd_lines;
use ecat_scene::Scene;
use ecat_setup::{LineFailure, records_of};
use ecat_text::{GOOD, Lines, REFUSED, refuse_mapped};
use std::alloc::Global;
use std::io::Write;

/// Prints what is odd in the text of the scene, a line each; and where it has no items, why its line is
/// refused if it is, which no cycle would tell.
#[inline(never)]
pub fn lint<W: Write>(
    alloc: Global,
    text: &[u8],
    scene: &Scene,
    out: &mut W,
) -> Result<u8, LineFailure> {
    let Ok(found) = odd_lines(alloc, text) else {
        return Err(LineFailure::NoMemory);
    };
    let mut status = GOOD;
    let mut lines = Lines::new(out);
    for line in found.iter() {
        lines.text(line)?;
        lines.end()?;
        status = REFUSED;
    }
    if scene.items.is_empty() {
        let slaves = records_of(alloc, scene.slaves.as_slice())?;
        if refuse_mapped(slaves.as_slice(), &[], &mut lines)? {
            status = REFUSED;
        }
    }
    Ok(status)
}
