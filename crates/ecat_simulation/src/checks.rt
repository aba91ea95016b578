//! `ecat check`: is the line of a scene mapped as a cycle needs it?

use ecat_scene::Scene;
use ecat_setup::{LineFailure, records_of};
use ecat_text::{GOOD, Lines, REFUSED, refuse_mapped};
use std::alloc::Global;
use std::io::Write;

/// Checks the line of the scene, then its items in their order, and prints `accepted` or what is refused
/// first. Its actions and weathers are passed over.
#[inline(never)]
pub fn check<W: Write>(alloc: Global, scene: &Scene, out: &mut W) -> Result<u8, LineFailure> {
    let slaves = records_of(alloc, scene.slaves.as_slice())?;
    let mut lines = Lines::new(out);
    if refuse_mapped(slaves.as_slice(), scene.items.as_slice(), &mut lines)? {
        return Ok(REFUSED);
    }
    lines.text("accepted")?;
    lines.end()?;
    Ok(GOOD)
}
