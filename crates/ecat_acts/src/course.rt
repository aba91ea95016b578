//! The course of a master on the scene that was read.

use crate::failure::{Failure, report};
use ecat_course::Course;
use ecat_scene::{Scene, SceneFault};
use ecat_setup::LineFailure;
use ecat_text::REFUSED;
use std::alloc::Global;
use std::io::Write;

/// Checks the scene that was read, before any socket is opened. Where there is nothing to cycle on, reports
/// why and answers the exit status. The course is boxed, and this is not put in line, so that a work that is
/// handed on takes its room on the stack once.
#[inline(never)]
pub fn course_of<W, V>(
    alloc: Global,
    scene: Result<Scene, SceneFault>,
    out: &mut W,
    err: &mut V,
) -> Result<Box<Course>, u8>
where
    W: Write,
    V: Write,
{
    match course_on(alloc, scene, out) {
        Ok(Some(course)) => match Box::new(alloc, course) {
            Ok(course) => Ok(course),
            Err(_) => Err(report(&Failure::Line(LineFailure::NoMemory), out, err)),
        },
        Ok(None) => Err(REFUSED),
        Err(failure) => Err(report(&Failure::Line(failure), out, err)),
    }
}

/// The course of the scene that was read, if there is one on it.
fn course_on<W: Write>(
    alloc: Global,
    scene: Result<Scene, SceneFault>,
    out: &mut W,
) -> Result<Option<Course>, LineFailure> {
    Course::of(alloc, scene?, out)
}
