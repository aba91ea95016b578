//! `ecat master --control`: a master that lines of its input speak to.

use crate::answering::Answering;
use crate::failure::Failure;
use crate::mastering::{Attended, Cycling, beat_of, cycle_for, report_to};
use crate::patience::Impatient;
use ecat_control::{ControlTask, Outputs, Stopping};
use ecat_course::Course;
use ecat_events::{Telling, told_if};
use ecat_master::Writers;
use ecat_record::{Moments, Recorder};
use ecat_screen::Watching;
use ecat_setup::LineFailure;
use std::cell::Cell;
use std::io;
use std::net::Net;
use std::random::RandomSource;
use std::rt::Clock;

/// Has a master run whose outputs are those of its scene, and then those that lines of its input set; until a
/// line or the end of the input ends it, or so many cycles were made.
pub(crate) fn run_controlled<R, T, M, W, V, L>(
    rt: &R,
    course: Box<Course>,
    cycling: Cycling<'_>,
    attended: Attended<'_, '_, '_>,
    recorder: &mut Recorder<T, M>,
    writers: Writers<'_, W, V, L>,
) -> u8
where
    R: Clock + Net + RandomSource + AllocGlobal,
    T: io::Write,
    M: Moments,
    W: io::Write,
    V: io::Write,
    L: io::Write,
{
    let Ok(beat) = beat_of(rt, cycling.running, None) else {
        return report_to(&Failure::Clock, writers);
    };
    let Ok(outputs) = Outputs::of(rt.alloc(), course.work(), course.items()) else {
        return report_to(&Failure::Line(LineFailure::NoMemory), writers);
    };
    let Ok(signals) = course.signals(rt.alloc()) else {
        return report_to(&Failure::Line(LineFailure::NoMemory), writers);
    };
    let stops = Cell::new(false);
    let mut pace = Stopping::new(Impatient::new(beat, attended.is_patient), &stops);
    let task = ControlTask::new(attended.input, outputs, signals.as_slice(), &stops);
    let Ok(told) = told_if(rt.alloc(), cycling.running.json) else {
        return report_to(&Failure::Line(LineFailure::NoMemory), writers);
    };
    let task = Telling::new(task, told, attended.are_objects);
    let task = Watching::new(task, attended.recent);
    let mut task = Answering::new(task, attended.are_own);
    cycle_for(rt, course, cycling, recorder, &mut pace, &mut task, writers)
}
