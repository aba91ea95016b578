//! A walk along the frames of a capture, by their trips.

use crate::listing::{PROGRESS_STEP, tell_progress};
use crate::output::Stop;
use crate::ways::Ways;
use ec_wire::FrameBuf;
use ecat_frames::{Frames, UNJOINED};
use ecat_source::Source;
use ecat_trips::{Marks, Outline, Step, Trips};
use std::alloc::{AllocError, Global};
use std::io::Write;

/// Who is told of each step of a walk.
pub(crate) trait Steps {
    /// Takes what happened to a packet that has this frame.
    fn take(&mut self, packet: &Outline, frame: &FrameBuf, step: &Step) -> Result<(), Stop>;
}

/// The trips of a capture that are on the way, and which way its frames went so far.
#[derive(Drop)]
pub(crate) struct Walk {
    trips: Trips,
    pub(crate) ways: Ways,
}

impl Walk {
    /// In front of the first frame.
    pub(crate) fn new(alloc: Global) -> Result<Walk, AllocError> {
        Ok(Walk {
            trips: Trips::new(alloc)?,
            ways: Ways::new(),
        })
    }

    /// Goes along all frames. Where progress is asked for, it is told now and then how many packets were
    /// read.
    pub(crate) fn go<S: Source + Drop, T: Steps, V: Write>(
        &mut self,
        frames: &mut Frames<S>,
        steps: &mut T,
        progress: bool,
        err: &mut V,
    ) -> Result<(), Stop> {
        let mut told = 0;
        for _ in 0..u64::MAX {
            let Some(packet) = frames.next() else {
                break;
            };
            self.take(frames.marks(), &packet, frames.frame(), steps)?;
            let now = frames.packets() / PROGRESS_STEP;
            if progress && told < now {
                told = now;
                tell_progress(now.saturating_mul(PROGRESS_STEP), err);
            }
        }
        Ok(())
    }

    /// Takes a frame.
    fn take<T: Steps>(
        &mut self,
        marks: &Marks,
        packet: &Outline,
        frame: &FrameBuf,
        steps: &mut T,
    ) -> Result<(), Stop> {
        for _ in 0..u64::MAX {
            let step = self.trips.take(marks, packet, frame)?;
            steps.take(packet, frame, &step)?;
            let is_taken = self.take_way(&step);
            self.trips.reuse(step);
            if is_taken {
                break;
            }
        }
        Ok(())
    }

    /// Takes what tells the way of the packet, if it is taken; is it?
    fn take_way(&mut self, step: &Step) -> bool {
        match step {
            Step::Ended(_) => false,
            Step::Taken(told, _) => {
                self.ways.take(*told);
                true
            }
        }
    }

    /// Tells a person what else is to be known of the capture: how many packets were cut, how many are older
    /// than the one before, and that one way alone was captured. A write that fails is passed over.
    pub(crate) fn tell<S: Source + Drop, V: Write>(&self, frames: &Frames<S>, err: &mut V) {
        frames.notes().tell(err);
        if self.ways.are_one() {
            let _ = err.write_all(UNJOINED);
        }
    }
}
