//! How tests read scenes, and one that several read.

use ecat_scene::{Scene, SceneFault};
use ecat_setup::{LineFailure, text_of};
use ecat_source::Source;
use std::alloc::Global;

/// Two slaves with a broken cable between them, of which one takes outputs and gives inputs; what `run`
/// prints of them is three lines.
pub(crate) const EXAMPLE: &[u8] =
    b"slave 0x1001\nstate 8\nsm 2 0x1000 1 write\nsm 3 0x1100 1 read\n\
    fmmu 0 0x10000 1 0 7 0x1000 0 write\nfmmu 1 0x10000 1 0 7 0x1100 0 read\nmem 0x1100 12\n\
    slave 0x1002\nstate 4\nlink 1 down\nlrw 0x10000 ff\nbrd 0x0130 0000\n";

/// The scene of a source, or why there is none.
pub(crate) fn scene_of<S: Source>(alloc: Global, source: &mut S) -> Result<Scene, LineFailure> {
    let text = text_of(alloc, source)?;
    Ok(Scene::read(alloc, text.as_slice())?)
}

/// Did memory run out?
pub(crate) fn is_want_of_memory(failure: &LineFailure) -> bool {
    matches!(
        failure,
        LineFailure::NoMemory | LineFailure::Scene(SceneFault::NoMemory)
    )
}
