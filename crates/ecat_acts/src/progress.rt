//! What standard error is told of the cycles of a master.

ghost use Rattle.std.specs.Prelude.{◌≡◌, None, Ok};
ghost use Rattle.ecat_acts.specs.Progress.{usual_progress};

use crate::failure::Failure;
use ecat_screen::{Recent, Shared};
use std::alloc::{AllocError, Global};
use std::cell::Cell;

/// What standard error is told of the cycles of a master while they run.
#[derive(Clone, Copy, PartialEq, Eq)]
pub(crate) enum Progress {
    /// Nothing.
    Nothing,
    /// A line each second.
    Lines,
    /// A page that is drawn anew.
    Screen,
}

/// What standard error is told where no word says it: at a terminal a page, or lines where commands are typed
/// there too; nothing elsewhere.
fn usual_progress(is_watched: bool, control: bool) -> Progress
    ensures { result ≡ usual_progress is_watched control }
{
    match (is_watched, control) {
        (false, _) => Progress::Nothing,
        (true, true) => Progress::Lines,
        (true, false) => Progress::Screen,
    }
}

/// What standard error is told, as a word says, or else as it is at a terminal or none, where commands are
/// typed or not.
pub(crate) fn progress_by(
    word: Option<&str>,
    is_watched: bool,
    control: bool,
) -> Result<Progress, Failure>
    ensures usual { word.entry ≡ None → result ≡ Ok (usual_progress is_watched control) }
{
    match word {
        None => Ok(usual_progress(is_watched, control)),
        Some("screen") => Ok(Progress::Screen),
        Some("lines") => Ok(Progress::Lines),
        Some("none") => Ok(Progress::Nothing),
        Some(_) => Err(Failure::Progress),
    }
}

/// Room for the last lines that a master writes, where a page shows them.
pub(crate) fn recent_of(alloc: Global, progress: Progress) -> Result<Shared, AllocError> {
    Ok(Cell::new(match progress {
        Progress::Screen => Some(Box::new(alloc, Recent::none())?),
        Progress::Nothing | Progress::Lines => None,
    }))
}
