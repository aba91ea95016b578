//! The text of a scene, and the scene of a command on a line that packets reach.

ghost use Rattle.std.specs.Prelude.{◌≡◌};
ghost use Rattle.ecat_setup.specs.Failures.{unread};
ghost use Rattle.ecat_setup.specs.Packets.{for_packets, is_for_run_alone};

use crate::failure::LineFailure;
use ecat_scene::{MAX_TEXT, Scene, SceneFault, to_first_edition};
use ecat_source::{ReadAllFault, Source, read_all};
use std::alloc::Global;

/// Reads the text of a scene, which the source holds whole, as one of the first edition.
pub fn text_of<S: Source>(alloc: Global, source: &mut S) -> Result<Vec<u8>, LineFailure> {
    match read_all(alloc, source, MAX_TEXT) {
        Ok(mut text) => {
            to_first_edition(text.as_mut_slice());
            Ok(text)
        }
        Err(fault) => Err(unread(fault)),
    }
}

/// Why a source could not be read to its end.
pub fn unread(fault: ReadAllFault) -> LineFailure
    ensures { result ≡ unread fault }
{
    match fault {
        ReadAllFault::TooLong => LineFailure::Scene(SceneFault::TooLong),
        ReadAllFault::Read => LineFailure::Read,
        ReadAllFault::NoMemory => LineFailure::NoMemory,
    }
}

/// Is a scene for `run` alone? It is where it has actions or weathers, for which there are no packets.
pub fn is_for_run_alone(scene: &Scene) -> bool
    ensures { result ≡ is_for_run_alone scene.now }
{
    !scene.actions.is_empty() || !scene.weathers.is_empty()
}

/// The scene of a command on a line that packets reach, unless it is for `run` alone.
pub fn for_packets(scene: Scene) -> Result<Scene, LineFailure>
    ensures { result ≡ for_packets scene }
{
    if is_for_run_alone(&scene) {
        Err(LineFailure::Actions)
    } else {
        Ok(scene)
    }
}
