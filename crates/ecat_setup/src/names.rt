//! The names of the slaves of a scene, as messages tell them.

ghost use Rattle.std.specs.Prelude.{◌≡◌, IfOk};
ghost use Rattle.std.specs.String.{string_bytes};
ghost use Rattle.ecat_scene.specs.Words.{text_in};

use crate::failure::LineFailure;
use ecat_scene::{SceneSlave, text_of};
use std::alloc::{AllocError, Global};

/// The names of the slaves that a scene describes, by their places; an empty one where a slave has none.
pub fn names_of(alloc: Global, described: &[SceneSlave]) -> Result<Vec<String>, LineFailure> {
    let mut names = Vec::new(alloc);
    for slave in described {
        let Ok(name) = name_of(alloc, slave) else {
            return Err(LineFailure::NoMemory);
        };
        if names.push(name).is_err() {
            return Err(LineFailure::NoMemory);
        }
    }
    Ok(names)
}

/// The name of a slave that a scene describes.
fn name_of(alloc: Global, described: &SceneSlave) -> Result<String, AllocError>
    ensures { IfOk result (λ name. string_bytes name ≡ text_in described.now.name.items) }
{
    let mut name = String::new(alloc);
    name.push_str(text_of(described.name.as_slice()))?;
    Ok(name)
}
