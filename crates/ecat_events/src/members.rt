//! What is told of a slave and of cycles, as members of objects.

ghost use Rattle.std.specs.Prelude.{◌≡◌};
ghost use Rattle.ecat_events.specs.Members.{state_words};

use ec_regs::AlState;
use ec_run::{Counts, Seen};
use ecat_json::Object;
use std::io;

/// The name of a state (IEC 61158-6-12, AL state machine).
pub(crate) fn state_text(state: AlState) -> &'static str
    ensures { result.now ≡ state_words state }
{
    match state {
        AlState::Init => "Init",
        AlState::PreOp => "Pre-Op",
        AlState::SafeOp => "Safe-Op",
        AlState::Op => "Op",
    }
}

/// Adds what was last seen of a slave: its state, its AL status code, 0 without an error, and whether it
/// answers; null of what is not known.
fn with_seen(object: Object, seen: Option<Seen>) -> io::Result<Object> {
    match seen {
        Some(Seen::In(state)) => {
            let object = object.text("state", state_text(state))?;
            object.number("error", 0)?.truth("answers", true)
        }
        Some(Seen::Error(state, code)) => {
            let object = object.text("state", state_text(state))?;
            object
                .number("error", u64::from(code))?
                .truth("answers", true)
        }
        Some(Seen::Nobody) => {
            let object = object.nothing("state")?.nothing("error")?;
            object.truth("answers", false)
        }
        Some(Seen::Several) => {
            let object = object.nothing("state")?.nothing("error")?;
            object.truth("answers", true)
        }
        Some(Seen::Unheard) | None => {
            let object = object.nothing("state")?.nothing("error")?;
            object.nothing("answers")
        }
    }
}

/// Adds a slave by its place, its station and its name, null where that is empty, and what was last seen of
/// it.
pub(crate) fn with_slave(
    object: Object,
    place: usize,
    station: u16,
    name: &str,
    seen: Option<Seen>,
) -> io::Result<Object> {
    let object = object.number("place", place as u64)?;
    let object = object.number("station", u64::from(station))?;
    with_seen(object.named("name", name)?, seen)
}

/// Adds how many cycles there were, by their ends, and in how many good ones not all slaves were in Op.
pub(crate) fn with_counts(
    object: Object,
    counts: Counts,
    not_in_op: Option<u64>,
) -> io::Result<Object> {
    let object = object.number("cycles", counts.cycles)?;
    let object = object
        .number("good", counts.good)?
        .number("short", counts.short)?;
    let object = object
        .number("over", counts.over)?
        .number("fault", counts.fault)?;
    object.number_if("not_in_op", not_in_op)
}
