//! What lines come to that read or ask.

ghost use Rattle.std.specs.Prelude.{◌≡◌, false};
ghost use Rattle.ecat_control.specs.Set.{is_set};

use crate::answer::Answer;
use crate::asking::Asking;
use crate::held::Outputs;
use crate::refusal::{Fault, Refusal};
use crate::request::{GET, Part, Request};
use ecat_master::Asked;

/// What is taken of who may read and ask alone.
const READS: &str = "get, signals, slaves, cable, counts, times, sdo, state or acknowledge";

/// What a line comes to that reads or asks, where outputs are of these items: a slave is asked, unless one is
/// already. A line that sets outputs or ends the master is refused.
pub fn read_answer(request: Request, outputs: &Outputs, asking: &mut Asking) -> Answer
    ensures { is_set result ≡ false }
{
    match request {
        Request::Nothing => Answer::Done,
        Request::Get(part) => match refused(part, outputs) {
            None => Answer::Get(part),
            Some(fault) => Answer::Refused(Refusal { fault, wanted: GET }),
        },
        Request::GetSignal(place) => Answer::GetSignal(place),
        Request::Signals => Answer::Signals,
        Request::Slaves => Answer::Slaves,
        Request::Cable => Answer::Cable,
        Request::Counts => Answer::Counts,
        Request::Times => Answer::Times,
        Request::Ask(asked) => ask_slave(asked, asking),
        Request::Set | Request::Leave(_) | Request::Quit => Answer::Refused(Refusal {
            fault: Fault::NotHere,
            wanted: READS,
        }),
    }
}

/// Has a slave asked for something, unless one is already.
fn ask_slave(asked: Asked, asking: &mut Asking) -> Answer
    ensures { is_set result ≡ false }
{
    if asking.is_busy() {
        return Answer::Refused(Refusal {
            fault: Fault::Busy,
            wanted: "one of sdo, state and acknowledge at a time",
        });
    }
    *asking = Asking::Waits(asked);
    Answer::Later
}

/// Why bytes cannot be got, if they cannot.
fn refused(part: Part, outputs: &Outputs) -> Option<Fault> {
    let Some(length) = outputs.length_of(part.item) else {
        return Some(Fault::NoItem);
    };
    match part.run {
        Some((offset, count)) if offset > length || count > length - offset => {
            Some(Fault::OutOfRange)
        }
        _ => None,
    }
}
