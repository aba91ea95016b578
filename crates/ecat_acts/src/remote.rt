//! A line that lies somewhere else: how the words say that it is reached, and how long they wait for it.

ghost use Rattle.std.specs.Prelude.{◌≡◌, None, Ok, Some};
ghost use Rattle.std.specs.Option.{unwrap_or};
ghost use Rattle.ec_regs.specs.declared.al.AlState.TheVariants.{Init};
ghost use Rattle.ecat_acts.specs.Failures.{unreached, unscanned};

use crate::failure::Failure;
use ec_regs::AlState;
use ec_ring::{Port, PortHealth};
use ecat_master::ScanEnd;
use ecat_raw::descriptors_of;
use ecat_reach::{Reach, ReachFault};
use ecat_remote::ends_of;
use ecat_setup::LineFailure;
use ecat_text::{PortText, SystemError};
use std::io::Write;

/// How long a trip waits for its copies where the words don't say, in microseconds.
const LIMIT: u32 = 20_000;

/// How many microseconds a trip waits for its copies, as a word says: 20,000 where there is none.
pub fn patience(limit: Option<u32>) -> u64
    ensures { result ≡ unwrap_or limit 20000 }
{
    u64::from(limit.unwrap_or(LIMIT))
}

/// Tells of `--late` that it has no effect any more, where it is given. A fault of that line is passed over.
pub fn tell_late<V: Write>(late: Option<u32>, err: &mut V) {
    if late.is_some() {
        let _ = err.write_all(
            b"--late has no effect: no number is used twice, so none is waited for\n",
        );
    }
}

/// The state in which slaves are left that a word names: Init where there is none, and as they are where it
/// names Op.
pub fn left_in(word: Option<&str>) -> Result<Option<AlState>, Failure>
    ensures usual { word.entry ≡ None → result ≡ Ok (Some Init) }
{
    match word {
        None | Some("init") => Ok(Some(AlState::Init)),
        Some("pre-op") => Ok(Some(AlState::PreOp)),
        Some("safe-op") => Ok(Some(AlState::SafeOp)),
        Some("op") => Ok(None),
        Some(_) => Err(Failure::State),
    }
}

/// How the words say that a line somewhere else is reached: in one of both ways.
pub fn reach_of<'a>(at: Option<&'a str>, raw: Option<&'a str>) -> Result<Reach<'a>, Failure> {
    match (at, raw) {
        (Some(at), None) if are_ends(at) => Ok(Reach::At(at)),
        (Some(_), None) => Err(Failure::At),
        (None, Some(raw)) => match descriptors_of(raw) {
            Some(descriptors) => Ok(Reach::Raw(descriptors)),
            None => Err(Failure::Descriptors),
        },
        _ => Err(Failure::Reach),
    }
}

/// Does a text name the end of a line, or both with a comma between, each as `HOST:PORT`?
fn are_ends(at: &str) -> bool {
    let ends = ends_of(at);
    is_end(ends.a) && ends.b.is_none_or(is_end)
}

/// Does a text name a host and a port from 1 to 65535?
pub(crate) fn is_end(end: &str) -> bool {
    match end.rsplit_once(':') {
        Some((host, port)) => !host.is_empty() && port.parse::<u16>().is_ok_and(|port| port != 0),
        None => false,
    }
}

impl From<ReachFault> for Failure {
    fn from(fault: ReachFault) -> Failure
        ensures { result ≡ unreached fault }
    {
        match fault {
            ReachFault::Remote(fault) => Failure::Remote(fault),
            ReachFault::Raw(fault) => Failure::Raw(fault),
            ReachFault::Clock => Failure::Clock,
        }
    }
}

impl From<ScanEnd> for Failure {
    fn from(end: ScanEnd) -> Failure
        ensures { result ≡ unscanned end }
    {
        match end {
            ScanEnd::Output => Failure::Line(LineFailure::Output),
            ScanEnd::Ask(fault) => Failure::Asked(fault),
        }
    }
}

/// Tells which ports fail, by the system's words. A fault of such a line is passed over.
pub fn tell_failing<V: Write>(a: PortHealth, b: PortHealth, err: &mut V) {
    for (port, health) in [(Port::A, a), (Port::B, b)] {
        if let Some(error) = health.error {
            let (port, error) = (PortText(port), SystemError(error));
            let _ = writeln!(err, "port {port} failed ({error})");
        }
    }
}
