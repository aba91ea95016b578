//! The words for states, faults and steps, as they are printed.

use ec_app::AbortCode;
use ec_diag::Located;
use ec_regs::{AlState, AlStatusCode};
use ec_run::{StartupObject, Step, StepFault, Wanted, startup_number};
use ec_services::MasterFault;
use ecat_text::{Lines, put_break, put_swapped};
use std::io::{self, Write};

/// How many microseconds a second has, and a millisecond.
const SECOND: u64 = 1_000_000;

const MILLISECOND: u64 = 1_000;

/// Puts microseconds in seconds, to the millisecond.
pub(crate) fn put_seconds<W: Write>(micros: u64, lines: &mut Lines<'_, W>) -> io::Result<()> {
    let seconds = micros / SECOND;
    let milliseconds = micros % SECOND / MILLISECOND;
    lines.text(format_args!("{seconds}.{milliseconds:03} s"))
}

/// Puts so many cycles.
pub(crate) fn put_cycles<W: Write>(count: u64, lines: &mut Lines<'_, W>) -> io::Result<()> {
    let cycles = if count == 1 { "cycle" } else { "cycles" };
    lines.text(format_args!("{count} {cycles}"))
}

/// The name of a state (IEC 61158-6-12, AL state machine).
pub fn state_name(state: AlState) -> &'static str {
    match state {
        AlState::Init => "Init",
        AlState::PreOp => "Pre-Op",
        AlState::SafeOp => "Safe-Op",
        AlState::Op => "Op",
    }
}

/// Puts the AL status code of a refusal, and its name where it has one.
pub fn put_code<W: Write>(code: u16, lines: &mut Lines<'_, W>) -> io::Result<()> {
    lines.text(format_args!("0x{code:04x}"))?;
    match AlStatusCode::from_code(code) {
        Some(reason) => put_name(reason.name(), lines),
        None => Ok(()),
    }
}

/// Puts the code of an abort, and its name where it has one.
fn put_abort<W: Write>(code: u32, lines: &mut Lines<'_, W>) -> io::Result<()> {
    lines.text(format_args!("abort 0x{code:08x}"))?;
    match AbortCode::from_code(code) {
        Some(reason) => put_name(reason.name(), lines),
        None => Ok(()),
    }
}

/// Puts the name of a code behind it.
fn put_name<W: Write>(name: &str, lines: &mut Lines<'_, W>) -> io::Result<()> {
    lines.text(format_args!(" {name}"))
}

/// Puts why a service has no result.
pub fn put_fault<W: Write>(fault: MasterFault, lines: &mut Lines<'_, W>) -> io::Result<()> {
    match fault {
        MasterFault::Refused(code) => {
            lines.text("refused ")?;
            put_code(code, lines)
        }
        MasterFault::Abort(code) => lines.text(format_args!("abort 0x{code:08x}")),
        MasterFault::NoSlave => lines.text("NoSlave"),
        MasterFault::NoAnswer => lines.text("NoAnswer"),
        MasterFault::BadAnswer => lines.text("BadAnswer"),
        MasterFault::Broken => lines.text("Broken"),
        MasterFault::Port => lines.text("Port"),
        MasterFault::Stranger => lines.text("Stranger"),
    }
}

/// Puts what a step does with a slave that is to be told this.
fn put_step<W: Write>(step: Step, wanted: &Wanted, lines: &mut Lines<'_, W>) -> io::Result<()> {
    match step {
        Step::Station | Step::StationBehind(_) | Step::StationBefore => lines.text("station"),
        Step::SyncManager(number) => lines.text(format_args!("sync manager {number}")),
        Step::Fmmu(number) => lines.text(format_args!("FMMU {number}")),
        Step::Startup(number) => match wanted.startup_object(startup_number(number)) {
            Some(StartupObject { index, sub, .. }) => {
                lines.text(format_args!("startup object 0x{index:04x}:{sub}"))
            }
            None => lines.text(format_args!("startup object {number}")),
        },
        Step::State(state) => lines.text(state_name(state)),
    }
}

/// Puts why a step failed. Where a startup object found no slave to be written to, it has no mailboxes.
fn put_step_reason<W: Write>(fault: &StepFault, lines: &mut Lines<'_, W>) -> io::Result<()> {
    match (fault.step, fault.fault) {
        (Step::Startup(_), MasterFault::NoSlave) => lines.text("no mailboxes"),
        (Step::Startup(_), MasterFault::Abort(code)) => put_abort(code, lines),
        _ => put_fault(fault.fault, lines),
    }
}

/// Puts why a slave could not be brought up that is to be told this.
pub fn put_step_fault<W: Write>(
    fault: &StepFault,
    wanted: &Wanted,
    lines: &mut Lines<'_, W>,
) -> io::Result<()> {
    lines.slave(usize::from(fault.place), fault.station)?;
    lines.text(": ")?;
    put_step(fault.step, wanted, lines)?;
    lines.text(": ")?;
    put_step_reason(fault, lines)
}

/// Puts where the cable of a line is broken and who is cut off, as far as it is known.
pub fn put_cable<W: Write>(
    located: Located,
    line: &[Wanted],
    lines: &mut Lines<'_, W>,
) -> io::Result<()> {
    match located {
        Located::Whole => lines.text("ring whole"),
        _ => put_break(located, line, lines),
    }
}

/// Puts what a look at the cable of a line found: where it is broken; or that the ports are swapped, where no
/// one set of links gives its copies and those of the frames before it were such.
pub(crate) fn put_look<W: Write>(
    located: Located,
    swapped: bool,
    line: &[Wanted],
    lines: &mut Lines<'_, W>,
) -> io::Result<()> {
    match located {
        Located::Changed if swapped => put_swapped(lines),
        _ => put_cable(located, line, lines),
    }
}
