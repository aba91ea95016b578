//! What a slave is asked for by a line, and what came of it.

use ec_acyclic::{Answer as ServiceAnswer, Service};
use ec_services::MasterFault;
use ecat_master::Asked;
use ecat_text::{FaultText, Lines, ValueText};
use std::fmt;
use std::io::{self, Write};

/// How far it is with what a line asked a slave for.
#[derive(Clone, Copy)]
pub enum Asking {
    /// Nothing is asked.
    Nothing,
    /// The master has not begun.
    Waits(Asked),
    /// The master is at it.
    UnderWay(Asked),
    /// It is to be told what came of it.
    Ended(Asked, Result<ServiceAnswer, MasterFault>),
}

impl Asking {
    /// Has a line asked for something that is not told yet?
    pub fn is_busy(&self) -> bool {
        !matches!(self, Asking::Nothing)
    }

    /// What the master is to begin with, if anything is.
    pub fn begin(&mut self) -> Option<Asked> {
        let Asking::Waits(asked) = *self else {
            return None;
        };
        *self = Asking::UnderWay(asked);
        Some(asked)
    }

    /// Takes what came of it.
    pub fn end(&mut self, told: Result<ServiceAnswer, MasterFault>) {
        if let Asking::Waits(asked) | Asking::UnderWay(asked) = *self {
            *self = Asking::Ended(asked, told);
        }
    }

    /// Writes what came of it, once, where it is at its end.
    pub fn put<W: Write>(&mut self, lines: &mut Lines<'_, W>) -> io::Result<()> {
        let Asking::Ended(asked, told) = *self else {
            return Ok(());
        };
        *self = Asking::Nothing;
        match told {
            Ok(answer) => put_done(asked, answer, lines),
            Err(fault) => put_failed(asked, fault, lines),
        }
    }
}

/// Writes what a slave answered, and `ok`.
fn put_done<W: Write>(
    asked: Asked,
    answer: ServiceAnswer,
    lines: &mut Lines<'_, W>,
) -> io::Result<()> {
    lines.text(AskedText(asked))?;
    match answer {
        ServiceAnswer::Value(value) => {
            lines.text(" ")?;
            lines.text(ValueText(value))?;
        }
        ServiceAnswer::Written => lines.text(" written")?,
        ServiceAnswer::In(state) => {
            let state = state.code();
            lines.text(format_args!(" state {state}"))?;
        }
    }
    lines.end()?;
    lines.text("ok")?;
    lines.end()
}

/// Writes why it was not done.
fn put_failed<W: Write>(
    asked: Asked,
    fault: MasterFault,
    lines: &mut Lines<'_, W>,
) -> io::Result<()> {
    lines.text("failed: ")?;
    lines.text(AskedText(asked))?;
    match fault {
        MasterFault::Refused(code) => lines.text(format_args!(" error 0x{code:04x}"))?,
        fault => {
            lines.text(" ")?;
            lines.text(FaultText(fault))?;
        }
    }
    lines.end()
}

/// What a slave is asked for, as it is told with the answer.
#[derive(Drop)]
struct AskedText(Asked);

impl fmt::Display for AskedText {
    fn fmt<W: fmt::Write>(&self, f: &mut fmt::Formatter<W>) -> fmt::Result {
        let station = self.0.station;
        match self.0.service {
            Service::Read { index, sub } | Service::Write { index, sub, .. } => {
                write!(f, "sdo 0x{station:04x} 0x{index:04x} {sub}")
            }
            Service::State(_) => write!(f, "state 0x{station:04x}"),
            Service::Acknowledge => write!(f, "acknowledge 0x{station:04x}"),
        }
    }
}
