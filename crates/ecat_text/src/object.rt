//! What is printed of an object that is read or written by mail.

ghost use Rattle.std.specs.Prelude.{◌≡◌, IfOk, Some};
ghost use Rattle.ecat_text.specs.Objects.{fault_words, trips_words, value_words};

use crate::lines::Lines;
use crate::status::{GOOD, REFUSED};
use ec_app::Value;
use ec_services::MasterFault;
use std::fmt;
use std::io::{self, Write};

/// Prints what came of an object that was read, and answers the exit status.
pub fn print_read<W: Write>(
    read: Result<Value, MasterFault>,
    lines: &mut Lines<'_, W>,
) -> io::Result<u8> {
    match read {
        Ok(value) => print_line(ValueText(value), GOOD, lines),
        Err(fault) => print_line(FaultText(fault), REFUSED, lines),
    }
}

/// Prints what came of an object that was written, and answers the exit status.
pub fn print_written<W: Write>(
    written: Result<(), MasterFault>,
    lines: &mut Lines<'_, W>,
) -> io::Result<u8> {
    match written {
        Ok(()) => print_line("written", GOOD, lines),
        Err(fault) => print_line(FaultText(fault), REFUSED, lines),
    }
}

/// A value as it is printed, with two digits for each of its bytes.
#[derive(Drop)]
pub struct ValueText(pub Value);

impl fmt::Display for ValueText {
    ghost output = { λ text. Some (value_words text.0) };

    fn fmt<W: fmt::Write>(&self, f: &mut fmt::Formatter<W>) -> fmt::Result {
        match self.0 {
            Value::One(number) => write!(f, "value 0x{number:02x}"),
            Value::Two(number) => write!(f, "value 0x{number:04x}"),
            Value::Four(number) => write!(f, "value 0x{number:08x}"),
        }
    }
}

/// Why there is no result, as it is printed.
#[derive(Drop)]
pub struct FaultText(pub MasterFault);

impl fmt::Display for FaultText {
    ghost output = { λ text. Some (fault_words text.0) };

    fn fmt<W: fmt::Write>(&self, f: &mut fmt::Formatter<W>) -> fmt::Result {
        match self.0 {
            MasterFault::Abort(code) => write!(f, "abort 0x{code:08x}"),
            MasterFault::NoSlave => write!(f, "fault NoSlave"),
            MasterFault::Refused(_) => write!(f, "fault Refused"),
            MasterFault::NoAnswer => write!(f, "fault NoAnswer"),
            MasterFault::BadAnswer => write!(f, "fault BadAnswer"),
            MasterFault::Broken => write!(f, "fault Broken"),
            MasterFault::Port => write!(f, "fault Port"),
            MasterFault::Stranger => write!(f, "fault Stranger"),
        }
    }
}

/// How many trips were made, as it is printed.
#[derive(Drop)]
pub struct TripsText(pub u32);

impl fmt::Display for TripsText {
    ghost output = { λ text. Some (trips_words text.0) };

    #[tactic(auto, unfolding(crate::specs::Objects::trips_words))]
    fn fmt<W: fmt::Write>(&self, f: &mut fmt::Formatter<W>) -> fmt::Result {
        let made = self.0;
        write!(f, "trips {made}")
    }
}

/// Prints a line, and answers the status that is handed to it.
pub fn print_line<T: fmt::Display + Drop, W: Write>(
    text: T,
    status: u8,
    lines: &mut Lines<'_, W>,
) -> io::Result<u8>
    ensures { IfOk result (λ answer. answer ≡ status) }
{
    lines.text(text)?;
    lines.end()?;
    Ok(status)
}
