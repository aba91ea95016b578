//! Why the packet sockets that the program was started with are of no use.

ghost use Rattle.std.specs.Prelude.{Some};
ghost use Rattle.ecat_acts.specs.Raw.{raw_fault_words};

use ecat_raw::RawFault;
use ecat_text::PortText;
use std::fmt;

/// Why packet sockets are of no use, as it is printed.
#[derive(Drop)]
pub struct RawFaultText(pub RawFault);

impl fmt::Display for RawFaultText {
    ghost output = { λ text. Some (raw_fault_words text.0) };

    fn fmt<W: fmt::Write>(&self, f: &mut fmt::Formatter<W>) -> fmt::Result {
        match self.0 {
            RawFault::NotOpen(at) => {
                let at = PortText(at);
                write!(f, "nothing is open for end {at}")
            }
            RawFault::NoPacketSocket(at) => {
                let at = PortText(at);
                write!(f, "no packet socket for end {at}")
            }
            RawFault::NotBound(at) => {
                let at = PortText(at);
                write!(f, "no packet socket of type 0x88A4 for end {at}")
            }
            RawFault::Twice => write!(f, "both ends have one descriptor"),
            RawFault::NotWatched => write!(f, "no wait for packets"),
            RawFault::NoMemory => write!(f, "NoMemory"),
        }
    }
}
