//! What can be wrong with a scene.

ghost use Rattle.std.specs.Prelude.{◌≡◌};

use std::alloc::{AllocError, AllocFailed};
use thiserror::Error;

/// What is wrong with a line. Within a line the tests run in this order.
#[derive(Clone, Copy, PartialEq, Eq, Debug, Error)]
pub enum LineFault {
    /// A byte that is no ASCII text: only 0x20 to 0x7E are.
    #[error("NotText")]
    NotText,
    /// The first word is no word of a scene.
    #[error("UnknownWord")]
    UnknownWord,
    /// Too few words, or too many.
    #[error("WrongCount")]
    WrongCount,
    /// The line belongs to a slave, and none was begun.
    #[error("NoSlave")]
    NoSlave,
    /// A number, a row of bytes or a name of another form.
    #[error("BadNumber")]
    BadNumber,
    /// A value outside its field, or outside the memory or the item that it names.
    #[error("OutOfRange")]
    OutOfRange,
    /// More slaves, objects or startup objects of a slave, actions, items, weathers or signals than a scene
    /// may have.
    #[error("TooMany")]
    TooMany,
    /// An object that the slave has already, inputs that its application puts already, or the name of a
    /// signal above.
    #[error("Twin")]
    Twin,
    /// The bytes are no EtherCAT frame.
    #[error("BadFrame")]
    BadFrame,
}

/// Why a text is no scene.
#[derive(Clone, Copy, PartialEq, Eq, Debug, Error)]
pub enum SceneFault {
    /// The text is longer than 65,536 bytes.
    #[error("TooLong")]
    TooLong,
    /// The first faulty line, from 1.
    #[error("line {line}: {fault}")]
    Line {
        /// The number of the line, from 1.
        line: usize,
        /// What is wrong with it.
        fault: LineFault,
    },
    /// Memory ran out.
    #[error("NoMemory")]
    NoMemory,
}

/// Why the reading of one line stops.
#[derive(Clone, Copy)]
pub enum Stop {
    /// The line is at fault.
    Fault(LineFault),
    /// Memory ran out.
    NoMemory,
}

impl From<LineFault> for Stop {
    ghost use Rattle.ecat_scene.specs.declared.fault.Stop.TheVariants.{Fault};

    ghost from_gives = { λ fault stop. stop ≡ Fault fault };

    fn from(fault: LineFault) -> Stop {
        Stop::Fault(fault)
    }
}

impl From<AllocError> for Stop {
    ghost use Rattle.ecat_scene.specs.declared.fault.Stop.TheVariants.{NoMemory};

    ghost from_gives = { λ _ stop. stop ≡ NoMemory };

    fn from(_failed: AllocError) -> Stop {
        Stop::NoMemory
    }
}

impl<T: Drop> From<AllocFailed<T>> for Stop {
    ghost use Rattle.ecat_scene.specs.declared.fault.Stop.TheVariants.{NoMemory};

    ghost from_gives = { λ _ stop. stop ≡ NoMemory };

    fn from(_failed: AllocFailed<T>) -> Stop {
        Stop::NoMemory
    }
}
