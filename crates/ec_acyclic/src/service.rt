//! What is asked of a slave, and what it answers.

use ec_app::Value;
use ec_regs::AlState;

/// What is asked of a slave beside the cycles.
#[derive(Clone, Copy, PartialEq, Eq, Debug)]
pub enum Service {
    /// An object is read by its index and subindex (IEC 61158-6-12, SDO upload, expedited).
    Read { index: u16, sub: u8 },
    /// A value is written to an object (IEC 61158-6-12, SDO download, expedited).
    Write { index: u16, sub: u8, value: Value },
    /// The slave is asked for a state, and an error that stands is acknowledged by that (IEC 61158-6-12, AL
    /// management).
    State(AlState),
    /// The slave's error is acknowledged in the state that it is in (IEC 61158-6-12, AL management).
    Acknowledge,
}

/// What a slave answers to a [`Service`].
#[derive(Clone, Copy, PartialEq, Eq, Debug)]
pub enum Answer {
    /// The object held this value, at some time while it was asked.
    Value(Value),
    /// The slave has stored the value, at least once.
    Written,
    /// The slave is in this state: in the one that it was asked for; or, where its error was acknowledged,
    /// without an error in this one.
    In(AlState),
}
