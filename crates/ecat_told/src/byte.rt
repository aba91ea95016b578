//! What is told of one byte of a register, and what a datagram does with it.

ghost use Rattle.std.specs.Prelude.{◌≡◌};
ghost use Rattle.std.specs.Option.{option_copied};
ghost use Rattle.ecat_told.specs.Registers.{byte_after, gate_by};
ghost use Rattle.ecat_told.specs.Slave.{value_of};

/// What is told of one byte.
#[derive(Clone, Copy, PartialEq, Eq, Debug)]
pub enum Byte {
    /// Nothing.
    Untold,
    /// A write of it was lost, so that it has its old value or the new one.
    Lost,
    /// It should have this value.
    Guessed(u8),
    /// It has this value: it was read, or written and counted.
    Told(u8),
}

/// May a master write a byte?
#[derive(Clone, Copy, PartialEq, Eq, Debug)]
pub enum Gate {
    /// It may.
    Open,
    /// It may if the sync manager is off, which is not told.
    Perhaps,
    /// It may not.
    Shut,
}

/// What a datagram did with the bytes that it carries.
#[derive(Clone, Copy, PartialEq, Eq, Debug)]
pub enum How {
    /// They were read.
    Read,
    /// They were written.
    Written,
    /// They should have been written: not each slave counted.
    MayBeWritten,
    /// It is not told whether they were written.
    Lost,
}

/// Bit 0 of a sync manager's activate byte: it is enabled (IEC 61158-4-12, sync manager entity).
const ENABLED: u8 = 0x01;

impl Byte {
    /// Its value, whether it is sure or not.
    pub fn value(self) -> Option<u8>
        ensures { result ≡ value_of self }
    {
        match self {
            Byte::Untold | Byte::Lost => None,
            Byte::Guessed(value) | Byte::Told(value) => Some(value),
        }
    }

    /// Where this is told of the activate byte of a sync manager: may the first five bytes of its record be
    /// written?
    pub(crate) fn gate(self) -> Gate
        ensures { result ≡ gate_by self }
    {
        match self {
            Byte::Untold | Byte::Lost => Gate::Perhaps,
            Byte::Guessed(value) => {
                if value & ENABLED == ENABLED {
                    Gate::Shut
                } else {
                    Gate::Perhaps
                }
            }
            Byte::Told(value) => {
                if value & ENABLED == ENABLED {
                    Gate::Shut
                } else {
                    Gate::Open
                }
            }
        }
    }

    /// What is told of it behind a datagram that carries this value.
    pub(crate) fn after(self, how: How, gate: Gate, value: u8) -> Byte
        ensures { result ≡ byte_after how gate value self }
    {
        match how {
            How::Read => Byte::Told(value),
            How::Written => match gate {
                Gate::Open => Byte::Told(value),
                Gate::Perhaps => Byte::Guessed(value),
                Gate::Shut => self,
            },
            How::MayBeWritten => match gate {
                Gate::Open | Gate::Perhaps => Byte::Guessed(value),
                Gate::Shut => self,
            },
            How::Lost => match gate {
                Gate::Open | Gate::Perhaps => Byte::Lost,
                Gate::Shut => self,
            },
        }
    }
}
