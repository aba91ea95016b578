//! Why an SDO transfer is ended: the abort code (IEC 61158-6-12, SDO abort codes).

ghost use Rattle.std.specs.Prelude.{◌≡◌};
ghost use Rattle.ec_app.specs.AbortCode.{abort_code, abort_code_of};

/// A reason that an abort code tells. Only those are here that an expedited transfer may meet; vendors have
/// more.
#[derive(Clone, Copy, PartialEq, Eq, Debug)]
pub enum AbortCode {
    /// 0x05040001: the command is neither an upload nor a download.
    UnknownCommand,
    /// 0x06010001: the object may not be uploaded.
    ReadOfWriteOnly,
    /// 0x06010002: the object may not be downloaded.
    WriteOfReadOnly,
    /// 0x06020000: there is no object of this index.
    NoObject,
    /// 0x06070010: the value has another length than the object's.
    WrongLength,
    /// 0x06090011: the index has no such subindex.
    NoSubindex,
    /// 0x06090030: the value is outside of the object's range.
    OutOfRange,
    /// 0x08000000: no reason is told.
    General,
    /// 0x08000022: the object is not served in this state.
    WrongState,
}

impl AbortCode {
    /// The reason that a code tells, or `None` where it is none of these.
    pub fn from_code(code: u32) -> Option<AbortCode>
        ensures { result ≡ abort_code_of code }
    {
        match code {
            0x0504_0001 => Some(AbortCode::UnknownCommand),
            0x0601_0001 => Some(AbortCode::ReadOfWriteOnly),
            0x0601_0002 => Some(AbortCode::WriteOfReadOnly),
            0x0602_0000 => Some(AbortCode::NoObject),
            0x0607_0010 => Some(AbortCode::WrongLength),
            0x0609_0011 => Some(AbortCode::NoSubindex),
            0x0609_0030 => Some(AbortCode::OutOfRange),
            0x0800_0000 => Some(AbortCode::General),
            0x0800_0022 => Some(AbortCode::WrongState),
            _ => None,
        }
    }

    /// The code by which an abort tells the reason.
    pub fn code(self) -> u32
        ensures { result ≡ abort_code self }
    {
        match self {
            AbortCode::UnknownCommand => 0x0504_0001,
            AbortCode::ReadOfWriteOnly => 0x0601_0001,
            AbortCode::WriteOfReadOnly => 0x0601_0002,
            AbortCode::NoObject => 0x0602_0000,
            AbortCode::WrongLength => 0x0607_0010,
            AbortCode::NoSubindex => 0x0609_0011,
            AbortCode::OutOfRange => 0x0609_0030,
            AbortCode::General => 0x0800_0000,
            AbortCode::WrongState => 0x0800_0022,
        }
    }

    /// The reason in the standard's words.
    pub fn name(self) -> &'static str {
        match self {
            AbortCode::UnknownCommand => "command specifier not valid or unknown",
            AbortCode::ReadOfWriteOnly => "attempt to read a write only object",
            AbortCode::WriteOfReadOnly => "attempt to write a read only object",
            AbortCode::NoObject => "object does not exist in the object dictionary",
            AbortCode::WrongLength =>
                "data type does not match, length of service parameter does not match",
            AbortCode::NoSubindex => "subindex does not exist",
            AbortCode::OutOfRange => "value range of parameter exceeded",
            AbortCode::General => "general error",
            AbortCode::WrongState => "data cannot be transferred in the present device state",
        }
    }
}
