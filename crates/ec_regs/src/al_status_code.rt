//! Why a slave refuses a state, or left one: the AL status code (IEC 61158-6-12, AL status codes).

ghost use Rattle.std.specs.Prelude.{◌≡◌};
ghost use Rattle.ec_regs.specs.AlStatusCode.{al_status_code, al_status_code_of};

/// A reason that the AL status code tells. Only those are here that concern states, mailboxes and process
/// data; vendors have more.
#[derive(Clone, Copy, PartialEq, Eq, Debug)]
pub enum AlStatusCode {
    /// 0x0001: no reason is told.
    UnspecifiedError,
    /// 0x0011: the state is more than one step up.
    InvalidStateChange,
    /// 0x0012: the code that was asked for is none of a state.
    UnknownState,
    /// 0x0013: the slave has no Bootstrap.
    BootstrapNotSupported,
    /// 0x0016: the mailboxes are not those of Pre-Op.
    InvalidMailboxConfiguration,
    /// 0x0017: a sync manager is not as the application needs it.
    InvalidSyncManagerConfiguration,
    /// 0x0018: there are no valid inputs.
    NoValidInputs,
    /// 0x0019: there are no valid outputs.
    NoValidOutputs,
    /// 0x001B: outputs came too late.
    SyncManagerWatchdog,
    /// 0x001D: the area of the outputs is not as the application needs it.
    InvalidOutputConfiguration,
    /// 0x001E: the area of the inputs is not as the application needs it.
    InvalidInputConfiguration,
}

impl AlStatusCode {
    /// The reason that a code tells, or `None` where it is none of these.
    pub fn from_code(code: u16) -> Option<AlStatusCode>
        ensures { result ≡ al_status_code_of code }
    {
        match code {
            0x0001 => Some(AlStatusCode::UnspecifiedError),
            0x0011 => Some(AlStatusCode::InvalidStateChange),
            0x0012 => Some(AlStatusCode::UnknownState),
            0x0013 => Some(AlStatusCode::BootstrapNotSupported),
            0x0016 => Some(AlStatusCode::InvalidMailboxConfiguration),
            0x0017 => Some(AlStatusCode::InvalidSyncManagerConfiguration),
            0x0018 => Some(AlStatusCode::NoValidInputs),
            0x0019 => Some(AlStatusCode::NoValidOutputs),
            0x001B => Some(AlStatusCode::SyncManagerWatchdog),
            0x001D => Some(AlStatusCode::InvalidOutputConfiguration),
            0x001E => Some(AlStatusCode::InvalidInputConfiguration),
            _ => None,
        }
    }

    /// The code by which AL status tells the reason.
    pub fn code(self) -> u16
        ensures { result ≡ al_status_code self }
    {
        match self {
            AlStatusCode::UnspecifiedError => 0x0001,
            AlStatusCode::InvalidStateChange => 0x0011,
            AlStatusCode::UnknownState => 0x0012,
            AlStatusCode::BootstrapNotSupported => 0x0013,
            AlStatusCode::InvalidMailboxConfiguration => 0x0016,
            AlStatusCode::InvalidSyncManagerConfiguration => 0x0017,
            AlStatusCode::NoValidInputs => 0x0018,
            AlStatusCode::NoValidOutputs => 0x0019,
            AlStatusCode::SyncManagerWatchdog => 0x001B,
            AlStatusCode::InvalidOutputConfiguration => 0x001D,
            AlStatusCode::InvalidInputConfiguration => 0x001E,
        }
    }

    /// The reason in the standard's words.
    pub fn name(self) -> &'static str {
        match self {
            AlStatusCode::UnspecifiedError => "unspecified error",
            AlStatusCode::InvalidStateChange => "invalid requested state change",
            AlStatusCode::UnknownState => "unknown requested state",
            AlStatusCode::BootstrapNotSupported => "bootstrap not supported",
            AlStatusCode::InvalidMailboxConfiguration => "invalid mailbox configuration",
            AlStatusCode::InvalidSyncManagerConfiguration => "invalid sync manager configuration",
            AlStatusCode::NoValidInputs => "no valid inputs available",
            AlStatusCode::NoValidOutputs => "no valid outputs",
            AlStatusCode::SyncManagerWatchdog => "sync manager watchdog",
            AlStatusCode::InvalidOutputConfiguration => "invalid output configuration",
            AlStatusCode::InvalidInputConfiguration => "invalid input configuration",
        }
    }
}
