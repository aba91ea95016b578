//! The state of the application layer, and the byte of AL status that tells it (IEC 61158-6-12, AL
//! management).

ghost use Rattle.std.specs.Prelude.{⊤, ◌≡◌, [], ◌∷◌, codes};
ghost use Rattle.ec_regs.specs.Al.{code_of, state_of, status_byte, status_of, acknowledges};

use bitflags::{Flag, Flags, bitflag_items};

/// The state in the lowest four bits of AL status and AL control.
const STATE_MASK: u8 = 0x0F;

/// The flags of the low byte of AL status and of AL control (IEC 61158-6-12), which stand above the state.
#[derive(Clone, Copy, PartialEq, Eq, Debug)]
pub struct AlBits(u8);

bitflag_items! {
    impl AlBits: u8 {
        /// Of AL status: an error stands.
        const ERROR = 0x10;
        /// Of AL control: the master acknowledges the error.
        const ACKNOWLEDGE = 0x10;
    }
}

impl Flags for AlBits {
    type Bits = u8;

    ghost exact = { ⊤ };

    ghost table = { (codes "ERROR", 0x10) ∷ (codes "ACKNOWLEDGE", 0x10) ∷ [] };

    ghost set_of = { λ flags. flags.0 };

    fn flags<'a>() -> &'a [Flag<AlBits>] {
        AlBits::FLAGS
    }

    fn bits(&self) -> u8 {
        self.0
    }

    fn from_bits_retain(bits: u8) -> AlBits {
        AlBits(bits)
    }
}

/// A state of the EtherCAT state machine (IEC 61158-6-12, AL state machine); Bootstrap is left out.
#[derive(Clone, Copy, PartialEq, Eq, Debug)]
pub enum AlState {
    /// Code 1: no communication of the application.
    Init,
    /// Code 2: mailboxes work, no process data.
    PreOp,
    /// Code 4: inputs are valid, outputs stay in their safe state.
    SafeOp,
    /// Code 8: inputs and outputs are valid.
    Op,
}

impl AlState {
    /// The state with a code, or `None` where the code is not 1, 2, 4 or 8.
    pub fn from_code(code: u8) -> Option<AlState>
        ensures { result ≡ state_of code }
    {
        match code {
            1 => Some(AlState::Init),
            2 => Some(AlState::PreOp),
            4 => Some(AlState::SafeOp),
            8 => Some(AlState::Op),
            _ => None,
        }
    }

    /// The code of the state: 1, 2, 4 or 8.
    pub fn code(self) -> u8
        ensures { result ≡ code_of self }
    {
        match self {
            AlState::Init => 1,
            AlState::PreOp => 2,
            AlState::SafeOp => 4,
            AlState::Op => 8,
        }
    }
}

impl AlState {
    ghost use Rattle.std.specs.Prelude.{◌+◌};

    /// The low byte of AL control that asks for the state and acknowledges an error that stands.
    pub fn acknowledging_request(self) -> u8
        ensures { result ≡ code_of self + 16 }
    {
        self.code() + AlBits::ACKNOWLEDGE.bits()
    }
}

/// Does the low byte of AL control acknowledge an error?
pub fn acknowledges(control: u8) -> bool
    ensures { result ≡ acknowledges control }
{
    AlBits::from_bits_retain(control).contains(AlBits::ACKNOWLEDGE)
}

/// What the low byte of AL status tells (IEC 61158-6-12, AL status).
#[derive(Clone, Copy, PartialEq, Eq, Debug)]
pub struct AlStatus {
    /// The state that the slave is in.
    pub state: AlState,
    /// Does an error stand that the master has not acknowledged?
    pub error: bool,
}

impl AlStatus {
    /// The low byte of AL status: bits 0 to 3 are the state's code, bit 4 is the error.
    pub fn byte(&self) -> u8
        ensures { result ≡ status_byte self.now }
    {
        let mut byte = AlBits::from_bits_retain(self.state.code());
        byte.set(AlBits::ERROR, self.error);
        byte.bits()
    }

    /// The status that a low byte of AL status tells. Bits 0 to 3 that are no state's code read as Init,
    /// though the AL status of a controller never holds such; bits 5 to 7 have no meaning.
    pub fn of_byte(byte: u8) -> AlStatus
        ensures { result ≡ status_of byte }
    {
        AlStatus {
            state: AlState::from_code(byte & STATE_MASK).unwrap_or(AlState::Init),
            error: AlBits::from_bits_retain(byte).contains(AlBits::ERROR),
        }
    }
}

/// Law: the byte of a status tells that status.
pub fn byte_tells_its_status(status: AlStatus)
    ensures { status_of (status_byte status) ≡ status }
{}
