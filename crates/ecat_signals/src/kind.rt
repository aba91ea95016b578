//! What the bits of a signal are.

ghost use Rattle.std.specs.Prelude.{◌≡◌, Some};
ghost use Rattle.ecat_signals.specs.Signals.{has_sign, is_row, kind_word, takes};

use std::fmt;

/// What the bits of a signal are.
#[derive(Clone, Copy, PartialEq, Eq, Debug)]
pub enum SignalKind {
    /// `bool`: one bit.
    Bool,
    /// `u8`: a number without a sign, of 1 to 8 bits.
    U8,
    /// `i8`: a number with a sign, of 1 to 8 bits.
    I8,
    /// `u16`: a number without a sign, of 1 to 16 bits.
    U16,
    /// `i16`: a number with a sign, of 1 to 16 bits.
    I16,
    /// `u32`: a number without a sign, of 1 to 32 bits.
    U32,
    /// `i32`: a number with a sign, of 1 to 32 bits.
    I32,
    /// `f32`: a number with a binary point, of 32 bits (IEEE 754, binary32).
    F32,
    /// `raw`: whole bytes.
    Raw,
}

impl SignalKind {
    /// May a signal of this kind be so many bits, from this one on?
    pub fn takes(self, bit: usize, count: usize) -> bool
        ensures { result ≡ takes self bit count }
    {
        match self {
            SignalKind::Bool => count == 1,
            SignalKind::U8 | SignalKind::I8 => 1 <= count && count <= 8,
            SignalKind::U16 | SignalKind::I16 => 1 <= count && count <= 16,
            SignalKind::U32 | SignalKind::I32 => 1 <= count && count <= 32,
            SignalKind::F32 => count == 32,
            SignalKind::Raw => 8 <= count && bit % 8 == 0 && count % 8 == 0,
        }
    }

    /// Is its top bit a sign?
    pub fn has_sign(self) -> bool
        ensures { result ≡ has_sign self }
    {
        matches!(self, SignalKind::I8 | SignalKind::I16 | SignalKind::I32)
    }

    /// Is it a row of bytes, and no number?
    pub fn is_row(self) -> bool
        ensures { result ≡ is_row self }
    {
        self == SignalKind::Raw
    }
}

impl fmt::Display for SignalKind {
    ghost output = { λ kind. Some (kind_word kind) };

    fn fmt<W: fmt::Write>(&self, f: &mut fmt::Formatter<W>) -> fmt::Result {
        match self {
            SignalKind::Bool => write!(f, "bool"),
            SignalKind::U8 => write!(f, "u8"),
            SignalKind::I8 => write!(f, "i8"),
            SignalKind::U16 => write!(f, "u16"),
            SignalKind::I16 => write!(f, "i16"),
            SignalKind::U32 => write!(f, "u32"),
            SignalKind::I32 => write!(f, "i32"),
            SignalKind::F32 => write!(f, "f32"),
            SignalKind::Raw => write!(f, "raw"),
        }
    }
}
