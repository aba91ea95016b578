//! The flags of a report.

ghost use Rattle.std.specs.Prelude.{◌≡◌, ◌≤◌};
ghost use Rattle.ec_io.specs.Flags.{flags_byte, has_flag};

use crate::layout::{MISSING_A, MISSING_B, NOT_IN_OP, STALE};

/// Is the flag of this worth set in a byte?
pub(crate) fn has_flag(worth: u8, byte: u8) -> bool
    requires { 1 ≤ worth }
    ensures { result ≡ has_flag worth byte }
{
    byte / worth % 2 == 1
}

/// The byte of these flags.
pub(crate) fn flags_byte(in_op: bool, missing_a: bool, missing_b: bool, stale: bool) -> u8
    ensures { result ≡ flags_byte in_op missing_a missing_b stale }
{
    NOT_IN_OP * u8::from(!in_op)
        + MISSING_A * u8::from(missing_a)
        + MISSING_B * u8::from(missing_b)
        + STALE * u8::from(stale)
}
