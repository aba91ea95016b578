//! The ports of the master.

ghost use Rattle.std.specs.Prelude.{◌≡◌, ◌+◌, ◌-◌, ◌^◌, ◌≤◌, IsErr, IsOk};

/// A port of the master, between which the line of slaves lies.
#[derive(Clone, Copy, PartialEq, Eq, Debug)]
pub enum Port {
    /// The port before the first slave.
    A,
    /// The port behind the last slave.
    B,
}

/// A frame could not be sent, or its copies could not be received.
#[derive(Clone, Copy, PartialEq, Eq, Debug)]
pub struct PortFault;

/// Counts one more trip that failed, and answers the fault; at the greatest count there is none.
pub fn count_failure(failures: &mut u64) -> Result<(), PortFault>
    ensures counted { IsErr result → failures.new ≡ failures.old + 1 }
    ensures never_lower { failures.old ≤ failures.new }
    ensures passed_over { IsOk result → failures.old ≡ 2 ^ 64 - 1 }
{
    if *failures == u64::MAX {
        return Ok(());
    }
    *failures += 1;
    Err(PortFault)
}
