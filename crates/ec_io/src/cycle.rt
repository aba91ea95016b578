//! Numbers of cycles, of which all ones stand for none.

ghost use Rattle.std.specs.Prelude.{◌≡◌, ◌↔◌, IsTrue};
ghost use Rattle.ec_io.specs.Cycle.{IsSpellable, cycle_number, cycle_of};

/// The number that stands for no cycle.
const NO_CYCLE: u64 = u64::MAX;

/// The cycle that a number stands for in a packet: none for `u64::MAX`, which no master comes to, and else
/// the cycle of this number. So what it gives can be written.
pub fn cycle_of(number: u64) -> Option<u64>
    ensures value { result ≡ cycle_of number }
    ensures spellable { IsSpellable result }
{
    if number == NO_CYCLE {
        None
    } else {
        Some(number)
    }
}

/// Can a packet spell this cycle: is it none, or below the number that stands for none?
pub(crate) fn is_spellable(cycle: Option<u64>) -> bool
    ensures { IsTrue result ↔ IsSpellable cycle }
{
    match cycle {
        Some(number) => number < NO_CYCLE,
        None => true,
    }
}

/// The number that stands for a cycle, or for none.
pub(crate) fn cycle_number(cycle: Option<u64>) -> u64
    ensures { result ≡ cycle_number cycle }
{
    cycle.unwrap_or(NO_CYCLE)
}
