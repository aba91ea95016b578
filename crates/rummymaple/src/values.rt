//! Values of objects, in plain numbers.

ghost use Rattle.std.specs.Prelude.{◌≡◌, Some};
ghost use Rattle.rummymaple.specs.Values.{value_in, value_number, value_size};

use ec_app::Value;

/// The value of so many bytes that is a number; nothing where it does not fit them.
#[tactic(auto, unfolding(crate::specs::Values::value_in))]
pub(crate) fn value_in(size: u8, number: u32) -> Option<Value>
    ensures { result ≡ value_in size number }
{
    match size {
        1 if number < 256 => Some(Value::One(number as u8)),
        2 if number < 65536 => Some(Value::Two(number as u16)),
        4 => Some(Value::Four(number)),
        _ => None,
    }
}

/// How many bytes a value has.
#[tactic(auto, unfolding(crate::specs::Values::value_in))]
pub(crate) fn value_size(value: Value) -> u8
    ensures is { result ≡ value_size value }
    ensures read_back { value_in result (value_number value) ≡ Some value }
{
    match value {
        Value::One(_) => 1,
        Value::Two(_) => 2,
        Value::Four(_) => 4,
    }
}

/// The number that a value is.
pub(crate) fn value_number(value: Value) -> u32
    ensures { result ≡ value_number value }
{
    match value {
        Value::One(number) => u32::from(number),
        Value::Two(number) => u32::from(number),
        Value::Four(number) => number,
    }
}
