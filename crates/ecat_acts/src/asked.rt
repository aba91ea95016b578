//! What the words of `sdo` ask of an object.

ghost use Rattle.std.specs.Prelude.{◌≡◌};
ghost use Rattle.ecat_acts.specs.Values.{value_of};

use ec_app::Value;
use ecat_simulation::Asked;

/// What the words of the command line ask of an object.
pub fn asked_of(
    station: u16,
    index: u16,
    sub: u8,
    value: Option<ecat_args::Value>,
    surely: bool,
) -> Asked {
    Asked {
        station,
        index,
        sub,
        value: value.map(value_of),
        surely,
    }
}

/// The value that the command line has.
fn value_of(value: ecat_args::Value) -> Value
    ensures { result ≡ value_of value }
{
    match value {
        ecat_args::Value::One(number) => Value::One(number),
        ecat_args::Value::Two(number) => Value::Two(number),
        ecat_args::Value::Four(number) => Value::Four(number),
    }
}
