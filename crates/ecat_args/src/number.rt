//! Numbers and values as words of the command line.
ghost use Rattle.std.specs.Prelude.{◌≡◌, ◌≤◌, ◌<◌, ◌^◌, IfSome, length};
ghost use Rattle.ecat_args.specs.Number.{numeral, number_within, value_by_size, value_of, within};

/// A value of one, two or four bytes.
#[derive(Clone, Copy, Debug, PartialEq, Eq)]
pub enum Value {
    /// One byte.
    One(u8),
    /// Two bytes.
    Two(u16),
    /// Four bytes.
    Four(u32),
}

// The number that the digits write, where it fits 32 bits.
fn numeral(digits: &str, radix: u32) -> Option<u32>
    requires least_radix { 2 ≤ radix }
    requires most_radix { radix ≤ 36 }
    ensures { result ≡ within 0 0xffff_ffff (numeral radix digits.now) }
{
    // The library would read a plus before the digits.
    if digits.starts_with('+') {
        return None;
    }
    u32::from_str_radix(digits, radix).ok()
}

// The number that up to eight hexadecimal digits write.
fn hexadecimal(digits: &str) -> Option<u32>
    requires { length digits.now ≤ 8 }
    ensures value { result ≡ numeral 16 digits.now }
    ensures small { IfSome result (λ n. n < 16 ^ length digits.now) }
{
    numeral(digits, 16)
}

/// The number that `text` writes, where it is from `least` to `most`.
pub(crate) fn number(text: &str, least: u32, most: u32) -> Option<u32>
    ensures value { result ≡ number_within least most text.now }
    ensures range { IfSome result (λ n. (least ≤ n) × (n ≤ most)) }
{
    let number = match text.strip_prefix("0x") {
        Some(digits) => numeral(digits, 16)?,
        None => numeral(text, 10)?,
    };
    if least <= number && number <= most {
        Some(number)
    } else {
        None
    }
}

/// The value that `text` writes.
pub(crate) fn value_of(text: &str) -> Option<Value>
    ensures { result ≡ value_of text.now }
{
    value_by_size(text.strip_prefix("0x")?)
}

// The value of the size that the number of digits gives.
fn value_by_size(digits: &str) -> Option<Value>
    ensures { result ≡ value_by_size digits.now }
{
    match digits.len() {
        2 => Some(Value::One(hexadecimal(digits)? as u8)),
        4 => Some(Value::Two(hexadecimal(digits)? as u16)),
        8 => Some(Value::Four(hexadecimal(digits)?)),
        _ => None,
    }
}
