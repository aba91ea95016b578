//! What an object holds, and who may read and write it (IEC 61158-6-12, object dictionary).

ghost use Rattle.std.specs.Prelude.{◌≡◌};

use byteorder::{ByteOrder, LittleEndian};

/// The value of an object: a number of one, two or four bytes, its lowest byte first.
#[derive(Clone, Copy, Debug, PartialEq, Eq)]
pub enum Value {
    /// One byte.
    One(u8),
    /// Two bytes.
    Two(u16),
    /// Four bytes.
    Four(u32),
}

impl Value {
    ghost use Rattle.ec_app.specs.Sdo.{value_bytes};
    ghost use Rattle.ec_app.specs.Value.{size_of, FitsValue};

    /// How many bytes the value has: 1, 2 or 4.
    pub fn size(&self) -> usize
        ensures { result ≡ size_of self.now }
    {
        match self {
            Value::One(_) => 1,
            Value::Two(_) => 2,
            Value::Four(_) => 4,
        }
    }

    /// The value's bytes, and zeros up to four. (Its clause `fits` is what a proof knows of every value.)
    pub(crate) fn bytes(&self) -> [u8; 4]
        ensures value { result ≡ value_bytes self.now }
        ensures fits { FitsValue self.now }
    {
        match self {
            Value::One(number) => [*number, 0, 0, 0],
            Value::Two(number) => {
                let mut bytes = [0; 4];
                LittleEndian::write_u16(&mut bytes, *number);
                bytes
            }
            Value::Four(number) => number.to_le_bytes(),
        }
    }
}

/// What the master may do with an object.
#[derive(Clone, Copy, Debug, PartialEq, Eq)]
pub enum Rights {
    /// The object may be uploaded alone.
    ReadOnly,
    /// The object may be downloaded alone.
    WriteOnly,
    /// The object may be uploaded and downloaded.
    Both,
}

impl Rights {
    ghost use Rattle.ec_app.specs.Value.{may_read, may_write};

    /// May a master upload the value?
    pub fn may_read(self) -> bool
        ensures { result ≡ may_read self }
    {
        match self {
            Rights::ReadOnly | Rights::Both => true,
            Rights::WriteOnly => false,
        }
    }

    /// May a master download another value?
    pub fn may_write(self) -> bool
        ensures { result ≡ may_write self }
    {
        match self {
            Rights::WriteOnly | Rights::Both => true,
            Rights::ReadOnly => false,
        }
    }
}
