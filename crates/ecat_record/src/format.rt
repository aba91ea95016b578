//! The header and the heads of records (the savefile format of libpcap).
ghost use Rattle.std.specs.Prelude.{◌≡◌, ◌<◌, ◌≤◌, ◌*◌, ◌^◌, length};
ghost use Rattle.ecat_record.specs.Written.{head_of, header_of, magic_of, per_second, told_time};

use arrayvec::ArrayVec;

/// The version of the format.
const VERSION: [u16; 2] = [2, 4];

/// The most bytes of a packet that a capture may store.
const SNAP_LENGTH: u32 = 262_144;

/// The link type of Ethernet.
const ETHERNET: u32 = 1;

/// In what times are counted.
#[derive(Clone, Copy, Debug, PartialEq, Eq)]
pub enum Unit {
    /// Millionths of a second, as most programs write them.
    Microseconds,
    /// Thousand-millionths of a second.
    Nanoseconds,
}

impl Unit {
    /// How many units a second has.
    pub fn per_second(self) -> u64
        ensures { result ≡ per_second self }
    {
        match self {
            Unit::Microseconds => 1_000_000,
            Unit::Nanoseconds => 1_000_000_000,
        }
    }

    /// The number that a capture begins with.
    fn magic(self) -> u32
        ensures { result ≡ magic_of self }
    {
        match self {
            Unit::Microseconds => 0xa1b2_c3d4,
            Unit::Nanoseconds => 0xa1b2_3c4d,
        }
    }
}

/// A time as a record tells it: the last one that it has room for, in the year 2106, in the place of later
/// ones.
pub(crate) fn told_time(unit: Unit, ticks: u64) -> u64
    ensures value { result ≡ told_time unit ticks }
    ensures fits { result < per_second unit * 2 ^ 32 }
{
    ticks.min(unit.per_second() * (1 << 32) - 1)
}

/// The header of a capture that counts this unit.
#[tactic(auto, unfolding(crate::specs::Written::header_of))]
pub(crate) fn header_of(unit: Unit) -> ArrayVec<u8, 24>
    ensures { result.items ≡ header_of unit }
{
    let mut header = ArrayVec::new();
    header
        .try_extend_from_slice(&unit.magic().to_le_bytes())
        .unwrap();
    header
        .try_extend_from_slice(&VERSION[0].to_le_bytes())
        .unwrap();
    header
        .try_extend_from_slice(&VERSION[1].to_le_bytes())
        .unwrap();
    header.try_extend_from_slice(&[0; 8]).unwrap();
    header
        .try_extend_from_slice(&SNAP_LENGTH.to_le_bytes())
        .unwrap();
    header
        .try_extend_from_slice(&ETHERNET.to_le_bytes())
        .unwrap();
    header
}

/// The head of a record at so many units of time since the epoch, of a packet of so many bytes.
#[tactic(auto, unfolding(crate::specs::Written::head_of))]
pub(crate) fn head_of(unit: Unit, ticks: u64, size: u32) -> ArrayVec<u8, 16>
    requires { ticks < per_second unit * 2 ^ 32 }
    ensures { result.items ≡ head_of unit ticks size }
{
    let seconds = (ticks / unit.per_second()) as u32;
    let behind = (ticks % unit.per_second()) as u32;
    let mut head = ArrayVec::new();
    head.try_extend_from_slice(&seconds.to_le_bytes()).unwrap();
    head.try_extend_from_slice(&behind.to_le_bytes()).unwrap();
    head.try_extend_from_slice(&size.to_le_bytes()).unwrap();
    head.try_extend_from_slice(&size.to_le_bytes()).unwrap();
    head
}
