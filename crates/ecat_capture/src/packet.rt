//! What a capture tells of a packet beside its bytes.
ghost use Rattle.std.specs.Prelude.{◌≡◌, ◌<◌, ◌≤◌, ◌^◌};
ghost use Rattle.ecat_capture.specs.Times.{per_second_of, time_of};

use crate::link::Link;

/// How many nanoseconds a second has.
const NANOSECONDS: u64 = 1_000_000_000;

/// How many microseconds a second has.
const MICROSECONDS: u64 = 1_000_000;

/// When a packet was captured.
#[derive(Clone, Copy, Debug, PartialEq, Eq)]
pub struct Time {
    /// Whole seconds since the epoch, 1 January 1970 UTC.
    pub seconds: u64,
    /// The nanoseconds behind them, below a thousand million.
    pub nanoseconds: u64,
    /// Does the file count finer than microseconds?
    pub fine: bool,
}

impl Time {
    /// The time of so many ticks since the epoch, of which a second has so many.
    pub(crate) fn of(per_second: u64, ticks: u64) -> Time
        requires some { 0 < per_second }
        requires most { per_second ≤ 2 ^ 34 }
        ensures { result ≡ time_of per_second ticks }
    {
        if per_second == MICROSECONDS {
            Time::of_microseconds(ticks)
        } else if per_second == NANOSECONDS {
            Time::of_nanoseconds(ticks)
        } else {
            Time::of_any(per_second, ticks)
        }
    }

    /// The time of so many microseconds. It stands by itself, so that the compiler, which would else share
    /// one division with `of_any`, turns the division by a constant into a multiplication.
    #[inline(never)]
    fn of_microseconds(ticks: u64) -> Time
        ensures { result ≡ time_of 1000000 ticks }
    {
        Time {
            seconds: ticks / MICROSECONDS,
            nanoseconds: ticks % MICROSECONDS * (NANOSECONDS / MICROSECONDS),
            fine: false,
        }
    }

    /// The time of so many nanoseconds, by itself as `of_microseconds` is.
    #[inline(never)]
    fn of_nanoseconds(ticks: u64) -> Time
        ensures { result ≡ time_of 1000000000 ticks }
    {
        Time {
            seconds: ticks / NANOSECONDS,
            nanoseconds: ticks % NANOSECONDS,
            fine: true,
        }
    }

    /// The time of so many ticks, by two divisions.
    fn of_any(per_second: u64, ticks: u64) -> Time
        requires some { 0 < per_second }
        requires most { per_second ≤ 2 ^ 34 }
        ensures { result ≡ time_of per_second ticks }
    {
        Time {
            seconds: ticks / per_second,
            nanoseconds: ticks % per_second * NANOSECONDS / per_second,
            fine: MICROSECONDS < per_second,
        }
    }
}

/// How many ticks a second has by the byte of the option `if_tsresol`, or 0 where they are finer than times
/// of this crate.
#[tactic(auto, unfolding(crate::specs::Times::per_second_of))]
pub(crate) fn per_second_of(resolution: u8) -> u64
    ensures value { result ≡ per_second_of resolution }
    ensures most { result ≤ 2 ^ 34 }
{
    if resolution < 10 {
        10_u64.pow(u32::from(resolution))
    } else if 127 < resolution && resolution < 163 {
        2_u64.pow(u32::from(resolution - 128))
    } else {
        0
    }
}

/// A packet as it was captured, but for its bytes.
#[derive(Clone, Copy, Debug, PartialEq, Eq)]
pub struct Packet {
    /// Its number in the file, from 1.
    pub number: u64,
    /// When it was captured; a simple packet of pcapng tells none.
    pub time: Option<Time>,
    /// How many of its bytes the file stores, at most 262,144.
    pub captured: u32,
    /// How long it was on the wire.
    pub original: u32,
    /// The number of the interface that captured it, in its section of a pcapng file, from 0; of pcap 0.
    pub interface: u32,
    /// What its bytes begin with.
    pub link: Link,
}

/// A packet in its record or block.
#[derive(Clone, Copy)]
pub(crate) struct Found {
    /// When it was captured.
    pub time: Option<Time>,
    /// How many of its bytes are stored.
    pub captured: u32,
    /// How long it was on the wire.
    pub original: u32,
    /// The place of its first byte in the record or block.
    pub from: usize,
    /// The number of its interface; of a record 0.
    pub interface: u32,
    /// What its bytes begin with.
    pub link: Link,
}
