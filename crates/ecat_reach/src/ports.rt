//! A master's two ports to a line that lies somewhere else.

use crate::carrier::EitherCarrier;
use arrayvec::ArrayVec;
use ec_number::Trip;
use ec_wire::{Command, Datagram, FrameBuf};
use ecat_raw::{Descriptors, RawCarrier, RawFault};
use ecat_record::{Moments, Recorder, TapedCarrier};
use ecat_remote::{ClockTimer, OpenFault, RemotePorts, SteadyCarrier, UdpCarrier, ends_of, greet};
use std::io::Write;
use std::net::Net;
use std::random::RandomSource;
use std::rt::Clock;
use std::time::{SystemTime, UNIX_EPOCH};

/// How a line is reached that lies somewhere else.
#[derive(Clone, Copy)]
pub enum Reach<'a> {
    /// By UDP, at `HOST:PORT` or two of them with a comma between.
    At(&'a str),
    /// By network interfaces, through packet sockets.
    Raw(Descriptors),
}

/// Why a line that lies somewhere else cannot be spoken to.
#[derive(Drop)]
pub enum ReachFault {
    /// One of its ends cannot be spoken to by UDP.
    Remote(OpenFault),
    /// The packet sockets are of no use.
    Raw(RawFault),
    /// There is no clock.
    Clock,
}

impl From<OpenFault> for ReachFault {
    fn from(fault: OpenFault) -> ReachFault {
        ReachFault::Remote(fault)
    }
}

impl From<RawFault> for ReachFault {
    fn from(fault: RawFault) -> ReachFault {
        ReachFault::Raw(fault)
    }
}

/// What carries a master's packets, whichever way its line is reached.
pub type AnyCarrier = EitherCarrier<UdpCarrier, RawCarrier>;

/// A master's two ports, of which each packet is recorded if anybody wants it, and one may fail.
pub type AnyPorts<'a, 't, R, W, M> = RemotePorts<
    SteadyCarrier<TapedCarrier<'t, AnyCarrier, W, M>>,
    ClockTimer<'a, R>,
>;

/// The two ports of a master whose line is reached so, which wait for copies for so many microseconds. By UDP
/// a first frame that asks nothing has gone out from each, so that whoever serves the line knows where both
/// are: that is no trip, of which a copy would be missing at port B. What an earlier master sent bears other
/// numbers, so nothing is waited for.
pub fn open_ports<'a, 't, R, W, M>(
    rt: &'a R,
    reach: Reach<'_>,
    limit: u64,
    recorder: &'t mut Recorder<W, M>,
) -> Result<AnyPorts<'a, 't, R, W, M>, ReachFault>
where
    R: Clock + Net + RandomSource,
    W: Write,
    M: Moments,
{
    let mut carrier = TapedCarrier::new(carrier_of(rt, reach)?, recorder);
    if let Reach::At(_) = reach {
        greet(&mut carrier, &greeting(), limit);
    }
    let steady = SteadyCarrier::new(carrier);
    match ClockTimer::new(rt) {
        Ok(timer) => Ok(RemotePorts::new(steady, timer, limit, first_trip(rt))),
        Err(_) => Err(ReachFault::Clock),
    }
}

/// What carries packets to a line that is reached so.
fn carrier_of<R: Net>(rt: &R, reach: Reach<'_>) -> Result<AnyCarrier, ReachFault> {
    match reach {
        Reach::At(at) => Ok(EitherCarrier::First(UdpCarrier::open(rt, ends_of(at))?)),
        Reach::Raw(descriptors) => Ok(EitherCarrier::Second(RawCarrier::open(descriptors)?)),
    }
}

/// The first trip of a run: 63 bits that the system draws, or the nanoseconds since 1970 where it draws none.
/// No other run has its numbers, unless by a chance of one in some thousand million for as many trips.
fn first_trip<R: Clock + RandomSource>(rt: &R) -> Trip {
    let mut drawn = [0; 8];
    match rt.fill_bytes(&mut drawn) {
        Ok(()) => Trip::of(u64::from_le_bytes(drawn)),
        Err(_) => Trip::of(nanoseconds(rt)),
    }
}

/// The nanoseconds since 1970; 0 where the clock fails.
fn nanoseconds(clock: &impl Clock) -> u64 {
    let Ok(now) = SystemTime::now(clock) else {
        return 0;
    };
    match now.duration_since(UNIX_EPOCH) {
        Ok(passed) => u64::try_from(passed.as_nanos()).unwrap_or(0),
        Err(_) => 0,
    }
}

/// A frame that asks nothing: each slave passes it on as it is.
fn greeting() -> FrameBuf {
    let mut payload = ArrayVec::new();
    let _ = payload.try_extend_from_slice(&[0; 2]);
    FrameBuf::of(&Datagram {
        command: Command::Nop,
        index: 0,
        address: 0,
        circulating: false,
        irq: 0,
        payload,
        counter: 0,
    })
}
