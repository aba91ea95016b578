//! The sums of the trips of a capture as objects of JSON, one a line.

use crate::counters::{Count, Place, Tally};
use crate::date::digits_of;
use crate::group::{Group, Spans};
use crate::group_lines::{Clock, MIN_SHARED, SHARES, STEPS, sum_of};
use crate::passed::Key;
use crate::ways::Ways;
use ec_wire::{Command, ado_of, adp_of};
use ecat_json::Object;
use ecat_stamps::date_of;
use ecat_trips::moves_adp;
use std::alloc::{AllocError, Global};
use std::io;

/// What was made, or that memory ran out, which is all that can be in the way.
fn made<T: Drop>(made: io::Result<T>) -> Result<T, AllocError> {
    match made {
        Ok(made) => Ok(made),
        Err(_) => Err(AllocError),
    }
}

/// Puts an object as a line.
fn put(text: &mut Vec<u8>, object: io::Result<Object>) -> Result<(), AllocError> {
    let line = made(made(object)?.end())?;
    text.extend_from_slice(line.as_slice())
}

/// Puts how many packets the capture has, and when the first one was captured.
pub(crate) fn json_packets(
    alloc: Global,
    text: &mut Vec<u8>,
    clock: Clock,
    packets: u64,
) -> Result<(), AllocError> {
    put(text, packets_of(alloc, clock, packets))
}

fn packets_of(alloc: Global, clock: Clock, packets: u64) -> io::Result<Object> {
    let object = Object::begin(Vec::new(alloc), "packets")?.number("packets", packets)?;
    match clock.first {
        None => object.nothing("first_utc"),
        Some(first) => { object.text("first_utc", date_of(first, digits_of(clock.fine)).as_str()) }
    }
}

/// Puts which ways frames went, and what told it.
pub(crate) fn json_ways(alloc: Global, text: &mut Vec<u8>, ways: &Ways) -> Result<(), AllocError> {
    put(text, ways_of(alloc, ways))
}

fn ways_of(alloc: Global, ways: &Ways) -> io::Result<Object> {
    let object = Object::begin(Vec::new(alloc), "ways")?.number("sent", ways.sent)?;
    let object = object.number("returned", ways.returned)?;
    let object = object.number("told_by_port", ways.port)?;
    let object = object.number("told_by_place", ways.place)?;
    let object = object.number("told_by_mark", ways.mark)?;
    object.number("told_by_counters", ways.counters)
}

/// Puts how many datagrams of further groups were left out, if any.
pub(crate) fn json_left_out(
    alloc: Global,
    text: &mut Vec<u8>,
    left_out: u64,
) -> Result<(), AllocError> {
    if left_out == 0 {
        return Ok(());
    }
    put(text, left_out_of(alloc, left_out))
}

fn left_out_of(alloc: Global, left_out: u64) -> io::Result<Object> {
    Object::begin(Vec::new(alloc), "left_out")?.number("datagrams", left_out)
}

/// Puts a group: what it is, how many were sent and what became of them, its counters and its times.
pub(crate) fn json_group(
    alloc: Global,
    text: &mut Vec<u8>,
    clock: Clock,
    by_index: bool,
    key: &Key,
    group: &Group,
) -> Result<(), AllocError> {
    put(text, group_of(alloc, clock, by_index, key, group))
}

fn group_of(
    alloc: Global,
    clock: Clock,
    by_index: bool,
    key: &Key,
    group: &Group,
) -> io::Result<Object> {
    let object = Object::begin(Vec::new(alloc), "group")?;
    let object = object.text("command", group.command.name())?;
    let object = with_address(object, group.command, key.address)?;
    let object = object.number("length", key.length as u64)?;
    let index = if by_index {
        Some(u64::from(key.index))
    } else {
        None
    };
    let object = with_times(object.number_if("index", index)?, group)?;
    let object = with_tally(object, clock, BACK_COUNTERS, &group.back)?;
    let object = with_tally(object, clock, LOST, &group.lost)?;
    let object = with_tally(object, clock, LATE, &group.late)?;
    let object = with_tally(object, clock, STRAY, &group.astray)?;
    let object = with_spans(object, EVERY, &group.times.every)?;
    with_spans(object, BACK, &group.times.back)
}

/// Adds the address of a group: a logical one, or a register, with whose it is where the command does not
/// count that up.
fn with_address(object: Object, command: Command, address: u32) -> io::Result<Object> {
    if matches!(command, Command::Lrd | Command::Lwr | Command::Lrw) {
        let object = object.number("logical_address", u64::from(address))?;
        return object.nothing("adp")?.nothing("ado");
    }
    let object = object.nothing("logical_address")?;
    if moves_adp(command) {
        return object
            .nothing("adp")?
            .number("ado", u64::from(address % 65536));
    }
    let object = object.number("adp", u64::from(adp_of(address)))?;
    object.number("ado", u64::from(ado_of(address)))
}

/// Adds how many were sent, and what became of them.
fn with_times(object: Object, group: &Group) -> io::Result<Object> {
    let object = object.number("sent", group.sent.times())?;
    let object = object.number("back", group.back.times())?;
    let object = object.number("lost", group.lost.times())?;
    let object = object.number("on_the_way", group.on_the_way())?;
    let object = object.number("late", group.late.times())?;
    object.number("stray", group.astray.times())
}

// ---- counters

/// The names of what is told of counters: each of them, how often it came, the packet where it came first,
/// when that was, and how many datagrams had a further one.
#[derive(Clone, Copy)]
struct CounterNames {
    counters: &'static str,
    times: &'static str,
    packets: &'static str,
    moments: &'static str,
    others: &'static str,
}

const BACK_COUNTERS: CounterNames = CounterNames {
    counters: "back_counters",
    times: "back_counter_times",
    packets: "back_first_packets",
    moments: "back_first_nanoseconds",
    others: "back_of_other_counters",
};

const LOST: CounterNames = CounterNames {
    counters: "lost_counters",
    times: "lost_counter_times",
    packets: "lost_first_packets",
    moments: "lost_first_nanoseconds",
    others: "lost_of_other_counters",
};

const LATE: CounterNames = CounterNames {
    counters: "late_counters",
    times: "late_counter_times",
    packets: "late_first_packets",
    moments: "late_first_nanoseconds",
    others: "late_of_other_counters",
};

const STRAY: CounterNames = CounterNames {
    counters: "stray_counters",
    times: "stray_counter_times",
    packets: "stray_first_packets",
    moments: "stray_first_nanoseconds",
    others: "stray_of_other_counters",
};

/// Adds the counters of some datagrams.
fn with_tally(
    object: Object,
    clock: Clock,
    names: CounterNames,
    tally: &Tally,
) -> io::Result<Object> {
    let told = tally.told();
    let object = with_counters(object, names.counters, told)?;
    let object = with_counts(object, names.times, told)?;
    let object = with_packets(object, names.packets, told)?;
    let object = with_moments(object, clock, names.moments, told)?;
    object.number(names.others, tally.others())
}

/// Adds counters.
fn with_counters(object: Object, name: &str, told: &[Count]) -> io::Result<Object> {
    let mut list = object.list(name)?;
    for count in told {
        list = list.number(u64::from(count.counter))?;
    }
    list.end()
}

/// Adds how often counters came.
fn with_counts(object: Object, name: &str, told: &[Count]) -> io::Result<Object> {
    let mut list = object.list(name)?;
    for count in told {
        list = list.number(count.times)?;
    }
    list.end()
}

/// Adds the packets where counters came first.
fn with_packets(object: Object, name: &str, told: &[Count]) -> io::Result<Object> {
    let mut list = object.list(name)?;
    for count in told {
        list = list.number(count.first.packet)?;
    }
    list.end()
}

/// Adds when counters came first, since the first packet, where the capture tells it.
fn with_moments(object: Object, clock: Clock, name: &str, told: &[Count]) -> io::Result<Object> {
    let mut list = object.list(name)?;
    for count in told {
        list = list.signed_if(moment_of(clock, &count.first))?;
    }
    list.end()
}

/// The nanoseconds from the first packet to a place, below zero where it was captured before.
fn moment_of(clock: Clock, place: &Place) -> Option<i64> {
    let first = clock.first?;
    let time = place.time?;
    if time < first {
        let before = i64::try_from(first - time).unwrap_or(i64::MAX);
        return Some(0i64.saturating_sub(before));
    }
    Some(i64::try_from(time - first).unwrap_or(i64::MAX))
}

// ---- times

/// The names of what is told of times.
#[derive(Clone, Copy)]
struct SpanNames {
    count: &'static str,
    least: &'static str,
    mean: &'static str,
    greatest: &'static str,
    shares: &'static str,
    bounds: &'static str,
    counts: &'static str,
}

/// Of the times from one that was sent to the next.
const EVERY: SpanNames = SpanNames {
    count: "every_count",
    least: "every_least_nanoseconds",
    mean: "every_mean_nanoseconds",
    greatest: "every_greatest_nanoseconds",
    shares: "every_at_most_nanoseconds",
    bounds: "every_up_to_nanoseconds",
    counts: "every_up_to_counts",
};

/// Of the times until one came back.
const BACK: SpanNames = SpanNames {
    count: "back_count",
    least: "back_least_nanoseconds",
    mean: "back_mean_nanoseconds",
    greatest: "back_greatest_nanoseconds",
    shares: "back_at_most_nanoseconds",
    bounds: "back_up_to_nanoseconds",
    counts: "back_up_to_counts",
};

/// Adds some times: how many, the least, the mean and the greatest, and of many their shares.
fn with_spans(object: Object, names: SpanNames, spans: &Spans) -> io::Result<Object> {
    let object = object.number(names.count, spans.count)?;
    let object = if spans.count == 0 {
        object
            .nothing(names.least)?
            .nothing(names.mean)?
            .nothing(names.greatest)?
    } else {
        let object = object
            .number(names.least, spans.least)?
            .number(names.mean, spans.mean())?;
        object.number(names.greatest, spans.greatest)?
    };
    let object = with_shares(object, names.shares, spans)?;
    let object = with_bounds(object, names.bounds, spans)?;
    with_histogram(object, names.counts, spans)
}

/// Adds in which times 50, 90, 99 and 99.9 of 100 are, of many.
fn with_shares(object: Object, name: &str, spans: &Spans) -> io::Result<Object> {
    let mut list = object.list(name)?;
    if MIN_SHARED <= spans.count {
        for many in SHARES {
            list = list.number(spans.all_but_one_in(many))?;
        }
    }
    list.end()
}

/// Adds the powers of two up to which there are times, of many.
fn with_bounds(object: Object, name: &str, spans: &Spans) -> io::Result<Object> {
    let mut list = object.list(name)?;
    if spans.count < MIN_SHARED {
        return list.end();
    }
    for (k, counts) in spans.counts().chunks(STEPS).enumerate() {
        if sum_of(counts) > 0 {
            list = list.number(spans.within(STEPS * k + STEPS - 1))?;
        }
    }
    list.end()
}

/// Adds how many times are up to each of those.
fn with_histogram(object: Object, name: &str, spans: &Spans) -> io::Result<Object> {
    let mut list = object.list(name)?;
    if spans.count < MIN_SHARED {
        return list.end();
    }
    for counts in spans.counts().chunks(STEPS) {
        let count = sum_of(counts);
        if count > 0 {
            list = list.number(count)?;
        }
    }
    list.end()
}
