//! The lines of a group of datagrams.

use crate::address::put_group_address;
use crate::counters::{Count, Place, Tally};
use crate::group::{Group, Spans};
use crate::passed::Key;
use crate::text::{put_byte, put_decimal, put_seconds};
use std::alloc::AllocError;

/// How many times there are at least where they are told: those of three that were sent, or that came back.
const MIN_GAPS: u64 = 2;

const MIN_RETURNS: u64 = 3;

/// How many times there are at least where shares of them are told.
pub(crate) const MIN_SHARED: u64 = 100;

/// The shares that are told, and for each of how many times one is beyond it.
pub(crate) const SHARES: [u64; 4] = [2, 10, 100, 1000];

/// How many buckets a power of two has.
pub(crate) const STEPS: usize = 8;

/// By what times are told.
#[derive(Clone, Copy)]
pub(crate) struct Clock {
    /// When the first packet was captured, in nanoseconds since the epoch.
    pub first: Option<u64>,
    /// Does the capture count nanoseconds?
    pub fine: bool,
}

/// Puts the lines of a group: what it is, how many were sent and came back, and what did not; its counters,
/// if there are several; and its times, if three were sent or came back.
pub(crate) fn put_group(
    text: &mut Vec<u8>,
    clock: Clock,
    by_index: bool,
    key: &Key,
    group: &Group,
) -> Result<(), AllocError> {
    put_key(text, by_index, key, group)?;
    put_decimal(text, group.sent.times())?;
    text.extend_from_slice(b" sent, ")?;
    put_decimal(text, group.back.times())?;
    text.extend_from_slice(b" back")?;
    put_only_counter(text, &group.back)?;
    put_missing(text, clock, group)?;
    put_byte(text, b'\n')?;
    put_counters(text, clock, b"  ", &group.back)?;
    put_counters(text, clock, b"  stray: ", &group.astray)?;
    if MIN_GAPS <= group.times.every.count {
        put_spans(text, clock, b"  every ", &group.times.every)?;
    }
    if MIN_RETURNS <= group.times.back.count {
        put_spans(text, clock, b"  back in ", &group.times.back)?;
    }
    Ok(())
}

/// Puts what the datagrams of a group have in common.
fn put_key(text: &mut Vec<u8>, by_index: bool, key: &Key, group: &Group) -> Result<(), AllocError> {
    text.extend_from_slice(group.command.name().as_bytes())?;
    put_byte(text, b' ')?;
    put_group_address(text, group.command, key.address)?;
    put_byte(text, b' ')?;
    put_decimal(text, key.length as u64)?;
    text.extend_from_slice(b" bytes")?;
    if by_index {
        text.extend_from_slice(b" index ")?;
        put_decimal(text, u64::from(key.index))?;
    }
    text.extend_from_slice(b": ")
}

/// Puts what was sent and did not come back, and what came back of nothing, each if there is any.
fn put_missing(text: &mut Vec<u8>, clock: Clock, group: &Group) -> Result<(), AllocError> {
    put_apart(text, clock, b" lost", &group.lost, false)?;
    put_apart(text, clock, b" late", &group.late, false)?;
    put_apart(text, clock, b" stray", &group.astray, true)?;
    let on_the_way = group.on_the_way();
    if on_the_way == 0 {
        return Ok(());
    }
    text.extend_from_slice(b", ")?;
    put_decimal(text, on_the_way)?;
    text.extend_from_slice(b" on the way")
}

/// Puts how many of a kind there are, and where the first is, if there is any; with their counter, if it is
/// to be told and is one.
fn put_apart(
    text: &mut Vec<u8>,
    clock: Clock,
    kind: &[u8],
    tally: &Tally,
    with_counter: bool,
) -> Result<(), AllocError> {
    let Some(first) = tally.told().first() else {
        return Ok(());
    };
    text.extend_from_slice(b", ")?;
    put_decimal(text, tally.times())?;
    text.extend_from_slice(kind)?;
    if with_counter {
        put_only_counter(text, tally)?;
    }
    put_first(text, clock, &first.first)
}

/// Puts the counter of datagrams that have one alone.
fn put_only_counter(text: &mut Vec<u8>, tally: &Tally) -> Result<(), AllocError> {
    match tally.told() {
        [count] => {
            text.extend_from_slice(b" of wkc ")?;
            put_decimal(text, u64::from(count.counter))
        }
        _ => Ok(()),
    }
}

/// Puts the line of several counters: the most frequent one, and then the others with their first places.
fn put_counters(
    text: &mut Vec<u8>,
    clock: Clock,
    before: &[u8],
    tally: &Tally,
) -> Result<(), AllocError> {
    let told = tally.told();
    let best = most_frequent(told);
    let Some(count) = told.get(best) else {
        return Ok(());
    };
    if told.len() < 2 {
        return Ok(());
    }
    text.extend_from_slice(before)?;
    put_count(text, count)?;
    for k in 0..told.len() {
        if k != best {
            text.extend_from_slice(b", ")?;
            put_count(text, &told[k])?;
            put_first(text, clock, &told[k].first)?;
        }
    }
    if tally.others() > 0 {
        text.extend_from_slice(b", ")?;
        put_decimal(text, tally.others())?;
        text.extend_from_slice(b" of other counters")?;
    }
    put_byte(text, b'\n')
}

/// The place of the counter that came most often, the first of several.
fn most_frequent(told: &[Count]) -> usize {
    let mut best = 0;
    let mut times = 0;
    for (k, count) in told.iter().enumerate() {
        if times < count.times {
            best = k;
            times = count.times;
        }
    }
    best
}

/// Puts how often a counter came.
fn put_count(text: &mut Vec<u8>, count: &Count) -> Result<(), AllocError> {
    put_decimal(text, count.times)?;
    text.extend_from_slice(b" of wkc ")?;
    put_decimal(text, u64::from(count.counter))
}

/// Puts where something is first: the packet, and its time since the first packet, where both have one.
fn put_first(text: &mut Vec<u8>, clock: Clock, place: &Place) -> Result<(), AllocError> {
    text.extend_from_slice(b" (first in packet ")?;
    put_decimal(text, place.packet)?;
    if let (Some(first), Some(time)) = (clock.first, place.time) {
        text.extend_from_slice(b", ")?;
        if time < first {
            put_byte(text, b'-')?;
        }
        put_seconds(text, time.max(first) - time.min(first), clock.fine)?;
    }
    put_byte(text, b')')
}

/// Puts the least, the mean and the greatest of some times.
fn put_spans(
    text: &mut Vec<u8>,
    clock: Clock,
    before: &[u8],
    spans: &Spans,
) -> Result<(), AllocError> {
    text.extend_from_slice(before)?;
    put_seconds(text, spans.least, clock.fine)?;
    put_byte(text, b' ')?;
    put_seconds(text, spans.mean(), clock.fine)?;
    put_byte(text, b' ')?;
    put_seconds(text, spans.greatest, clock.fine)?;
    text.extend_from_slice(b" s\n")?;
    if MIN_SHARED <= spans.count {
        put_shares(text, clock, before, spans)?;
        put_histogram(text, clock, before, spans)?;
    }
    Ok(())
}

/// Puts in which time the half of some times are, and all but one in ten, in a hundred and in a thousand.
fn put_shares(
    text: &mut Vec<u8>,
    clock: Clock,
    before: &[u8],
    spans: &Spans,
) -> Result<(), AllocError> {
    text.extend_from_slice(before)?;
    text.extend_from_slice(b"at most")?;
    for many in SHARES {
        put_byte(text, b' ')?;
        put_seconds(text, spans.all_but_one_in(many), clock.fine)?;
    }
    text.extend_from_slice(b" s in 50 90 99 99.9 of 100\n")
}

/// Puts how many times are up to each power of two, where there are some.
fn put_histogram(
    text: &mut Vec<u8>,
    clock: Clock,
    before: &[u8],
    spans: &Spans,
) -> Result<(), AllocError> {
    text.extend_from_slice(before)?;
    let mut between: &[u8] = b"";
    for (k, counts) in spans.counts().chunks(STEPS).enumerate() {
        let count = sum_of(counts);
        if count > 0 {
            text.extend_from_slice(between)?;
            put_decimal(text, count)?;
            text.extend_from_slice(b" up to ")?;
            put_seconds(text, spans.within(STEPS * k + STEPS - 1), clock.fine)?;
            between = b", ";
        }
    }
    text.extend_from_slice(b" s\n")
}

/// All of some counts together.
pub(crate) fn sum_of(counts: &[u64]) -> u64 {
    let mut sum: u64 = 0;
    for count in counts {
        sum = sum.saturating_add(*count);
    }
    sum
}
