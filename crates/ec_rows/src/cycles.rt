//! Verbs on a work, and on its cycles over a ring and over ports: `ec_master`.

ghost use Rattle.std.specs.Prelude.{◌<◌, IfSome, length};

use crate::answer::Answer;
use crate::stands::put_place;
use crate::ways::Ways;
use crate::words::{Fault, Words};
use ec_map::Item;
use ec_master::{
    CopiesBack, CycleFault, Refusal, Report, Reporting, Verdict, WeatherPorts, Work, accept,
    all_expected, checked_cycle, frame_from, ring_cycle, run_cycle, weather_cycle,
};
use ec_ring::{Ring, Weather};
use std::alloc::Global;
use std::mem::replace;

/// A work, the weathers of the frames that go out next, and what was told of the last cycle.
#[derive(Drop)]
pub struct Cycles {
    work: Work,
    weathers: Vec<Weather>,
    report: Option<Report>,
}

/// The counts that follow.
fn counts_of(words: &mut Words<'_>) -> Vec<u16> {
    let mut counts = Vec::new(words.alloc());
    for _ in 0..usize::MAX {
        match words.next_number(0xFFFF) {
            Some(count) => {
                if counts.push(count as u16).is_err() {
                    words.refuse(Fault::NoMemory);
                }
            }
            None => break,
        }
    }
    counts
}

/// Answers why a line with a work is not accepted.
fn put_refusal(answer: &mut Answer, refusal: Refusal) {
    match refusal {
        Refusal::Line(fault) => {
            answer.put("Line");
            answer.put(fault);
        }
        Refusal::Item(item, fault) => {
            answer.put("Item");
            answer.put(item);
            put_place(answer, Err(fault));
        }
    }
}

/// Answers a verdict, or why a cycle has none.
fn put_end(answer: &mut Answer, end: Result<Verdict, CycleFault>) {
    match end {
        Ok(verdict) => answer.name(verdict),
        Err(fault) => answer.name(fault),
    }
}

/// Answers which copies came back: `both`, `a`, `b` or `neither`.
fn put_copies(answer: &mut Answer, copies: CopiesBack) {
    if copies.a && copies.b {
        answer.put("both");
    } else if copies.a {
        answer.put("a");
    } else if copies.b {
        answer.put("b");
    } else {
        answer.put("neither");
    }
}

/// Answers what a report has: how far each counter moved, and which copies of each frame came back.
fn put_report(answer: &mut Answer, report: &Report) {
    for count in report.counts() {
        answer.put(*count);
    }
    for copies in report.copies() {
        put_copies(answer, *copies);
    }
}

/// Answers the first and the last of some bytes.
fn put_ends(answer: &mut Answer, bytes: &[u8]) {
    if let Some(first) = bytes.first() {
        answer.byte(*first);
    }
    if let Some(last) = bytes.last() {
        answer.byte(*last);
    }
}

/// The number of an item that the work has.
fn number_in(work: &Work, words: &mut Words<'_>) -> Option<usize>
    ensures { IfSome result (λ k. k < length work.now) }
{
    let k = words.number(31) as usize;
    if k < work.len() {
        Some(k)
    } else {
        words.refuse(Fault::OutOfRange);
        None
    }
}

/// Cycles over a ring that tell of each: the verdict, the counts and the copies.
fn tell_cycles(
    ring: Ring,
    weathers: &[Weather],
    work: &mut Work,
    expected: &[u16],
    cycles: u64,
    answer: &mut Answer,
) -> (Ring, Report) {
    let mut ports = Reporting::new(WeatherPorts::new(ring, weathers));
    for _ in 0..cycles {
        if expected.len() == work.len() {
            put_end(answer, ports.cycle(work, expected));
            put_report(answer, ports.report());
        }
    }
    let (ports, report) = ports.into_parts();
    (ports.into_ring(), report)
}

impl Cycles {
    /// A work without items, and no weathers.
    pub fn new(alloc: Global) -> Cycles {
        Cycles {
            work: Work::new(),
            weathers: Vec::new(alloc),
            report: None,
        }
    }

    /// Puts items into the work behind those that it has, and answers whether there was room.
    pub fn push_items(&mut self, items: &[Item], answer: &mut Answer) {
        for item in items {
            match self.work.push(item.copy()) {
                Ok(()) => {}
                Err(full) => {
                    answer.name(full);
                    return;
                }
            }
        }
        answer.put("ok");
    }

    /// The next frame goes out in this weather, behind those that have one.
    pub fn push_weather(&mut self, weather: Weather, words: &mut Words<'_>) {
        if self.weathers.push(weather).is_err() {
            words.refuse(Fault::NoMemory);
        }
    }

    /// Verbs that read the work: `work_length`; `work_counters`; `work_data K`, and `work_ends K`, the first
    /// and the last byte of it; `cut FIRST`, how many items travel in the frame that begins with that one;
    /// and `report`, what was told of the last cycle.
    pub fn tell(&self, verb: &str, words: &mut Words<'_>, answer: &mut Answer) -> bool {
        match verb {
            "work_length" => answer.put(self.work.len()),
            "work_counters" => {
                for k in 0..self.work.len() {
                    answer.put(self.work.item(k).counter());
                }
            }
            "work_data" => {
                if let Some(k) = number_in(&self.work, words) {
                    answer.bytes(self.work.item(k).data());
                }
            }
            "work_ends" => {
                if let Some(k) = number_in(&self.work, words) {
                    put_ends(answer, self.work.item(k).data());
                }
            }
            "cut" => {
                if let Some(first) = number_in(&self.work, words) {
                    answer.put(frame_from(&self.work, first).count());
                }
            }
            "report" => match &self.report {
                Some(report) => put_report(answer, report),
                None => answer.put("none"),
            },
            _ => return false,
        }
        true
    }

    /// Verbs that set the work: `round N` begins one, and `rewind` the first.
    pub fn set(&mut self, verb: &str, words: &mut Words<'_>) -> bool {
        match verb {
            "round" => self.work.begin_round(words.number(u64::MAX)),
            "rewind" => self.work.rewind(),
            _ => return false,
        }
        true
    }

    /// Verbs on the ring that change nothing: `accept`, and `all_expected COUNT`, the first of the counts
    /// that are expected.
    pub fn tell_of_ring(
        &self,
        verb: &str,
        ring: &Ring,
        words: &mut Words<'_>,
        answer: &mut Answer,
    ) -> bool {
        match verb {
            "accept" => match accept(ring.slaves(), &self.work) {
                Ok(()) => answer.put("ok"),
                Err(refusal) => put_refusal(answer, refusal),
            },
            "all_expected" => {
                let count = words.number(32) as usize;
                for expected in all_expected(ring.slaves(), &self.work).iter().take(count) {
                    answer.put(*expected);
                }
            }
            _ => return false,
        }
        true
    }

    /// Verbs that make cycles over the ring: `ring_cycle`, `weather_cycle` and `checked_cycle`, in the
    /// weathers that stand; and `reported CYCLES COUNT..`, so many that tell of themselves.
    pub fn cycle(
        &mut self,
        verb: &str,
        ring: Ring,
        words: &mut Words<'_>,
        answer: &mut Answer,
    ) -> (Ring, bool) {
        let mut ring = ring;
        match verb {
            "ring_cycle" => ring_cycle(&mut ring, &mut self.work),
            "weather_cycle" => {
                let weathers = self.take_weathers(words.alloc());
                let expected = all_expected(ring.slaves(), &self.work);
                let expected = &expected[..self.work.len()];
                let verdict = weather_cycle(
                    &mut ring,
                    weathers.as_slice(),
                    expected,
                    &mut self.work,
                );
                answer.name(verdict);
            }
            "checked_cycle" => {
                let weathers = self.take_weathers(words.alloc());
                match checked_cycle(&mut ring, weathers.as_slice(), &mut self.work) {
                    Ok(verdict) => answer.name(verdict),
                    Err(refusal) => put_refusal(answer, refusal),
                }
            }
            "reported" => return (self.report_cycles(ring, words, answer), true),
            _ => return (ring, false),
        }
        (ring, true)
    }

    /// Cycles that tell of themselves.
    fn report_cycles(&mut self, ring: Ring, words: &mut Words<'_>, answer: &mut Answer) -> Ring {
        let cycles = words.number(16);
        let expected = counts_of(words);
        if expected.len() != self.work.len() {
            words.refuse(Fault::OutOfRange);
        }
        let weathers = self.take_weathers(words.alloc());
        let (ring, report) = tell_cycles(
            ring,
            weathers.as_slice(),
            &mut self.work,
            expected.as_slice(),
            cycles,
            answer,
        );
        self.report = Some(report);
        ring
    }

    /// The weathers, which are then none.
    fn take_weathers(&mut self, alloc: Global) -> Vec<Weather> {
        replace(&mut self.weathers, Vec::new(alloc))
    }

    /// `cycle COUNT..`: one cycle over ports, whose items are expected to count so.
    pub fn run(&mut self, ways: &mut Ways, words: &mut Words<'_>, answer: &mut Answer) {
        let expected = counts_of(words);
        if expected.len() == self.work.len() {
            put_end(answer, run_cycle(ways, &mut self.work, expected.as_slice()));
        } else {
            words.refuse(Fault::OutOfRange);
        }
    }
}
