//! What is told of a judged capture as objects of JSON, one a line.

use crate::answer::Answer;
use crate::evidence::Evidence;
use crate::page::{Class, NAMED, Page, candidates_of, name_in, station_of};
use crate::run::{Kind, Run};
use crate::sets::{MOST_SETS, sets_of};
use crate::share::Missing;
use crate::strangers::Strangers;
use crate::sums::Sums;
use crate::table::{Entry, Key, Table, is_logical};
use crate::times::{At, Spread, Times};
use ec_wire::{Command, ado_of, adp_of};
use ecat_json::Object;
use ecat_stamps::date_of;
use std::alloc::AllocError;
use std::{io, str};

/// The names of the least, the mean and the greatest of some times.
type Names = (&'static str, &'static str, &'static str);

/// Of the times from one that was sent to the next.
const EVERY: Names = (
    "every_least_nanoseconds",
    "every_mean_nanoseconds",
    "every_greatest_nanoseconds",
);

/// Of the times until one came back.
const BACK: Names = (
    "back_least_nanoseconds",
    "back_mean_nanoseconds",
    "back_greatest_nanoseconds",
);

/// Adds how often an item was sent, and what became of it.
fn with_sums(object: Object, sums: &Sums) -> io::Result<Object> {
    let object = object.number("sent", sums.sent)?.number("good", sums.good)?;
    let object = object
        .number("short", sums.short)?
        .number("over", sums.over)?;
    let object = object.number("lost", sums.lost)?;
    object
        .number("on_the_way", sums.on_the_way)?
        .number("unpaired", sums.unpaired)
}

/// Adds the least, the mean and the greatest of some times, or null where there are none.
fn with_spread(object: Object, names: Names, spread: &Spread) -> io::Result<Object> {
    let (least, mean, greatest) = names;
    if spread.count == 0 {
        return object.nothing(least)?.nothing(mean)?.nothing(greatest);
    }
    let object = object
        .number(least, spread.least)?
        .number(mean, spread.mean())?;
    object.number(greatest, spread.greatest)
}

/// Adds the address of an item: a logical one, or a register, with the station whose it is unless all have
/// it.
fn with_address(object: Object, key: Key) -> io::Result<Object> {
    if is_logical(key.command) {
        let object = object.number("logical_address", u64::from(key.address))?;
        return object.nothing("adp")?.nothing("ado");
    }
    let object = object.nothing("logical_address")?;
    match key.command {
        // The key of a broadcast has the register alone.
        Command::Brd | Command::Bwr | Command::Brw => {
            object.nothing("adp")?.number("ado", u64::from(key.address))
        }
        _ => {
            let object = object.number("adp", u64::from(adp_of(key.address)))?;
            object.number("ado", u64::from(ado_of(key.address)))
        }
    }
}

/// The packet of a place in the capture, if there is one.
fn packet_of(at: Option<At>) -> Option<u64> {
    match at {
        None => None,
        Some(at) => Some(at.packet),
    }
}

/// The greatest less the least of some times, if there are any.
fn jitter_of(spread: &Spread) -> Option<u64> {
    if spread.count == 0 {
        None
    } else {
        Some(spread.greatest.saturating_sub(spread.least))
    }
}

/// What is told of a run by its name.
fn verdict_of(kind: Kind, is_known: bool) -> &'static str {
    match kind {
        Kind::Alone => "one_copy_alone",
        Kind::More if is_known => "more_than_the_scene",
        Kind::More => "more_than_usual",
        Kind::Missing if is_known => "missing",
        Kind::Missing => "less_than_usual",
    }
}

/// Adds the counters of a run that are not those of the line: the items, what they counted, and what the line
/// gives.
fn with_counters(object: Object, run: &Run, table: &Table) -> io::Result<Object> {
    let mut items = object.list("items")?;
    for item in 0..table.entries.len() {
        if other_counter(run, table, item).is_some() {
            items = items.number(item as u64)?;
        }
    }
    let mut counters = items.end()?.list("counters")?;
    for item in 0..table.entries.len() {
        if let Some((counter, _)) = other_counter(run, table, item) {
            counters = counters.number(u64::from(counter))?;
        }
    }
    with_expected(counters.end()?, run, table)
}

/// Adds what the line gives to the counters of a run that are not so.
fn with_expected(object: Object, run: &Run, table: &Table) -> io::Result<Object> {
    let mut expected = object.list("expected_counters")?;
    for item in 0..table.entries.len() {
        if let Some((_, wanted)) = other_counter(run, table, item) {
            expected = expected.number(u64::from(wanted))?;
        }
    }
    expected.end()
}

/// The counter that an item has in a run, and the one that the line gives, where they are not the same.
fn other_counter(run: &Run, table: &Table, item: usize) -> Option<(u16, u16)> {
    let counter = run.counter_of(item)?;
    let wanted = table.entries.get(item)?.expected;
    if counter == wanted {
        None
    } else {
        Some((counter, wanted))
    }
}

/// Adds the slaves from a place on, in front of another, by their places, station addresses and names.
fn with_slaves(
    object: Object,
    from: usize,
    to: usize,
    table: &Table,
    names: &[String],
) -> io::Result<Object> {
    let mut slaves = object.list("slaves")?;
    for slave in from..to {
        slaves = slaves.number(slave as u64)?;
    }
    let mut stations = slaves.end()?.list("stations")?;
    for slave in from..to {
        stations = stations.number(u64::from(station_of(table, slave)))?;
    }
    with_names(stations.end()?, from, to, names)
}

/// Adds the names of the slaves from a place on, in front of another.
fn with_names(object: Object, from: usize, to: usize, names: &[String]) -> io::Result<Object> {
    let mut called = object.list("names")?;
    for slave in from..to {
        called = called.named(name_in(names, slave))?;
    }
    called.end()
}

/// Adds two slaves, by their places, station addresses and names.
fn with_two(
    object: Object,
    one: usize,
    other: usize,
    table: &Table,
    names: &[String],
) -> io::Result<Object> {
    let slaves = object
        .list("slaves")?
        .number(one as u64)?
        .number(other as u64)?;
    let stations = slaves.end()?.list("stations")?;
    let stations = stations.number(u64::from(station_of(table, one)))?;
    let stations = stations.number(u64::from(station_of(table, other)))?;
    let called = stations.end()?.list("names")?;
    called
        .named(name_in(names, one))?
        .named(name_in(names, other))?
        .end()
}

/// Adds what may be missing of slaves that have these names.
fn with_missing(
    object: Object,
    missing: Missing,
    table: &Table,
    names: &[String],
) -> io::Result<Object> {
    let what = match missing {
        Missing::Slaves(..) | Missing::Two(..) => "slaves",
        Missing::Inputs(_) => "inputs",
        Missing::Outputs(_) => "outputs",
    };
    let object = object.text("what", what)?;
    match missing {
        Missing::Slaves(from, to) => with_slaves(object, from, to, table, names),
        Missing::Two(one, other) => with_two(object, one, other, table, names),
        Missing::Inputs(slave) | Missing::Outputs(slave) => {
            with_slaves(object, slave, slave.saturating_add(1), table, names)
        }
    }
}

/// Adds how much of each class explains a run, whether more may be missing, and how many sets of slaves
/// explain it where nothing else does.
fn with_answer(object: Object, answer: &Answer, evidence: &Evidence) -> io::Result<Object> {
    let object = object.number("one_slave", answer.slaves as u64)?;
    let object = object.number("neighbours", answer.neighbours as u64)?;
    let object = object.number("inputs_or_outputs", answer.halves as u64)?;
    let object = object.truth("may_be_more", answer.more)?;
    if answer.total() != 0 {
        return object.nothing("sets")?.nothing("more_sets");
    }
    let sets = sets_of(evidence);
    let most = MOST_SETS.saturating_sub(1);
    object
        .number("sets", sets.min(most) as u64)?
        .truth("more_sets", most < sets)
}

/// Adds that nothing is said of what explains a run.
fn without_answer(object: Object) -> io::Result<Object> {
    let object = object.nothing("one_slave")?.nothing("neighbours")?;
    let object = object.nothing("inputs_or_outputs")?.nothing("may_be_more")?;
    object.nothing("sets")?.nothing("more_sets")
}

/// What was written, or that memory ran out, which is all that can be in the way.
fn made(written: io::Result<()>) -> Result<(), AllocError> {
    match written {
        Ok(()) => Ok(()),
        Err(_) => Err(AllocError),
    }
}

impl Page {
    /// Begins an object of this kind.
    fn object(&self, kind: &str) -> io::Result<Object> {
        Object::begin(Vec::new(self.alloc), kind)
    }

    /// Puts an object as a line.
    fn put(&mut self, object: Object) -> io::Result<()> {
        let line = object.end()?;
        if let Ok(text) = str::from_utf8(line.as_slice())
            && self.text.push_str(text).is_ok()
        {
            return Ok(());
        }
        Err(io::Error::from(io::ErrorKind::OutOfMemory))
    }

    /// The nanoseconds from the first frame on, where the capture tells them.
    fn since(&self, time: Option<u64>) -> Option<u64> {
        let time = time?;
        let start = self.start?;
        Some(time.saturating_sub(start))
    }

    /// When a packet was captured, if there is one and the capture tells it.
    fn since_of(&self, at: Option<At>) -> Option<u64> {
        match at {
            None => None,
            Some(at) => self.since(at.time),
        }
    }

    /// Adds the first and the last packet and their times.
    fn with_range(
        &self,
        object: Object,
        first: Option<At>,
        last: Option<At>,
    ) -> io::Result<Object> {
        let object = object.number_if("first_packet", packet_of(first))?;
        let object = object.number_if("last_packet", packet_of(last))?;
        let object = object.number_if("first_nanoseconds", self.since_of(first))?;
        let object = object.number_if("last_nanoseconds", self.since_of(last))?;
        if !self.dates {
            return Ok(object);
        }
        let object = self.with_date(object, "first_utc", first)?;
        self.with_date(object, "last_utc", last)
    }

    /// Adds when a packet was captured, as a date in UTC, where there is one and the capture tells it.
    fn with_date(&self, object: Object, name: &str, at: Option<At>) -> io::Result<Object> {
        match at {
            Some(
                At {
                    time: Some(time),
                    ..
                },
            ) => object.shown(name, date_of(time, self.digits())),
            _ => object.nothing(name),
        }
    }

    /// Puts the losses of trips that were sent one after the other.
    pub(crate) fn json_losses(
        &mut self,
        first: At,
        last: At,
        times: u64,
    ) -> Result<(), AllocError> {
        made(self.write_losses(first, last, times))
    }

    fn write_losses(&mut self, first: At, last: At, times: u64) -> io::Result<()> {
        let object = self.with_range(self.object("lost")?, Some(first), Some(last))?;
        self.put(object.number("times", times)?)
    }

    /// Puts a run of trips of which some were bad, and behind it what explains it by name.
    pub(crate) fn json_run(
        &mut self,
        run: &Run,
        table: &Table,
        evidence: &Evidence,
    ) -> Result<(), AllocError> {
        made(self.write_run(run, table, evidence))
    }

    fn write_run(&mut self, run: &Run, table: &Table, evidence: &Evidence) -> io::Result<()> {
        let object = self.with_range(self.object("run")?, Some(run.first), Some(run.last))?;
        let object = object.number("times", run.times)?;
        let object = object.text("verdict", verdict_of(run.kind, table.is_known))?;
        let object = with_counters(object, run, table)?;
        let object = object.truth("none_counted", run.counted_none())?;
        let passed = match run.grown {
            None => None,
            Some(grown) => Some(u64::from(grown)),
        };
        let object = object.number_if("passed", passed)?;
        let object = object.number("slaves", table.stations.len() as u64)?;
        if run.kind != Kind::Missing || !table.is_known {
            return self.put(without_answer(object)?);
        }
        let answer = evidence.answer(&table.candidates, table.stations.len());
        self.put(with_answer(object, &answer, evidence)?)?;
        self.write_named(&answer, table, evidence)
    }

    /// Puts what explains a run by name: all of it, or the classes that have one name alone.
    fn write_named(
        &mut self,
        answer: &Answer,
        table: &Table,
        evidence: &Evidence,
    ) -> io::Result<()> {
        let is_all = answer.total() <= NAMED;
        if is_all || answer.slaves == 1 {
            self.write_class(Class::Slave, table, evidence)?;
        }
        if is_all || answer.neighbours == 1 {
            self.write_class(Class::Neighbours, table, evidence)?;
        }
        if is_all || answer.halves == 1 {
            self.write_class(Class::Half, table, evidence)?;
        }
        Ok(())
    }

    /// Puts each of a class that explains a run.
    fn write_class(&mut self, class: Class, table: &Table, evidence: &Evidence) -> io::Result<()> {
        let candidates = candidates_of(class, &table.candidates);
        let Ok(told) = evidence.names(self.alloc, candidates) else {
            return Err(io::Error::from(io::ErrorKind::OutOfMemory));
        };
        for missing in told.as_slice() {
            let object = self.object("missing")?;
            let object = with_missing(object, *missing, table, self.names.as_slice())?;
            self.put(object)?;
        }
        Ok(())
    }

    /// Puts the sums of an item.
    pub(crate) fn json_sums(
        &mut self,
        item: usize,
        entry: &Entry,
        sums: &Sums,
        times: &Times,
    ) -> Result<(), AllocError> {
        made(self.write_sums(item, entry, sums, times))
    }

    fn write_sums(
        &mut self,
        item: usize,
        entry: &Entry,
        sums: &Sums,
        times: &Times,
    ) -> io::Result<()> {
        let object = self.object("item")?.number("item", item as u64)?;
        let object = object.text("command", entry.key.command.name())?;
        let object = with_address(object, entry.key)?;
        let object = object.number("length", entry.key.length as u64)?;
        let object = object.number("expected_counter", u64::from(entry.expected))?;
        let object = with_sums(object, sums)?;
        let object = self.with_range(object, times.first, times.last)?;
        let object = with_spread(object, EVERY, &times.every)?;
        let object = object.number_if("jitter_nanoseconds", jitter_of(&times.every))?;
        self.put(with_spread(object, BACK, &times.back)?)
    }

    /// Puts what was guessed, where nothing was captured that was sent.
    pub(crate) fn json_guess(&mut self, is_guessed: bool) -> Result<(), AllocError> {
        if is_guessed {
            made(self.write_guess())
        } else {
            Ok(())
        }
    }

    fn write_guess(&mut self) -> io::Result<()> {
        let object = self.object("guess")?.text("what", "counters_sent_as_zero")?;
        self.put(object)
    }

    /// Puts what no item of the scene asks for; where there is none, no item of the cycle.
    pub(crate) fn json_strangers(
        &mut self,
        strangers: &Strangers,
        is_known: bool,
    ) -> Result<(), AllocError> {
        if strangers.datagrams == 0 {
            return Ok(());
        }
        made(self.write_strangers(strangers, is_known))
    }

    fn write_strangers(&mut self, strangers: &Strangers, is_known: bool) -> io::Result<()> {
        let object = self.object("not_asked_for")?;
        let object = object.text("not_in", if is_known { "scene" } else { "cycle" })?;
        let object = object.number("groups", strangers.groups() as u64)?;
        let object = object.truth("more_groups", strangers.more)?;
        self.put(object.number("datagrams", strangers.datagrams)?)
    }

    /// Puts how many runs and losses were not told.
    pub(crate) fn json_rest(&mut self) -> Result<(), AllocError> {
        if self.not_told == 0 {
            return Ok(());
        }
        made(self.write_rest())
    }

    fn write_rest(&mut self) -> io::Result<()> {
        let object = self.object("not_told")?.number("lines", self.not_told)?;
        self.put(object)
    }
}
