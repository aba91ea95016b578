//! The lines that are written of a judged capture.

use crate::answer::Answer;
use crate::candidates::Candidates;
use crate::door::Asked;
use crate::evidence::Evidence;
use crate::run::{Kind, Run};
use crate::sets::{MOST_SETS, sets_of};
use crate::share::Missing;
use crate::strangers::{MAX_GROUPS, Strangers};
use crate::sums::Sums;
use crate::table::{Entry, Key, Table, is_logical};
use crate::times::{At, Spread, Times};
use ec_wire::{Command, ado_of, adp_of};
use ecat_stamps::date_of;
use std::alloc::{AllocError, Global};
use std::fmt;

/// How much of what fits is told by name.
pub(crate) const NAMED: usize = 4;

/// What is guessed of a capture that has nothing that was sent.
const GUESS: &str = "guess: what was sent had the counters 0, since nothing of it was captured\n";

/// The classes of what may be missing, in the order in which they are told.
#[derive(Clone, Copy)]
pub(crate) enum Class {
    /// One slave.
    Slave,
    /// Neighbours.
    Neighbours,
    /// The inputs or the outputs alone of one slave.
    Half,
}

/// The lines that are gathered and not written yet, and how the ones to come are written.
#[derive(Drop)]
pub(crate) struct Page {
    /// Where names are gathered.
    pub alloc: Global,
    /// The names of the slaves, by their places.
    pub(crate) names: Vec<String>,
    /// The lines.
    pub text: String,
    /// Are they rows of columns?
    pub csv: bool,
    /// Are they objects of JSON?
    pub json: bool,
    /// How many lines of runs and losses are told.
    pub limit: u64,
    /// How many were told.
    pub told: u64,
    /// How many were not.
    pub not_told: u64,
    /// The time of the first frame, from which times are told.
    pub start: Option<u64>,
    /// Does the capture count finer than microseconds?
    pub fine: bool,
    /// Do the dates stand beside the times?
    pub dates: bool,
}

/// Nanoseconds as seconds.
#[derive(Clone, Copy)]
struct Seconds {
    nanoseconds: u64,
    fine: bool,
}

impl fmt::Display for Seconds {
    fn fmt<W: fmt::Write>(&self, f: &mut fmt::Formatter<W>) -> fmt::Result {
        let seconds = self.nanoseconds / 1_000_000_000;
        let behind = self.nanoseconds % 1_000_000_000;
        if self.fine {
            write!(f, "{seconds}.{behind:09}")
        } else {
            let microseconds = behind / 1000;
            write!(f, "{seconds}.{microseconds:06}")
        }
    }
}

/// A datagram by its command, address and length.
#[derive(Clone, Copy)]
struct KeyText(Key);

impl fmt::Display for KeyText {
    fn fmt<W: fmt::Write>(&self, f: &mut fmt::Formatter<W>) -> fmt::Result {
        let name = self.0.command.name();
        let address = self.0.address;
        let length = self.0.length;
        if is_logical(self.0.command) {
            write!(f, "{name} 0x{address:08x} {length} bytes")
        } else if self.0.command == Command::Brd {
            write!(f, "{name} 0x{address:04x} {length} bytes")
        } else {
            let adp = adp_of(address);
            let ado = ado_of(address);
            write!(f, "{name} 0x{adp:04x}:0x{ado:04x} {length} bytes")
        }
    }
}

impl Page {
    /// Nothing is written of what was asked for so.
    pub(crate) fn new(alloc: Global, asked: &Asked) -> Page {
        Page {
            alloc,
            names: Vec::new(alloc),
            text: String::new(alloc),
            csv: asked.csv,
            json: asked.json,
            limit: asked.limit,
            dates: asked.dates,
            told: 0,
            not_told: 0,
            start: None,
            fine: false,
        }
    }

    /// A page that tells the names of slaves, by their places.
    pub(crate) fn naming(self, names: Vec<String>) -> Page {
        Page { names, ..self }
    }

    /// Looks at the time of a packet.
    pub(crate) fn look(&mut self, time: Option<u64>) {
        match time {
            None => {}
            Some(time) => {
                if self.start.is_none() {
                    self.start = Some(time);
                }
                self.fine = self.fine || time % 1000 != 0;
            }
        }
    }

    /// The time from the first frame on.
    fn seconds(&self, time: Option<u64>) -> Option<Seconds> {
        let time = time?;
        let start = self.start?;
        Some(Seconds {
            nanoseconds: time.saturating_sub(start),
            fine: self.fine,
        })
    }

    /// How many digits stand behind the point of a second: as many as the capture counts.
    pub(crate) fn digits(&self) -> u8 {
        if self.fine { 9 } else { 6 }
    }

    /// Is one more line of a run or of losses told? If not, it is counted.
    fn may_tell(&mut self) -> bool {
        if self.told < self.limit {
            self.told = self.told.saturating_add(1);
            true
        } else {
            self.not_told = self.not_told.saturating_add(1);
            false
        }
    }

    /// Puts the head of the columns.
    pub(crate) fn put_head(&mut self) -> Result<(), AllocError> {
        if self.csv {
            self.text
                .push_str("first,last,from,to,times,counters,passed,verdict")?;
            self.text.push_str(if self.dates {
                ",from_utc,to_utc\n"
            } else {
                "\n"
            })?;
        }
        Ok(())
    }

    // ---- what runs and losses begin with

    /// Puts a time, or nothing.
    fn put_time(&mut self, time: Option<u64>) -> Result<(), AllocError> {
        match self.seconds(time) {
            None => Ok(()),
            Some(seconds) => write!(self.text, "{seconds}"),
        }
    }

    /// Puts a time behind some words, if it is known.
    fn put_time_behind(&mut self, words: &str, time: Option<u64>) -> Result<(), AllocError> {
        match self.seconds(time) {
            None => Ok(()),
            Some(seconds) => write!(self.text, "{words}{seconds}"),
        }
    }

    /// Puts a time as a date in UTC behind some words, where dates are told and it is known.
    fn put_date_behind(&mut self, words: &str, time: Option<u64>) -> Result<(), AllocError> {
        match time {
            Some(time) if self.dates => {
                let date = date_of(time, self.digits());
                self.text.push_str(words)?;
                self.text.push_str(date.as_str())
            }
            _ => Ok(()),
        }
    }

    /// Ends a row, or a line. A row has its dates behind it, where they are told.
    fn end_line(&mut self, first: At, last: At) -> Result<(), AllocError> {
        if self.csv && self.dates {
            self.text.push_str(",")?;
            self.put_date_behind("", first.time)?;
            self.text.push_str(",")?;
            self.put_date_behind("", last.time)?;
        }
        self.text.push_str("\n")
    }

    /// Puts the packets, their times and how many trips there were.
    fn put_packets(&mut self, first: At, last: At, times: u64) -> Result<(), AllocError> {
        let from = first.packet;
        let to = last.packet;
        if self.csv {
            write!(self.text, "{from},{to},")?;
            self.put_time(first.time)?;
            self.text.push_str(",")?;
            self.put_time(last.time)?;
            return write!(self.text, ",{times},");
        }
        write!(self.text, "packets {from} to {to}")?;
        self.put_times(first, last)?;
        write!(self.text, ", {times} times")
    }

    /// Puts the times of a first and a last packet, and their dates.
    fn put_times(&mut self, first: At, last: At) -> Result<(), AllocError> {
        self.put_time_behind(", ", first.time)?;
        self.put_time_behind(" to ", last.time)?;
        self.put_date_behind(", ", first.time)?;
        self.put_date_behind(" to ", last.time)
    }

    /// Puts one packet and its time.
    fn put_packet(&mut self, at: At) -> Result<(), AllocError> {
        let packet = at.packet;
        write!(self.text, "packet {packet}")?;
        self.put_time_behind(", ", at.time)?;
        self.put_date_behind(", ", at.time)
    }

    /// Puts the losses of trips that were sent one after the other.
    pub(crate) fn put_losses(&mut self, first: At, last: At, times: u64) -> Result<(), AllocError> {
        if !self.may_tell() {
            return Ok(());
        }
        if self.json {
            return self.json_losses(first, last, times);
        }
        if times == 1 && !self.csv {
            self.put_packet(first)?;
        } else {
            self.put_packets(first, last, times)?;
        }
        self.text
            .push_str(if self.csv { ",,lost" } else { ": lost" })?;
        self.end_line(first, last)
    }

    // ---- runs

    /// Puts a run of trips of which some were bad.
    pub(crate) fn put_run(
        &mut self,
        run: &Run,
        table: &Table,
        evidence: &Evidence,
    ) -> Result<(), AllocError> {
        if !self.may_tell() {
            return Ok(());
        }
        if self.json {
            return self.json_run(run, table, evidence);
        }
        self.put_packets(run.first, run.last, run.times)?;
        self.put_counters(run, table)?;
        self.put_passed(run, table.stations.len())?;
        self.text.push_str(if self.csv { ",\"" } else { ": " })?;
        match run.kind {
            Kind::Alone => self.text.push_str("one copy alone")?,
            Kind::More if table.is_known => {
                self.text.push_str("more than the slaves of the scene")?;
            }
            Kind::Missing if table.is_known => self.put_missing(table, evidence)?,
            Kind::More => self.text.push_str("more than usual")?,
            Kind::Missing => self.text.push_str("less than usual")?,
        }
        self.text.push_str(if self.csv { "\"" } else { "" })?;
        self.end_line(run.first, run.last)
    }

    /// Puts the counters of a run that are not those of the line; where none of several items counted at all,
    /// one word for all, but in columns.
    fn put_counters(&mut self, run: &Run, table: &Table) -> Result<(), AllocError> {
        if !self.csv && run.counted_none() {
            return self.text.push_str(", no item counted");
        }
        let mut some = false;
        for (item, entry) in table.entries.iter().enumerate() {
            if let Some(counter) = run.counter_of(item)
                && counter != entry.expected
            {
                let words = if !self.csv {
                    ", "
                } else if some {
                    "; "
                } else {
                    ""
                };
                let expected = entry.expected;
                write!(self.text, "{words}item {item} wkc {counter} of {expected}")?;
                some = true;
            }
        }
        Ok(())
    }

    /// Puts how many slaves the trips of a run passed, where an ADP tells.
    fn put_passed(&mut self, run: &Run, slaves: usize) -> Result<(), AllocError> {
        if self.csv {
            self.text.push_str(",")?;
        }
        match run.grown {
            None => Ok(()),
            Some(grown) => {
                let words = if self.csv { "" } else { ", passed " };
                write!(self.text, "{words}{grown} of {slaves}")
            }
        }
    }

    // ---- what was missing

    /// Puts what was missing: all that fits, by up to four names, or how much of each class.
    fn put_missing(&mut self, table: &Table, evidence: &Evidence) -> Result<(), AllocError> {
        let answer = evidence.answer(&table.candidates, table.stations.len());
        let total = answer.total();
        if total == 0 {
            return self.put_sets(evidence);
        }
        self.text.push_str("without ")?;
        if total <= NAMED {
            let names = evidence.all_names(self.alloc, &table.candidates)?;
            self.put_names(names.as_slice(), table)?;
        } else {
            self.put_classes(&answer, table, evidence)?;
        }
        if answer.more {
            self.text.push_str(", may be more")?;
        }
        Ok(())
    }

    /// Puts how much of each class fits.
    fn put_classes(
        &mut self,
        answer: &Answer,
        table: &Table,
        evidence: &Evidence,
    ) -> Result<(), AllocError> {
        let slaves = answer.slaves;
        let runs = answer.neighbours;
        let both = slaves.saturating_add(runs);
        self.put_class(Class::Slave, slaves, 0, table, evidence)?;
        self.put_class(Class::Neighbours, runs, slaves, table, evidence)?;
        self.put_class(Class::Half, answer.halves, both, table, evidence)
    }

    /// Puts how much of a class fits, by its name where that is one; behind how much of others?
    fn put_class(
        &mut self,
        class: Class,
        count: usize,
        others: usize,
        table: &Table,
        evidence: &Evidence,
    ) -> Result<(), AllocError> {
        if count == 0 {
            return Ok(());
        }
        self.text.push_str(if 0 < others { " or " } else { "" })?;
        if count == 1 {
            let names = evidence.names(self.alloc, candidates_of(class, &table.candidates))?;
            return self.put_names(names.as_slice(), table);
        }
        match class {
            Class::Slave => write!(self.text, "one of {count} slaves"),
            Class::Neighbours => write!(self.text, "one of {count} sets of slaves"),
            Class::Half => write!(self.text, "inputs or outputs of one of {count} slaves"),
        }
    }

    /// Puts how many sets of slaves fit.
    fn put_sets(&mut self, evidence: &Evidence) -> Result<(), AllocError> {
        match sets_of(evidence) {
            0 => self.text.push_str("no set of slaves explains it"),
            1 => self.text.push_str("without one set of slaves"),
            count => {
                if count < MOST_SETS {
                    write!(self.text, "without one of {count} sets of slaves")
                } else {
                    let most = MOST_SETS - 1;
                    write!(self.text, "without one of more than {most} sets of slaves")
                }
            }
        }
    }

    /// Puts each of these.
    fn put_names(&mut self, names: &[Missing], table: &Table) -> Result<(), AllocError> {
        let mut words = "";
        for missing in names {
            self.text.push_str(words)?;
            self.put_one(*missing, table)?;
            words = " or ";
        }
        Ok(())
    }

    /// Puts what may be missing.
    fn put_one(&mut self, missing: Missing, table: &Table) -> Result<(), AllocError> {
        match missing {
            Missing::Inputs(slave) => {
                self.text.push_str("inputs of ")?;
                self.put_slave(slave, table)
            }
            Missing::Outputs(slave) => {
                self.text.push_str("outputs of ")?;
                self.put_slave(slave, table)
            }
            Missing::Two(one, other) => {
                write!(self.text, "slaves {one}, {other} (")?;
                self.put_stations(one, ", ", other, table)
            }
            Missing::Slaves(from, to) => {
                let last = to.saturating_sub(1);
                if from == last {
                    return self.put_slave(from, table);
                }
                let parted = if to.saturating_sub(from) == 2 {
                    ", "
                } else {
                    " to "
                };
                write!(self.text, "slaves {from}..{last} (")?;
                self.put_stations(from, parted, last, table)
            }
        }
    }

    /// Puts a slave by its place, its name, if it has one, and its station.
    fn put_slave(&mut self, slave: usize, table: &Table) -> Result<(), AllocError> {
        write!(self.text, "slave {slave}")?;
        self.put_name(slave)?;
        let station = station_of(table, slave);
        write!(self.text, " (0x{station:04x})")
    }

    /// Puts two slaves by their stations and their names, with this between them, and the end of a bracket.
    fn put_stations(
        &mut self,
        one: usize,
        parted: &str,
        other: usize,
        table: &Table,
    ) -> Result<(), AllocError> {
        let station = station_of(table, one);
        write!(self.text, "0x{station:04x}")?;
        self.put_name(one)?;
        let station = station_of(table, other);
        write!(self.text, "{parted}0x{station:04x}")?;
        self.put_name(other)?;
        self.text.push_str(")")
    }

    /// Puts the name of a slave behind a space, if it has one. In a row each `"` of it is doubled, as columns
    /// in quotes have it (RFC 4180).
    fn put_name(&mut self, slave: usize) -> Result<(), AllocError> {
        let name = name_in(self.names.as_slice(), slave);
        if !name.is_empty() {
            self.text.push_str(" ")?;
        }
        for letter in name.chars() {
            if self.csv && letter == '"' {
                self.text.push('"')?;
            }
            self.text.push(letter)?;
        }
        Ok(())
    }

    // ---- sums

    /// Puts the sums of an item.
    pub(crate) fn put_sums(
        &mut self,
        item: usize,
        entry: &Entry,
        sums: &Sums,
        times: &Times,
    ) -> Result<(), AllocError> {
        if self.json {
            return self.json_sums(item, entry, sums, times);
        }
        let key = KeyText(entry.key);
        write!(self.text, "item {item} {key}:")?;
        self.put_counts(sums)?;
        self.text.push_str("\n")?;
        self.put_range(times)?;
        if 0 < times.every.count {
            self.put_spread("  every ", &times.every)?;
            let jitter = Seconds {
                nanoseconds: times.every.greatest.saturating_sub(times.every.least),
                fine: self.fine,
            };
            write!(self.text, ", jitter {jitter}")?;
            self.text.push_str("\n")?;
        }
        if 0 < times.back.count {
            self.put_spread("  back in ", &times.back)?;
            self.text.push_str("\n")?;
        }
        Ok(())
    }

    /// Puts how often an item was sent, and what became of it.
    fn put_counts(&mut self, sums: &Sums) -> Result<(), AllocError> {
        let sent = sums.sent;
        let good = sums.good;
        let short = sums.short;
        let over = sums.over;
        let lost = sums.lost;
        write!(
            self.text,
            " sent {sent} good {good} short {short} over {over} lost {lost}"
        )?;
        if 0 < sums.on_the_way {
            let on_the_way = sums.on_the_way;
            write!(self.text, " on the way {on_the_way}")?;
        }
        if 0 < sums.unpaired {
            let unpaired = sums.unpaired;
            write!(self.text, " unpaired {unpaired}")?;
        }
        Ok(())
    }

    /// Puts the first and the last packet of an item.
    fn put_range(&mut self, times: &Times) -> Result<(), AllocError> {
        let Some(first) = times.first else {
            return Ok(());
        };
        let Some(last) = times.last else {
            return Ok(());
        };
        let from = first.packet;
        let to = last.packet;
        write!(self.text, "  packets {from} to {to}")?;
        self.put_times(first, last)?;
        self.text.push_str("\n")
    }

    /// Puts the least, the mean and the greatest of some times.
    fn put_spread(&mut self, words: &str, spread: &Spread) -> Result<(), AllocError> {
        let fine = self.fine;
        let least = Seconds {
            nanoseconds: spread.least,
            fine,
        };
        let mean = Seconds {
            nanoseconds: spread.mean(),
            fine,
        };
        let greatest = Seconds {
            nanoseconds: spread.greatest,
            fine,
        };
        write!(self.text, "{words}{least} {mean} {greatest} s")
    }

    /// Puts what was guessed, where nothing was captured that was sent.
    pub(crate) fn put_guess(&mut self, is_guessed: bool) -> Result<(), AllocError> {
        if self.json {
            return self.json_guess(is_guessed);
        }
        if is_guessed {
            self.text.push_str(GUESS)?;
        }
        Ok(())
    }

    /// Puts what no item of the scene asks for; where there is none, no item of the cycle.
    pub(crate) fn put_strangers(
        &mut self,
        strangers: &Strangers,
        is_known: bool,
    ) -> Result<(), AllocError> {
        if self.json {
            return self.json_strangers(strangers, is_known);
        }
        let whose = if is_known { "scene" } else { "cycle" };
        let groups = strangers.groups();
        let datagrams = strangers.datagrams;
        if datagrams == 0 {
            Ok(())
        } else if strangers.more {
            write!(
                self.text,
                "not in the {whose}: more than {MAX_GROUPS} groups, {datagrams} datagrams\n"
            )
        } else {
            write!(
                self.text,
                "not in the {whose}: {groups} groups, {datagrams} datagrams\n"
            )
        }
    }

    /// Puts how many lines were not told.
    pub(crate) fn put_rest(&mut self) -> Result<(), AllocError> {
        if self.json {
            return self.json_rest();
        }
        let not_told = self.not_told;
        if not_told == 0 {
            Ok(())
        } else if self.csv {
            let dates = if self.dates { ",," } else { "" };
            write!(self.text, ",,,,{not_told},,,not told{dates}\n")
        } else {
            write!(self.text, "not told: {not_told} lines\n")
        }
    }
}

/// The candidates of a class.
pub(crate) fn candidates_of(class: Class, candidates: &Candidates) -> &[Missing] {
    match class {
        Class::Slave => candidates.slaves.as_slice(),
        Class::Neighbours => candidates.neighbours.as_slice(),
        Class::Half => candidates.halves.as_slice(),
    }
}

/// The station address of a slave; of none that is not there.
pub(crate) fn station_of(table: &Table, slave: usize) -> u16 {
    match table.stations.get(slave) {
        Some(station) => *station,
        None => 0,
    }
}

/// The name of the slave at a place; an empty one where it has none.
pub(crate) fn name_in(names: &[String], slave: usize) -> &str {
    match names.get(slave) {
        Some(name) => name.as_str(),
        None => "",
    }
}
